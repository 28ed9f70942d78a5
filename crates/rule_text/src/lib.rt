//! Match rules as texts. The layers above use that `rule_text` writes a rule's conditions in the order of their keys, each
//! value in apostrophes.
#![tactic(auto)]

mod key_text;
mod quoting;
#[cfg(test)]
mod tests;
mod writing;

pub use writing::rule_text;
