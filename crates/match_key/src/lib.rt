//! The keys of D-Bus match rules: what a part of a rule's text asks about, the words that name it, and why a text is no
//! rule. The layer above uses that `Key::of_word` is the table of words, and that no rule may have two keys that
//! `Key::is_twice` or `Key::is_path_twice` tells.
#![tactic(auto)]

mod arg_key;
mod arg_number;
mod error;
mod key;
mod kind_name;
mod laws;
mod relation;
mod source;

pub use arg_number::ArgNumber;
pub use error::RuleError;
pub use key::Key;
pub use kind_name::KindName;
pub use laws::equality_of_keys;
pub use relation::Relation;
pub use source::{Field, Source};
