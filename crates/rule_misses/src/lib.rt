//! By how much a match rule misses a message. The layers above use that `miss_count` is the number of the reasons why the rule
//! doesn't hold, which `rule_reasons` writes as lines.
#![tactic(auto)]

mod counting;

pub use counting::miss_count;
