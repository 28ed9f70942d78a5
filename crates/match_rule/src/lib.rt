//! Match rules of D-Bus, read from their texts and tested on messages. The layers above use what
//! `Rule::read` ensures, that it is the grammar of rule texts, and what `Rule::holds` ensures, that it is
//! the sentence of each condition.
#![tactic(auto)]

mod arg0;
mod condition;
mod envelope;
mod fixed;
mod holding;
mod laws;
mod namespace;
mod part;
mod parts;
mod path_namespace;
mod quoting;
mod rule;
mod sender;
mod term;
mod text;
mod weight;
mod word;

pub use arg0::arg0_of;
pub use condition::Condition;
pub use envelope::envelope_fits_where_it_holds;
pub use fixed::FixedTexts;
pub use laws::{equal_as_sets, found_where_it_holds, one_reading};
pub use match_key::{ArgNumber, Field, Key, KindName, Relation, RuleError, Source};
pub use path_namespace::{NamespaceEnd, has_path_in, not_elsewhere_where_it_holds};
pub use rule::Rule;
pub use sender::is_owned_name;
pub use text::Text;
