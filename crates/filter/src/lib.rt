//! Filter expressions: what a message has to be, in the manner of tcpdump. The layers above use what `Filter::read` ensures,
//! that an expression is read exactly as the grammar spells it, and else the first fault is named with its place.
#![tactic(auto)]

mod arg_word;
mod error;
mod escaping;
mod filter;
mod has;
mod integer;
mod laws;
mod level;
mod lexis;
mod nesting;
mod opening;
mod operator;
mod printing;
mod quoted;
mod reader;
mod reading;
mod takes;
mod test;
mod test_text;
mod text;
mod token;
mod value;
mod weight;
mod words;

pub use error::{Fault, FaultAt, FilterError};
pub use filter::Filter;
pub use integer::Integer;
pub use laws::{one_reading, text_reads_back};
pub use match_key::{ArgNumber, KindName};
pub use test::{
    ArgType, Equality, Field, Flag, NumberRelation, NumberSource, Scope, Test, TextField,
    TextRelation, TextSource, TextType,
};
pub use text::Text;
