//! Who gets a broadcast: the connections with an entry that matches it. The layers above use that the answers of
//! `select` and `select_piece` are exactly the recipients of the state, by rising number, whatever entries were asked
//! and in whichever order.
#![tactic(auto)]

mod cost;
mod error;
mod gate;
mod many;
mod marks;
mod piece;
mod programs;
mod reach;
mod recipients;
mod selection;
mod workers;

pub use cost::Cost;
pub use error::FanError;
pub use gate::Gate;
pub use many::{MAX_WORKERS, select_many};
pub use marks::{MAX_RECIPIENTS, Marks};
pub use reach::may_reach;
pub use selection::{Counted, select, select_counted, select_into, select_piece};
