//! What goes over a bus, counted: calls and their answers, paired by what the messages say, how long methods take, and who
//! sends what. The layer above uses that an answer takes exactly the open call whose caller and serial it names, if its sender
//! may answer it, and that a call and a message count in the row of their name and in no other.
#![tactic(auto)]

mod call_log;
mod columns;
mod method_table;
mod methods;
mod role;
mod sender_table;
mod times;

pub use call_log::{CallId, CallLog, MAX_OPEN_CALLS, OpenCall};
pub use columns::time_text;
pub use method_table::MethodTable;
pub use methods::{MethodCounts, Outcome};
pub use role::{Exchange, Role};
pub use sender_table::{Messages, SenderTable};
pub use times::{Class, Times};
