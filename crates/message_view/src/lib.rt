//! D-Bus messages, read where they lie. The layers above use what `View::read` ensures: it accepts
//! exactly the valid messages, and what it lends is the message's own.
#![tactic(auto)]

mod content;
mod extent;
mod field;
mod fields;
mod fixed;
mod frame;
mod kind;
mod texts;
mod valid_fields;
mod view;

pub use extent::{Extent, TextField};
pub use frame::frame_len;
pub use kind::Kind;
pub use message_value::{Arg, Args, MsgError, Order};
pub use texts::{texts_of_arguments, texts_of_fields};
pub use valid_fields::skip_field;
pub use view::{View, one_message};
