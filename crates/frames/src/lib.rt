//! A stream of bytes cut into messages. The layers above use that the messages of `Frames::next` are those that the
//! stream begins with, however it is cut, and that a fault comes only after them.
#![tactic(auto)]

mod error;
mod frame;
mod laws;
mod stream;

pub use error::FrameError;
pub use laws::{faults_stay, given_come_first, one_framing};
pub use stream::Frames;
