//! The server's side of a D-Bus authentication talk. The layers above use that the answers of `Auth::feed` are those of
//! `talk`, however the client's bytes are cut, and that messages begin exactly after BEGIN.
#![tactic(auto)]

mod admission;
mod challenge;
mod command;
mod line;
mod server;
mod stage;
mod terms;

pub use admission::{Admission, External};
pub use challenge::{CONTEXT, CookieChallenge};
pub use server::{Auth, AuthError, Fed, in_two_cuts};
pub use stage::Stage;
