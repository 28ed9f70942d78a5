//! A user's keyring of cookies, by which programs of one user know each other (D-Bus Specification,
//! "DBUS_COOKIE_SHA1"). The layers above use that a line is read as what it spells; what stands in the files is shown by
//! tests.
#![tactic(auto)]

mod cookie;
mod error;
mod keyring;
mod lock;

pub use cookie::Cookie;
pub use error::KeyringError;
pub use keyring::Keyring;
