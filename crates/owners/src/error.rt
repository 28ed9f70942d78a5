// Why a name or a claim is refused.

ghost use Rattle.std.specs.Prelude.{◌≡◌};
ghost use Rattle.owners.specs.Numbers.{claim_error_number, claim_error_name};

use std::error::Error;
use std::fmt;

/// Why a text is no name that can be claimed, or a claim isn't made.
#[derive(Clone, Copy, Debug, PartialEq, Eq)]
pub enum ClaimError {
    /// The name has no slot, and all 1,024 are used.
    NamesFull,
    /// There would be more than 4,096 claims.
    QueueFull,
    /// The text isn't a well-known bus name.
    BadName,
    /// The name is `org.freedesktop.DBus`, which the bus itself owns.
    Reserved,
}

impl ClaimError {
    /// The error's number, from 1.
    pub fn number(self) -> u8
        ensures { result ≡ claim_error_number self }
    {
        match self {
            ClaimError::NamesFull => 1,
            ClaimError::QueueFull => 2,
            ClaimError::BadName => 3,
            ClaimError::Reserved => 4,
        }
    }

    /// The error's name, which is also what `{}` prints.
    pub fn name(self) -> &'static str
        ensures { result.now ≡ claim_error_name self }
    {
        match self {
            ClaimError::NamesFull => "NamesFull",
            ClaimError::QueueFull => "QueueFull",
            ClaimError::BadName => "BadName",
            ClaimError::Reserved => "Reserved",
        }
    }
}

impl fmt::Display for ClaimError {
    ghost use Rattle.std.specs.Prelude.{Some};

    ghost output = { λ error. Some (claim_error_name error) };

    fn fmt<W: fmt::Write>(&self, f: &mut fmt::Formatter<W>) -> fmt::Result {
        let name = self.name();
        write!(f, "{name}")
    }
}

impl Error for ClaimError {}
