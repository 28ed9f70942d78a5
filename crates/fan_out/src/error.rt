ghost use Rattle.std.specs.Prelude.{◌≡◌};
ghost use Rattle.fan_out.specs.Errors.{fan_error_number, fan_error_name};

use std::error::Error;
use std::fmt;

/// Why workers gave no recipients.
#[derive(Clone, Copy, Debug, PartialEq, Eq)]
pub enum FanError {
    /// No worker was asked for, or more than 16.
    Workers,
    /// A worker couldn't be started.
    NotStarted,
}

impl FanError {
    /// The error's number, from 1.
    pub fn number(self) -> u8
        ensures { result ≡ fan_error_number self }
    {
        match self {
            FanError::Workers => 1,
            FanError::NotStarted => 2,
        }
    }

    /// The error's name, which is also what `{}` prints.
    pub fn name(self) -> &'static str
        ensures { result.now ≡ fan_error_name self }
    {
        match self {
            FanError::Workers => "Workers",
            FanError::NotStarted => "NotStarted",
        }
    }
}

impl fmt::Display for FanError {
    ghost use Rattle.std.specs.Prelude.{Some};

    ghost output = { λ error. Some (fan_error_name error) };

    fn fmt<W: fmt::Write>(&self, f: &mut fmt::Formatter<W>) -> fmt::Result {
        let name = self.name();
        f.write_str(name)
    }
}

impl Error for FanError {}
