// Unique connection names.

ghost use Rattle.std.specs.Prelude.{◌≡◌, ◌≢◌, ◌++◌, ◌<◌, ◌^◌, ℕ, List, Some, codes, decimal, MatchOption, true};
ghost use Rattle.unique_name.specs.UniqueNames.{unique_name};
ghost use Rattle.signature.specs.Name.{is_bus_name};

use arrayvec::ArrayString;
use itoa::Buffer;
use std::marker::Model;

/// What each unique name begins with.
const PREFIX: &str = ":1.";

/// The longest unique name in bytes: its prefix and 20 digits.
const MAX_LEN: usize = 23;

/// The unique name `:1.N` of connection N. It holds its text in itself and takes no memory.
#[derive(Drop)]
pub struct UniqueName {
    text: ArrayString<MAX_LEN>,
    number: u64,
}

impl Model for UniqueName {
    ghost use Rattle.std.specs.Prelude.{◌≡◌, ℕ};
    ghost use Rattle.unique_name.specs.UniqueNames.{unique_name};

    ghost Value = { ℕ };

    ghost view = { λ name. name.number };

    ghost invariant = { λ name. name.text.bytes ≡ unique_name name.number };
}

/// What comes after the prefix of a text.
fn digits_of(text: &str) -> Option<&str>
    ensures { MatchOption result ((digits : List ℕ) → text.now ≢ codes ":1." ++ digits) (λ digits. text.now ≡ codes ":1." ++ digits.now) }
{
    text.strip_prefix(PREFIX)
}

/// The number that some digits write, if it has at most 64 bits.
fn number_in(digits: &str) -> Option<u64>
    ensures { (n : ℕ) → n < 2 ^ 64 → digits.now ≡ decimal n → result ≡ Some n }
{
    match u64::from_str_radix(digits, 10) {
        Ok(number) => Some(number),
        Err(_) => None,
    }
}

impl UniqueName {
    /// The name of a connection.
    pub fn new(number: u64) -> UniqueName
        ensures { result ≡ number }
    {
        let mut buffer = Buffer::new();
        let mut text = ArrayString::new();
        text.push_str(PREFIX);
        text.push_str(buffer.format(number));
        UniqueName { text, number }
    }

    pub fn as_str(&self) -> &str
        ensures text { result.now ≡ unique_name self.now }
        ensures valid { is_bus_name result.now ≡ true }
    {
        let _number = self.number;
        self.text.as_str()
    }

    /// The number of the connection that has this name, or None where the text is no unique name that this bus gives.
    pub fn number_of(text: &str) -> Option<u64>
        ensures { MatchOption result ((n : ℕ) → n < 2 ^ 64 → text.now ≢ unique_name n) (λ n. text.now ≡ unique_name n) }
    {
        let digits = digits_of(text)?;
        let number = number_in(digits)?;
        let name = UniqueName::new(number);
        if name.as_str() == text {
            Some(number)
        } else {
            None
        }
    }
}
