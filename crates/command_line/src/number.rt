// Numbers among the words after a command.

ghost use Rattle.std.specs.Prelude.{◌≡◌};
ghost use Rattle.std.specs.List.{list_all};
ghost use Rattle.std.specs.Char.{is_ascii_digit};
ghost use Rattle.command_line.specs.Numbers.{number_in, number_of};

fn is_digits(word: &str) -> bool
    ensures { result ≡ list_all is_ascii_digit word.now }
{
    word.as_bytes().iter().all(|byte| byte.is_ascii_digit())
}

/// The number that a word is.
fn number_in(word: &str) -> Option<u64>
    ensures { result ≡ number_in word.now }
{
    // `parse` would take a plus sign before the digits.
    if !is_digits(word) {
        return None;
    }
    word.parse::<u64>().ok()
}

/// The number above 0 that a word is.
pub(crate) fn number_of(word: &str) -> Option<u64>
    ensures { result ≡ number_of word.now }
{
    match number_in(word) {
        Some(0) | None => None,
        Some(number) => Some(number),
    }
}
