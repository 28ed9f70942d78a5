// The values of options.

ghost use Rattle.std.specs.Prelude.{◌≡◌, ◌<◌, IfSome};
ghost use Rattle.std.specs.Str.Parse.{digits_value};
ghost use Rattle.watch_command.specs.Options.{edition_of};

use summary::Edition;

/// A number above 0 in decimal digits.
pub(crate) fn number(word: &str) -> Option<u64>
    ensures { IfSome result (λ n. (n ≡ digits_value 10 word.now) × (0 < n)) }
{
    let first = *word.as_bytes().first()?;
    if !first.is_ascii_digit() {
        return None;
    }
    match word.parse::<u64>() {
        Ok(0) | Err(_) => None,
        Ok(number) => Some(number),
    }
}

/// The edition that a word says.
pub(crate) fn edition_of(word: &str) -> Option<Edition>
    ensures { result ≡ edition_of word.now }
{
    match word {
        "1" => Some(Edition::One),
        "2" => Some(Edition::Two),
        _ => None,
    }
}
