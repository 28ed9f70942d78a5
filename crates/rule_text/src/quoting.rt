// Values between apostrophes.

ghost use Rattle.std.specs.Prelude.{◌≡◌, ◌<◌, ◌++◌, IfOk, MatchOption, codes, length, string_bytes};
ghost use Rattle.rule_text.specs.Quoting.{escaped_text, quoted_text};

use std::alloc::AllocError;

/// What comes before the first apostrophe of a value, and what comes after it.
fn at_apostrophe(value: &str) -> Option<(&str, &str)>
    ensures { MatchOption result (escaped_text value.now ≡ value.now) (λ parts. (escaped_text value.now ≡ parts.0.now ++ (codes "'\\''" ++ escaped_text parts.1.now)) × (length parts.1.now < length value.now)) }
{
    value.split_once('\'')
}

/// Adds a value in which each apostrophe is escaped_text.
fn push_escaped(text: &mut String, value: &str) -> Result<(), AllocError>
    ensures { IfOk result (λ _. string_bytes text.new ≡ string_bytes text.old ++ escaped_text value.now) }
{
    let mut rest = value;
    'pieces: while let Some((piece, after)) = at_apostrophe(rest) {
        text.push_str(piece)?;
        text.push_str("'\\''")?;
        rest = after;
    }
    text.push_str(rest)
}

/// Adds a value between apostrophes.
pub(crate) fn push_quoted(text: &mut String, value: &str) -> Result<(), AllocError>
    ensures { IfOk result (λ _. string_bytes text.new ≡ string_bytes text.old ++ quoted_text value.now) }
{
    text.push_str("'")?;
    push_escaped(text, value)?;
    text.push_str("'")
}
