// Blanks and the words of keys.

ghost use Rattle.std.specs.Prelude.{◌≡◌, option_map};
ghost use Rattle.match_rule.specs.Bytes.{begins_with};
ghost use Rattle.match_rule.specs.Grammar.{is_blank, apostrophe};
ghost use Rattle.match_rule.specs.Reading.{after_blanks, word_at};

fn is_blank(byte: u8) -> bool
    ensures { result ≡ is_blank byte }
{
    matches!(byte, b' ' | b'\t' | b'\r' | b'\n')
}

/// Whether an apostrophe comes first.
pub(crate) fn begins_with_apostrophe(bytes: &[u8]) -> bool
    ensures { result ≡ begins_with apostrophe bytes.now }
{
    bytes.first() == Some(&b'\'')
}

/// The bytes without the blanks in front.
pub(crate) fn after_blanks(bytes: &[u8]) -> &[u8]
    ensures { result.now ≡ after_blanks bytes.now }
{
    for (i, byte) in bytes.iter().enumerate() {
        if !is_blank(*byte) {
            return &bytes[i..];
        }
    }
    &[]
}

/// The bytes up to the first `=`, and those after it, where no comma stands before it.
pub(crate) fn word_at(bytes: &[u8]) -> Option<(&[u8], &[u8])>
    ensures { option_map (λ x. (x.0.now, x.1.now)) result ≡ word_at bytes.now }
{
    for (i, byte) in bytes.iter().enumerate() {
        match *byte {
            b'=' => return Some((&bytes[..i], &bytes[i + 1..])),
            b',' => return None,
            _ => {}
        }
    }
    None
}
