// The bytes of filter expressions.

ghost use Rattle.std.specs.Prelude.{◌≡◌, ◌≤◌, length};
ghost use Rattle.std.specs.List.{prefix_len};
ghost use Rattle.filter.specs.Lexis.{is_blank, is_word_byte, is_quote, is_escaped};

/// Whether a byte is a space, a tab, CR or LF.
pub(crate) fn is_blank(byte: u8) -> bool
    ensures { result ≡ is_blank byte }
{
    matches!(byte, b' ' | b'\t' | b'\r' | b'\n')
}

/// Whether a byte goes on a word: a letter, a digit, or one of `_ . / : -`.
pub(crate) fn is_word_byte(byte: u8) -> bool
    ensures { result ≡ is_word_byte byte }
{
    byte.is_ascii_lowercase()
        || byte.is_ascii_uppercase()
        || byte == b'_'
        || byte.is_ascii_digit()
        || byte == b'.'
        || byte == b'/'
        || byte == b':'
        || byte == b'-'
}

/// Whether a byte begins a text in quotes.
pub(crate) fn is_quote(byte: u8) -> bool
    ensures { result ≡ is_quote byte }
{
    byte == b'\'' || byte == b'"'
}

/// Whether a backslash in quotes may stand before a byte.
pub(crate) fn is_escaped(byte: u8) -> bool
    ensures { result ≡ is_escaped byte }
{
    byte == b'\\' || is_quote(byte)
}

/// How many bytes of a word bytes begin with.
pub(crate) fn word_len(bytes: &[u8]) -> usize
    ensures value { result ≡ prefix_len is_word_byte bytes.now }
    ensures within { result ≤ length bytes.now }
{
    for (len, byte) in bytes.iter().enumerate() {
        if !is_word_byte(*byte) {
            return len;
        }
    }
    bytes.len()
}
