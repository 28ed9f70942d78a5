// Words of a filter expression, as they are shown to people.

/// The word that begins at a place, up to a byte that words don't have.
pub(crate) fn word_at(expression: &str, place: usize) -> &str {
    let Some((_, rest)) = expression.split_at_checked(place) else {
        return "";
    };
    let len = rest.bytes().take_while(|byte| is_word_byte(*byte)).count();
    match rest.split_at_checked(len) {
        Some((word, _)) => word,
        None => "",
    }
}

/// What stands before a place: a word, or else what comes after the last blank. Nothing, if that is of a quoted text, which
/// may have blanks itself.
pub(crate) fn word_before(expression: &str, place: usize) -> &str {
    let Some((before, _)) = expression.split_at_checked(place) else {
        return "";
    };
    let before = before.trim_end();
    let word = last_word(before);
    if !word.is_empty() {
        return word;
    }
    let piece = last_piece(before);
    if piece.contains('\'') || piece.contains('"') {
        ""
    } else {
        piece
    }
}

// The bytes of words at the end of a text.
fn last_word(text: &str) -> &str {
    let len = text
        .as_bytes()
        .iter()
        .rev()
        .take_while(|byte| is_word_byte(**byte))
        .count();
    match text.split_at_checked(text.len().saturating_sub(len)) {
        Some((_, word)) => word,
        None => "",
    }
}

fn last_piece(text: &str) -> &str {
    let mut last = "";
    for piece in text.split_whitespace() {
        last = piece;
    }
    last
}

fn is_word_byte(byte: u8) -> bool {
    byte.is_ascii_alphanumeric() || matches!(byte, b'_' | b'.' | b'/' | b':' | b'-')
}
