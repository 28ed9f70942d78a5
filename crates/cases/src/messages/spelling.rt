// How a message is written in a case.

use case_files::LineError;
use std::alloc::Global;

const WORD_LEN: usize = 4;

/// The hexadecimal digits of a message, with a blank after each four bytes but the last.
pub(crate) fn words_of(alloc: Global, bytes: &[u8]) -> Result<String, LineError> {
    let mut words = String::new(alloc);
    push_words(alloc, &mut words, bytes)?;
    Ok(words)
}

fn push_words(alloc: Global, words: &mut String, bytes: &[u8]) -> Result<(), LineError> {
    for word in bytes.chunks(WORD_LEN) {
        if !words.is_empty() {
            words.push(' ')?;
        }
        words.push_str(hex::encode(alloc, word)?.as_str())?;
    }
    Ok(())
}
