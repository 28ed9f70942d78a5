// How much of the bus a client may have, and all together.

use case_files::LineError;
use sessions::{Capacity, Shares};

/// `2 100 1 9`: rules and programs, instructions, names, calls.
pub(crate) fn read_shares(words: &str) -> Result<Shares, LineError> {
    let (entries, words) = words.split_once(' ').ok_or(LineError::Unreadable)?;
    let (instructions, words) = words.split_once(' ').ok_or(LineError::Unreadable)?;
    let (names, calls) = words.split_once(' ').ok_or(LineError::Unreadable)?;
    Ok(Shares {
        entries: entries.parse::<u32>()?,
        instructions: instructions.parse::<u32>()?,
        names: names.parse::<u32>()?,
        calls: calls.parse::<u32>()?,
    })
}

/// `256 1024 4096 16384`: connections, names, claims, entries of the bus.
pub(crate) fn read_capacity(words: &str) -> Result<Capacity, LineError> {
    let (connections, words) = words.split_once(' ').ok_or(LineError::Unreadable)?;
    let (names, words) = words.split_once(' ').ok_or(LineError::Unreadable)?;
    let (claims, entries) = words.split_once(' ').ok_or(LineError::Unreadable)?;
    Ok(Capacity {
        connections: connections.parse::<u32>()?,
        names: names.parse::<u32>()?,
        claims: claims.parse::<u32>()?,
        entries: entries.parse::<u32>()?,
    })
}
