// How a session is served that reads and writes by itself.

use case_files::LineError;

/// The call that fails, once. Calls are counted from 1.
#[derive(Clone, Copy)]
pub(crate) enum Broken {
    Nothing,
    Read(u32),
    Write(u32),
}

/// How many bytes a read gives at most, and which call fails.
#[derive(Clone, Copy)]
pub(crate) struct Serving {
    pub(crate) at_once: usize,
    pub(crate) broken: Broken,
}

impl Serving {
    /// `64`, `64 read 3` or `64 write 3`.
    pub(crate) fn read(words: &str) -> Result<Serving, LineError> {
        let (count, broken) = match words.split_once(' ') {
            Some((count, call)) => (count, Broken::read(call)?),
            None => (words, Broken::Nothing),
        };
        Ok(Serving {
            at_once: count.parse::<usize>()?,
            broken,
        })
    }
}

impl Broken {
    fn read(words: &str) -> Result<Broken, LineError> {
        let (call, count) = words.split_once(' ').ok_or(LineError::Unreadable)?;
        let count = count.parse::<u32>()?;
        match call {
            "read" => Ok(Broken::Read(count)),
            "write" => Ok(Broken::Write(count)),
            _ => Err(LineError::Unreadable),
        }
    }
}
