// A line that is a case.

use crate::error::LineError;
use crate::fields::Fields;
use crate::spelling::bytes_without_escapes;
use std::alloc::Global;

#[derive(Drop)]
pub(crate) struct Case<'a> {
    pub(crate) name: &'a str,
    pub(crate) inputs: Fields,
    pub(crate) wanted: Vec<u8>,
}

impl<'a> Case<'a> {
    /// The case of a line: its name, then as many inputs as `inputs` says, then what is wanted.
    pub(crate) fn read(alloc: Global, line: &'a str, inputs: usize) -> Result<Case<'a>, LineError> {
        let (name, spelled) = line.split_once('\t').ok_or(LineError::Unreadable)?;
        let mut fields = Vec::new(alloc);
        for field in spelled.split('\t') {
            fields.push(bytes_without_escapes(alloc, field)?)?;
        }
        let wanted = fields.pop().ok_or(LineError::Unreadable)?;
        if name.is_empty() || fields.len() != inputs {
            return Err(LineError::Unreadable);
        }
        Ok(Case {
            name,
            inputs: Fields::new(fields),
            wanted,
        })
    }
}
