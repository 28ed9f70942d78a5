// What a server brings to a talk.

use crate::admission::Admission;

/// What a server says of itself, and whom it admits.
#[derive(Clone, Copy, Debug, PartialEq, Eq)]
pub(crate) struct Terms {
    /// The server's GUID, as hexadecimal digits.
    pub(crate) guid: [u8; 32],
    pub(crate) admission: Admission,
}
