// What a header field holds.

use crate::extent::Extent;

/// The value of a known header field: a text and where it lies, or a number.
#[derive(Clone, Copy, Debug)]
pub(crate) enum Content<'a> {
    Text(&'a str, Extent),
    Number(u32),
}
