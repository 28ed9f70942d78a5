// What conditions compare.

use crate::arg_number::ArgNumber;

/// A header field whose text a rule may ask for (D-Bus Specification, "Match Rules").
#[derive(Clone, Copy, Debug, PartialEq, Eq)]
pub enum Field {
    Interface,
    Member,
    Path,
    Destination,
}

/// Where the text stands that a condition compares: in a header field, or among the arguments.
#[derive(Clone, Copy, Debug, PartialEq, Eq)]
pub enum Source {
    Header(Field),
    Arg(ArgNumber),
}
