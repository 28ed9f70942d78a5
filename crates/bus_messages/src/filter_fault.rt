// Why filters aren't attached.

ghost use Rattle.bus_messages.specs.FilterFaults.{bad_filter_text, filter_fault_text};

use filter::FaultAt;
use std::fmt;

/// What is wrong with the filter of an AttachFilter.
#[derive(Clone, Copy, Debug, PartialEq, Eq)]
pub enum FilterFault<'a> {
    /// The first token of its text that doesn't fit.
    Token(FaultAt),
    /// It asks who owns this name, the first in its text: no program that is attached can tell.
    SenderName(&'a str),
}

/// What the error BadFilter says of it: programs read the fault's name and its place, or the name that is asked for.
impl fmt::Display for FilterFault<'_> {
    ghost use Rattle.std.specs.Prelude.{Some};

    ghost output = { λ fault. Some (bad_filter_text (filter_fault_text fault)) };

    fn fmt<W: fmt::Write>(&self, f: &mut fmt::Formatter<W>) -> fmt::Result {
        match self {
            FilterFault::Token(at) => write!(f, "BadFilter: {at}"),
            FilterFault::SenderName(name) => write!(f, "BadFilter: SenderName {name}"),
        }
    }
}
