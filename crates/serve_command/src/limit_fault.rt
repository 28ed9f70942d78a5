// What is wrong with a limit that can't be read.

use server::Limit;
use std::fmt;

/// What is wrong with the value of `--limit`.
#[derive(Clone, Copy, Debug, PartialEq, Eq)]
pub(crate) struct LimitFault<'a> {
    text: &'a str,
    reason: Reason,
}

#[derive(Clone, Copy, Debug, PartialEq, Eq)]
enum Reason {
    /// It isn't a name, `=` and a number.
    NoPair,
    UnknownName,
    /// What follows the name of this limit is no number above 0, or a higher one than may be asked for.
    Number(Limit),
}

impl<'a> LimitFault<'a> {
    pub(crate) fn no_pair(text: &'a str) -> LimitFault<'a> {
        LimitFault {
            text,
            reason: Reason::NoPair,
        }
    }

    pub(crate) fn unknown_name(text: &'a str) -> LimitFault<'a> {
        LimitFault {
            text,
            reason: Reason::UnknownName,
        }
    }

    pub(crate) fn of_number(text: &'a str, limit: Limit) -> LimitFault<'a> {
        LimitFault {
            text,
            reason: Reason::Number(limit),
        }
    }
}

impl<'a> fmt::Display for LimitFault<'a> {
    fn fmt<W: fmt::Write>(&self, f: &mut fmt::Formatter<W>) -> fmt::Result {
        let text = self.text;
        let names = Names;
        match self.reason {
            Reason::NoPair => write!(f, "{text}: NAME=N is wanted, NAME one of {names}"),
            Reason::UnknownName => write!(f, "{text}: there is no such limit; there are {names}"),
            Reason::Number(limit) => {
                let (unit, most) = (limit.unit(), limit.most());
                write!(f, "{text}: a number of {unit} from 1 to {most} is wanted")
            }
        }
    }
}

/// The names of all limits, as a sentence has them.
#[derive(Clone, Copy)]
struct Names;

impl fmt::Display for Names {
    fn fmt<W: fmt::Write>(&self, f: &mut fmt::Formatter<W>) -> fmt::Result {
        for (i, limit) in Limit::ALL.into_iter().enumerate() {
            let before = if i == 0 { "" } else { ", " };
            let name = limit.name();
            write!(f, "{before}{name}")?;
        }
        Ok(())
    }
}
