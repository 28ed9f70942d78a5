// What became of a message.

ghost use Rattle.std.specs.Prelude.{◌≡◌};
ghost use Rattle.monitors.specs.Showing.{is_refused};

/// What became of a message that was shown to a monitor.
#[derive(Clone, Copy, Debug, PartialEq, Eq)]
pub(crate) enum Shown {
    /// It was put into the monitor's outbox.
    Put,
    /// The monitor doesn't want it.
    Unwanted,
    /// Memory was refused.
    LeftOut,
    /// The outbox refused it, and is shut.
    Refused,
}

impl Shown {
    pub(crate) fn is_refused(self) -> bool
        ensures { result ≡ is_refused self }
    {
        match self {
            Shown::Refused => true,
            Shown::Put | Shown::Unwanted | Shown::LeftOut => false,
        }
    }
}
