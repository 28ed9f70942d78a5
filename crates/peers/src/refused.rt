// Calls that are refused.

ghost use Rattle.std.specs.Prelude.{◌≡◌};
ghost use Rattle.peers.specs.Refusals.{beyond, program_error};

use bpf_verify::VerifyError;
use bus_messages::{CallError, ErrorName, Exceeded};
use router::BusError;
use std::alloc::{AllocError, AllocFailed};

/// Why a call isn't answered as it asks for.
#[derive(Clone, Copy, Debug)]
pub enum Refused {
    /// It is answered with this error.
    Error(ErrorName),
    /// The bus has ended, and so does the session.
    Ended,
}

impl Refused {
    /// A call that would go beyond this limit.
    pub fn beyond(limit: Exceeded) -> Refused
        ensures { result ≡ beyond limit }
    {
        Refused::Error(ErrorName::LimitsExceeded(limit))
    }
}

impl From<BusError> for Refused {
    ghost use Rattle.std.specs.Prelude.{◌≡◌};
    ghost use Rattle.peers.specs.Refusals.{refusal_of};

    ghost from_gives = { λ error why. why ≡ refusal_of error };

    fn from(error: BusError) -> Refused {
        match error {
            BusError::NoMemory => Refused::Error(ErrorName::NoMemory),
            BusError::RuleNotFound => Refused::Error(ErrorName::MatchRuleNotFound),
            BusError::NoAttachment => Refused::Error(ErrorName::NoAttachment),
            BusError::Closed => Refused::Ended,
            BusError::Rule(fault) => Refused::Error(ErrorName::MatchRuleInvalid(fault)),
            BusError::Program(fault) => Refused::Error(program_error(fault)),
            BusError::ConnectionsFull => Refused::beyond(Exceeded::BusConnections),
            BusError::EntriesFull => Refused::beyond(Exceeded::BusEntries),
            BusError::NamesFull => Refused::beyond(Exceeded::BusNames),
            BusError::QueueFull => Refused::beyond(Exceeded::BusClaims),
            BusError::TooLong => Refused::beyond(Exceeded::RuleLen),
            BusError::Busy => Refused::beyond(Exceeded::BusReaders),
            BusError::Fan(_) => Refused::beyond(Exceeded::BusWorkers),
            BusError::Counts => Refused::beyond(Exceeded::BusBroadcasts),
        }
    }
}

/// The error that an Attach of a program with this fault is answered with.
fn program_error(fault: VerifyError) -> ErrorName
    ensures { result ≡ program_error fault }
{
    match fault {
        VerifyError::NoMemory => ErrorName::NoMemory,
        fault => ErrorName::BadProgram(fault),
    }
}

impl From<CallError> for Refused {
    ghost use Rattle.std.specs.Prelude.{◌≡◌};
    ghost use Rattle.bus_messages.specs.CallErrors.{error_name_of};
    ghost use Rattle.peers.specs.declared.refused.Refused.TheVariants.{Error};

    ghost from_gives = { λ error why. why ≡ Error (error_name_of error) };

    fn from(error: CallError) -> Refused {
        Refused::Error(error.error_name())
    }
}

impl From<AllocError> for Refused {
    ghost use Rattle.std.specs.Prelude.{◌≡◌};
    ghost use Rattle.bus_messages.specs.declared.error_name.ErrorName.TheVariants.{NoMemory};
    ghost use Rattle.peers.specs.declared.refused.Refused.TheVariants.{Error};

    ghost from_gives = { λ _ why. why ≡ Error NoMemory };

    fn from(_refused: AllocError) -> Refused {
        Refused::Error(ErrorName::NoMemory)
    }
}

impl<T: Drop> From<AllocFailed<T>> for Refused {
    ghost use Rattle.std.specs.Prelude.{◌≡◌};
    ghost use Rattle.bus_messages.specs.declared.error_name.ErrorName.TheVariants.{NoMemory};
    ghost use Rattle.peers.specs.declared.refused.Refused.TheVariants.{Error};

    ghost from_gives = { λ _ why. why ≡ Error NoMemory };

    fn from(_refused: AllocFailed<T>) -> Refused {
        Refused::Error(ErrorName::NoMemory)
    }
}
