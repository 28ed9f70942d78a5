// The methods of the bus, and the calls that it answers itself.

ghost use Rattle.std.specs.Prelude.{◌≡◌, map};
ghost use Rattle.bus_messages.specs.CallErrors.{error_name_of};
ghost use Rattle.bus_messages.specs.Methods.{Understands, methods};
ghost use Rattle.bus_messages.specs.Readings.{ReadsEdition, ReadsProgram};
ghost use Rattle.bus_messages.specs.Rows.{method_row_of};

use crate::arguments::Arguments;
use crate::error_name::ErrorName;
use crate::interface::{BUS, INTROSPECTABLE, MONITORING, PEER, PROGRAMS, PROPERTIES, STATS};
use crate::property::{Property, all_properties, no_setting};
use bpf_code::Ins;
use message_view::MsgError;
use std::alloc::AllocError;
use std::fmt;
use summary::Edition;

/// A method of the bus.
#[derive(Clone, Copy, Debug, PartialEq, Eq)]
pub(crate) enum Method {
    Hello,
    AddMatch,
    RemoveMatch,
    RequestName,
    ReleaseName,
    GetNameOwner,
    NameHasOwner,
    ListNames,
    Ping,
    Attach,
    AttachEdition,
    AttachFilter,
    Detach,
    StartServiceByName,
    ListActivatableNames,
    ListQueuedOwners,
    GetId,
    GetConnectionUnixUser,
    GetConnectionUnixProcessId,
    GetConnectionCredentials,
    GetAdtAuditSessionData,
    GetConnectionSelinuxSecurityContext,
    GetMachineId,
    Introspect,
    Get,
    GetAll,
    Set,
    UpdateActivationEnvironment,
    ReloadConfig,
    BecomeMonitor,
    GetStats,
    GetConnectionStats,
    GetAllMatchRules,
}

/// A call of one of the bus's methods, with its arguments.
#[derive(Drop)]
pub enum Call<'a> {
    Hello,
    AddMatch(&'a str),
    RemoveMatch(&'a str),
    /// A name, and the flags of the request.
    RequestName(&'a str, u32),
    ReleaseName(&'a str),
    GetNameOwner(&'a str),
    NameHasOwner(&'a str),
    ListNames,
    Ping,
    /// By Attach, which is of edition 1, or by AttachEdition.
    Attach(Edition, Vec<Ins>),
    /// The text of a filter.
    AttachFilter(&'a str),
    Detach(u32),
    /// A name; the flags have no meaning.
    StartServiceByName(&'a str),
    ListActivatableNames,
    ListQueuedOwners(&'a str),
    GetId,
    GetConnectionUnixUser(&'a str),
    GetConnectionUnixProcessId(&'a str),
    GetConnectionCredentials(&'a str),
    GetAdtAuditSessionData(&'a str),
    GetConnectionSelinuxSecurityContext(&'a str),
    GetMachineId,
    Introspect,
    /// Of one of the bus's properties.
    Get(Property),
    /// Of the bus's properties.
    GetAll,
    /// Of the properties of an interface that has none.
    GetAllOfNone,
    /// The environment of services, of which this bus starts none.
    UpdateActivationEnvironment,
    /// The configuration, of which this bus has none.
    ReloadConfig,
    /// The rules of a monitor; the flags have no meaning.
    BecomeMonitor(Vec<&'a str>, u32),
    GetStats,
    GetConnectionStats(&'a str),
    GetAllMatchRules,
}

/// What a method is called, and the signatures of its arguments and of its answer.
#[derive(Clone, Copy)]
pub(crate) struct MethodEntry {
    pub(crate) method: Method,
    pub(crate) interface: &'static str,
    pub(crate) member: &'static str,
    pub(crate) takes: &'static str,
    pub(crate) gives: &'static str,
}

/// Each method: its interface, its member, the signatures of its arguments and of its answer, and how the arguments are read.
/// A call that names no interface is of the first row with its member.
macro_rules! methods {
    ($rows:ident $($with:tt)*) => {
        $rows! {
            ($($with)*)
            Hello BUS "Hello" ("") -> "s";
            AddMatch BUS "AddMatch" ("s") -> "" reads text;
            RemoveMatch BUS "RemoveMatch" ("s") -> "" reads text;
            RequestName BUS "RequestName" ("su") -> "u" reads text, number;
            ReleaseName BUS "ReleaseName" ("s") -> "u" reads text;
            GetNameOwner BUS "GetNameOwner" ("s") -> "s" reads text;
            NameHasOwner BUS "NameHasOwner" ("s") -> "b" reads text;
            ListNames BUS "ListNames" ("") -> "as";
            Ping PEER "Ping" ("") -> "";
            Attach PROGRAMS "Attach" ("a(qyyu)") -> "u" by program;
            AttachEdition PROGRAMS "AttachEdition" ("ua(qyyu)") -> "u" by edition;
            AttachFilter PROGRAMS "AttachFilter" ("s") -> "u" reads text;
            Detach PROGRAMS "Detach" ("u") -> "" reads number;
            StartServiceByName BUS "StartServiceByName" ("su") -> "u" reads text;
            ListActivatableNames BUS "ListActivatableNames" ("") -> "as";
            ListQueuedOwners BUS "ListQueuedOwners" ("s") -> "as" reads text;
            GetId BUS "GetId" ("") -> "s";
            GetConnectionUnixUser BUS "GetConnectionUnixUser" ("s") -> "u" reads text;
            GetConnectionUnixProcessId BUS "GetConnectionUnixProcessID" ("s") -> "u" reads text;
            GetConnectionCredentials BUS "GetConnectionCredentials" ("s") -> "a{sv}" reads text;
            GetAdtAuditSessionData BUS "GetAdtAuditSessionData" ("s") -> "ay" reads text;
            GetConnectionSelinuxSecurityContext BUS "GetConnectionSELinuxSecurityContext" ("s") -> "ay" reads text;
            GetMachineId PEER "GetMachineId" ("") -> "s";
            Introspect INTROSPECTABLE "Introspect" ("") -> "s";
            Get PROPERTIES "Get" ("ss") -> "v" reads property;
            GetAll PROPERTIES "GetAll" ("s") -> "a{sv}" by all_properties;
            Set PROPERTIES "Set" ("ssv") -> "" by no_setting;
            UpdateActivationEnvironment BUS "UpdateActivationEnvironment" ("a{ss}") -> "";
            ReloadConfig BUS "ReloadConfig" ("") -> "";
            BecomeMonitor MONITORING "BecomeMonitor" ("asu") -> "" reads texts, number;
            GetStats STATS "GetStats" ("") -> "a{sv}";
            GetConnectionStats STATS "GetConnectionStats" ("s") -> "a{sv}" reads text;
            GetAllMatchRules STATS "GetAllMatchRules" ("") -> "a{sas}";
        }
    };
}

macro_rules! entries {
    (() $($method:ident $interface:ident $member:literal ($takes:literal) -> $gives:literal $(reads $($read:ident),+)? $(by $reader:ident)?;)*) => {
        [$(MethodEntry {
            method: Method::$method,
            interface: $interface,
            member: $member,
            takes: $takes,
            gives: $gives,
        }),*]
    };
}

macro_rules! call {
    ($arguments:ident $method:ident by $reader:ident) => {
        $reader($arguments)
    };
    ($arguments:ident $method:ident $($read:ident),+) => {
        Ok(Call::$method($($arguments.$read()?),+))
    };
    ($arguments:ident $method:ident) => {
        Ok(Call::$method)
    };
}

macro_rules! calls {
    (($of:expr, $arguments:ident) $($method:ident $interface:ident $member:literal ($takes:literal) -> $gives:literal $(reads $($read:ident),+)? $(by $reader:ident)?;)*) => {
        match $of {
            $(Method::$method => call!($arguments $method $($($read),+)? $(by $reader)?),)*
        }
    };
}

static ENTRIES: [MethodEntry; 33] = methods!(entries);

/// Every method of the bus.
pub(crate) fn rows() -> &'static [MethodEntry]
    ensures { map method_row_of result.now ≡ methods }
{
    &ENTRIES
}

impl Method {
    /// What a call of the method is read as.
    pub(crate) fn read<'a>(self, arguments: &mut Arguments<'a>) -> Result<Call<'a>, CallError>
        ensures { Understands self arguments.old result }
    {
        methods!(calls self, arguments)
    }
}

// A program that reads images of edition 1.
fn program<'a>(arguments: &mut Arguments<'_>) -> Result<Call<'a>, CallError>
    ensures { ReadsProgram arguments.old result }
{
    Ok(Call::Attach(Edition::One, arguments.program()?))
}

// An edition, and a program.
fn edition<'a>(arguments: &mut Arguments<'_>) -> Result<Call<'a>, CallError>
    ensures { ReadsEdition arguments.old result }
{
    Ok(Call::Attach(arguments.edition()?, arguments.program()?))
}

/// Why a message is no call that the bus answers.
#[derive(Clone, Copy, Debug, PartialEq, Eq)]
pub enum CallError {
    /// The bus has no such method.
    UnknownMethod,
    /// The bus has no such interface.
    UnknownInterface,
    /// The interface has no such property.
    UnknownProperty,
    /// No property of the bus can be set.
    PropertyReadOnly,
    /// The method may be called at the bus's own path alone.
    AccessDenied,
    /// The arguments aren't of the method's types.
    InvalidArgs,
    /// There is no such edition of a summary.
    BadEdition,
    /// Memory ran out.
    NoMemory,
}

impl CallError {
    /// The error that the call is answered with.
    pub fn error_name(self) -> ErrorName
        ensures { result ≡ error_name_of self }
    {
        match self {
            CallError::UnknownMethod => ErrorName::UnknownMethod,
            CallError::UnknownInterface => ErrorName::UnknownInterface,
            CallError::UnknownProperty => ErrorName::UnknownProperty,
            CallError::PropertyReadOnly => ErrorName::PropertyReadOnly,
            CallError::AccessDenied => ErrorName::AccessDenied,
            CallError::InvalidArgs => ErrorName::InvalidArgs,
            CallError::BadEdition => ErrorName::BadEdition,
            CallError::NoMemory => ErrorName::NoMemory,
        }
    }
}

impl fmt::Display for CallError {
    ghost use Rattle.std.specs.Prelude.{Some};
    ghost use Rattle.bus_messages.specs.CallErrors.{error_name_of};
    ghost use Rattle.bus_messages.specs.ErrorNames.{word_of};

    ghost output = { λ error. Some (word_of (error_name_of error)) };

    fn fmt<W: fmt::Write>(&self, f: &mut fmt::Formatter<W>) -> fmt::Result {
        f.write_str(self.error_name().word())
    }
}

impl std::error::Error for CallError {}

impl From<MsgError> for CallError {
    ghost use Rattle.std.specs.Prelude.{◌≡◌};
    ghost use Rattle.bus_messages.specs.declared.call.CallError.TheVariants.{InvalidArgs};

    ghost from_gives = { λ _ error. error ≡ InvalidArgs };

    fn from(_fault: MsgError) -> CallError {
        CallError::InvalidArgs
    }
}

impl From<AllocError> for CallError {
    ghost use Rattle.std.specs.Prelude.{◌≡◌};
    ghost use Rattle.bus_messages.specs.declared.call.CallError.TheVariants.{NoMemory};

    ghost from_gives = { λ _ error. error ≡ NoMemory };

    fn from(_refused: AllocError) -> CallError {
        CallError::NoMemory
    }
}
