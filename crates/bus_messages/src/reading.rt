// How a message is read as a call that the bus answers itself.

ghost use Rattle.std.specs.Prelude.{◌≡◌, option_map};
ghost use Rattle.std.specs.List.{find};
ghost use Rattle.message_view.specs.Message.{Message};
ghost use Rattle.message_view.specs.Valid.{Valid};
ghost use Rattle.bus_messages.specs.Calls.{IsReadAs, refusal_at, refusal_elsewhere, row_called, unknown_call};
ghost use Rattle.bus_messages.specs.Methods.{is_called, is_of, method_called};
ghost use Rattle.bus_messages.specs.Rows.{method_row_of};

use crate::arguments::Arguments;
use crate::call::{Call, CallError, Method, MethodEntry, rows};
use crate::interface::{is_at_bus_path, is_bus_path, is_interface};
use message_view::View;
use std::alloc::Global;

/// Whether a call may be of an interface, where it names one or none.
fn is_of(named: Option<&str>, interface: &str) -> bool
    ensures { result ≡ is_of (option_map (λ name. name.now) named.entry) interface.now }
{
    match named {
        Some(name) => interface == name,
        None => true,
    }
}

impl MethodEntry {
    /// Whether a call of this member is a call of this method, where it names this interface or none.
    fn is_called(&self, interface: Option<&str>, member: &str) -> bool
        ensures { result ≡ is_called (option_map (λ name. name.now) interface.entry) member.now (method_row_of self.now) }
    {
        self.member == member && is_of(interface, self.interface)
    }

    /// The row of the method that a call is of.
    pub(crate) fn of(interface: Option<&str>, member: &str) -> Option<&'static MethodEntry>
        ensures { option_map (λ row. method_row_of row.now) result ≡ method_called (option_map (λ name. name.now) interface.entry) member.now }
    {
        let table = rows();
        first_called(table, interface, member)
    }
}

/// The first row of the method that a call is of.
fn first_called<'r>(
    rows: &'r [MethodEntry],
    interface: Option<&str>,
    member: &str,
) -> Option<&'r MethodEntry>
    ensures { option_map (λ row. row.now) result ≡ find (λ row. is_called (option_map (λ name. name.now) interface.entry) member.now (method_row_of row)) rows.entry.now }
{
    rows.iter().find(|row| row.is_called(interface, member))
}

/// Why a call of no method isn't understood.
fn unknown_call(interface: Option<&str>) -> CallError
    ensures { result ≡ unknown_call (option_map (λ name. name.now) interface.entry) }
{
    match interface {
        Some(name) if !is_interface(name) => CallError::UnknownInterface,
        _ => CallError::UnknownMethod,
    }
}

/// Why a method may not be called at another path than the bus's own, if it may not. The call names an interface or none.
fn refusal_elsewhere(row: &MethodEntry, named: Option<&str>) -> Option<CallError>
    ensures { result ≡ refusal_elsewhere (method_row_of row.now) (option_map (λ name. name.now) named.entry) }
{
    if matches!(row.method, Method::UpdateActivationEnvironment) {
        return Some(CallError::AccessDenied);
    }
    if !is_at_bus_path(row.interface) {
        return None;
    }
    match named {
        Some(_) => Some(CallError::UnknownInterface),
        None => Some(CallError::UnknownMethod),
    }
}

/// Why a method may not be called at this path, if it may not.
fn refusal_at(path: Option<&str>, row: &MethodEntry, named: Option<&str>) -> Option<CallError>
    ensures { result ≡ refusal_at (option_map (λ name. name.now) path.entry) (method_row_of row.now) (option_map (λ name. name.now) named.entry) }
{
    if is_bus_path(path) {
        None
    } else {
        refusal_elsewhere(row, named)
    }
}

/// The row of the method that a message calls.
fn row_called(interface: Option<&str>, member: Option<&str>) -> Option<&'static MethodEntry>
    ensures { option_map (λ row. method_row_of row.now) result ≡ row_called (option_map (λ name. name.now) interface.entry) (option_map (λ name. name.now) member.entry) }
{
    MethodEntry::of(interface, member?)
}

impl<'a> Call<'a> {
    /// Reads a message as a call of the bus, whatever its destination is, and of some interfaces whatever its path is.
    ///
    /// # Errors
    ///
    /// `UnknownInterface` and `UnknownMethod` if the bus has no method of the interface and the member, or has it at its own
    /// path alone and the message has another one: `UnknownMethod` if the message names no interface. `AccessDenied` if
    /// UpdateActivationEnvironment is called at another path. `InvalidArgs` if the body has another signature than the method
    /// takes, `BadEdition` if a summary's edition isn't 1 or 2, `UnknownInterface`, `UnknownProperty` and `PropertyReadOnly`
    /// of properties, and `NoMemory`.
    pub fn read(alloc: Global, view: &View<'a>) -> Result<Call<'a>, CallError>
        ensures { (m : Message) → Valid view.now m → IsReadAs m result }
    {
        let Some(row) = row_called(view.interface(), view.member()) else {
            return Err(unknown_call(view.interface()));
        };
        if let Some(error) = refusal_at(view.path(), row, view.interface()) {
            return Err(error);
        }
        if view.signature() != row.takes.as_bytes() {
            return Err(CallError::InvalidArgs);
        }
        row.method.read(&mut Arguments::of(alloc, view))
    }
}
