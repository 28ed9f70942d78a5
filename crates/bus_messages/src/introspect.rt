// What Introspect answers.

ghost use Rattle.std.specs.Prelude.{◌≡◌, ◌++◌, IfOk, map, string_bytes};
ghost use Rattle.std.specs.List.{flat_map};
ghost use Rattle.bus_messages.specs.Introspection.{argument_text, arguments_text, method_text, methods_text, signals_text, interface_text, introspection_text};
ghost use Rattle.bus_messages.specs.Rows.{method_row_of};

use crate::call::{MethodEntry, rows};
use crate::interface::{BUS, INTERFACES};
use signature::{OneType, Signature};
use std::alloc::{AllocError, Global};
use std::str;

const HEAD: &str =
    "<!DOCTYPE node PUBLIC \"-//freedesktop//DTD D-BUS Object Introspection 1.0//EN\"\n\"http://www.freedesktop.org/standards/dbus/1.0/introspect.dtd\">\n<node>\n";

/// The signals and the properties of the bus's first interface.
const SIGNALS: &str =
    "    <signal name=\"NameOwnerChanged\">\n      <arg type=\"s\"/>\n      <arg type=\"s\"/>\n      <arg type=\"s\"/>\n    </signal>\n    <signal name=\"NameLost\">\n      <arg type=\"s\"/>\n    </signal>\n    <signal name=\"NameAcquired\">\n      <arg type=\"s\"/>\n    </signal>\n    <property name=\"Features\" type=\"as\" access=\"read\"/>\n    <property name=\"Interfaces\" type=\"as\" access=\"read\"/>\n";

/// A text between two others.
fn push_between(text: &mut String, before: &str, name: &str, after: &str) -> Result<(), AllocError>
    ensures { IfOk result (λ _. string_bytes text.new ≡ string_bytes text.old ++ (before.now ++ name.now ++ after.now)) }
{
    text.push_str(before)?;
    text.push_str(name)?;
    text.push_str(after)
}

fn push_argument(text: &mut String, before: &str, one: &OneType<'_>) -> Result<(), AllocError>
    ensures { IfOk result (λ _. string_bytes text.new ≡ string_bytes text.old ++ argument_text before.now one.now) }
{
    match str::from_utf8(one.as_bytes()) {
        Ok(name) => push_between(text, before, name, "\"/>\n"),
        Err(_) => Ok(()),
    }
}

/// The arguments of a signature, one a line.
fn push_arguments(text: &mut String, before: &str, signature: &str) -> Result<(), AllocError>
    ensures { IfOk result (λ _. string_bytes text.new ≡ string_bytes text.old ++ arguments_text before.now signature.now) }
{
    let Ok(read) = Signature::read(signature.as_bytes()) else {
        return Ok(());
    };
    for one in read.types() {
        push_argument(text, before, &one)?;
    }
    Ok(())
}

fn push_method(text: &mut String, row: &MethodEntry) -> Result<(), AllocError>
    ensures { IfOk result (λ _. string_bytes text.new ≡ string_bytes text.old ++ method_text (method_row_of row.now)) }
{
    push_between(text, "    <method name=\"", row.member, "\">\n")?;
    push_arguments(text, "      <arg direction=\"in\" type=\"", row.takes)?;
    push_arguments(text, "      <arg direction=\"out\" type=\"", row.gives)?;
    text.push_str("    </method>\n")
}

/// The methods of an interface.
fn push_methods(text: &mut String, interface: &str, rows: &[MethodEntry]) -> Result<(), AllocError>
    ensures { IfOk result (λ _. string_bytes text.new ≡ string_bytes text.old ++ methods_text interface.now (map method_row_of rows.now)) }
{
    for row in rows {
        if row.interface == interface {
            push_method(text, row)?;
        }
    }
    Ok(())
}

/// The signals and properties of an interface.
fn push_signals(text: &mut String, interface: &str) -> Result<(), AllocError>
    ensures { IfOk result (λ _. string_bytes text.new ≡ string_bytes text.old ++ signals_text interface.now) }
{
    if interface == BUS {
        text.push_str(SIGNALS)?;
    }
    Ok(())
}

fn push_interface(text: &mut String, interface: &str) -> Result<(), AllocError>
    ensures { IfOk result (λ _. string_bytes text.new ≡ string_bytes text.old ++ interface_text interface.now) }
{
    push_between(text, "  <interface name=\"", interface, "\">\n")?;
    push_methods(text, interface, rows())?;
    push_signals(text, interface)?;
    text.push_str("  </interface>\n")
}

fn push_interfaces(text: &mut String, interfaces: &[&str]) -> Result<(), AllocError>
    ensures { IfOk result (λ _. string_bytes text.new ≡ string_bytes text.old ++ flat_map interface_text (map (λ interface. interface.now) interfaces.now)) }
{
    for interface in interfaces {
        push_interface(text, interface)?;
    }
    Ok(())
}

/// The interfaces of the bus as XML (D-Bus Specification, "Introspection Data Format").
///
/// # Errors
///
/// Where memory is refused.
#[tactic(auto, unfolding(crate::specs::Introspection::introspection_text))]
pub fn introspection(alloc: Global) -> Result<String, AllocError>
    ensures { IfOk result (λ text. string_bytes text ≡ introspection_text) }
{
    let mut text = String::new(alloc);
    text.push_str(HEAD)?;
    push_interfaces(&mut text, &INTERFACES)?;
    text.push_str("</node>\n")?;
    Ok(text)
}
