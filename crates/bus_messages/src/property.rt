// The properties of the bus.

ghost use Rattle.std.specs.Prelude.{◌≡◌, None, Some, MatchResult, false, true};
ghost use Rattle.bus_messages.specs.declared.call.CallError.TheVariants.{UnknownInterface, UnknownProperty};
ghost use Rattle.bus_messages.specs.CallAnswers.{properties_of};
ghost use Rattle.bus_messages.specs.Properties.{has_properties, property_of};
ghost use Rattle.bus_messages.specs.Readings.{NamesNone, NamesProperty, ReadsInterface, RefusesToSet, is_named};

use crate::arguments::Arguments;
use crate::call::{Call, CallError};
use crate::interface::{BUS, is_interface};

/// A property of the bus (D-Bus Specification, "Message Bus Properties").
#[derive(Clone, Copy, Debug, PartialEq, Eq)]
pub enum Property {
    /// What the bus does beyond what each bus does.
    Features,
    /// Its interfaces that the D-Bus Specification doesn't have.
    Interfaces,
}

/// Whether an interface has properties. The name of none stands for all.
pub(crate) fn has_properties(interface: &str) -> bool
    ensures { result ≡ has_properties interface.now }
{
    interface == "" || interface == BUS
}

/// The property of an interface that has this name.
fn property_of(interface: &str, name: &str) -> Result<Property, CallError>
    ensures { MatchResult result
        (λ property. property_of interface.now name.now ≡ Some property)
        (λ error. (error ≡ UnknownProperty) × (property_of interface.now name.now ≡ None)) }
{
    if has_properties(interface) && name == "Features" {
        Ok(Property::Features)
    } else if has_properties(interface) && name == "Interfaces" {
        Ok(Property::Interfaces)
    } else {
        Err(CallError::UnknownProperty)
    }
}

/// The name of an interface that the bus has, or of none, which stands for all (D-Bus Specification,
/// "org.freedesktop.DBus.Properties").
fn known_interface<'a>(name: &'a str) -> Result<&'a str, CallError>
    ensures { MatchResult result
        (λ known. (known.now ≡ name.entry.now) × (is_named name.entry.now ≡ true))
        (λ error. (error ≡ UnknownInterface) × (is_named name.entry.now ≡ false)) }
{
    if name == "" || is_interface(name) {
        Ok(name)
    } else {
        Err(CallError::UnknownInterface)
    }
}

/// All properties of an interface, or of all.
fn properties_of<'a>(interface: &str) -> Result<Call<'a>, CallError>
    ensures { result ≡ properties_of interface.now }
{
    if has_properties(interface) {
        Ok(Call::GetAll)
    } else if is_interface(interface) {
        Ok(Call::GetAllOfNone)
    } else {
        Err(CallError::UnknownInterface)
    }
}

impl<'a> Arguments<'a> {
    /// The property that two texts name, by its interface and its name.
    pub(crate) fn property(&mut self) -> Result<Property, CallError>
        ensures { MatchResult result (λ property. NamesProperty (Some property) self.old) (λ error. NamesNone self.old error) }
    {
        let interface = known_interface(self.text()?)?;
        property_of(interface, self.text()?)
    }
}

/// All properties of the interface that a text names.
#[tactic(auto, using(crate::proofs::PropertyCalls::properties_read))]
pub(crate) fn all_properties<'a>(arguments: &mut Arguments<'_>) -> Result<Call<'a>, CallError>
    ensures { ReadsInterface arguments.old result }
{
    properties_of(arguments.text()?)
}

/// No property can be set.
pub(crate) fn no_setting<'a>(arguments: &mut Arguments<'_>) -> Result<Call<'a>, CallError>
    ensures { RefusesToSet arguments.old result }
{
    let _property = arguments.property()?;
    Err(CallError::PropertyReadOnly)
}
