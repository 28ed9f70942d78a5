// The interfaces of the bus.

ghost use Rattle.std.specs.Prelude.{◌≡◌, option_map};
ghost use Rattle.bus_messages.specs.Interfaces.{is_at_bus_path, is_bus_path, is_interface};

pub(crate) const BUS: &str = "org.freedesktop.DBus";

pub(crate) const PEER: &str = "org.freedesktop.DBus.Peer";

pub(crate) const PROGRAMS: &str = "org.example.ProgramBus1";

pub(crate) const INTROSPECTABLE: &str = "org.freedesktop.DBus.Introspectable";

pub(crate) const PROPERTIES: &str = "org.freedesktop.DBus.Properties";

pub(crate) const MONITORING: &str = "org.freedesktop.DBus.Monitoring";

pub(crate) const STATS: &str = "org.freedesktop.DBus.Debug.Stats";

/// The interfaces of the bus, in the order in which Introspect gives them.
pub(crate) static INTERFACES: [&str; 7] = [
    BUS,
    PEER,
    PROGRAMS,
    INTROSPECTABLE,
    PROPERTIES,
    MONITORING,
    STATS,
];

/// Whether the bus has an interface.
pub(crate) fn is_interface(name: &str) -> bool
    ensures { result ≡ is_interface name.now }
{
    name == BUS
        || name == PEER
        || name == PROGRAMS
        || name == INTROSPECTABLE
        || name == PROPERTIES
        || name == MONITORING
        || name == STATS
}

/// The path at which the bus's own properties are, and what looks into it (D-Bus Specification, "Message Bus Messages").
const BUS_PATH: &str = "/org/freedesktop/DBus";

/// Whether the bus has an interface at its own path alone. It has the others at any path.
pub(crate) fn is_at_bus_path(interface: &str) -> bool
    ensures { result ≡ is_at_bus_path interface.now }
{
    interface == PROPERTIES || interface == MONITORING || interface == STATS
}

/// Whether it is the bus's own path.
pub(crate) fn is_bus_path(path: Option<&str>) -> bool
    ensures { result ≡ is_bus_path (option_map (λ name. name.now) path.entry) }
{
    match path {
        Some(path) => path == BUS_PATH,
        None => false,
    }
}
