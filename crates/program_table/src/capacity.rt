// How much a bus may have.

ghost use Rattle.std.specs.Prelude.{◌≡◌};
ghost use Rattle.program_table.specs.Capacities.{standard_capacity};

/// How many of each there may be on a bus, of all connections together. There is never more than rooms were taken for: 4,096
/// connections, 1,024 names, 4,096 claims and 65,534 entries.
#[derive(Clone, Copy, Debug, PartialEq, Eq)]
pub struct Capacity {
    /// Connections.
    pub connections: u32,
    /// Names that have a slot: those with a claim, and those that a rule asks for as the sender.
    pub names: u32,
    /// Claims on names.
    pub claims: u32,
    /// Match rules and attached programs.
    pub entries: u32,
}

impl Capacity {
    /// What a bus may have that isn't told otherwise: 256 connections, 1,024 names, 4,096 claims, 16,384 entries.
    pub fn standard() -> Capacity
        ensures { result ≡ standard_capacity }
    {
        Capacity {
            connections: 256,
            names: 1_024,
            claims: 4_096,
            entries: 16_384,
        }
    }
}
