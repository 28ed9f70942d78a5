// How much of the bus one client may have.

ghost use Rattle.std.specs.Prelude.{◌≡◌};

/// How much of the bus one client may have at once. A call that asks for more is answered with
/// LimitsExceeded, before the bus is asked; what the bus itself has room for is another matter.
#[derive(Clone, Copy, Debug, PartialEq, Eq)]
pub struct Shares {
    /// Match rules and attached programs, together.
    pub entries: u32,
    /// Instructions of attached programs, together.
    pub instructions: u32,
    /// Names that it asked for and hasn't released. A name that another connection took over counts until it is released,
    /// or asked for again in vain.
    pub names: u32,
    /// Calls of other connections that wait for their replies.
    pub calls: u32,
}

impl Shares {
    /// More than a bus has: only the bus itself refuses.
    pub fn unlimited() -> Shares
        ensures { result ≡ record { entries = 4294967295; instructions = 4294967295; names = 4294967295; calls = 4294967295 } }
    {
        Shares {
            entries: u32::MAX,
            instructions: u32::MAX,
            names: u32::MAX,
            calls: u32::MAX,
        }
    }

    /// What a client of `dbusfan serve` may have: 512 rules and programs, 65,536 instructions, 512 names, and 50,000
    /// calls that wait.
    pub fn standard() -> Shares
        ensures { result ≡ record { entries = 512; instructions = 65536; names = 512; calls = 50000 } }
    {
        Shares {
            entries: 512,
            instructions: 65_536,
            names: 512,
            calls: 50_000,
        }
    }
}
