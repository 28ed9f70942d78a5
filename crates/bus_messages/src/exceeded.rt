// The limits of the bus.

ghost use Rattle.std.specs.Prelude.{◌≡◌};
ghost use Rattle.bus_messages.specs.ErrorNames.{limit_of};

/// The limit that a call would go beyond.
#[derive(Clone, Copy, Debug, PartialEq, Eq)]
pub enum Exceeded {
    /// Match rules and attached programs of one connection.
    Rules,
    /// Instructions of the programs that one connection has attached.
    Instructions,
    /// Names that one connection asked for.
    Names,
    /// Calls of one connection that wait for an answer.
    Calls,
    /// Instructions of the programs that all connections have attached.
    AllInstructions,
    /// Connections of the bus.
    BusConnections,
    /// Match rules and attached programs of the bus.
    BusEntries,
    /// Names of the bus that have an owner.
    BusNames,
    /// Owners of names of the bus, and those that wait for one.
    BusClaims,
    /// Readers of the bus.
    BusReaders,
    /// Workers of one search.
    BusWorkers,
    /// Broadcasts that were counted.
    BusBroadcasts,
    /// Instructions of the program that a rule is compiled to.
    RuleLen,
    /// What the tests of a filter weigh together.
    FilterWeight,
    /// Bytes of a message with its sender.
    MessageLen,
}

impl Exceeded {
    /// What there is too much of. A limit that the words of `serve` can set has its name there.
    pub fn words(self) -> &'static str
        ensures { result.now ≡ limit_of self }
    {
        match self {
            Exceeded::Rules => "rules and programs of this connection (limit rules)",
            Exceeded::Instructions => {
                "instructions of programs of this connection (limit instructions)"
            }
            Exceeded::Names => "names of this connection (limit names)",
            Exceeded::Calls => "calls of this connection that wait for an answer (limit calls)",
            Exceeded::AllInstructions => {
                "instructions of programs of all connections (limit all-instructions)"
            }
            Exceeded::BusConnections => "connections of the bus (limit clients)",
            Exceeded::BusEntries => "rules and programs of the bus (limit all-rules)",
            Exceeded::BusNames => "names of the bus (limit all-names)",
            Exceeded::BusClaims => "owners of names of the bus, and those that wait (limit claims)",
            Exceeded::BusReaders => "readers of the bus at one time",
            Exceeded::BusWorkers => "workers of the bus",
            Exceeded::BusBroadcasts => "broadcasts of the bus",
            Exceeded::RuleLen => "instructions of the program of the rule",
            Exceeded::FilterWeight => "weight of the filter",
            Exceeded::MessageLen => "bytes of the message with its sender",
        }
    }
}
