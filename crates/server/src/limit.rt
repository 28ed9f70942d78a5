// What a server has limits of.

ghost use Rattle.std.specs.Prelude.{◌≡◌, IfSome};
ghost use Rattle.server.specs.Limits.{row, row_of};

/// What a server has a limit of.
#[derive(Clone, Copy, Debug, PartialEq, Eq)]
pub enum Limit {
    /// Match rules and attached programs of one connection.
    Rules,
    /// Match rules and attached programs of all connections, at most 65,534.
    AllRules,
    /// Instructions of the programs that one connection has attached.
    Instructions,
    /// Instructions of the programs that all connections have attached.
    AllInstructions,
    /// Names that one connection asked for.
    Names,
    /// Names that there are claims on, or rules from, of all connections, at most 1,024.
    AllNames,
    /// Claims of all connections on names, at most 4,096.
    Claims,
    /// Calls of one connection that wait for their replies.
    Calls,
    /// Messages that wait for one connection.
    Messages,
    /// Bytes of the messages that wait for one connection.
    Bytes,
    /// Bytes of messages that aren't whole, of all connections together.
    Unfinished,
    /// How long a connection may send nothing in the middle of a message.
    Silence,
    /// Connections after Hello, at most 4,096.
    Clients,
    /// Connections without Hello.
    Newcomers,
    /// How long a connection may be without Hello.
    Hello,
}

/// What the table says of a limit.
#[derive(Clone, Copy)]
struct Terms {
    name: &'static str,
    /// The number where no other is asked for.
    standard: u32,
    /// The highest number that may be asked for.
    most: u32,
    /// What the number counts.
    unit: &'static str,
}

/// Each limit: its name, its standard number, the highest one, and what it counts.
macro_rules! limits {
    ($rows:ident $($with:tt)*) => {
        $rows! {
            ($($with)*)
            Rules "rules" 512, u32::MAX, "rules and programs";
            AllRules "all-rules" 16_384, 65_534, "rules and programs";
            Instructions "instructions" 65_536, u32::MAX, "instructions";
            AllInstructions "all-instructions" 4_096_000, u32::MAX, "instructions";
            Names "names" 512, u32::MAX, "names";
            AllNames "all-names" 1_024, 1_024, "names";
            Claims "claims" 4_096, 4_096, "claims";
            Calls "calls" 50_000, u32::MAX, "calls";
            Messages "messages" 100_000, u32::MAX, "messages";
            Bytes "bytes" 67_108_864, u32::MAX, "bytes";
            Unfinished "unfinished" 33_554_432, u32::MAX, "bytes";
            Silence "silence" 30, u32::MAX, "seconds";
            Clients "clients" 256, 4_096, "clients";
            Newcomers "newcomers" 64, u32::MAX, "connections";
            Hello "hello" 30, u32::MAX, "seconds";
        }
    };
}

macro_rules! all {
    (() $($limit:ident $name:literal $standard:literal, $most:expr, $unit:literal;)*) => {
        [$(Limit::$limit),*]
    };
}

macro_rules! terms {
    (($of:expr) $($limit:ident $name:literal $standard:literal, $most:expr, $unit:literal;)*) => {
        match $of {
            $(Limit::$limit => Terms {
                name: $name,
                standard: $standard,
                most: $most,
                unit: $unit,
            },)*
        }
    };
}

impl Limit {
    /// All of them, in the order of the table.
    pub const ALL: [Limit; 15] = limits!(all);

    /// The limit of this name, if there is one.
    pub fn of(name: &str) -> Option<Limit>
        ensures { IfSome result (λ limit. (row_of limit).name ≡ name.now) }
    {
        Limit::ALL.into_iter().find(|limit| limit.name() == name)
    }

    /// Its name, as words have it.
    pub fn name(self) -> &'static str
        ensures { result.now ≡ (row_of self).name }
    {
        self.terms().name
    }

    /// The number where no other is asked for.
    pub fn standard(self) -> u32
        ensures { result ≡ (row_of self).standard }
    {
        self.terms().standard
    }

    /// The highest number that may be asked for.
    pub fn most(self) -> u32
        ensures { result ≡ (row_of self).most }
    {
        self.terms().most
    }

    /// What its number counts.
    pub fn unit(self) -> &'static str
        ensures { result.now ≡ (row_of self).unit }
    {
        self.terms().unit
    }

    /// The table of limits.
    fn terms(self) -> Terms
        ensures { row result.name.now result.standard result.most result.unit.now ≡ row_of self }
    {
        limits!(terms self)
    }
}
