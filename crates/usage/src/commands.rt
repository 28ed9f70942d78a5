// The commands of all programs, as help shows them.

/// A command: its name, what it does, and what it takes.
#[derive(Clone, Copy)]
pub(crate) struct CommandHelp {
    pub(crate) name: &'static str,
    pub(crate) about: &'static str,
    pub(crate) arguments: &'static [ArgumentHelp],
}

/// What a command takes. An option's name is its word without `--`.
#[derive(Clone, Copy)]
pub(crate) struct ArgumentHelp {
    pub(crate) name: &'static str,
    pub(crate) form: Form,
    pub(crate) is_required: bool,
    pub(crate) text: &'static str,
}

impl ArgumentHelp {
    /// Is it left out where `--filter` is given?
    pub(crate) fn yields_to_filter(&self) -> bool {
        self.name == "RULE" && matches!(self.form, Form::Word)
    }
}

/// How an argument is given.
#[derive(Clone, Copy)]
pub(crate) enum Form {
    /// A word of its own.
    Word,
    /// Any number of words.
    Words,
    /// `--name`.
    Flag,
    /// `--name VALUE`.
    Value(Value),
}

/// What the value of an option is.
#[derive(Clone, Copy)]
pub(crate) enum Value {
    /// A text, by the name that help has for it.
    Text(&'static str),
    /// A number above 0.
    Number,
    /// An edition of images, 1 or 2.
    Edition,
}

impl Value {
    /// Its name, as help shows it.
    pub(crate) fn name(self) -> &'static str {
        match self {
            Value::Text(name) => name,
            Value::Number => "N",
            Value::Edition => "1|2",
        }
    }

    /// What is wanted in the place of a word that can't be one.
    pub(crate) fn wanted_for(self, word: &str) -> Option<&'static str> {
        match self {
            Value::Text(_) => None,
            Value::Number if word.parse::<u64>().is_ok_and(|number| number > 0) => None,
            Value::Number => Some("a number above 0"),
            Value::Edition if word == "1" || word == "2" => None,
            Value::Edition => Some("1 or 2"),
        }
    }
}

pub(crate) static COMMANDS: [CommandHelp; 7] = [
    CommandHelp {
        name: "match",
        about: "Says whether a rule or a filter matches a message, or messages of a capture",
        arguments: &[RULE, MESSAGE, FILTER, OWNS, EACH, WHY, NEAREST],
    },
    CommandHelp {
        name: "asm",
        about: "Prints the bytes of a program, one instruction a line",
        arguments: &[PROGRAM_ALONE],
    },
    CommandHelp {
        name: "check",
        about: "Says whether a program is accepted",
        arguments: &[PROGRAM_ALONE],
    },
    CommandHelp {
        name: "compile",
        about: "Prints the program of a rule or a filter as assembler text",
        arguments: &[RULE, FILTER],
    },
    CommandHelp {
        name: "run",
        about: "Runs a program on a message, or on each of a capture",
        arguments: &[PROGRAM, MESSAGE, EDITION, EACH, TRACE],
    },
    CommandHelp {
        name: "serve",
        about: "Serves a bus",
        arguments: &[
            ArgumentHelp {
                name: "listen",
                form: Form::Value(Value::Text("ADDRESS")),
                is_required: false,
                text: "Where to listen, once for each place (unix:path=P, tcp:host=H,port=P); else the user's place",
            },
            ArgumentHelp {
                name: "guid",
                form: Form::Value(Value::Text("GUID")),
                is_required: false,
                text: "The bus's id, 32 hexadecimal digits; else random ones",
            },
            ArgumentHelp {
                name: "print-address",
                form: Form::Flag,
                is_required: false,
                text: "Prints the address alone; a descriptor's number may follow",
            },
            ArgumentHelp {
                name: "session",
                form: Form::Flag,
                is_required: false,
                text: "Listens at a new place if no address is given",
            },
            ArgumentHelp {
                name: "nofork",
                form: Form::Flag,
                is_required: false,
                text: "Changes nothing; dbus-run-session gives it",
            },
            ArgumentHelp {
                name: "allow-anonymous",
                form: Form::Flag,
                is_required: false,
                text: "Lets in clients that don't say who they are",
            },
            ArgumentHelp {
                name: "allow-external",
                form: Form::Flag,
                is_required: false,
                text: "Lets in clients that claim any user or, over TCP, none",
            },
            ArgumentHelp {
                name: "connections",
                form: Form::Value(Value::Number),
                is_required: false,
                text: "End after N connections have come and gone",
            },
            ArgumentHelp {
                name: "until-closed",
                form: Form::Flag,
                is_required: false,
                text: "End once standard input, a pipe or a socket, is closed at its other end",
            },
            ArgumentHelp {
                name: "limit",
                form: Form::Value(Value::Text("NAME=N")),
                is_required: false,
                text: "Sets a limit: rules, all-rules, instructions, all-instructions, names, all-names, claims, calls, messages, bytes, unfinished, silence, clients, newcomers, hello",
            },
            ArgumentHelp {
                name: "log",
                form: Form::Flag,
                is_required: false,
                text: "Says who comes and goes, on standard error",
            },
            ArgumentHelp {
                name: "quiet",
                form: Form::Flag,
                is_required: false,
                text: "Doesn't say whom the bus has ended, and why",
            },
        ],
    },
    CommandHelp {
        name: "watch",
        about: "Prints what goes over a bus, one message a line",
        arguments: &[
            ArgumentHelp {
                name: "ADDRESS",
                form: Form::Word,
                is_required: false,
                text: "session, system, or a D-Bus address as unix:path=/run/bus",
            },
            ArgumentHelp {
                name: "RULE",
                form: Form::Words,
                is_required: false,
                text: "Match rules: messages of which any of them holds",
            },
            ArgumentHelp {
                name: "program",
                form: Form::Value(Value::Text("FILE")),
                is_required: false,
                text: "Only messages that this program accepts, which is assembler text and runs here",
            },
            EDITION,
            ArgumentHelp {
                name: "filter",
                form: Form::Value(Value::Text("EXPR")),
                is_required: false,
                text: "Only messages that this filter expression holds of, as \"signal and member = c\"; it runs here",
            },
            ArgumentHelp {
                name: "attach",
                form: Form::Flag,
                is_required: false,
                text: "Has the bus run the program or the filter, which one of dbusfan's own can do",
            },
            ArgumentHelp {
                name: "monitor",
                form: Form::Flag,
                is_required: false,
                text: "Shows calls, answers and messages to others too; the bus may want root",
            },
            ArgumentHelp {
                name: "invert",
                form: Form::Flag,
                is_required: false,
                text: "Shows the messages that otherwise aren't shown",
            },
            ArgumentHelp {
                name: "why",
                form: Form::Flag,
                is_required: false,
                text: "Shows the messages that fail the one rule by one condition alone, or the filter by one test, and which it is",
            },
            ArgumentHelp {
                name: "rules",
                form: Form::Value(Value::Text("FILE")),
                is_required: false,
                text: "Says at the end how many messages each rule takes, of a file with one a line",
            },
            ArgumentHelp {
                name: "of",
                form: Form::Value(Value::Text("NAME")),
                is_required: false,
                text: "Says it of the rules that a connection has at the bus, which may want root",
            },
            ArgumentHelp {
                name: "calls",
                form: Form::Flag,
                is_required: false,
                text: "Shows each call with its answer and the time between, and a table of methods at the end",
            },
            ArgumentHelp {
                name: "slow",
                form: Form::Value(Value::Number),
                is_required: false,
                text: "Of these only calls that took longer than N milliseconds",
            },
            ArgumentHelp {
                name: "patience",
                form: Form::Value(Value::Number),
                is_required: false,
                text: "For N seconds a call waits until it is said to have no answer; for 25 if it isn't given",
            },
            ArgumentHelp {
                name: "summary",
                form: Form::Flag,
                is_required: false,
                text: "Shows only a table at the end: who sent what, how many messages, bytes and messages a second",
            },
            ArgumentHelp {
                name: "top",
                form: Form::Flag,
                is_required: false,
                text: "Shows this table on a terminal, the most messages first, anew each second, until --seconds, q or Ctrl-C",
            },
            ArgumentHelp {
                name: "hex",
                form: Form::Flag,
                is_required: false,
                text: "Writes messages as hexadecimal digits, for match and run",
            },
            ArgumentHelp {
                name: "json",
                form: Form::Flag,
                is_required: false,
                text: "Writes messages as JSON, like busctl --json=short",
            },
            ArgumentHelp {
                name: "time",
                form: Form::Flag,
                is_required: false,
                text: "Writes the time before each message, in seconds since 1970",
            },
            ArgumentHelp {
                name: "clock",
                form: Form::Flag,
                is_required: false,
                text: "Writes the local time of day before each message",
            },
            ArgumentHelp {
                name: "full",
                form: Form::Flag,
                is_required: false,
                text: "Writes arguments whole, also on a terminal, and those of calls",
            },
            ArgumentHelp {
                name: "names",
                form: Form::Flag,
                is_required: false,
                text: "Writes the names that a connection owns in place of :1.7",
            },
            ArgumentHelp {
                name: "count",
                form: Form::Value(Value::Number),
                is_required: false,
                text: "Ends after N messages",
            },
            ArgumentHelp {
                name: "seconds",
                form: Form::Value(Value::Number),
                is_required: false,
                text: "Ends after N seconds",
            },
            ArgumentHelp {
                name: "write",
                form: Form::Value(Value::Text("FILE")),
                is_required: false,
                text: "Writes a capture in place of lines",
            },
            ArgumentHelp {
                name: "read",
                form: Form::Value(Value::Text("FILE")),
                is_required: false,
                text: "Reads messages from a capture, not from a bus, so ADDRESS is left out",
            },
        ],
    },
];

const RULE: ArgumentHelp = ArgumentHelp {
    name: "RULE",
    form: Form::Word,
    is_required: true,
    text: "A match rule, as \"type='signal',member='c'\"",
};

const MESSAGE: ArgumentHelp = ArgumentHelp {
    name: "FILE",
    form: Form::Word,
    is_required: true,
    text: "A message as hexadecimal text, or a pcap or pcapng capture",
};

const FILTER: ArgumentHelp = ArgumentHelp {
    name: "filter",
    form: Form::Value(Value::Text("EXPR")),
    is_required: false,
    text: "A filter expression in place of RULE, as \"signal and arg0 = 70\"; see dbusfan-filter(7)",
};

const OWNS: ArgumentHelp = ArgumentHelp {
    name: "owns",
    form: Form::Flag,
    is_required: false,
    text: "The sender owns the rule's well-known name, or those that the filter asks for",
};

const EACH: ArgumentHelp = ArgumentHelp {
    name: "each",
    form: Form::Flag,
    is_required: false,
    text: "FILE is a capture; a line is printed for each message",
};

const WHY: ArgumentHelp = ArgumentHelp {
    name: "why",
    form: Form::Flag,
    is_required: false,
    text: "Says of a message that doesn't match which conditions don't hold, and what it has there; with --filter, of each test whether it holds",
};

const NEAREST: ArgumentHelp = ArgumentHelp {
    name: "nearest",
    form: Form::Value(Value::Number),
    is_required: false,
    text: "With --each: prints only the N messages that fail by the fewest conditions, and why",
};

const TRACE: ArgumentHelp = ArgumentHelp {
    name: "trace",
    form: Form::Flag,
    is_required: false,
    text: "Prints the steps too, one a line: the instruction, A, X, scratch words, and what a load reads",
};

const PROGRAM: ArgumentHelp = ArgumentHelp {
    name: "PROGRAM",
    form: Form::Word,
    is_required: true,
    text: PROGRAM_TEXT,
};

const PROGRAM_ALONE: ArgumentHelp = ArgumentHelp {
    name: "FILE",
    form: Form::Word,
    is_required: true,
    text: PROGRAM_TEXT,
};

const PROGRAM_TEXT: &str = "A file that has a program as assembler text";

const EDITION: ArgumentHelp = ArgumentHelp {
    name: "edition",
    form: Form::Value(Value::Edition),
    is_required: false,
    text: "The edition of images that the program is for; 1 if it isn't given",
};
