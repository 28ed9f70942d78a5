// What a client says in an authentication talk.

ghost use Rattle.std.specs.Prelude.{◌≡◌, ◌<◌, ◌↔◌, true};
ghost use Rattle.bus_client.specs.Talk.{lines_left, may_ask, may_begin};

use crate::transport::Transport;

/// What the client has said last.
#[derive(Clone, Copy, Debug, PartialEq, Eq)]
pub enum Stage {
    /// That the system may tell the server who the client is, without a name.
    External,
    /// The same, and that it has no more to say of that.
    ExternalData,
    /// That it is nobody.
    Anonymous,
    /// The same, and that it has no more to say of that.
    AnonymousData,
    /// That it takes messages with file descriptors. A server sends it none of them otherwise, or ends the connection.
    Descriptors,
}

/// A line of the server (D-Bus Specification, "Authentication Protocol").
#[derive(Clone, Copy, Debug, PartialEq, Eq)]
pub enum Answer {
    Ok,
    Data,
    Rejected,
    Error,
    Agree,
    Other,
}

/// What a client does after a line of the server's.
#[derive(Clone, Copy, Debug, PartialEq, Eq)]
pub enum Say {
    /// The line of this stage.
    Line(Stage),
    /// BEGIN, and then messages.
    Begin,
    /// Nothing: the bus refuses both mechanisms, or talks otherwise.
    Nothing,
}

/// Whether a line begins with a word.
fn begins_with(line: &[u8], word: &[u8]) -> bool {
    match line.strip_prefix(word) {
        Some(rest) => rest.is_empty() || rest[0] == b' ',
        None => false,
    }
}

impl Answer {
    /// What a line of the server's says, without its line end.
    pub fn of(line: &[u8]) -> Answer {
        if begins_with(line, b"OK") {
            Answer::Ok
        } else if begins_with(line, b"DATA") {
            Answer::Data
        } else if begins_with(line, b"REJECTED") {
            Answer::Rejected
        } else if begins_with(line, b"ERROR") {
            Answer::Error
        } else if begins_with(line, b"AGREE_UNIX_FD") {
            Answer::Agree
        } else {
            Answer::Other
        }
    }
}

impl Stage {
    /// The line by which a client comes to this stage.
    pub fn line(self) -> &'static str {
        match self {
            Stage::External => "AUTH EXTERNAL\r\n",
            Stage::Anonymous => "AUTH ANONYMOUS\r\n",
            Stage::ExternalData | Stage::AnonymousData => "DATA\r\n",
            Stage::Descriptors => "NEGOTIATE_UNIX_FD\r\n",
        }
    }

    /// What a client does at an answer of the server's.
    pub fn after(self, answer: Answer, transport: Transport) -> Say
        // Each line of the client's brings the talk nearer to its end.
        ensures nearer { (next : Stage) → result ≡ Say.Line next → lines_left next < lines_left self }
        // A client asks for descriptors exactly if the server has accepted it and the socket is a Unix socket, which passes them.
        ensures asks { (result ≡ Say.Line Stage.Descriptors) ↔ (may_ask transport self answer ≡ true) }
        // A client begins exactly if the server has accepted it and has answered the question for descriptors, if one was asked.
        ensures begins { (result ≡ Say.Begin) ↔ (may_begin transport self answer ≡ true) }
    {
        match (self, answer) {
            (Stage::Descriptors, Answer::Agree | Answer::Error) => Say::Begin,
            (Stage::Descriptors, _) => Say::Nothing,
            (_, Answer::Ok) => match transport {
                Transport::Unix => Say::Line(Stage::Descriptors),
                Transport::Tcp => Say::Begin,
            },
            (Stage::External, Answer::Data) => Say::Line(Stage::ExternalData),
            (Stage::Anonymous, Answer::Data) => Say::Line(Stage::AnonymousData),
            (Stage::External | Stage::ExternalData, Answer::Rejected | Answer::Error) => {
                Say::Line(Stage::Anonymous)
            }
            _ => Say::Nothing,
        }
    }
}
