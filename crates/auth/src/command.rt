// What a client says in a line.

ghost use Rattle.std.specs.Prelude.{◌≡◌, ◌≤◌, length, option_map};
ghost use Rattle.std.specs.List.{list_all};
ghost use Rattle.std.specs.Char.{is_ascii_hexdigit};
ghost use Rattle.auth.specs.Commands.{Words, words_of, is_hexadecimal, by_text, mechanism, auth_command, alone, command_in, command_of, text_in, claim_after, claim_of};

/// A line of a talk, without its CR LF (D-Bus Specification, "Authentication Protocol").
#[derive(Clone, Copy, Debug, PartialEq, Eq)]
pub(crate) enum Command {
    /// `AUTH EXTERNAL`, which claims no user yet.
    AskExternal,
    /// `AUTH EXTERNAL` with a user.
    Claim,
    /// `AUTH ANONYMOUS`, with or without a trace.
    Trace,
    /// `AUTH DBUS_COOKIE_SHA1` with a user.
    AskCookie,
    /// Any other `AUTH`.
    OtherAuth,
    /// `DATA`, with or without hexadecimal digits.
    Response,
    /// Any other `DATA`.
    OtherData,
    Begin,
    Cancel,
    /// `ERROR`, with or without a text.
    Complaint,
    Unknown,
}

impl Command {
    /// The command of a line.
    pub(crate) fn of(line: &[u8]) -> Command
        ensures { result ≡ command_of line.now }
    {
        let (word, more) = cut(line);
        if word == b"AUTH".as_slice() {
            auth(more)
        } else if word == b"DATA".as_slice() {
            by_text(
                Command::Response,
                Command::Response,
                Command::OtherData,
                more,
            )
        } else if word == b"BEGIN".as_slice() {
            alone(Command::Begin, more)
        } else if word == b"CANCEL".as_slice() {
            alone(Command::Cancel, more)
        } else if word == b"ERROR".as_slice() {
            Command::Complaint
        } else {
            Command::Unknown
        }
    }
}

/// The first word, and what follows its space where there is one.
pub(crate) fn cut(line: &[u8]) -> (&[u8], Option<&[u8]>)
    ensures word { result.0.now ≡ (words_of line.now).word }
    ensures more { option_map (λ text. text.now) result.1 ≡ (words_of line.now).more }
    ensures short { length (text_in (option_map (λ text. text.now) result.1)) ≤ length line.now }
{
    for (i, byte) in line.iter().enumerate() {
        if *byte == b' ' {
            return (&line[..i], Some(&line[i + 1..]));
        }
    }
    (line, None)
}

fn auth(more: Option<&[u8]>) -> Command
    ensures { result ≡ auth_command (option_map (λ text. text.now) more.entry) }
{
    let Some(text) = more else {
        return Command::OtherAuth;
    };
    let (word, user) = cut(text);
    if word == b"EXTERNAL".as_slice() {
        by_text(
            Command::AskExternal,
            Command::Claim,
            Command::OtherAuth,
            user,
        )
    } else if word == b"ANONYMOUS".as_slice() {
        by_text(Command::Trace, Command::Trace, Command::OtherAuth, user)
    } else if word == b"DBUS_COOKIE_SHA1".as_slice() {
        by_text(
            Command::OtherAuth,
            Command::AskCookie,
            Command::OtherAuth,
            user,
        )
    } else {
        Command::OtherAuth
    }
}

/// What a line says after its word, and where that is AUTH after the mechanism; no byte where it ends there.
pub(crate) fn claim(line: &[u8]) -> &[u8]
    ensures value { result.now ≡ claim_of line.now }
    ensures short { length result.now ≤ length line.now }
{
    let (word, more) = cut(line);
    if word == b"AUTH".as_slice() {
        claim_after(more)
    } else {
        text_in(more)
    }
}

fn claim_after(more: Option<&[u8]>) -> &[u8]
    ensures value { result.now ≡ claim_after (option_map (λ text. text.now) more.entry) }
    ensures short { length result.now ≤ length (text_in (option_map (λ text. text.now) more.entry)) }
{
    match more {
        Some(text) => text_in(cut(text).1),
        None => &[],
    }
}

fn text_in(more: Option<&[u8]>) -> &[u8]
    ensures { result.now ≡ text_in (option_map (λ text. text.now) more.entry) }
{
    match more {
        Some(text) => text,
        None => &[],
    }
}

fn by_text(bare: Command, hexadecimal: Command, other: Command, more: Option<&[u8]>) -> Command
    ensures { result ≡ by_text bare hexadecimal other (option_map (λ text. text.now) more.entry) }
{
    match more {
        None => bare,
        Some(text) if is_hexadecimal(text) => hexadecimal,
        Some(_) => other,
    }
}

fn alone(command: Command, more: Option<&[u8]>) -> Command
    ensures { result ≡ alone command (option_map (λ text. text.now) more.entry) }
{
    match more {
        None => command,
        Some(_) => Command::Unknown,
    }
}

fn is_hexadecimal(text: &[u8]) -> bool
    ensures { result ≡ is_hexadecimal text.now }
{
    text.len() % 2 == 0 && are_digits(text)
}

fn are_digits(text: &[u8]) -> bool
    ensures { result ≡ list_all is_ascii_hexdigit text.now }
{
    text.iter().all(|byte| byte.is_ascii_hexdigit())
}
