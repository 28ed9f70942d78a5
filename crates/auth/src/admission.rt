// What a talk admits.

ghost use Rattle.std.specs.Prelude.{◌≡◌, ◌≤◌, ◌++◌, List, length, decimal};
ghost use Rattle.std.specs.Str.{bytes_eq};
ghost use Rattle.hex.specs.Hex.{encode_lower};
ghost use Rattle.auth.specs.Admissions.{any_admission, spells_user, admits_external, admits_user, admits_keeper, is_answer, admit};

use crate::challenge::CookieChallenge;
use crate::command::Command;
use crate::line::MAX_LINE_LEN;
use crate::stage::Stage;
use itoa::Buffer;

/// Whom EXTERNAL admits (D-Bus Specification, "EXTERNAL").
#[derive(Clone, Copy, Debug, PartialEq, Eq)]
pub enum External {
    /// Whoever claims any user, or none.
    Anybody,
    /// Whoever claims this user, by its number, or leaves it to the server to know the user.
    User(u32),
    /// The mechanism isn't admitted.
    Nobody,
}

/// What a talk admits (D-Bus Specification, "Authentication Mechanisms").
#[derive(Clone, Copy, Debug, PartialEq, Eq)]
pub struct Admission {
    pub external: External,
    /// The cookie of DBUS_COOKIE_SHA1, where that is admitted.
    pub cookie: Option<CookieChallenge>,
    /// Whether ANONYMOUS is admitted.
    pub anonymous: bool,
}

/// The number of digits of the largest user number.
const USER_DIGITS: usize = 10;

/// Whether a text is a user's number, each of its decimal digits as two hexadecimal ones.
fn spells_user(user: u32, text: &[u8]) -> bool
    ensures { result ≡ spells_user user text.now }
{
    let mut buffer = Buffer::new();
    let number = buffer.format(user).as_bytes();
    let mut room = [0; 2 * USER_DIGITS];
    let digits = &mut room[..2 * number.len()];
    let _ = hex::encode_to_slice(number, digits);
    text == &*digits
}

impl External {
    /// Whether it admits anybody at all.
    pub(crate) fn is_admitted(self) -> bool
        ensures { result ≡ admits_external self }
    {
        self != External::Nobody
    }

    /// Whether it admits a claim, which is a user in hexadecimal digits, or nothing.
    fn admits(self, claim: &[u8]) -> bool
        ensures { result ≡ admits_user self claim.now }
    {
        match self {
            External::Anybody => true,
            External::User(user) => claim.is_empty() || spells_user(user, claim),
            External::Nobody => false,
        }
    }
}

impl Admission {
    /// What the table of a talk says: EXTERNAL for anybody, and ANONYMOUS.
    pub fn any() -> Admission
        ensures { result ≡ any_admission }
    {
        Admission {
            external: External::Anybody,
            cookie: None,
            anonymous: true,
        }
    }

    /// Whether the cookie is one of the user whom a claim names.
    fn admits_keeper(&self, claim: &[u8]) -> bool
        ensures { result ≡ admits_keeper self.now.cookie claim.now }
    {
        match &self.cookie {
            Some(challenge) => spells_user(challenge.user, claim),
            None => false,
        }
    }

    /// Whether what a client says after DATA lets it in.
    fn is_answer(&self, stage: Stage, claim: &[u8]) -> bool
        requires { length claim.now ≤ MAX_LINE_LEN }
        ensures { result ≡ is_answer self.now stage claim.now }
    {
        match (stage, &self.cookie) {
            (Stage::Challenged, Some(challenge)) => challenge.is_answered(claim),
            (Stage::Challenged, None) => false,
            _ => self.external.admits(claim),
        }
    }

    /// The command, or in place of one that isn't admitted another of its word, which is rejected.
    pub(crate) fn admit(&self, stage: Stage, claim: &[u8], command: Command) -> Command
        requires { length claim.now ≤ MAX_LINE_LEN }
        ensures { result ≡ admit self.now stage claim.now command }
    {
        match command {
            Command::AskExternal | Command::Claim if !self.external.admits(claim) =>
                Command::OtherAuth,
            Command::Trace if !self.anonymous => Command::OtherAuth,
            Command::AskCookie if !self.admits_keeper(claim) => Command::OtherAuth,
            Command::Response if !self.is_answer(stage, claim) => Command::OtherData,
            command => command,
        }
    }
}
