// The stages of a talk, and what is answered at each.

ghost use Rattle.std.specs.Prelude.{◌≡◌, ◌≤◌, ◌++◌, [], length, codes};
ghost use Rattle.hex.specs.Hex.{encode_lower};
ghost use Rattle.auth.specs.Stages.{start_row, data_row, challenged_row, ready_row, row_of, is_over, line_end, mechanism_if, mechanisms, question_in, reply_bytes};

use crate::admission::Admission;
use crate::challenge::QUESTION_LEN;
use crate::command::Command;
use crate::terms::Terms;
use arrayvec::ArrayVec;

/// Where a talk stands (D-Bus Specification, "Authentication state diagrams": the server's states).
#[derive(Clone, Copy, Debug, PartialEq, Eq)]
pub enum Stage {
    /// The zero byte that begins a talk isn't there yet.
    Opening,
    /// WaitingForAuth
    Start,
    /// WaitingForData, of EXTERNAL
    Data,
    /// WaitingForData, of DBUS_COOKIE_SHA1
    Challenged,
    /// WaitingForBegin
    Ready,
    /// BEGIN came: the next bytes are messages.
    Begun,
    /// The client was refused.
    Failed,
}

impl Stage {
    pub(crate) fn is_over(self) -> bool
        ensures { result ≡ is_over self }
    {
        matches!(self, Stage::Begun | Stage::Failed)
    }
}

/// What is answered to a line.
#[derive(Clone, Copy, Debug, PartialEq, Eq)]
pub(crate) enum Reply {
    Nothing,
    /// `DATA`
    Challenge,
    /// `DATA` with the question of DBUS_COOKIE_SHA1
    Question,
    /// `OK` with the server's GUID
    Accepted,
    /// `REJECTED` with the mechanisms
    Rejected,
    /// `ERROR`
    Unclear,
}

/// The answer to a command, and the stage after it.
#[derive(Clone, Copy, Debug, PartialEq, Eq)]
pub(crate) struct StageRow {
    pub(crate) reply: Reply,
    pub(crate) stage: Stage,
}

fn start_row(command: Command) -> StageRow
    ensures { result ≡ start_row command }
{
    match command {
        Command::AskExternal => StageRow::new(Reply::Challenge, Stage::Data),
        Command::Claim => StageRow::new(Reply::Accepted, Stage::Ready),
        Command::Trace => StageRow::new(Reply::Accepted, Stage::Ready),
        Command::AskCookie => StageRow::new(Reply::Question, Stage::Challenged),
        Command::OtherAuth | Command::Complaint => StageRow::new(Reply::Rejected, Stage::Start),
        Command::Begin => StageRow::new(Reply::Nothing, Stage::Failed),
        _ => StageRow::new(Reply::Unclear, Stage::Start),
    }
}

fn data_row(command: Command) -> StageRow
    ensures { result ≡ data_row command }
{
    match command {
        Command::Response => StageRow::new(Reply::Accepted, Stage::Ready),
        Command::OtherData | Command::Cancel | Command::Complaint => StageRow::new(
            Reply::Rejected,
            Stage::Start,
        ),
        Command::Begin => StageRow::new(Reply::Nothing, Stage::Failed),
        _ => StageRow::new(Reply::Unclear, Stage::Data),
    }
}

fn challenged_row(command: Command) -> StageRow
    ensures { result ≡ challenged_row command }
{
    let row = data_row(command);
    match row.stage {
        Stage::Data => StageRow::new(row.reply, Stage::Challenged),
        _ => row,
    }
}

fn ready_row(command: Command) -> StageRow
    ensures { result ≡ ready_row command }
{
    match command {
        Command::Begin => StageRow::new(Reply::Nothing, Stage::Begun),
        Command::Cancel | Command::Complaint => StageRow::new(Reply::Rejected, Stage::Start),
        _ => StageRow::new(Reply::Unclear, Stage::Ready),
    }
}

impl StageRow {
    fn new(reply: Reply, stage: Stage) -> StageRow
        ensures { result ≡ record { reply = reply; stage = stage } }
    {
        StageRow { reply, stage }
    }

    /// The row of a stage and a command.
    pub(crate) fn of(stage: Stage, command: Command) -> StageRow
        ensures { result ≡ row_of stage command }
    {
        match stage {
            Stage::Start => start_row(command),
            Stage::Data => data_row(command),
            Stage::Challenged => challenged_row(command),
            Stage::Ready => ready_row(command),
            _ => StageRow::new(Reply::Nothing, stage),
        }
    }
}

/// How many bytes an answer has at most.
pub(crate) const ANSWER_LEN: usize = 160;

impl Reply {
    /// The bytes of the answer, by what the server says of itself.
    pub(crate) fn bytes(self, terms: &Terms) -> ArrayVec<u8, ANSWER_LEN>
        ensures { result.items ≡ reply_bytes terms.now self }
    {
        let mut bytes = ArrayVec::new();
        match self {
            Reply::Nothing => {}
            Reply::Challenge => put(&mut bytes, b"DATA\r\n"),
            Reply::Question => put_question(&mut bytes, terms),
            Reply::Accepted => {
                put(&mut bytes, b"OK ");
                put(&mut bytes, &terms.guid);
                put(&mut bytes, b"\r\n");
            }
            Reply::Rejected => put_rejection(&mut bytes, &terms.admission),
            Reply::Unclear => put(&mut bytes, b"ERROR\r\n"),
        }
        bytes
    }
}

fn put_question(bytes: &mut ArrayVec<u8, ANSWER_LEN>, terms: &Terms)
    requires { bytes.old.items ≡ [] }
    ensures { bytes.new.items ≡ reply_bytes terms.now Reply.Question }
{
    let question = question_in(&terms.admission);
    let mut room = [0; 2 * QUESTION_LEN];
    let digits = &mut room[..2 * question.len()];
    let _ = hex::encode_to_slice(question.as_slice(), digits);
    put(bytes, b"DATA ");
    put(bytes, digits);
    put(bytes, b"\r\n");
}

fn question_in(admission: &Admission) -> ArrayVec<u8, QUESTION_LEN>
    ensures { result.items ≡ question_in admission.now.cookie }
{
    match &admission.cookie {
        Some(challenge) => challenge.question(),
        None => ArrayVec::new(),
    }
}

fn put_rejection(bytes: &mut ArrayVec<u8, ANSWER_LEN>, admission: &Admission)
    requires { bytes.old.items ≡ [] }
    ensures { bytes.new.items ≡ codes "REJECTED" ++ mechanisms admission.now ++ line_end }
{
    put(bytes, b"REJECTED");
    put(
        bytes,
        name_if(admission.external.is_admitted(), b" EXTERNAL"),
    );
    put(
        bytes,
        name_if(admission.cookie.is_some(), b" DBUS_COOKIE_SHA1"),
    );
    put(bytes, name_if(admission.anonymous, b" ANONYMOUS"));
    put(bytes, b"\r\n");
}

fn name_if<'a>(is_admitted: bool, name: &'a [u8]) -> &'a [u8]
    ensures value { result.now ≡ mechanism_if is_admitted name.entry.now }
    ensures short { length result.now ≤ length name.entry.now }
{
    if is_admitted { name } else { &[] }
}

fn put(bytes: &mut ArrayVec<u8, ANSWER_LEN>, more: &[u8])
    requires { length (bytes.old.items ++ more.now) ≤ ANSWER_LEN }
    ensures { bytes.new.items ≡ bytes.old.items ++ more.now }
{
    let _ = bytes.try_extend_from_slice(more);
}
