// The server's side of a talk.

ghost use Rattle.std.specs.Prelude.{◌≡◌, ◌+◌, ◌≢◌, ◌<◌, ◌≤◌, ◌↔◌, ◌++◌, false, List, ℕ, [], take, length, IsTrue, IsErr, IfOk};
ghost use Rattle.auth.specs.Talk.{Standing, opening, opening_with, hear, by_lines, talk, taken_of, after};
ghost use Rattle.auth.specs.Lines.{through_line};
ghost use Rattle.auth.specs.Feeding.{answer_in};
ghost use Rattle.auth.specs.Stages.{is_over};

use crate::admission::Admission;
use crate::command::{Command, claim};
use crate::line::{LineState, MAX_LINE_LEN, add, without_end};
use crate::stage::{ANSWER_LEN, Reply, Stage, StageRow};
use crate::terms::Terms;
use arrayvec::ArrayVec;
use std::error::Error;
use std::fmt;
use std::marker::Model;

/// How many rejections are sent; in place of one more the talk ends.
const MAX_REJECTIONS: u8 = 7;

/// The server refused the client: its first byte isn't zero, a line is too long, BEGIN comes too early, or too many
/// attempts were rejected.
#[derive(Clone, Copy, Debug, PartialEq, Eq)]
pub struct AuthError;

impl fmt::Display for AuthError {
    ghost use Rattle.std.specs.Prelude.{Some, codes};

    ghost output = { λ error. Some (codes "Auth") };

    fn fmt<W: fmt::Write>(&self, f: &mut fmt::Formatter<W>) -> fmt::Result {
        write!(f, "Auth")
    }
}

impl Error for AuthError {}

/// What a call of `Auth::feed` did.
#[derive(Drop)]
pub struct Fed {
    /// How many bytes were taken.
    pub taken: usize,
    /// What is to be sent to the client.
    pub answer: ArrayVec<u8, ANSWER_LEN>,
    /// Whether BEGIN was taken: the bytes that weren't taken are messages.
    pub begun: bool,
}

/// The server's side of one authentication talk. It takes no memory.
#[derive(Drop)]
pub struct Auth {
    terms: Terms,
    stage: Stage,
    rejections: u8,
    line: ArrayVec<u8, MAX_LINE_LEN>,
}

impl Model for Auth {
    ghost use Rattle.auth.specs.Talk.{Standing};
    ghost use Rattle.auth.specs.Kept.{IsKept};

    ghost Value = { Standing };

    ghost view = { λ a. record { terms = a.terms; stage = a.stage; rejections = a.rejections; line = a.line.items } };

    ghost invariant = { λ a. IsKept a.rejections a.line.items };
}

/// Where a line leads, and the answer to it.
#[derive(Drop)]
struct LineAnswer {
    stage: Stage,
    rejections: u8,
    answer: ArrayVec<u8, ANSWER_LEN>,
}

fn answer_line(terms: &Terms, stage: Stage, rejections: u8, line: &[u8]) -> LineAnswer
    requires goes_on { is_over stage ≡ false }
    requires short { length line.now + 2 ≤ MAX_LINE_LEN }
    requires sent { rejections ≤ MAX_REJECTIONS }
    ensures answer { hear (record { terms = terms.now; stage = stage; rejections = rejections; line = [] }) line.now
        ≡ record { standing = record { terms = terms.now; stage = result.stage; rejections = result.rejections; line = [] }; answers = result.answer.items } }
    ensures sent { result.rejections ≤ MAX_REJECTIONS }
    ensures refusal { result.stage ≡ Stage.Failed → result.answer.items ≡ [] }
{
    let command = terms.admission.admit(stage, claim(line), Command::of(line));
    let row = StageRow::of(stage, command);
    if row.reply != Reply::Rejected {
        return LineAnswer {
            stage: row.stage,
            rejections,
            answer: row.reply.bytes(terms),
        };
    }
    if rejections == MAX_REJECTIONS {
        return LineAnswer {
            stage: Stage::Failed,
            rejections,
            answer: ArrayVec::new(),
        };
    }
    LineAnswer {
        stage: row.stage,
        rejections: rejections + 1,
        answer: Reply::Rejected.bytes(terms),
    }
}

impl Auth {
    /// A talk before its first byte, with the server's GUID as 32 hexadecimal digits. It admits EXTERNAL for anybody, and
    /// ANONYMOUS.
    pub fn new(guid: [u8; 32]) -> Auth
        ensures { result ≡ opening guid }
    {
        Auth::admitting(guid, Admission::any())
    }

    /// The same of a talk that admits what is asked for.
    pub fn admitting(guid: [u8; 32], admission: Admission) -> Auth
        ensures { result ≡ opening_with (record { guid = guid; admission = admission }) }
    {
        Auth {
            terms: Terms { guid, admission },
            stage: Stage::Opening,
            rejections: 0,
            line: ArrayVec::new(),
        }
    }

    /// Takes the client's next bytes through the next line end, all where none is there, and none once messages began.
    /// Bytes that were not taken are to be given again.
    ///
    /// # Errors
    ///
    /// The client was refused, in this call or before.
    pub fn feed(&mut self, bytes: &[u8]) -> Result<Fed, AuthError>
        ensures within { IfOk result (λ fed. fed.taken ≤ length bytes.now) }
        ensures taken { IfOk result (λ fed. fed.taken ≡ taken_of self.old bytes.now) }
        ensures talk { talk self.old (take (taken_of self.old bytes.now) bytes.now) ≡ record { standing = self.new; answers = answer_in result } }
        ensures begun { IfOk result (λ fed. IsTrue fed.begun ↔ (self.new.stage ≡ Stage.Begun)) }
        ensures failed { IsErr result ↔ (self.new.stage ≡ Stage.Failed) }
    {
        match self.stage {
            Stage::Failed => Err(AuthError),
            Stage::Begun => Ok(Fed {
                taken: 0,
                answer: ArrayVec::new(),
                begun: true,
            }),
            Stage::Opening => self.open(bytes),
            _ => self.take_line(bytes),
        }
    }

    fn open(&mut self, bytes: &[u8]) -> Result<Fed, AuthError>
        requires { self.old.stage ≡ Stage.Opening }
        ensures within { IfOk result (λ fed. fed.taken ≤ length bytes.now) }
        ensures taken { IfOk result (λ fed. fed.taken ≡ taken_of self.old bytes.now) }
        ensures talk { talk self.old (take (taken_of self.old bytes.now) bytes.now) ≡ record { standing = self.new; answers = answer_in result } }
        ensures begun { IfOk result (λ fed. IsTrue fed.begun ↔ (self.new.stage ≡ Stage.Begun)) }
        ensures failed { IsErr result ↔ (self.new.stage ≡ Stage.Failed) }
    {
        let Some((first, rest)) = bytes.split_first() else {
            return Ok(Fed {
                taken: 0,
                answer: ArrayVec::new(),
                begun: false,
            });
        };
        if *first != 0 {
            self.stage = Stage::Failed;
            self.line.clear();
            return Err(AuthError);
        }
        self.stage = Stage::Start;
        match self.take_line(rest) {
            Ok(fed) => {
                let Fed {
                    taken,
                    answer,
                    begun,
                } = fed;
                Ok(Fed {
                    taken: taken + 1,
                    answer,
                    begun,
                })
            }
            Err(fault) => Err(fault),
        }
    }

    fn take_line(&mut self, bytes: &[u8]) -> Result<Fed, AuthError>
        requires { is_over self.old.stage ≡ false }
        ensures within { IfOk result (λ fed. fed.taken ≤ length bytes.now) }
        ensures taken { IfOk result (λ fed. fed.taken ≡ through_line self.old.line bytes.now) }
        ensures talk { by_lines self.old (take (through_line self.old.line bytes.now) bytes.now) ≡ record { standing = self.new; answers = answer_in result } }
        ensures begun { IfOk result (λ fed. IsTrue fed.begun ↔ (self.new.stage ≡ Stage.Begun)) }
        ensures failed { IsErr result ↔ (self.new.stage ≡ Stage.Failed) }
    {
        let (taken, state) = add(&mut self.line, bytes);
        match state {
            LineState::Open => Ok(Fed {
                taken,
                answer: ArrayVec::new(),
                begun: false,
            }),
            LineState::Full => {
                self.stage = Stage::Failed;
                self.line.clear();
                Err(AuthError)
            }
            LineState::Ended => {
                let text = without_end(self.line.as_slice());
                let line_answer = answer_line(&self.terms, self.stage, self.rejections, text);
                let LineAnswer {
                    stage,
                    rejections,
                    answer,
                } = line_answer;
                self.stage = stage;
                self.rejections = rejections;
                self.line.clear();
                if let Stage::Failed = stage {
                    return Err(AuthError);
                }
                Ok(Fed {
                    taken,
                    answer,
                    begun: stage == Stage::Begun,
                })
            }
        }
    }
}

/// Feeding bytes in two cuts is feeding them in one: they lead to the same place, with the same answers.
pub fn in_two_cuts()
    ensures { (s : Standing) (front back : List ℕ) → talk s (front ++ back) ≡ after (talk s front).answers (talk (talk s front).standing back) }
{}
