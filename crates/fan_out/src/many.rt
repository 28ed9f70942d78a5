// The recipients of a message, found by several workers.

ghost use Rattle.std.specs.Prelude.{◌≡◌, ◌<◌, ◌≤◌, ◌↔◌, ◌⊎◌, IfOk, IfErr};
ghost use Rattle.message_view.specs.Message.{Message};
ghost use Rattle.message_view.specs.Valid.{Valid};
ghost use Rattle.program_table.specs.Recipients.{AreRecipients};
ghost use Rattle.fan_out.specs.Joining.{FindsRecipients};
ghost use Rattle.fan_out.specs.declared.error.FanError.TheVariants as errors;

use crate::error::FanError;
use crate::gate::Gate;
use crate::marks::{MAX_RECIPIENTS, Marks};
use crate::piece::Piece;
use crate::recipients::mark_recipients;
use crate::workers::{Work, all_pieces};
use arrayvec::ArrayVec;
use message_view::View;
use program_table::{BusState, Handle};
use std::sync::Wait;
use std::thread::Threads;

/// How many workers there may be.
pub const MAX_WORKERS: u32 = 16;

/// Who gets a message.
struct Question<'a, M: Handle, G> {
    state: &'a BusState<M>,
    sender: Option<u64>,
    view: &'a View<'a>,
    gate: &'a G,
    of: u32,
}

impl<'a, M: Handle, G> Drop for Question<'a, M, G> {
    fn drop(self) {
        let Question {
            state: _,
            sender: _,
            view: _,
            gate: _,
            of: _,
        } = self;
    }
}

impl<'a, M: Handle + Sync, G: Gate> Work for Question<'a, M, G> {
    ghost pieces = { λ q. q.of };

    ghost finds = { λ q part marks. FindsRecipients q.state.now q.sender q.view.now q.of part marks };

    fn piece(&self, part: u32) -> Marks {
        self.gate.before(part);
        let piece = Piece { part, of: self.of };
        let mut marks = Marks::new();
        mark_recipients(self.state, self.sender, self.view, piece, &mut marks);
        self.gate.after(part);
        marks
    }
}

/// The recipients of a broadcast as `select` gives them, found by workers, each of which looks at the connections of
/// one piece. The gate is called round each piece. Where a worker isn't started, those that were end first.
///
/// # Errors
///
/// `Workers` for no worker and for more than 16, and `NotStarted` where a worker's start was refused.
pub fn select_many<'a, M: Handle + Sync, G: Gate, R: Threads + Wait>(
    rt: &R,
    state: &'a BusState<M>,
    sender: Option<u64>,
    view: &'a View<'a>,
    workers: u32,
    gate: &'a G,
) -> Result<ArrayVec<u64, MAX_RECIPIENTS>, FanError>
    ensures recipients { IfOk result (λ recipients. (m : Message) → Valid view.entry.now m → AreRecipients state.entry.now sender m recipients.items) }
    ensures workers { (result ≡ Err errors.Workers) ↔ ((workers ≡ 0) ⊎ (MAX_WORKERS < workers)) }
{
    if workers == 0 || workers > MAX_WORKERS {
        return Err(FanError::Workers);
    }
    let question = Question {
        state,
        sender,
        view,
        gate,
        of: workers,
    };
    let marks = all_pieces(rt, &question, workers)?;
    let mut recipients = ArrayVec::new();
    marks.list(state.connections(), &mut recipients);
    Ok(recipients)
}
