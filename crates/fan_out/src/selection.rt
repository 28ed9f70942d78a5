ghost use Rattle.std.specs.Prelude.{◌≡◌, ◌<◌, ◌≤◌, [], length};
ghost use Rattle.message_view.specs.Message.{Message};
ghost use Rattle.message_view.specs.Valid.{Valid};
ghost use Rattle.program_table.specs.Recipients.{AreRecipients};
ghost use Rattle.program_table.specs.Candidates.{candidates};
ghost use Rattle.fan_out.specs.Pieces.{ArePieceRecipients};

use crate::marks::{MAX_RECIPIENTS, Marks};
use crate::piece::Piece;
use crate::recipients::list_recipients;
use arrayvec::ArrayVec;
use message_view::View;
use program_table::{BusState, Handle};

/// The recipients of a broadcast, by rising number. Without a sender it is the bus's own. No memory is taken.
pub fn select<'a, M: Handle>(
    state: &'a BusState<M>,
    sender: Option<u64>,
    view: &View<'a>,
) -> ArrayVec<u64, MAX_RECIPIENTS>
    ensures { (m : Message) → Valid view.now m → AreRecipients state.now sender m result.items }
{
    let mut marks = Marks::new();
    let mut recipients = ArrayVec::new();
    select_into(state, sender, view, &mut marks, &mut recipients);
    recipients
}

/// As `select`, into an empty list of the caller's, by marks of the caller's, which tell what it cost. Both have room for each
/// connection, which needn't be cleared and copied for each message.
pub fn select_into<'a, M: Handle>(
    state: &'a BusState<M>,
    sender: Option<u64>,
    view: &View<'a>,
    marks: &mut Marks,
    recipients: &mut ArrayVec<u64, MAX_RECIPIENTS>,
)
    requires { recipients.old.items ≡ [] }
    ensures { (m : Message) → Valid view.now m → AreRecipients state.now sender m recipients.new.items }
{
    let cost = list_recipients(
        state,
        sender,
        view,
        Piece { part: 1, of: 1 },
        marks,
        recipients,
    );
    marks.note_cost(cost);
}

/// Recipients, and how many programs were run to find them.
#[derive(Drop)]
pub struct Counted {
    pub recipients: ArrayVec<u64, MAX_RECIPIENTS>,
    pub runs: u32,
}

/// As `select`, with the count of the programs that were run.
pub fn select_counted<'a, M: Handle>(
    state: &'a BusState<M>,
    sender: Option<u64>,
    view: &View<'a>,
) -> Counted
    ensures recipients { (m : Message) → Valid view.now m → AreRecipients state.now sender m result.recipients.items }
    // Each recipient took a run, and only entries that the message may match by their member and interface were run.
    ensures least { length result.recipients.items ≤ result.runs }
    ensures most { (m : Message) → Valid view.now m → result.runs ≤ length (candidates state.now m) }
{
    let mut marks = Marks::new();
    let mut recipients = ArrayVec::new();
    let cost = list_recipients(
        state,
        sender,
        view,
        Piece { part: 1, of: 1 },
        &mut marks,
        &mut recipients,
    );
    Counted {
        recipients,
        runs: cost.runs,
    }
}

/// The recipients among the connections whose number leaves `part` - 1 when divided by `of`.
pub fn select_piece<'a, M: Handle>(
    state: &'a BusState<M>,
    sender: Option<u64>,
    view: &View<'a>,
    part: u32,
    of: u32,
) -> ArrayVec<u64, MAX_RECIPIENTS>
    requires from { 0 < part }
    requires within { part ≤ of }
    ensures { (m : Message) → Valid view.now m → ArePieceRecipients state.now sender m part of result.items }
{
    let mut marks = Marks::new();
    let mut recipients = ArrayVec::new();
    let piece = Piece { part, of };
    list_recipients(state, sender, view, piece, &mut marks, &mut recipients);
    recipients
}
