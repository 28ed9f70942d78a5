// Whether a message may reach anybody.

ghost use Rattle.std.specs.Prelude.{◌≡◌, Some};
ghost use Rattle.message_view.specs.Message.{Message};
ghost use Rattle.message_view.specs.Valid.{Valid};
ghost use Rattle.match_rule.specs.FixedTexts.{texts_from};
ghost use Rattle.fan_out.specs.Reach.{TellsReach};

use entry_table::offered_where_it_holds;
use message_view::View;
use program_table::{BusState, Handle};

/// Whether a message with the member, the interface, the path and the argument 0 of this one, and with this SENDER, is
/// offered to an entry. If it isn't, nobody gets it. So a bus can ask before it stamps a broadcast with its sender: most are
/// for nobody. No memory is taken, and no program is run.
pub fn may_reach<'a, M: Handle>(state: &'a BusState<M>, view: &View<'a>, sender: &'a str) -> bool
    ensures { (m : Message) → Valid view.now m → TellsReach state.entry.now (texts_from (Some sender.entry.now) m) result }
{
    offered_where_it_holds();
    let mut entries = state.entries_for(view, Some(sender));
    match entries.next() {
        Some(_) => true,
        None => false,
    }
}
