// What counts of commands tell of histories.

ghost use Rattle.std.specs.Prelude.{◌≡◌, ℕ, true, List, length};
ghost use Rattle.program_table.specs.declared.command.Command.{Command};
ghost use Rattle.program_table.specs.Connections.{commands_of, is_connected};
ghost use Rattle.program_table.specs.History.{after, IsHistory, own_commands};

use crate::handle::Handle;

/// After a history `commands` is its length, and `commands_of` each connection that is there the number of its own
/// commands.
pub fn commands_are_counted<M: Handle>()
    ensures all { (commands : List (Command M)) → IsHistory commands → (after commands).commands ≡ length commands }
    ensures own { (commands : List (Command M)) (c : ℕ) → IsHistory commands → is_connected c (after commands).connections ≡ true → commands_of c (after commands).connections ≡ length (own_commands c commands) }
{}
