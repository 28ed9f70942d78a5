// What calls of passes come to together.

ghost use Rattle.std.specs.Prelude.{◌≡◌, ◌++◌, ◌∷◌, [], false, true, ℕ, List, None};
ghost use mathlib.Core.List.{IsPrefix};
ghost use Rattle.message_view.specs.Message.{Message};
ghost use Rattle.program_table.specs.Does.{next_of};
ghost use Rattle.program_table.specs.Recipients.{AreRecipients};
ghost use Rattle.program_table.specs.State.{State};
ghost use Rattle.program_table.specs.declared.command.Command.{Command};
ghost use Rattle.program_table.specs.declared.command.Reply.{Reply};
ghost use Rattle.published.specs.Publication.{Publication};
ghost use Rattle.passes.specs.declared.reading.Source.{Source};
ghost use Rattle.passes.specs.declared.standing.Standing.{Standing};
ghost use Rattle.passes.specs.Passes.{PassState};
ghost use Rattle.passes.specs.Calls.{IsDone};
ghost use Rattle.passes.specs.NameCalls.{command_of};
ghost use Rattle.passes.specs.declared.name_call.NameCall.{NameCall};
ghost use Rattle.passes.specs.Routes.{HasRouted, is_there};
ghost use Rattle.passes.specs.Unicasts.{Unicasts};
ghost use Rattle.passes.specs.declared.unicasts.Sent.{Sent};
ghost use Rattle.routing.specs.RecipientSeats.{puts_at, waits_at};

use routing::Mailbox;

/// What was answered is in force for whoever learned of it. Where a command was accepted of a pass, and another one, or the same,
/// has since seen all that it had seen then, as `learn` ensures of the history that it tells: what the other asks for is
/// accepted, and what it sends is routed, after a history that begins with the command and all that came before it.
pub fn accepted_is_in_force<M: Mailbox>()
    ensures asked { (v w u x : PassState M) (before next later after : Publication M) (command other : Command M) (reply answer : Reply)
        → IsDone v before command reply w next → IsPrefix w.seen u.seen → IsDone u later other answer x after → IsPrefix (before.history ++ command ∷ []) later.history }
    ensures routed { (v w u x : PassState M) (before next : Publication M) (command : Command M) (reply : Reply) (standing : Standing) (source : Source) (bytes recipients refused : List ℕ)
        → IsDone v before command reply w next → IsPrefix w.seen u.seen → HasRouted standing M.outbox_of source bytes u recipients refused x → IsPrefix (before.history ++ command ∷ []) x.seen }
{}

/// A call about names doesn't change who hears the bus: the recipients of a message of the bus are the same before its command
/// and after it. So a change of an owner may be put to its recipients before its command is published.
pub fn bus_is_heard_by_the_same<M: Mailbox>()
    ensures { (s : State M) (connection : ℕ) (call : NameCall) (m : Message) (numbers : List ℕ)
        → AreRecipients s None m numbers → AreRecipients (next_of s (command_of connection call)) None m numbers }
{}

/// What is put waits to be written out: where nothing waits at the outbox of a connection that is there, a broadcast or a message
/// to a name has put nothing at it.
pub fn what_is_put_waits<M: Mailbox>()
    ensures broadcast { (v w : PassState M) (standing : Standing) (source : Source) (bytes recipients refused : List ℕ) (n : ℕ)
        → HasRouted standing M.outbox_of source bytes v recipients refused w → is_there n w ≡ true → waits_at n w.recipient_seats ≡ false → puts_at n w.recipient_seats ≡ puts_at n v.recipient_seats }
    ensures unicast { (v w : PassState M) (standing : Standing) (to bytes : List ℕ) (sent : Sent) (n : ℕ)
        → Unicasts standing M.outbox_of to bytes v sent w → is_there n w ≡ true → waits_at n w.recipient_seats ≡ false → puts_at n w.recipient_seats ≡ puts_at n v.recipient_seats }
{}
