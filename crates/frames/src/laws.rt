// Laws about streams.

ghost use Rattle.std.specs.Prelude.{◌≡◌, ◌++◌, ℕ, List, Option, Some};
ghost use Rattle.message_value.specs.declared.error.MsgError.{MsgError};
ghost use Rattle.frames.specs.Stream.{IsCut, FramesOf};

/// Messages that were cut off a stream's front are the first ones of the stream, whatever comes after it.
pub fn given_come_first()
    ensures { (front more unread rest : List ℕ) (first_messages messages : List (List ℕ)) (fault : Option MsgError) → IsCut front first_messages unread → FramesOf (front ++ more) messages rest fault
        → (later : List (List ℕ)) × (messages ≡ first_messages ++ later) }
{}

/// A stream has one sequence of messages, one rest and at most one fault.
pub fn one_framing()
    ensures { (stream rest other_rest : List ℕ) (messages others : List (List ℕ)) (fault other_fault : Option MsgError) → FramesOf stream messages rest fault → FramesOf stream others other_rest other_fault
        → (messages ≡ others) × (rest ≡ other_rest) × (fault ≡ other_fault) }
{}

/// A fault is the stream's, whatever comes after it.
pub fn faults_stay()
    ensures { (stream more rest : List ℕ) (messages : List (List ℕ)) (fault : MsgError) → FramesOf stream messages rest (Some fault) → FramesOf (stream ++ more) messages (rest ++ more) (Some fault) }
{}
