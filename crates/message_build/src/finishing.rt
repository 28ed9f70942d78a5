// What the answers of a builder have to do with one another.

ghost use Rattle.std.specs.Prelude.{◌≡◌, ◌≢◌, ◌↔◌, ℕ, List, Result, Err};
ghost use Rattle.message_view.specs.Message.{Message};
ghost use Rattle.message_view.specs.Spelling.{message_bytes};
ghost use Rattle.message_view.specs.Valid.{Valid};
ghost use Rattle.message_build.specs.Asked.{Asked};
ghost use Rattle.message_build.specs.Building.{Finishes, IsTooLarge, IsValidButForSize};
ghost use Rattle.message_build.specs.declared.error.BuildError.{BuildError};
ghost use Rattle.message_build.specs.declared.error.BuildError.TheVariants.{NoMemory};

/// The bytes of a message are valid exactly where it is valid but for its size, and isn't too large.
pub fn valid_at_its_size()
    ensures { (bytes : List ℕ) (m : Message) → (Valid bytes m) ↔ (IsValidButForSize m × (IsTooLarge m → ⊥) × (bytes ≡ message_bytes m)) }
{}

/// There is one answer to what was asked, but for want of memory: the two errors exclude one another, and each
/// excludes a message.
pub fn one_answer()
    ensures { (request_of : Asked) (first other : Result (List ℕ) BuildError) → Finishes request_of first → Finishes request_of other → first ≢ Err NoMemory → other ≢ Err NoMemory → first ≡ other }
{}
