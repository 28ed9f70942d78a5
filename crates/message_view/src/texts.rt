// The texts of a message, as slices of its bytes.

ghost use Rattle.std.specs.Prelude.{ℕ, List, All};
ghost use Rattle.message_view.specs.declared.extent.TextField.{TextField};
ghost use Rattle.message_view.specs.Message.{Message};
ghost use Rattle.message_view.specs.Places.{IsSlice, LiesIn, extent_of, text_of};
ghost use Rattle.message_view.specs.Spelling.{arguments_of};
ghost use Rattle.message_view.specs.Valid.{Valid};

/// The text of a field is the slice of the message's bytes at its extent.
pub fn texts_of_fields()
    ensures { (field : TextField) (bytes : List ℕ) (m : Message) → Valid bytes m → IsSlice bytes (extent_of field m) (text_of field m) }
{}

/// Each argument lies in the message's bytes; the text of one that is a text is the slice at its place.
pub fn texts_of_arguments()
    ensures { (bytes : List ℕ) (m : Message) → Valid bytes m → All (λ argument. LiesIn bytes argument) (arguments_of m) }
{}
