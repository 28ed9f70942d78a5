// What the arguments of valid messages have.

ghost use Rattle.std.specs.Prelude.{◌≡◌, ◌≢◌, ℕ, List, Some, None, codes};
ghost use Rattle.signature.specs.DataType.{DataTypes, basic, one_more, spellings};
ghost use Rattle.message_value.specs.Value.{Values, number, text, one_value};
ghost use Rattle.message_view.specs.Message.{Message};
ghost use Rattle.message_view.specs.Valid.{Valid};
ghost use Rattle.bus_messages.specs.Arguments.{first_text, first_number};
ghost use Rattle.bus_messages.specs.Calls.{given_by};

use signature::one_reading;

/// A valid message whose signature is one text lacks no text, so that no call of a method that takes one is refused
/// for want of it.
pub fn text_is_there()
    ensures { (bytes : List ℕ) (m : Message) → Valid bytes m → spellings m.types ≡ codes "s" → first_text (given_by m) ≢ None }
{
    one_reading();
}

/// The text that is read of a message's first argument, where its type is `s`, is that argument's.
pub fn text_is_read()
    ensures { (m : Message) (types : DataTypes) (t : List ℕ) (values : Values) → m.types ≡ one_more (basic 115) types → m.arguments ≡ one_value (text t) values → first_text (given_by m) ≡ Some t }
{}

/// The number that is read of a valid message's first argument, where its type is `u`, is that argument's.
pub fn number_is_read()
    ensures { (bytes : List ℕ) (m : Message) (types : DataTypes) (n : ℕ) (values : Values) → Valid bytes m → m.types ≡ one_more (basic 117) types → m.arguments ≡ one_value (number n) values → first_number (given_by m) ≡ Some n }
{}
