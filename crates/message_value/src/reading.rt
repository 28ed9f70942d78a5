// What reading and spelling have to do with one another.

ghost use Rattle.std.specs.Prelude.{◌≡◌, ◌↔◌, ℕ, Ok};
ghost use Rattle.signature.specs.DataType.{DataType, DataTypes};
ghost use Rattle.message_value.specs.declared.order.Order.{Order};
ghost use Rattle.message_value.specs.Value.{Value, Values};
ghost use Rattle.message_value.specs.Reading.{At, value_at, members_at};
ghost use Rattle.message_value.specs.Spelled.{IsSpelled, AreSpelled};
ghost use Rattle.message_value.specs.Bytes.{AreBytes};

/// Reading gives a value exactly where bytes spell it.
pub fn value_reading()
    ensures { (levels : ℕ) (order : Order) (type : DataType) (value : Value) (before after : At) → AreBytes before.rest → (value_at levels order type before ≡ Ok (value, after)) ↔ (IsSpelled levels order type value before after) }
{}

/// Reading one value of each type gives values exactly where bytes spell them.
pub fn members_reading()
    ensures { (levels : ℕ) (order : Order) (types : DataTypes) (values : Values) (before after : At) → AreBytes before.rest → (members_at (value_at levels order) types before ≡ Ok (values, after)) ↔ (AreSpelled levels order types values before after) }
{}
