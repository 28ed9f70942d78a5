// The header fields of a message that is built, one after the other.

ghost use Rattle.std.specs.Prelude.{◌≡◌, ℕ, ◌+◌, ◌<◌, ◌≤◌, ◌++◌, true, length, IfOk};
ghost use Rattle.message_value.specs.declared.order.Order.TheVariants.{Little};
ghost use Rattle.message_value.specs.Fits.{max_array_len};
ghost use Rattle.message_view.specs.Spelling.{fixed_len, fields_bytes};
ghost use Rattle.message_build.specs.Growing.{Appends};
ghost use Rattle.message_build.specs.HeaderFields.{EndsWithin, bytes_at, fields_of, may_be, are_allowed};

use crate::field::{HeaderField, MAX_ARRAY_LEN};
use std::alloc::AllocError;

/// How many bytes stand before the fields.
pub(crate) const FIXED_LEN: usize = 16;

/// Where a field ends that begins at a place, if there is one; `None` where it is longer than an array may be.
fn field_end(place: usize, field: &Option<HeaderField<'_>>) -> Option<usize>
    requires low { fixed_len ≤ place }
    requires high { place ≤ fixed_len + max_array_len }
    ensures { EndsWithin result place (length (bytes_at place field.now)) }
{
    match field {
        None => Some(place),
        Some(field) => {
            let end = field.end(place)?;
            if end <= FIXED_LEN + MAX_ARRAY_LEN {
                Some(end)
            } else {
                None
            }
        }
    }
}

/// Where the fields end; `None` where they are longer than an array may be.
pub(crate) fn fields_end(fields: &[Option<HeaderField<'_>>]) -> Option<usize>
    ensures { EndsWithin result fixed_len (length (fields_bytes Little fixed_len (fields_of fields.now))) }
{
    let mut end = FIXED_LEN;
    for field in fields {
        end = field_end(end, field)?;
    }
    Some(end)
}

/// Appends a field, if there is one, with the zeros before it.
fn push_field(bytes: &mut Vec<u8>, field: &Option<HeaderField<'_>>) -> Result<(), AllocError>
    requires { may_be field.now ≡ true }
    ensures { Appends result bytes.old.items bytes.new.items (bytes_at (length bytes.old.items) field.now) }
{
    match field {
        None => Ok(()),
        Some(field) => field.push(bytes),
    }
}

/// Appends the fields one after the other.
pub(crate) fn push_fields(
    bytes: &mut Vec<u8>,
    fields: &[Option<HeaderField<'_>>],
) -> Result<(), AllocError>
    requires { are_allowed fields.now ≡ true }
    ensures { IfOk result (λ _. bytes.new.items ≡ bytes.old.items ++ fields_bytes Little (length bytes.old.items) (fields_of fields.now)) }
{
    for field in fields {
        push_field(bytes, field)?;
    }
    Ok(())
}
