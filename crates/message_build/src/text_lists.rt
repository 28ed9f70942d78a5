// Lists of texts, appended as a dictionary of arrays.

ghost use Rattle.std.specs.Prelude.{◌≡◌, ◌++◌, length, string_bytes};
ghost use Rattle.signature.specs.DataType.{basic, array, dict};
ghost use Rattle.message_value.specs.declared.order.Order.TheVariants.{Little};
ghost use Rattle.message_value.specs.Value.{text, elements, entries};
ghost use Rattle.message_value.specs.Spelling.{elements_bytes, entry_bytes, entries_bytes, value_bytes};
ghost use Rattle.message_build.specs.Growing.{Appends};
ghost use Rattle.message_build.specs.TextLists.{text_values, text_list_entries};

use crate::appending::{ENTRY_ALIGNMENT, align, push_string, push_word};
use crate::arguments::complete;
use crate::body_state::BodyState;
use crate::builder::Builder;
use crate::error::BuildError;
use crate::strings::{LENGTH_LEN, set_word};
use message_value::Order;
use std::alloc::AllocError;

/// An entry of an `a{sas}`.
#[derive(Drop)]
pub struct TextList {
    pub key: String,
    pub texts: Vec<String>,
}

/// Appends the texts one after the other.
fn push_elements(bytes: &mut Vec<u8>, texts: &[String]) -> Result<(), AllocError>
    ensures { Appends result bytes.old.items bytes.new.items (elements_bytes Little (length bytes.old.items) (basic 115) (text_values texts.now)) }
{
    for text in texts {
        push_string(bytes, Order::Little, text.as_bytes())?;
    }
    Ok(())
}

/// Appends an array of texts as a value, with the zeros before it.
fn push_texts(bytes: &mut Vec<u8>, texts: &[String]) -> Result<(), AllocError>
    ensures { Appends result bytes.old.items bytes.new.items (value_bytes Little (length bytes.old.items) (array (basic 115)) (elements (text_values texts.now))) }
{
    align(bytes, 4)?;
    let at = bytes.len();
    push_word(bytes, Order::Little, 0)?;
    push_elements(bytes, texts)?;
    let len = bytes.len() - (at + LENGTH_LEN);
    set_word(bytes, at, Order::Little, len);
    Ok(())
}

/// Appends a list under its key as a dict entry, with the zeros before it.
fn push_list(bytes: &mut Vec<u8>, list: &TextList) -> Result<(), AllocError>
    ensures { Appends result bytes.old.items bytes.new.items (entry_bytes Little (length bytes.old.items) 115 (array (basic 115)) (text (string_bytes list.now.key)) (elements (text_values list.now.texts.items))) }
{
    align(bytes, ENTRY_ALIGNMENT)?;
    push_string(bytes, Order::Little, list.key.as_bytes())?;
    push_texts(bytes, &list.texts)
}

/// Appends the entries one after the other.
fn push_entries(bytes: &mut Vec<u8>, lists: &[TextList]) -> Result<(), AllocError>
    ensures { Appends result bytes.old.items bytes.new.items (entries_bytes Little (length bytes.old.items) 115 (array (basic 115)) (text_list_entries lists.now)) }
{
    for list in lists {
        push_list(bytes, list)?;
    }
    Ok(())
}

/// Appends a dictionary of lists as a value, with the zeros before it.
fn push_text_lists(bytes: &mut Vec<u8>, lists: &[TextList]) -> Result<(), AllocError>
    ensures { Appends result bytes.old.items bytes.new.items (value_bytes Little (length bytes.old.items) (dict 115 (array (basic 115))) (entries (text_list_entries lists.now))) }
{
    align(bytes, 4)?;
    let at = bytes.len();
    push_word(bytes, Order::Little, 0)?;
    align(bytes, ENTRY_ALIGNMENT)?;
    let first = bytes.len();
    push_entries(bytes, lists)?;
    let len = bytes.len() - first;
    set_word(bytes, at, Order::Little, len);
    Ok(())
}

impl<'a> Builder<'a> {
    ghost use Rattle.message_build.specs.Adding.{Adds, with_argument};

    /// Adds a dictionary of lists of texts under their keys, an `a{sas}`.
    ///
    /// # Errors
    ///
    /// `NoMemory`, and then nothing is added.
    pub fn arg_text_lists(&mut self, lists: &[TextList]) -> Result<(), BuildError>
        ensures { Adds result self.old self.new (with_argument self.old (dict 115 (array (basic 115))) (entries (text_list_entries lists.now))) }
    {
        if !self.body_state.takes_arguments() {
            self.body_state = BodyState::Spoiled;
            return Ok(());
        }
        let len = self.body.len();
        let pushed = push_text_lists(&mut self.body, lists);
        complete(pushed, &mut self.body, len, &mut self.signature, b"a{sas}")?;
        self.body_state = BodyState::Arguments;
        Ok(())
    }
}
