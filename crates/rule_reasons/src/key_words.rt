// The words of keys.

ghost use Rattle.std.specs.Prelude.{◌≡◌, ◌++◌, OnOk, string_bytes};
ghost use Rattle.rule_reasons.specs.KeyWords.{field_word, source_text, suffix_of, key_text};

use itoa::Buffer;
use match_key::{Field, Key, Relation, Source};
use std::alloc::AllocError;

fn field_word(field: Field) -> &'static str
    ensures { result.now ≡ field_word field }
{
    match field {
        Field::Interface => "interface",
        Field::Member => "member",
        Field::Path => "path",
        Field::Destination => "destination",
    }
}

/// What comes after the source in a key.
fn suffix_of(relation: Relation) -> &'static str
    ensures { result.now ≡ suffix_of relation }
{
    match relation {
        Relation::Equal => "",
        Relation::PathNamespace => "_namespace",
        Relation::NameNamespace => "namespace",
        Relation::NestedPath => "path",
    }
}

fn push_source(text: &mut String, source: Source) -> Result<(), AllocError>
    ensures { OnOk result (string_bytes text.new ≡ string_bytes text.old ++ source_text source) }
{
    match source {
        Source::Header(field) => text.push_str(field_word(field)),
        Source::Arg(n) => {
            text.push_str("arg")?;
            text.push_str(Buffer::new().format(n.number()))
        }
    }
}

/// Adds the word of a key.
pub(crate) fn push_key(text: &mut String, key: Key) -> Result<(), AllocError>
    ensures { OnOk result (string_bytes text.new ≡ string_bytes text.old ++ key_text key) }
{
    match key {
        Key::Kind => text.push_str("type"),
        Key::Sender => text.push_str("sender"),
        Key::Eavesdrop => text.push_str("eavesdrop"),
        Key::Compares(source, relation) => {
            push_source(text, source)?;
            text.push_str(suffix_of(relation))
        }
    }
}
