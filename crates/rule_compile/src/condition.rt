// The conditions of rules.
ghost use Rattle.std.specs.Prelude.{◌≡◌, ◌<◌, ◌^◌, length, OnOk};
ghost use Rattle.match_key.specs.Kinds.{kind_meant};
ghost use Rattle.message_view.specs.Header.{kind_byte};
ghost use Rattle.bpf_code.specs.declared.operation.Test.TheVariants.{Equal};
ghost use Rattle.match_rule.specs.RuleTree.{condition_weight};
ghost use Rattle.rule_compile.specs.Code.{image_word, want};
ghost use Rattle.rule_compile.specs.RuleCode.{words_at, has_type, has_text_type, owns, relation_len, relation_bytes, source_code, condition_words, condition_bytes, part_code};

use crate::piece::Code;
use bpf_code::Test;
use match_rule::{Condition, Field, Relation, Source, is_owned_name};
use message_view::TextField;
use std::alloc::AllocError;
use summary::{KIND_PLACE, argument_place, ownership_place, text_place};

/// The parts of the piece of a condition.
#[derive(Clone, Copy)]
pub(crate) enum Part {
    /// What words of the summary tell: all but the bytes of a text.
    Words,
    /// The bytes of a text.
    Bytes,
}

/// The place of the words of the text at a source.
fn words_at(source: Source) -> u16
    ensures { result ≡ words_at source }
{
    match source {
        Source::Header(Field::Path) => text_place(TextField::Path),
        Source::Header(Field::Interface) => text_place(TextField::Interface),
        Source::Header(Field::Member) => text_place(TextField::Member),
        Source::Header(Field::Destination) => text_place(TextField::Destination),
        Source::Arg(n) => argument_place(n.number()) + 4,
    }
}

impl Code {
    /// Argument n has the type of this code.
    fn has_type(&mut self, n: u8, code: u8) -> Result<(), AllocError>
        ensures { OnOk result (self.new ≡ has_type n code self.old) }
    {
        self.want(Test::Equal, u32::from(code))?;
        self.image_word(u32::from(argument_place(n)))
    }

    /// Argument n is a string or an object path.
    fn has_text_type(&mut self, n: u8) -> Result<(), AllocError>
        ensures { OnOk result (self.new ≡ has_text_type n self.old) }
    {
        let exit_len = self.len();
        self.want(Test::Equal, u32::from(b'o'))?;
        self.settle(Test::Equal, u32::from(b's'), exit_len)?;
        self.image_word(u32::from(argument_place(n)))
    }

    /// The sender owns the name of a slot.
    fn owns(&mut self, slot: u16) -> Result<(), AllocError>
        ensures { OnOk result (self.new ≡ owns slot self.old) }
    {
        self.want(Test::SharesBit, 1 << (slot % 32))?;
        self.image_word(u32::from(ownership_place(slot)))
    }

    /// The text has a length that a text in the relation to the value may have. In the namespace of `/` is any path.
    fn relation_len(&mut self, relation: Relation, at: u16, value: &str) -> Result<(), AllocError>
        requires { length value.now < 2 ^ 32 }
        ensures { OnOk result (self.new ≡ relation_len relation at value.now self.old) }
    {
        match relation {
            Relation::Equal => self.has_text_len(Test::Equal, value.len() as u32, at),
            Relation::PathNamespace => {
                if value == "/" {
                    return self.is_there(at);
                }
                self.has_text_len(Test::AtLeast, value.len() as u32, at)
            }
            Relation::NameNamespace => self.has_text_len(Test::AtLeast, value.len() as u32, at),
            Relation::NestedPath => Ok(()),
        }
    }

    /// A text of such a length stands in the relation to the value.
    fn relates(&mut self, relation: Relation, at: u16, value: &str) -> Result<(), AllocError>
        requires { length value.now < 2 ^ 32 }
        ensures { OnOk result (self.new ≡ relation_bytes relation at value.now self.old) }
    {
        match relation {
            Relation::Equal => self.has_bytes(at, value),
            Relation::PathNamespace => {
                if value == "/" {
                    return Ok(());
                }
                self.in_namespace(at, b'/', value)
            }
            Relation::NameNamespace => self.in_namespace(at, b'.', value),
            Relation::NestedPath => self.is_nested(at, value),
        }
    }

    /// The source has a text of a type that the relation compares.
    fn has_source(&mut self, source: Source, relation: Relation) -> Result<(), AllocError>
        ensures { OnOk result (self.new ≡ source_code source relation self.old) }
    {
        match source {
            // The piece of any other relation tests whether the field is there.
            Source::Header(_) => match relation {
                Relation::NestedPath => self.is_there(words_at(source)),
                Relation::Equal | Relation::PathNamespace | Relation::NameNamespace => Ok(()),
            },
            Source::Arg(n) => match relation {
                Relation::NestedPath => self.has_text_type(n.number()),
                Relation::Equal | Relation::PathNamespace | Relation::NameNamespace => {
                    self.has_type(n.number(), b's')
                }
            },
        }
    }

    /// What words of the summary tell of a condition, in a rule whose sender name has a slot.
    fn words_of(&mut self, slot: u16, condition: &Condition) -> Result<(), AllocError>
        requires { condition_weight condition.now < 2 ^ 32 }
        ensures { OnOk result (self.new ≡ condition_words slot condition.now self.old) }
    {
        match condition {
            Condition::Kind(kind) => {
                self.want(Test::Equal, u32::from(kind.kind().byte()))?;
                self.image_word(u32::from(KIND_PLACE))
            }
            Condition::Sender(name) => {
                if is_owned_name(name.as_str()) {
                    return self.owns(slot);
                }
                let len = name.as_str().len() as u32;
                self.has_text_len(Test::Equal, len, text_place(TextField::Sender))
            }
            Condition::Compares(source, relation, value) => {
                self.relation_len(*relation, words_at(*source), value.as_str())?;
                self.has_source(*source, *relation)
            }
        }
    }

    /// The bytes of the text of a condition, where the words passed.
    fn bytes_of(&mut self, condition: &Condition) -> Result<(), AllocError>
        requires { condition_weight condition.now < 2 ^ 32 }
        ensures { OnOk result (self.new ≡ condition_bytes condition.now self.old) }
    {
        match condition {
            Condition::Kind(_) => Ok(()),
            Condition::Sender(name) => {
                if is_owned_name(name.as_str()) {
                    return Ok(());
                }
                self.has_bytes(text_place(TextField::Sender), name.as_str())
            }
            Condition::Compares(source, relation, value) => {
                self.relates(*relation, words_at(*source), value.as_str())
            }
        }
    }

    /// A part of the piece of a condition, in a rule whose sender name has a slot.
    pub(crate) fn condition(
        &mut self,
        part: Part,
        slot: u16,
        condition: &Condition,
    ) -> Result<(), AllocError>
        requires { condition_weight condition.now < 2 ^ 32 }
        ensures { OnOk result (self.new ≡ part_code part slot condition.now self.old) }
    {
        match part {
            Part::Words => self.words_of(slot, condition),
            Part::Bytes => self.bytes_of(condition),
        }
    }
}
