ghost use Rattle.std.specs.Prelude.{◌≡◌};
ghost use Rattle.std.specs.Option.{option_map};
ghost use Rattle.bpf_text.specs.OperandReading.{targets_at, constant_at, indexed_at, place_at, bracketed_at, header_at, named_at, operands_at, operands_of};
ghost use Rattle.bpf_text.specs.Views.{targets_view, operands_view};

use crate::lexis::{number, over, sign, word};

/// The targets of a conditional jump, of which the last may be left out.
#[derive(Clone, Copy)]
pub(crate) enum Targets<'a> {
    One(&'a [u8]),
    Both(&'a [u8], &'a [u8]),
}

/// The operands of an instruction: none, `#k`, `#len`, `[k]`, `[x+k]`, `M[k]`, `4*([k]&0xf)`, a name, and the two forms
/// of a conditional jump.
#[derive(Clone, Copy)]
pub(crate) enum Operands<'a> {
    Absent,
    Number(u32),
    Length,
    Place(u32),
    Indexed(u32),
    Scratch(u32),
    Header(u32),
    Name(&'a [u8]),
    NumberTo(u32, Targets<'a>),
    NameTo(&'a [u8], Targets<'a>),
}

/// One target or two.
#[tactic(auto, unfolding(crate::specs::OperandReading::targets_at))]
fn read_targets(bytes: &[u8]) -> Option<(Targets<'_>, &[u8])>
    ensures { option_map (λ x. (targets_view x.0, x.1.now)) result ≡ targets_at bytes.now }
{
    let (yes, rest) = word(bytes)?;
    let Some(after) = sign(b',', rest) else {
        return Some((Targets::One(yes), rest));
    };
    let (no, rest) = word(after)?;
    Some((Targets::Both(yes, no), rest))
}

/// The operands that begin with a `#`, from after it on.
#[tactic(auto, unfolding(crate::specs::OperandReading::constant_at))]
fn constant(bytes: &[u8]) -> Option<(Operands<'_>, &[u8])>
    ensures { option_map (λ x. (operands_view x.0, x.1.now)) result ≡ constant_at bytes.now }
{
    let Some((k, rest)) = number(bytes) else {
        let (name, rest) = word(bytes)?;
        return if name == b"len".as_slice() {
            Some((Operands::Length, rest))
        } else {
            None
        };
    };
    let Some(after) = sign(b',', rest) else {
        return Some((Operands::Number(k), rest));
    };
    let (targets, rest) = read_targets(after)?;
    Some((Operands::NumberTo(k, targets), rest))
}

/// The operand `[x+k]`, from after its `[` on.
#[tactic(auto, unfolding(crate::specs::OperandReading::indexed_at))]
fn indexed_place(bytes: &[u8]) -> Option<(Operands<'_>, &[u8])>
    ensures { option_map (λ x. (operands_view x.0, x.1.now)) result ≡ indexed_at bytes.now }
{
    let (name, rest) = word(bytes)?;
    let (k, rest) = number(sign(b'+', rest)?)?;
    let rest = sign(b']', rest)?;
    if name == b"x".as_slice() {
        Some((Operands::Indexed(k), rest))
    } else {
        None
    }
}

/// The operands that begin with a `[`, from after it on.
#[tactic(auto, unfolding(crate::specs::OperandReading::place_at))]
fn place(bytes: &[u8]) -> Option<(Operands<'_>, &[u8])>
    ensures { option_map (λ x. (operands_view x.0, x.1.now)) result ≡ place_at bytes.now }
{
    let Some((k, rest)) = number(bytes) else {
        return indexed_place(bytes);
    };
    let rest = sign(b']', rest)?;
    Some((Operands::Place(k), rest))
}

/// A number in brackets.
#[tactic(auto, unfolding(crate::specs::OperandReading::bracketed_at))]
fn bracket_operand(bytes: &[u8]) -> Option<(u32, &[u8])>
    ensures { option_map (λ x. (x.0, x.1.now)) result ≡ bracketed_at bytes.now }
{
    let (k, rest) = number(sign(b'[', bytes)?)?;
    let rest = sign(b']', rest)?;
    Some((k, rest))
}

/// The operand `4*([k]&0xf)`, from after its 4 on.
#[tactic(auto, unfolding(crate::specs::OperandReading::header_at))]
fn header(bytes: &[u8]) -> Option<(Operands<'_>, &[u8])>
    ensures { option_map (λ x. (operands_view x.0, x.1.now)) result ≡ header_at bytes.now }
{
    let inside = sign(b'(', sign(b'*', bytes)?)?;
    let (k, rest) = bracket_operand(inside)?;
    let (mask, rest) = number(sign(b'&', rest)?)?;
    let rest = sign(b')', rest)?;
    if mask == 15 {
        Some((Operands::Header(k), rest))
    } else {
        None
    }
}

/// `M` and a number in brackets, or a name.
#[tactic(auto, unfolding(crate::specs::OperandReading::named_at))]
fn jump_to_name<'a>(name: &'a [u8], rest: &'a [u8]) -> Option<(Operands<'a>, &'a [u8])>
    ensures { option_map (λ x. (operands_view x.0, x.1.now)) result ≡ named_at name.now rest.now }
{
    if name == b"M".as_slice()
        && let Some((k, rest)) = bracket_operand(rest)
    {
        return Some((Operands::Scratch(k), rest));
    }
    let Some(after) = sign(b',', rest) else {
        return Some((Operands::Name(name), rest));
    };
    let (targets, rest) = read_targets(after)?;
    Some((Operands::NameTo(name, targets), rest))
}

/// The operands in front of bytes, and the bytes after them.
#[tactic(auto, unfolding(crate::specs::OperandReading::operands_at))]
fn some_operands(bytes: &[u8]) -> Option<(Operands<'_>, &[u8])>
    ensures { option_map (λ x. (operands_view x.0, x.1.now)) result ≡ operands_at bytes.now }
{
    if let Some(rest) = sign(b'#', bytes) {
        return constant(rest);
    }
    if let Some(rest) = sign(b'[', bytes) {
        return place(rest);
    }
    if let Some((four, rest)) = number(bytes) {
        return if four == 4 { header(rest) } else { None };
    }
    let (name, rest) = word(bytes)?;
    jump_to_name(name, rest)
}

/// The operands that are all of the bytes but a comment.
#[tactic(auto, unfolding(crate::specs::OperandReading::operands_of))]
pub(crate) fn read_operands(bytes: &[u8]) -> Option<Operands<'_>>
    ensures { option_map operands_view result ≡ operands_of bytes.now }
{
    if over(bytes) {
        return Some(Operands::Absent);
    }
    let (operands, rest) = some_operands(bytes)?;
    if over(rest) { Some(operands) } else { None }
}
