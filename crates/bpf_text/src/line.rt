ghost use Rattle.std.specs.Prelude.{◌≡◌, ◌⊎◌, ◌<◌, length, IfOk, IfErr, IfSome, OnOk};
ghost use Rattle.std.specs.Option.{option_map};
ghost use Rattle.bpf_code.specs.declared.error.CodeError.TheVariants.{NoMemory};
ghost use Rattle.bpf_text.specs.Source.{IsLine, Line};
ghost use Rattle.bpf_text.specs.LineReading.{label_at, TakesLabels, with_line};
ghost use Rattle.bpf_text.specs.Views.{sketch_view};

use crate::draft::{Draft, Noted};
use crate::lexis::{sign, word};
use crate::named_labels::Labels;
use crate::row::statement;
use bpf_code::CodeError;

/// A label and its colon.
#[tactic(auto, unfolding(crate::specs::LineReading::label_at))]
fn read_label(bytes: &[u8]) -> Option<(&[u8], &[u8])>
    ensures value { option_map (λ x. (x.0.now, x.1.now)) result ≡ label_at bytes.now }
    ensures shorter { IfSome result (λ x. length x.1.now < length bytes.now) }
{
    let (name, rest) = word(bytes)?;
    let rest = sign(b':', rest)?;
    Some((name, rest))
}

/// Takes the labels in front of bytes. Answers whether one of them was defined before, and the bytes after them.
fn take_labels<'a>(
    labels: &mut Labels<'a>,
    place: usize,
    bytes: &'a [u8],
) -> Result<(bool, &'a [u8]), CodeError>
    ensures found { IfOk result (λ x. TakesLabels bytes.now x.1.now place labels.old labels.new x.0) }
    ensures only { IfErr result (λ e. e ≡ NoMemory) }
{
    let mut again = false;
    let mut rest = bytes;
    while let Some((name, tail)) = read_label(rest) {
        again = again || labels.has(name);
        labels.push(name, place)?;
        rest = tail;
    }
    Ok((again, rest))
}

/// Adds the line of this number to a draft.
pub(crate) fn add_line<'a>(
    draft: &mut Draft<'a>,
    bytes: &'a [u8],
    number: usize,
) -> Result<(), CodeError>
    ensures found { OnOk result ((line : Line) × IsLine bytes.now line × (sketch_view draft.new ≡ with_line (sketch_view draft.old) line)) }
    ensures fault { IfErr result (λ e. (e ≡ NoMemory) ⊎ ((e ≡ CodeError.Line number) × ((line : Line) → ¬ IsLine bytes.now line))) }
{
    let (again, rest) = take_labels(&mut draft.labels, draft.count, bytes)?;
    let Some(row) = statement(rest) else {
        return Err(CodeError::Line(number));
    };
    draft.lines.push(Noted { again, row })?;
    if row.is_some() {
        draft.count += 1;
    }
    Ok(())
}
