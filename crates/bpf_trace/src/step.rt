// Steps of a run.

ghost use Rattle.std.specs.Prelude.{◌≡◌, ◌<◌, Some, length, option_map, slice_get};
ghost use Rattle.bpf_code.specs.Steps.{step_of};
ghost use Rattle.bpf_trace.specs.Views.{state_of, next_of};

use crate::configuration::{Configuration, Next, after};
use crate::effect::effect_of;
use bpf_code::{Ins, Op};
use bpf_verify::Verified;
use summary::Image;

/// The instruction at a place.
pub(crate) fn instruction_at(code: &[Ins], place: usize) -> &Ins
    requires { place < length code.now }
    ensures { slice_get code.now place ≡ Some result.now }
{
    &code[place]
}

/// What a step of a program leads to, if there is one.
pub(crate) fn step(program: &Verified, image: &Image<'_>, at: &Configuration) -> Option<Next>
    ensures { option_map next_of result ≡ step_of program.now image.now (state_of at.now) }
{
    let code = program.code();
    if at.place >= code.len() {
        return None;
    }
    let ins = instruction_at(code, at.place);
    let op = Op::of(ins.code)?;
    let effect = effect_of(op, ins, image, at)?;
    Some(after(at, ins.k, effect))
}
