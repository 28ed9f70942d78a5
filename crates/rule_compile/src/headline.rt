// The headline, as the contract of one run.
ghost use Rattle.rule_compile.specs.Headline.{Headline};

use bpf_machine::{Outcome, run};
use bpf_verify::Verified;
use message_view::View;
use summary::{Edition, Image, Slots};

/// Runs a program that the verifier accepted on the image of a message. It returns a verdict within as many steps as
/// the program has instructions; and the verdict of a rule's program, as `compile` gives it, on the image of edition 2
/// is nonzero exactly where the rule holds of the message.
pub fn outcome_on(program: &Verified, view: &View<'_>, owned: &Slots, edition: Edition) -> Outcome
    ensures { Headline program.now view.now owned.now edition result.verdict result.steps }
{
    let (_code, _bytes) = (program.code(), view.raw());
    let image = Image::new(view, owned, edition);
    run(program, &image)
}
