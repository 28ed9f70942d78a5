// Which tests hold, in lines.

ghost use Rattle.std.specs.Prelude.{◌≡◌, ◌++◌, ℕ, List, OnOk, IfErr, string_bytes};
ghost use Rattle.message_view.specs.Message.{Message};
ghost use Rattle.message_view.specs.Valid.{Valid};
ghost use Rattle.filter.specs.FilterTree.{FilterTree};
ghost use Rattle.filter.specs.Filters.{tree_of};
ghost use Rattle.filter_compile.specs.Compiled.{IsRefusal};
ghost use Rattle.rule_reasons.specs.Reasons.{after_fronts};
ghost use Rattle.filter_reasons.specs.TestsOf.{tests_of};
ghost use Rattle.filter_reasons.specs.Telling.{IsTold, AreTold, held_text};
ghost use Rattle.filter_reasons.specs.Turned.{AreNear};
ghost use Rattle.filter_reasons.specs.Lent.{trees};

use crate::holding::holds;
use crate::near::near_tests;
use crate::tests::tests_of;
use filter::Filter;
use filter_compile::CompileError;
use message_view::View;
use std::alloc::Global;

fn held_text(holds: bool) -> &'static str
    ensures { result.now ≡ held_text holds }
{
    if holds {
        ": it holds"
    } else {
        ": it doesn't hold"
    }
}

/// Adds a test, and whether it holds.
fn push_test(
    alloc: Global,
    text: &mut String,
    front: &str,
    test: &Filter,
    view: &View<'_>,
    owns: bool,
) -> Result<(), CompileError>
    ensures told { OnOk result ((m : Message) → Valid view.now m → (line : List ℕ) × IsTold m owns (tree_of test.now) line × (string_bytes text.new ≡ string_bytes text.old ++ (front.now ++ line))) }
    ensures refused { IfErr result (IsRefusal (tree_of test.now)) }
{
    let holds = holds(alloc, test, view, owns)?;
    let shown = test.print(alloc)?;
    text.push_str(front)?;
    text.push_str(shown.as_str())?;
    text.push_str(held_text(holds))?;
    Ok(())
}

/// Adds some tests, and whether they hold.
fn push_all(
    alloc: Global,
    text: &mut String,
    front: &str,
    tests: &[&Filter],
    view: &View<'_>,
    owns: bool,
) -> Result<(), CompileError>
    ensures { OnOk result ((m : Message) → Valid view.now m → (lines : List (List ℕ)) × AreTold m owns (trees tests.now) lines × (string_bytes text.new ≡ string_bytes text.old ++ after_fronts front.now lines)) }
{
    for test in tests {
        push_test(alloc, text, front, test, view, owns)?;
    }
    Ok(())
}

/// Adds a line for each test of a filter, with `front` before it: the test in its canonical spelling, and whether it holds of
/// a message. The lines are in the order of the filter's text. `owns` says whether the message's sender owns each name that the
/// filter asks for.
///
/// # Errors
///
/// Memory was refused, or the filter is too heavy to be compiled.
pub fn push_tests(
    alloc: Global,
    text: &mut String,
    front: &str,
    filter: &Filter,
    view: &View<'_>,
    owns: bool,
) -> Result<(), CompileError>
    ensures { OnOk result ((m : Message) → Valid view.now m → (lines : List (List ℕ)) × AreTold m owns (tests_of (tree_of filter.now)) lines × (string_bytes text.new ≡ string_bytes text.old ++ after_fronts front.now lines)) }
{
    let tests = tests_of(alloc, filter)?;
    push_all(alloc, text, front, &tests, view, owns)
}

/// Adds a line for each test that makes a filter hold of a message if it alone comes out the other way, as `push_tests` does.
///
/// # Errors
///
/// Memory was refused, or the filter is too heavy to be compiled.
pub fn push_near_tests(
    alloc: Global,
    text: &mut String,
    front: &str,
    filter: &Filter,
    view: &View<'_>,
    owns: bool,
) -> Result<(), CompileError>
    ensures { OnOk result ((m : Message) → Valid view.now m → (near : List FilterTree) × (lines : List (List ℕ)) × AreNear (tree_of filter.now) m (λ name. owns) near × AreTold m owns near lines × (string_bytes text.new ≡ string_bytes text.old ++ after_fronts front.now lines)) }
{
    let near = near_tests(alloc, filter, view, owns)?;
    push_all(alloc, text, front, &near, view, owns)
}
