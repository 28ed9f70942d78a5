// Programs of rules.

use crate::rules::read_rule;
use bpf_machine::run;
use bpf_verify::Verified;
use match_rule::Rule;
use message_view::View;
use rule_compile::{CompileError, compile};
use std::alloc::Global;
use std::process::Abort;
use summary::{Edition, Image, Slots};

/// The slot of the rule's sender name, if it has one that somebody owns.
const SLOT: u16 = 33;

/// The program of a rule.
fn program_of(alloc: Global, rule: &Rule) -> Result<Verified, CompileError> {
    let slot = match rule.sender_name() {
        Some(_) => Some(SLOT),
        None => None,
    };
    compile(alloc, rule, slot)
}

/// Whether the program of a rule says match, for a message whose sender owns the rule's sender name or doesn't.
pub(crate) fn matches(
    alloc: Global,
    rule: &Rule,
    view: &View<'_>,
    owns: bool,
) -> Result<bool, CompileError> {
    let program = program_of(alloc, rule)?;
    let mut owned = Slots::empty();
    if owns {
        owned.insert(SLOT);
    }
    let image = Image::new(view, &owned, Edition::Two);
    Ok(run(&program, &image).verdict != 0)
}

/// A rule whose only value is `count` slashes between apostrophes.
fn slashes<R: Abort>(rt: &R, alloc: Global, count: usize) -> Rule {
    let mut text = String::from_str(alloc, "arg0path='").expect(rt, "memory");
    for _ in 0..count {
        text.push('/').expect(rt, "memory");
    }
    text.push('\'').expect(rt, "memory");
    read_rule(rt, alloc, text.as_str())
}

/// Such rules weigh more than a program may have instructions, so that either answer is right; but there is one.
#[test]
fn beyond_the_weight_limit(rt: HostRuntime) {
    for count in [240, 900] {
        let rule = slashes(&rt, rt.alloc(), count);
        match program_of(rt.alloc(), &rule) {
            Ok(_) | Err(CompileError::TooLong) => {}
            Err(CompileError::NoMemory) => panic!(rt; "memory ran out"),
        }
    }
}
