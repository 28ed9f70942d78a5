// Reading with little memory: want of it is NoMemory, and never a part of the rule. To be run with one allocation
// after another refused.

use crate::compiled::matches;
use crate::s1::S1;
use match_rule::{Rule, RuleError};
use message_view::View;
use rule_compile::CompileError;
use std::alloc::Global;
use std::process::Abort;

/// The values of a rule's conditions, or want of memory.
fn has_values(alloc: Global, text: &str, want: &[&str]) -> bool {
    match Rule::read(alloc, text) {
        Ok(rule) => {
            let conditions = rule.conditions();
            conditions.len() == want.len()
                && conditions
                    .iter()
                    .zip(want.iter())
                    .all(|(condition, value)| condition.value() == *value)
        }
        Err(fault) => fault == RuleError::NoMemory,
    }
}

#[test]
fn each_key_with_refusals(rt: HostRuntime) {
    let text =
        "type='signal',sender='a.s',interface='a.b',member='c',path='/p',destination=':1.5',arg0='x',arg63path='/y/',arg0namespace='a.n',eavesdrop='true'";
    let want = ["signal", "a.s", "a.b", "c", "/p", ":1.5", "x", "/y/", "a.n"];
    assert!(rt; has_values(rt.alloc(), text, &want));
}

#[test]
fn path_namespace_with_refusals(rt: HostRuntime) {
    let text = "arg1='it'\\''s',path_namespace='/com/example',";
    assert!(rt; has_values(rt.alloc(), text, &["it's", "/com/example"]));
}

/// Whether the program of a rule matches the signal, or memory for it ran out.
fn is_match(alloc: Global, rule: &Rule) -> bool {
    is_match_of(alloc, rule, S1)
}

/// Whether the program of a rule matches the message, or memory for it ran out.
fn is_match_of(alloc: Global, rule: &Rule, message: &[u8]) -> bool {
    match View::read(message) {
        Ok(view) => match matches(alloc, rule, &view, false) {
            Ok(found) => found,
            Err(fault) => fault == CompileError::NoMemory,
        },
        Err(_) => false,
    }
}

#[test]
fn compiled_with_refusals(rt: HostRuntime) {
    let text = "type='signal',interface='a.b',member='c',path_namespace='/a'";
    expect_match(&rt, rt.alloc(), text);
}

/// That the rule's program matches the signal, or memory ran out.
fn expect_match<R: Abort>(rt: &R, alloc: Global, text: &str) {
    match Rule::read(alloc, text) {
        Ok(rule) => assert!(rt; is_match(alloc, &rule)),
        Err(fault) => assert_eq!(rt; fault, RuleError::NoMemory),
    }
}
