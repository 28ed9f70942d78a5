// Rules and their parts.

use match_rule::{ArgNumber, Field, Key, Relation, Rule, Source};
use std::alloc::Global;
use std::process::Abort;

/// A rule. Nothing is promised of it, so that a test's body carries none of the reading's clauses.
pub(crate) fn read_rule<R: Abort>(rt: &R, alloc: Global, text: &str) -> Rule {
    Rule::read(alloc, text).expect(rt, "a rule")
}

#[test]
fn parts_of_a_rule(rt: HostRuntime) {
    let rule = read_rule(&rt, rt.alloc(), "path=/a,type='signal',");
    assert_eq!(rt; rule.conditions().len(), 2);
    let path = Key::Compares(Source::Header(Field::Path), Relation::Equal);
    assert!(rt; rule.conditions()[0].key() == path);
    assert_eq!(rt; rule.conditions()[0].value(), "/a");
    assert!(rt; rule.conditions()[1].key() == Key::Kind);
    assert_eq!(rt; rule.conditions()[1].value(), "signal");
    assert_eq!(rt; rule.sender_name(), None);
    assert_eq!(rt; rule.weight(), 8 + 24 + 2 + 24 + 6);
}

#[test]
fn equal_to_itself(rt: HostRuntime) {
    let rule = read_rule(&rt, rt.alloc(), "member='c',type='signal'");
    let same = rule == rule;
    assert!(rt; same);
}

#[test]
fn numbers_of_arguments(rt: HostRuntime) {
    let first = ArgNumber::first();
    assert_eq!(rt; first.number(), 0);
    let last = ArgNumber::new(63).map(|argument| argument.number());
    assert_eq!(rt; last, Some(63));
    let none = ArgNumber::new(64).is_none();
    assert!(rt; none);
}

// What it says of eavesdropping itself is passed over.
#[test]
fn of_messages_to_others_too(rt: HostRuntime) {
    let rule = read_rule(&rt, rt.alloc(), "member='c',eavesdrop='false'").eavesdropping();
    let same = rule == read_rule(&rt, rt.alloc(), "eavesdrop='true',member='c'");
    assert!(rt; same);
}
