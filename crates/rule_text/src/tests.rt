// Rules that are read, written and read again.

use crate::writing::rule_text;
use match_rule::Rule;
use std::alloc::Global;
use std::process::Abort;

fn read<R: Abort>(rt: &R, alloc: Global, text: &str) -> Rule {
    Rule::read(alloc, text).expect(rt, "a rule")
}

fn write<R: Abort>(rt: &R, alloc: Global, rule: &Rule) -> String {
    rule_text(alloc, rule).expect(rt, "memory for a text")
}

fn check<R: Abort>(rt: &R, alloc: Global, text: &str, written: &str) {
    let rule = read(rt, alloc, text);
    let back = write(rt, alloc, &rule);
    assert_eq!(rt; back.as_str(), written);
    let again = read(rt, alloc, back.as_str());
    let is_same = rule == again;
    assert!(rt; is_same);
}

#[test]
fn plain_keys(rt: HostRuntime) {
    let text = "type='signal',interface='c.d',member='E',path='/f',sender='a.b',destination=':1.2'";
    check(&rt, rt.alloc(), text, text);
    check(
        &rt,
        rt.alloc(),
        "member=A,type=error",
        "type='error',member='A'",
    );
    check(&rt, rt.alloc(), "", "");
}

#[test]
fn values_in_apostrophes(rt: HostRuntime) {
    check(&rt, rt.alloc(), "arg0='a,b'", "arg0='a,b'");
    check(&rt, rt.alloc(), "arg0=it\\'s", "arg0='it'\\''s'");
    check(
        &rt,
        rt.alloc(),
        "arg1=\\',member=A",
        "member='A',arg1=''\\'''",
    );
    check(&rt, rt.alloc(), "arg2='\\'", "arg2='\\'");
    check(&rt, rt.alloc(), "arg3=''", "arg3=''");
}

#[test]
fn keys_of_arguments_and_namespaces(rt: HostRuntime) {
    let text = "path_namespace='/a/b',arg0namespace='c.d',arg12path='/e/',arg63='f'";
    check(&rt, rt.alloc(), text, text);
}

#[test]
fn eavesdropping(rt: HostRuntime) {
    check(
        &rt,
        rt.alloc(),
        "eavesdrop=true,member=A",
        "member='A',eavesdrop='true'",
    );
    check(&rt, rt.alloc(), "eavesdrop='true'", "eavesdrop='true'");
    check(&rt, rt.alloc(), "eavesdrop='false',member=A", "member='A'");
}

// As dbus-daemon 1.14 tells it.
#[test]
fn keys_in_their_order(rt: HostRuntime) {
    check(
        &rt,
        rt.alloc(),
        "arg2='z',arg0path='/p/',arg1='y',eavesdrop='true',destination=':1.5',sender='a.b',path='/x',member='c',interface='i.f',type='signal'",
        "type='signal',interface='i.f',member='c',path='/x',sender='a.b',destination=':1.5',eavesdrop='true',arg0path='/p/',arg1='y',arg2='z'",
    );
    check(
        &rt,
        rt.alloc(),
        "arg0namespace='q.r',path_namespace='/n'",
        "path_namespace='/n',arg0namespace='q.r'",
    );
}
