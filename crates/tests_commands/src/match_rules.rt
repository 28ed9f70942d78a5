// The match rules of another connection: the words that ask for them, and what a bus answers.

use crate::scripts::{Script, put_answer};
use bus_client::{Client, ClientError, Transport};
use std::alloc::Global;
use std::process::Abort;
use watch_command::{Key, Options};

/// What dbus-daemon 1.14 answered to GetAllMatchRules: `:1.0` has two rules, `:1.1` and `:1.2` none.
const ANSWER: &[u8] = b"l\x02\x01\x01\x80\0\0\0\x03\0\0\0E\0\0\0\x06\x01s\0\x04\0\0\0:1.2\0\0\0\0\
\x05\x01u\0\x02\0\0\0\x08\x01g\0\x06a{sas}\0\0\0\0\0\x07\x01s\0\x14\0\0\0org.freedesktop.DBus\0\0\0\0\
x\0\0\0\0\0\0\0\x04\0\0\0:1.0\0\0\0\0B\0\0\0\x19\0\0\0sender='org.x.Y',arg0='q'\0\0\0\
\x1d\0\0\0type='signal',interface='a.b'\0\0\0\0\0\0\0\x04\0\0\0:1.1\0\0\0\0\0\0\0\0\
\x04\0\0\0:1.2\0\0\0\0\0\0\0\0";

/// A client that a bus has let in, which then says this.
fn client_before<'a, R: Abort>(rt: &R, alloc: Global, says: &'a [u8]) -> Client<Script<'a>> {
    match Client::open(alloc, Script::new(alloc, says, 4096), Transport::Unix) {
        Ok(client) => client,
        Err(_) => panic!(rt; "it wasn't let in"),
    }
}

/// What a bus says to a client that comes in, and then this.
fn bus_before<R: Abort>(rt: &R, alloc: Global, answer: &[u8]) -> Vec<u8> {
    let mut says = Vec::from_slice(alloc, b"OK 0123\r\nERROR\r\n").expect(rt, "memory");
    put_answer(rt, alloc, &mut says, 1, None);
    says.extend_from_slice(answer).expect(rt, "memory");
    says
}

/// That the answer has these rules for a connection, or none for one that isn't there.
fn expect_rules<R: Abort>(rt: &R, alloc: Global, connection: &str, rules: Option<&[&str]>) {
    let says = bus_before(rt, alloc, ANSWER);
    let mut client = client_before(rt, alloc, &says);
    match (client.match_rules(connection), rules) {
        (Ok(Some(found)), Some(rules)) => {
            assert_eq!(rt; found.len(), rules.len());
            for (text, rule) in found.iter().zip(rules) {
                assert_eq!(rt; text.as_str(), *rule);
            }
        }
        (Ok(None), None) => {}
        _ => panic!(rt; "other rules, or no answer"),
    }
}

#[test]
fn rules_of_a_connection(rt: HostRuntime) {
    let rules = ["sender='org.x.Y',arg0='q'", "type='signal',interface='a.b'"];
    expect_rules(&rt, rt.alloc(), ":1.0", Some(&rules));
    expect_rules(&rt, rt.alloc(), ":1.2", Some(&[]));
    expect_rules(&rt, rt.alloc(), ":1.3", None);
}

// dbus-broker answers so.
#[test]
fn rules_that_a_bus_keeps(rt: HostRuntime) {
    let name = "org.freedesktop.DBus.Error.Failed";
    let mut says = bus_before(&rt, rt.alloc(), b"");
    put_answer(&rt, rt.alloc(), &mut says, 2, Some(name));
    let mut client = client_before(&rt, rt.alloc(), &says);
    match client.match_rules(":1.0") {
        Err(ClientError::Answered(error)) => assert_eq!(rt; error.name.as_str(), name),
        _ => panic!(rt; "no answer, or no error"),
    }
}

#[test]
fn words_of_a_connection(rt: HostRuntime) {
    let words = ["session", "--of", ":1.0", "--monitor", "--seconds", "3"];
    match Options::read(rt.alloc(), &words) {
        Ok(Some(options)) => assert_eq!(rt; options.text_of(Key::Of), Some(":1.0")),
        _ => panic!(rt; "no row, or no memory"),
    }
}

#[test]
fn no_words_of_a_connection(rt: HostRuntime) {
    for line in [
        "--of :1.0",
        "session --of",
        "session a --of :1.0",
        "session --of :1.0 --json",
        "session --of :1.0 --rules f",
        "session --of :1.0 --of :1.1",
        "session --program p --attach --of :1.0",
        "--read f --of :1.0",
    ] {
        let words: Vec<&str> = match line.split(' ').collect(rt.alloc()) {
            Ok(words) => words,
            Err(_) => panic!(rt; "no memory"),
        };
        assert!(rt;
            matches!(Options::read(rt.alloc(), &words), Ok(None)),
            "at {line}"
        );
    }
}
