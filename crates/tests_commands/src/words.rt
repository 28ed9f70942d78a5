// The words of `watch`.

use std::alloc::Global;
use std::process::Abort;
use watch_command::{Key, Options};

/// What words ask for, which have to be a row.
fn options_of<'a, R: Abort>(rt: &R, alloc: Global, words: &[&'a str]) -> Options<'a> {
    match Options::read(alloc, words) {
        Ok(Some(options)) => options,
        _ => panic!(rt; "no row, or no memory"),
    }
}

/// That words ask for these rules of the bus `session`.
fn expect_rules<R: Abort>(rt: &R, alloc: Global, words: &[&str], rules: &[&str]) {
    let options = options_of(rt, alloc, words);
    assert_eq!(rt; options.address(), Some("session"));
    match options.rules(alloc) {
        Ok(found) => assert_eq!(rt; found.as_slice(), rules),
        Err(_) => panic!(rt; "no memory"),
    }
}

#[test]
fn rules(rt: HostRuntime) {
    let alloc = rt.alloc();
    expect_rules(&rt, alloc, &["session", ""], &[""]);
    expect_rules(&rt, alloc, &["session", "a", "--hex", "b"], &["a", "b"]);
    expect_rules(&rt, alloc, &["--count", "3", "session", "a"], &["a"]);
    expect_rules(&rt, alloc, &["session", "--hex", "--", "-x"], &["-x"]);
    expect_rules(&rt, alloc, &["session", "-"], &["-"]);
    expect_rules(&rt, alloc, &["session", "--monitor"], &[]);
    expect_rules(&rt, alloc, &["session", "--calls"], &[]);
    expect_rules(&rt, alloc, &["session", "--summary"], &[]);
    expect_rules(&rt, alloc, &["session", "--top"], &[]);
    expect_rules(&rt, alloc, &["session", "--filter", "signal"], &[]);
    expect_rules(&rt, alloc, &["session", "a", "--filter", "-"], &["a"]);
    expect_rules(&rt, alloc, &["session", "a", "--why"], &["a"]);
    expect_rules(&rt, alloc, &["session", "--why", "--filter", "e"], &[]);
}

#[test]
fn calls(rt: HostRuntime) {
    let words = [
        "session",
        "--calls",
        "--slow",
        "100",
        "--patience",
        "5",
        "--clock",
        "--full",
    ];
    let options = options_of(&rt, rt.alloc(), &words);
    assert!(rt; options.has(Key::Calls));
    assert_eq!(rt; options.number_of(Key::Slow), Some(100));
    assert_eq!(rt; options.number_of(Key::Patience), Some(5));
    assert!(rt; options.has(Key::Clock));
    assert!(rt; options.has(Key::Full));
}

#[test]
fn settings(rt: HostRuntime) {
    let words = [
        "--program",
        "p",
        "--edition",
        "2",
        "session",
        "--count",
        "3",
        "--seconds",
        "10",
        "--json",
    ];
    let options = options_of(&rt, rt.alloc(), &words);
    assert_eq!(rt; options.text_of(Key::Program), Some("p"));
    assert_eq!(rt; options.number_of(Key::Count), Some(3));
    assert_eq!(rt; options.number_of(Key::Seconds), Some(10));
    assert!(rt; options.edition().is_some());
    assert!(rt; options.has(Key::Json));
    assert!(rt; !options.has(Key::Hex));
}

#[test]
fn filters(rt: HostRuntime) {
    let words = ["session", "--filter", "signal or error", "--attach"];
    let options = options_of(&rt, rt.alloc(), &words);
    assert_eq!(rt; options.text_of(Key::Filter), Some("signal or error"));
    assert!(rt; options.has(Key::Attach));
    let options = options_of(&rt, rt.alloc(), &["--read", "f", "--filter", "call"]);
    assert_eq!(rt; options.text_of(Key::Filter), Some("call"));
}

#[test]
fn captures(rt: HostRuntime) {
    let options = options_of(&rt, rt.alloc(), &["--read", "f", "a"]);
    assert_eq!(rt; options.address(), None);
    assert_eq!(rt; options.text_of(Key::Read), Some("f"));
}

// Words with blanks between them that are no row of the command line.
#[test]
fn no_command(rt: HostRuntime) {
    for line in [
        "",
        "session",
        "session a --count 0",
        "session a --count +1",
        "session a --count",
        "session a --seconds x",
        "session a --hex --hex",
        "session a --hex --json",
        "session a --json --time",
        "session a --edition 1",
        "session --program p --edition 3",
        "session --attach",
        "session a --program p --attach",
        "session --program p --attach --monitor",
        "session a --rules f",
        "session --rules f --json",
        "--read f --monitor",
        "--read f --seconds 1",
        "session a --slow 1",
        "session --patience 1 --monitor",
        "session --calls --slow 0",
        "session --calls --json",
        "session --calls --summary",
        "session --program p --calls --attach",
        "session --summary --names",
        "session a --clock --time",
        "session a --full --hex",
        "session a b --why",
        "session a --why --invert",
        "session --filter",
        "session --filter e --filter e",
        "session --filter e --program p",
        "session --filter e --edition 2",
        "session --rules f --filter e",
        "session --of n --filter e",
        "session a --filter e --attach",
        "session --filter e --attach --monitor",
        "session a --why --filter e",
        "session --why --filter e --invert",
        "session --why --filter e --attach",
        "session --why --monitor",
        "session --top --calls",
        "session --top --json",
        "--read f --top",
        "session a --other",
    ] {
        let words: Vec<&str> = match line.split(' ').collect(rt.alloc()) {
            Ok(words) => words,
            Err(_) => panic!(rt; "no memory"),
        };
        assert!(rt;
            matches!(Options::read(rt.alloc(), &words), Ok(None)),
            "at {line}"
        );
    }
}
