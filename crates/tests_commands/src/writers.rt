// Writers in memory that fail, that keep bytes back until they are flushed, and that never fail.

ghost use Rattle.std.specs.Prelude.{◌≡◌, ◌++◌, [], true, ⊤};

use crate::two_files::{S1, TwoFiles};
use dbusfan_tool::{Output, Writer, tool};
use std::alloc::Global;
use std::io;

/// A writer that takes nothing.
#[derive(Drop)]
struct Full;

impl Writer for Full {
    ghost takes = { λ _ _ _. ⊥ };

    ghost flushes = { λ _ _. ⊤ };

    ghost may_fail = { λ _. ⊤ };

    fn take_all(&mut self, _text: &[u8]) -> io::Result<()> {
        Err(io::Error::from(io::ErrorKind::StorageFull))
    }

    fn flush_all(&mut self) -> io::Result<()> {
        Ok(())
    }
}

/// A writer that takes everything, and can't send it on.
#[derive(Drop)]
struct Stuck {
    taken: Vec<u8>,
}

impl Writer for Stuck {
    ghost takes = { λ before bytes after. after.taken.items ≡ before.taken.items ++ bytes };

    ghost flushes = { λ _ _. ⊥ };

    ghost may_fail = { λ _. ⊤ };

    fn take_all(&mut self, text: &[u8]) -> io::Result<()> {
        self.taken.take_all(text)
    }

    fn flush_all(&mut self) -> io::Result<()> {
        Err(io::Error::from(io::ErrorKind::BrokenPipe))
    }
}

/// A writer that keeps bytes back until it is flushed.
#[derive(Drop)]
struct Held {
    kept: Vec<u8>,
    sent: Vec<u8>,
}

impl Writer for Held {
    ghost takes = { λ before bytes after. (after.kept.items ≡ before.kept.items ++ bytes) × (after.sent.items ≡ before.sent.items) };

    ghost flushes = { λ before after. (after.kept.items ≡ []) × (after.sent.items ≡ before.sent.items ++ before.kept.items) };

    ghost may_fail = { λ _. ⊤ };

    fn take_all(&mut self, text: &[u8]) -> io::Result<()> {
        self.kept.take_all(text)
    }

    fn flush_all(&mut self) -> io::Result<()> {
        self.sent.take_all(&self.kept)?;
        self.kept.clear();
        Ok(())
    }
}

/// A writer that wants a text, and sees whether it is given that. It never fails.
#[derive(Drop)]
struct Wanting<'a> {
    rest: &'a [u8],
    is_same: bool,
    flushes: u8,
}

impl<'a> Writer for Wanting<'a> {
    ghost takes = { λ before bytes after. after.is_same ≡ true → (before.is_same ≡ true) × (before.rest.now ≡ bytes ++ after.rest.now) };

    ghost flushes = { λ before after. (after.rest.now ≡ before.rest.now) × (after.is_same ≡ before.is_same) };

    ghost may_fail = { λ _. ⊥ };

    fn take_all(&mut self, text: &[u8]) -> io::Result<()> {
        match self.rest.strip_prefix(text) {
            Some(rest) => self.rest = rest,
            None => self.is_same = false,
        }
        Ok(())
    }

    fn flush_all(&mut self) -> io::Result<()> {
        self.flushes = self.flushes.saturating_add(1);
        Ok(())
    }
}

fn output_wanting(text: &str) -> Output<Wanting<'_>> {
    Output::new(Wanting {
        rest: text.as_bytes(),
        is_same: true,
        flushes: 0,
    })
}

fn one_message() -> TwoFiles<'static> {
    TwoFiles::new(b"", S1.as_bytes())
}

// Each text is written once, and flushed once after it.
#[test]
fn writers_that_never_fail(rt: HostRuntime) {
    for (words, output, error, status) in [
        (["match", "", "F"], "match\n", "", 0),
        (["match", "x", "F"], "", "dbusfan: rule UnknownKey\n", 2),
        (["match", "", "G"], "", "dbusfan: file\n", 4),
    ] {
        let mut out = output_wanting(output);
        let mut err = output_wanting(error);
        let answered = tool(
            rt.alloc(),
            words.as_slice(),
            &mut one_message(),
            &mut out,
            &mut err,
        );
        assert_eq!(rt; answered, status);
        for place in [&out, &err] {
            assert!(rt; place.writer.is_same && place.writer.rest.is_empty());
            assert!(rt; !place.has_failed);
        }
        assert_eq!(rt; out.writer.flushes.saturating_add(err.writer.flushes), 1);
    }
}

// Nothing is kept back when `tool` returns.
#[test]
fn all_is_flushed(rt: HostRuntime) {
    for (rule, output, error, status) in [
        ("", "match\n", "", 0),
        ("x", "", "dbusfan: rule UnknownKey\n", 2),
    ] {
        let mut out = output_held(rt.alloc());
        let mut err = output_held(rt.alloc());
        let answered = tool(
            rt.alloc(),
            ["match", rule, "F"].as_slice(),
            &mut one_message(),
            &mut out,
            &mut err,
        );
        assert_eq!(rt; out.writer.sent.as_slice(), output.as_bytes());
        assert_eq!(rt; err.writer.sent.as_slice(), error.as_bytes());
        assert!(rt; out.writer.kept.is_empty() && err.writer.kept.is_empty());
        assert_eq!(rt; answered, status);
    }
}

fn output_held(alloc: Global) -> Output<Held> {
    Output::new(Held {
        kept: Vec::new(alloc),
        sent: Vec::new(alloc),
    })
}

// What can't be sent on is a fault, though it was taken.
#[test]
fn only_the_flush_fails(rt: HostRuntime) {
    let mut out = Output::new(Stuck {
        taken: Vec::new(rt.alloc()),
    });
    let mut err = Output::new(Vec::new(rt.alloc()));
    let answered = tool(
        rt.alloc(),
        ["match", "", "F"].as_slice(),
        &mut one_message(),
        &mut out,
        &mut err,
    );
    assert_eq!(rt; out.writer.taken.as_slice(), b"match\n".as_slice());
    assert_eq!(rt; err.writer.as_slice(), b"dbusfan: file\n".as_slice());
    assert_eq!(rt; answered, 4);
}

#[test]
fn full_output(rt: HostRuntime) {
    for (rule, error, status) in [
        ("", "dbusfan: file\n", 4),
        // Nothing is written to standard output where there is a fault.
        ("x", "dbusfan: rule UnknownKey\n", 2),
    ] {
        let mut out = Output::new(Full);
        let mut err = Output::new(Vec::new(rt.alloc()));
        let answered = tool(
            rt.alloc(),
            ["match", rule, "F"].as_slice(),
            &mut one_message(),
            &mut out,
            &mut err,
        );
        assert_eq!(rt; err.writer.as_slice(), error.as_bytes());
        assert_eq!(rt; answered, status);
    }
}

#[test]
fn full_error(rt: HostRuntime) {
    let mut out = Output::new(Vec::new(rt.alloc()));
    let mut err = Output::new(Full);
    let answered = tool(
        rt.alloc(),
        ["match", "", "G"].as_slice(),
        &mut one_message(),
        &mut out,
        &mut err,
    );
    assert!(rt; out.writer.is_empty());
    assert_eq!(rt; answered, 4);
}
