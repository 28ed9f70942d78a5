// A writer that hands its line to another thread, so that a test learns where a server listens.

ghost use Rattle.std.specs.Prelude.{⊤};

use command_line::Writer;
use std::alloc::Global;
use std::io;
use std::sync::{Condvar, Mutex, Wait};

/// The text that was written so far.
#[derive(Drop)]
pub struct Announced {
    text: Mutex<Vec<u8>>,
    grown: Condvar,
}

impl Announced {
    pub fn new(alloc: Global) -> Announced {
        Announced {
            text: Mutex::new(Vec::new(alloc)),
            grown: Condvar::new(),
        }
    }

    /// Waits for a whole line.
    pub fn wait<R: Wait>(&self, rt: &R) {
        let _line = self
            .grown
            .wait_while(rt, self.text.lock(rt), |text| text.last() != Some(&b'\n'));
    }

    /// The number of the port that the line says.
    pub fn port<R: Wait>(&self, rt: &R) -> Option<u16> {
        self.wait(rt);
        let text = self.text.lock(rt);
        let line = str::from_utf8(text.as_slice()).ok()?;
        let (_, port) = line.split_once(",port=")?;
        let (port, _) = port.split_once(',')?;
        port.parse::<u16>().ok()
    }

    /// The path of the socket that the line says.
    pub fn path<R: Wait>(&self, rt: &R, alloc: Global) -> Option<String> {
        self.wait(rt);
        let text = self.text.lock(rt);
        let line = str::from_utf8(text.as_slice()).ok()?;
        let (_, path) = line.split_once("unix:path=")?;
        let (path, _) = path.split_once(",guid=")?;
        String::from_str(alloc, path).ok()
    }

    /// Whether this is what was written.
    pub fn is<R: Wait>(&self, rt: &R, line: &str) -> bool {
        let text = self.text.lock(rt);
        text.as_slice() == line.as_bytes()
    }

    fn add<R: Wait>(&self, rt: &R, bytes: &[u8]) -> io::Result<()> {
        self.text.lock(rt).extend_from_slice(bytes)?;
        self.grown.notify_all();
        Ok(())
    }
}

/// The writing end. A writer is passed no handle, so it holds one.
#[derive(Drop)]
pub struct Announcer<'a, R: Wait> {
    pub rt: &'a R,
    pub to: &'a Announced,
}

impl<'a, R: Wait> Writer for Announcer<'a, R> {
    ghost takes = { λ _ _ _. ⊤ };

    ghost flushes = { λ _ _. ⊤ };

    ghost may_fail = { λ _. ⊤ };

    fn take_all(&mut self, text: &[u8]) -> io::Result<()> {
        self.to.add(self.rt, text)
    }

    fn flush_all(&mut self) -> io::Result<()> {
        Ok(())
    }
}
