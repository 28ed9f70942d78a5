// The cases of files, one file after the other.

use crate::judging::{Judge, judge_line};
use std::alloc::Global;
use std::collections::BTreeSet;
use std::process::ExitCode;
use std::rt::Runtime;
use std::{fmt, fs, io};

/// How many cases there were, and how many went wrong. A line or a file that can't be judged went wrong too.
#[derive(Clone, Copy, Default)]
pub struct Tally {
    cases: usize,
    wrong: usize,
}

impl Tally {
    /// Judges a file, and prints each of its cases that misses with what came.
    pub fn judge<R: Runtime<A = Global>, J: Judge>(&mut self, rt: &R, file: &str, judge: &J) {
        let printed = match fs::read(rt, file) {
            Ok(bytes) => self.judge_lines(rt, file, bytes.as_slice(), judge),
            Err(error) => self.print_wrong(rt, format_args!("{file}: {error}")),
        };
        if printed.is_err() {
            self.add_wrong();
        }
    }

    /// Prints how many cases there were and how many went wrong. It is a success where there were some, and none
    /// went wrong.
    pub fn end<R: Runtime<A = Global>>(self, rt: &R) -> ExitCode {
        match println!(rt; "{self}") {
            Ok(()) if self.wrong == 0 && self.cases != 0 => ExitCode::SUCCESS,
            _ => ExitCode::FAILURE,
        }
    }

    fn judge_lines<R: Runtime<A = Global>, J: Judge>(
        &mut self,
        rt: &R,
        file: &str,
        bytes: &[u8],
        judge: &J,
    ) -> io::Result<()> {
        let mut names = BTreeSet::new(rt.alloc());
        let mut number: usize = 0;
        for line in bytes.split(|byte| *byte == b'\n') {
            number = number.saturating_add(1);
            match judge_line(rt.alloc(), judge, &mut names, line) {
                Ok(None) => {}
                Ok(Some(miss)) => self.print_wrong(rt, format_args!("{file}:{number} {miss}"))?,
                Err(error) => self.print_wrong(rt, format_args!("{file}:{number}: {error}"))?,
            }
        }
        if names.is_empty() {
            self.print_wrong(rt, format_args!("{file}: no cases"))?;
        }
        self.cases = self.cases.saturating_add(names.len());
        Ok(())
    }

    fn print_wrong<R: Runtime<A = Global>, D: fmt::Display + Drop>(
        &mut self,
        rt: &R,
        words: D,
    ) -> io::Result<()> {
        self.add_wrong();
        println!(rt; "{words}")
    }

    fn add_wrong(&mut self) {
        self.wrong = self.wrong.saturating_add(1);
    }
}

impl fmt::Display for Tally {
    fn fmt<W: fmt::Write>(&self, f: &mut fmt::Formatter<W>) -> fmt::Result {
        let cases = self.cases;
        let wrong = self.wrong;
        write!(f, "{cases} cases, {wrong} wrong")
    }
}
