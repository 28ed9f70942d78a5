// Files of cases, one case after the other.

use crate::case::{Case, read_cases};
use case_files::LineError;
use std::alloc::Global;
use std::process::ExitCode;
use std::rt::Runtime;
use std::{fmt, fs, io};

/// A line of a case that misses, and what came there.
#[derive(Drop)]
pub(crate) struct Miss {
    pub(crate) line: usize,
    pub(crate) came: String,
}

/// What plays cases.
pub(crate) trait Play {
    /// What misses in a case.
    fn misses(&self, case: &Case<'_>) -> Result<Vec<Miss>, LineError>;
}

/// How many cases there were, and how many went wrong.
#[derive(Clone, Copy, Default)]
pub(crate) struct Tally {
    cases: usize,
    wrong: usize,
}

impl Tally {
    /// Plays the cases of files, and prints what misses.
    pub(crate) fn judge<R: Runtime<A = Global>, P: Play>(
        &mut self,
        rt: &R,
        files: &[&str],
        play: &P,
    ) -> io::Result<()> {
        for file in files {
            self.judge_file(rt, file, play)?;
        }
        Ok(())
    }

    /// Prints how many cases there were and how many went wrong. It is a success where there were some, and none went
    /// wrong.
    pub(crate) fn end<R: Runtime<A = Global>>(self, rt: &R) -> ExitCode {
        match println!(rt; "{self}") {
            Ok(()) if self.wrong == 0 && self.cases != 0 => ExitCode::SUCCESS,
            _ => ExitCode::FAILURE,
        }
    }

    fn judge_file<R: Runtime<A = Global>, P: Play>(
        &mut self,
        rt: &R,
        file: &str,
        play: &P,
    ) -> io::Result<()> {
        let bytes = fs::read(rt, file)?;
        match read_cases(rt.alloc(), bytes.as_slice()) {
            Ok(cases) => self.judge_cases(rt, file, cases.as_slice(), play),
            Err(error) => {
                self.count(true);
                println!(rt; "{file}: {error}")
            }
        }
    }

    fn judge_cases<R: Runtime<A = Global>, P: Play>(
        &mut self,
        rt: &R,
        file: &str,
        cases: &[Case<'_>],
        play: &P,
    ) -> io::Result<()> {
        for case in cases {
            let name = case.name;
            match play.misses(case) {
                Ok(misses) => {
                    self.count(!misses.is_empty());
                    print_misses(rt, file, name, misses.as_slice())?;
                }
                Err(error) => {
                    self.count(true);
                    println!(rt; "{file} {name}: {error}")?;
                }
            }
        }
        Ok(())
    }

    fn count(&mut self, is_wrong: bool) {
        self.cases = self.cases.saturating_add(1);
        self.wrong = self.wrong.saturating_add(usize::from(is_wrong));
    }
}

fn print_misses<R: Runtime<A = Global>>(
    rt: &R,
    file: &str,
    name: &str,
    misses: &[Miss],
) -> io::Result<()> {
    for miss in misses {
        let line = miss.line;
        let came = miss.came.as_str();
        println!(rt; "{file}:{line} {name}: came {came}")?;
    }
    Ok(())
}

impl fmt::Display for Tally {
    fn fmt<W: fmt::Write>(&self, f: &mut fmt::Formatter<W>) -> fmt::Result {
        let cases = self.cases;
        let wrong = self.wrong;
        write!(f, "{cases} cases, {wrong} wrong")
    }
}
