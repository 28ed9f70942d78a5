//! Judges files of cases about messages, match rules and programs, and filter expressions. It is run where their folders
//! lie.
#![tactic(auto)]

mod filters;
mod messages;
mod rules;

use case_files::Tally;
use std::process::ExitCode;

fn main(rt: HostRuntime) -> ExitCode {
    let mut tally = Tally::default();
    messages::judge(&rt, &mut tally);
    rules::judge(&rt, &mut tally);
    filters::judge(&rt, &mut tally);
    tally.end(&rt)
}
