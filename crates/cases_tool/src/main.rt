//! What the command line says, case by case: over files in memory, through `tool`. `args` names the files of cases
//! in data/; each begins with how its lines are read.
#![tactic(auto)]

mod files;
mod transcript;

use case_files::judge_files;
use std::process::ExitCode;
use transcript::Commands;

fn main(rt: HostRuntime) -> ExitCode {
    judge_files(&rt, &Commands)
}
