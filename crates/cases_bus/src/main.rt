//! Plays cases of a bus. A case of a file `.lists` is a list of events with the answer to each, played by `World::run` or
//! through passes of one bus. A case of a file `.cases` is what clients of one bus send, what each gets, and how
//! its session ends, played on sessions without sockets.
//!
//! With no argument it plays the files where it is run: it prints what misses, and how many cases there were. With
//! `world -` or `passes -` it plays the list of events on standard input, and prints each event's answer.
#![tactic(auto)]

mod answers;
mod buses;
mod case;
mod client;
mod client_line;
mod clients;
mod connected;
mod event_line;
mod jobs;
mod judging;
mod lists;
mod memory;
mod message;
mod names;
mod pass_calls;
mod place;
mod problem;
mod received;
mod served;
mod serving;
mod session_cases;
mod shares;
mod taker;
mod unanswered;
mod world_events;
mod worlds;

use buses::Buses;
use judging::Tally;
use lists::{Lists, play_input};
use problem::Problem;
use router::IndexKey;
use session_cases::OnNewBus;
use std::alloc::Global;
use std::process::ExitCode;
use std::rt::Runtime;
use std::sync::Wait;
use std::{env, io};
use worlds::Worlds;

/// The cases are no hostile ones: any key of the index serves.
const KEY: IndexKey = IndexKey {
    first: 1,
    second: 2,
};

/// Lists that the core of a bus plays. Passes answer all but the last alike.
const BY_WORLD: [&str; 11] = [
    "examples.lists",
    "names.lists",
    "slots.lists",
    "rules.lists",
    "programs.lists",
    "messages.lists",
    "jobs.lists",
    "refusals.lists",
    "limits.lists",
    "own.lists",
    "outside_of_passes.lists",
];

const BY_PASSES: [&str; 2] = ["passes.lists", "outside_of_worlds.lists"];

const OF_SESSIONS: [&str; 6] = [
    "talks.cases",
    "methods.cases",
    "names.cases",
    "passing.cases",
    "monitors.cases",
    "bytes.cases",
];

fn main(rt: HostRuntime) -> ExitCode {
    match run(&rt) {
        Ok(status) => status,
        Err(problem) => {
            let _ = rt.eprintln(&problem);
            ExitCode::from(problem.status())
        }
    }
}

fn run<R: Runtime<A = Global> + Wait>(rt: &R) -> Result<ExitCode, Problem> {
    let alloc = rt.alloc();
    let mut words = env::args(rt)?.skip(1);
    let Some(player) = words.next() else {
        return Ok(judge_all(rt)?);
    };
    if !words.next().is_some_and(|word| word.as_str() == "-") {
        return Err(Problem::Usage);
    }
    match player.as_str() {
        "world" => play_input(rt, &Worlds { alloc })?,
        "passes" => play_input(rt, &Buses { rt, alloc })?,
        _ => return Err(Problem::Usage),
    }
    Ok(ExitCode::SUCCESS)
}

fn judge_all<R: Runtime<A = Global> + Wait>(rt: &R) -> io::Result<ExitCode> {
    let alloc = rt.alloc();
    let by_world = Lists {
        alloc,
        player: &Worlds { alloc },
    };
    let by_passes = Lists {
        alloc,
        player: &Buses { rt, alloc },
    };
    let mut tally = Tally::default();
    tally.judge(rt, &BY_WORLD, &by_world)?;
    tally.judge(rt, &BY_PASSES, &by_passes)?;
    tally.judge(rt, &OF_SESSIONS, &OnNewBus { rt, alloc })?;
    Ok(tally.end(rt))
}
