// Cases of sessions, each played on a new bus.

ghost use Rattle.std.specs.Prelude.{◌≡◌};

use crate::KEY;
use crate::case::{Case, CaseLine};
use crate::clients::Clients;
use crate::judging::{Miss, Play};
use crate::place::Place;
use case_files::LineError;
use sessions::{Bus, BusBrand, Opened, PlainMailbox};
use std::alloc::Global;
use std::marker::Brand;
use std::sync::Wait;

/// Plays each case on a bus of its own.
#[derive(Drop)]
pub(crate) struct OnNewBus<'r, R: Wait> {
    pub(crate) rt: &'r R,
    pub(crate) alloc: Global,
}

impl<R: Wait> Play for OnNewBus<'_, R> {
    fn misses(&self, case: &Case<'_>) -> Result<Vec<Miss>, LineError> {
        on_new_bus(self.rt, self.alloc, case)
    }
}

fn on_new_bus<R: Wait>(rt: &R, alloc: Global, case: &Case<'_>) -> Result<Vec<Miss>, LineError> {
    let opened = Opened::<PlainMailbox>::new();
    play::<Brand, R>(rt, alloc, opened, case)
}

fn play<B: BusBrand, R: Wait>(
    rt: &R,
    alloc: Global,
    opened: Opened<PlainMailbox>,
    case: &Case<'_>,
) -> Result<Vec<Miss>, LineError>
    requires { opened ≡ B.book }
{
    let Ok(bus) = Bus::<B, PlainMailbox, &R>::new(rt, alloc, KEY, opened) else {
        return Err(LineError::NoMemory);
    };
    let place = Place {
        rt,
        alloc,
        bus: &bus,
    };
    play_lines(&place, case.lines.as_slice())
}

fn play_lines<B: BusBrand, R: Wait>(
    place: &Place<'_, '_, B, R>,
    lines: &[CaseLine<'_>],
) -> Result<Vec<Miss>, LineError> {
    let mut clients = Clients::new(place.alloc);
    let mut misses = Vec::new(place.alloc);
    for line in lines {
        let came = clients.play(place, line.words)?;
        add(&mut misses, line.number, came)?;
    }
    let last = lines.last().map_or(0, |line| line.number);
    add(&mut misses, last, clients.unread(place)?)?;
    Ok(misses)
}

fn add(misses: &mut Vec<Miss>, line: usize, came: Option<String>) -> Result<(), LineError> {
    if let Some(came) = came {
        misses.push(Miss { line, came })?;
    }
    Ok(())
}
