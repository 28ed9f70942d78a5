// What a bus is to listen at.

use crate::error::Refusal;
use crate::options::Options;
use crate::place::Place;
use endpoints::Address;
use std::alloc::Global;
use std::fs::Files;
use std::random::RandomSource;
use std::rt::Env;

/// The address of a socket: one that the words name, or that of a place that was chosen.
#[derive(Drop)]
pub(crate) enum Target<'a> {
    Asked(Address<'a>),
    Chosen(Place),
}

impl<'a> Target<'a> {
    /// The sockets that are asked for, or the one at the usual place.
    pub(crate) fn all<R>(
        rt: &R,
        alloc: Global,
        options: &Options<'a>,
    ) -> Result<Vec<Target<'a>>, Refusal>
    where
        R: Files + Env + RandomSource + Alloc,
    {
        let mut targets = Vec::new(alloc);
        for address in options.addresses.as_slice() {
            if let Some(address) = *address {
                let target = Target::of(rt, alloc, address)?;
                add(&mut targets, target)?;
            }
        }
        if targets.is_empty() {
            let place = Place::usual(rt, alloc, options.usual_place)?;
            add(&mut targets, Target::Chosen(place))?;
        }
        Ok(targets)
    }

    fn of<R>(rt: &R, alloc: Global, address: Address<'a>) -> Result<Target<'a>, Refusal>
    where
        R: Files + Env + RandomSource + Alloc,
    {
        match address {
            Address::Folder { path } => Ok(Target::Chosen(Place::new_in(rt, alloc, path)?)),
            Address::Runtime => Ok(Target::Chosen(Place::of_runtime(rt, alloc)?)),
            address => Ok(Target::Asked(address)),
        }
    }

    pub(crate) fn address(&self) -> Address<'_> {
        match self {
            Target::Asked(address) => *address,
            Target::Chosen(place) => Address::Unix {
                path: place.value.as_str(),
            },
        }
    }

    /// Removes the folder that was made for it, if one was.
    pub(crate) fn remove<R: Files>(&self, rt: &R) {
        if let Target::Chosen(place) = self {
            place.remove(rt);
        }
    }
}

fn add<'a>(targets: &mut Vec<Target<'a>>, target: Target<'a>) -> Result<(), Refusal> {
    match targets.push(target) {
        Ok(()) => Ok(()),
        Err(_) => Err(Refusal::memory()),
    }
}
