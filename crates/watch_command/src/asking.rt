// What a bus is asked for.

use crate::error::Fault;
use crate::options::Options;
use crate::owners::{BUS_NAME, Owners};
use crate::plan::{Attached, Plan};
use crate::words::Key;
use bus_client::{Client, ClientError};
use std::alloc::{AllocError, Global};
use std::io::{Read, Write};
use summary::Edition;

/// The rule of all broadcasts.
const ALL_BROADCASTS: &str = "";

/// The rule of the bus's messages of new owners. It doesn't ask for the sender, since with that dbus-broker sends a monitor
/// none of them; whether a message is the bus's is seen from its sender.
const OWNER_CHANGES: &str =
    "type='signal',path='/org/freedesktop/DBus',interface='org.freedesktop.DBus',member='NameOwnerChanged'";

/// Asks a bus for what the options want, and answers who owns the names that have to be known. These are asked for before
/// any message that depends on them, and after the changes of their owners.
pub(crate) fn ask<S: Read + Write + Drop>(
    alloc: Global,
    client: &mut Client<S>,
    options: &Options<'_>,
    plan: &Plan<'_>,
) -> Result<Owners, Fault> {
    if let Some(attached) = &plan.attached {
        attach(client, attached).map_err(Fault::of_attaching)?;
        return Ok(Owners::new(alloc));
    }
    let changes = owner_rules(alloc, options, plan)?;
    for rule in &changes {
        client.add_match(rule.as_str())?;
    }
    let owners = known_owners(alloc, client, options, plan)?;
    if options.is_monitor() {
        become_monitor(alloc, client, plan, &changes)?;
    } else {
        add_rules(client, plan)?;
    }
    Ok(owners)
}

/// Whether the bus compares the destination of a monitor's rule with all names of a message's recipient. dbus-broker doesn't compare
/// it at all; unlike the others it doesn't tell the rules of connections either.
pub(crate) fn compares_destinations<S: Read + Write + Drop>(
    client: &mut Client<S>,
) -> Result<bool, Fault> {
    match client.match_rules(BUS_NAME) {
        Ok(_) => Ok(true),
        Err(ClientError::Answered(_)) => Ok(false),
        Err(error) => Err(Fault::from(error)),
    }
}

/// Has the bus run a program or a filter expression.
fn attach<S: Read + Write + Drop>(
    client: &mut Client<S>,
    attached: &Attached<'_>,
) -> Result<(), ClientError> {
    match attached {
        Attached::Program(edition, code) => client.attach(edition.map(number_of), code),
        Attached::Filter(text) => client.attach_filter(text),
    }
}

fn number_of(edition: Edition) -> u32 {
    match edition {
        Edition::One => 1,
        Edition::Two => 2,
    }
}

/// The rules of the changes of owners that have to be known.
fn owner_rules(
    alloc: Global,
    options: &Options<'_>,
    plan: &Plan<'_>,
) -> Result<Vec<String>, Fault> {
    let mut rules = Vec::new(alloc);
    if options.wants_names() {
        rules.push(String::from_str(alloc, OWNER_CHANGES)?)?;
    } else {
        for name in plan.sender_names(alloc)? {
            rules.push(owner_rule(alloc, name)?)?;
        }
    }
    Ok(rules)
}

/// The rule of the changes of a name's owner.
fn owner_rule(alloc: Global, name: &str) -> Result<String, AllocError> {
    format!(in alloc; "{OWNER_CHANGES},arg0='{name}'")
}

/// Who owns the names that have to be known.
fn known_owners<S: Read + Write + Drop>(
    alloc: Global,
    client: &mut Client<S>,
    options: &Options<'_>,
    plan: &Plan<'_>,
) -> Result<Owners, Fault> {
    let mut owners = Owners::new(alloc);
    if options.wants_names() {
        for name in client.names()? {
            if !name.as_str().starts_with(":") && name.as_str() != BUS_NAME {
                put_owner(alloc, client, &mut owners, name.as_str())?;
            }
        }
    } else {
        for name in plan.sender_names(alloc)? {
            put_owner(alloc, client, &mut owners, name)?;
        }
    }
    Ok(owners)
}

fn put_owner<S: Read + Write + Drop>(
    alloc: Global,
    client: &mut Client<S>,
    owners: &mut Owners,
    name: &str,
) -> Result<(), Fault> {
    if let Some(owner) = client.name_owner(name)? {
        owners.put(alloc, name, owner.as_str())?;
    }
    Ok(())
}

/// Makes the client a monitor of the messages that are wanted.
fn become_monitor<S: Read + Write + Drop>(
    alloc: Global,
    client: &mut Client<S>,
    plan: &Plan<'_>,
    changes: &[String],
) -> Result<(), Fault> {
    let mut rules = Vec::new(alloc);
    if !plan.asked.is_empty() {
        for rule in &plan.asked {
            rules.push(*rule)?;
        }
        for rule in changes {
            rules.push(rule.as_str())?;
        }
    }
    client.become_monitor(&rules).map_err(Fault::of_monitoring)
}

/// Adds the rules of the messages that are wanted.
fn add_rules<S: Read + Write + Drop>(client: &mut Client<S>, plan: &Plan<'_>) -> Result<(), Fault> {
    if plan.asked.is_empty() {
        client.add_match(ALL_BROADCASTS)?;
    }
    for rule in &plan.asked {
        client.add_match(rule)?;
    }
    Ok(())
}
