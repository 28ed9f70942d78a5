// The connections in a vector by rising number.
ghost use Rattle.std.specs.Prelude.{◌≡◌, ℕ, ◌<◌, ◌≤◌, [], true, false, nat_le, IfOk, IfSome, MatchOption, length, slice_get, slice_index};
ghost use Rattle.std.specs.Option.{option_copied};
ghost use Rattle.std.specs.List.Sorted.{IsStrictlyIncreasing};
ghost use Rattle.program_table.specs.Connections.{numbers_of, is_connected, mailbox_of, commands_of, with_command, without_connection, max_connections, are_full};
ghost use Rattle.program_table.specs.Places.{HaveOtherNumbers, IsPlaceOf};
ghost use Rattle.program_table.specs.ConnectionList.{with_connection, IsConnectionList};

use crate::connection::Connection;
use std::alloc::{AllocError, Global};
use std::marker::Model;

/// How many connections a bus has at most, whatever else it is told.
pub const MAX_CONNECTIONS: usize = 4096;

/// The connections, and the last number that was given.
#[derive(Drop)]
pub(crate) struct Connections<M> {
    list: Vec<Connection<M>>,
    last: u64,
}

impl<M> Model for Connections<M> {
    ghost use Rattle.std.specs.Prelude.{◌≤◌, All, length};
    ghost use Rattle.std.specs.Vec.{vec_capacity};
    ghost use Rattle.program_table.specs.declared.connection.Connection.{Connection};
    ghost use Rattle.program_table.specs.Connections.{max_connections};
    ghost use Rattle.program_table.specs.ConnectionList.{ConnectionList, IsConnectionList};

    ghost Value = { ConnectionList M };

    ghost view = { λ c. record { connections = c.list.items; last = c.last } };

    ghost invariant = { λ c. IsConnectionList (record { connections = c.list.items; last = c.last }) × (max_connections ≤ vec_capacity c.list) };
}

impl<M> Connections<M> {
    /// A list without connections, with room for as many as there may be.
    pub(crate) fn new(alloc: Global) -> Result<Connections<M>, AllocError>
        ensures { IfOk result (λ c. c ≡ record { connections = []; last = 0 }) }
    {
        Ok(Connections {
            list: Vec::with_capacity(alloc, MAX_CONNECTIONS)?,
            last: 0,
        })
    }

    /// Whether there are this many connections, or as many as there may be at most.
    pub(crate) fn is_full(&self, most: u32) -> bool
        ensures { result ≡ are_full most self.now.connections }
    {
        self.list.len() >= MAX_CONNECTIONS || self.list.len() >= most as usize
    }

    /// The last number that was given, 0 before the first.
    pub(crate) fn last(&self) -> u64
        ensures value { result ≡ self.now.last }
        // Numbers rise, none is above the last, and there are at most 4,096.
        ensures sound { IsConnectionList self.now }
    {
        self.last
    }

    /// Whether the connection is there.
    pub(crate) fn contains(&self, number: u64) -> bool
        ensures { result ≡ is_connected number self.now.connections }
    {
        place_of(self.list.as_slice(), number).is_some()
    }

    /// Where a connection stands in the list.
    pub(crate) fn place_of(&self, number: u64) -> Option<usize>
        ensures { MatchOption result (is_connected number self.now.connections ≡ false) (λ place. slice_get (numbers_of self.now.connections) place ≡ Some number) }
    {
        place_of(self.list.as_slice(), number)
    }

    /// How many commands of a connection were accepted, 0 where it isn't there.
    pub(crate) fn commands_of(&self, number: u64) -> u64
        ensures { result ≡ commands_of number self.now.connections }
    {
        match place_of(self.list.as_slice(), number) {
            Some(place) => self.list[place].commands,
            None => 0,
        }
    }

    pub(crate) fn mailbox_of(&self, number: u64) -> Option<&M>
        ensures { option_copied result ≡ mailbox_of number self.now.connections }
    {
        match place_of(self.list.as_slice(), number) {
            Some(place) => Some(&self.list[place].mailbox),
            None => None,
        }
    }

    /// The connections by rising number.
    pub(crate) fn as_slice(&self) -> &[Connection<M>]
        ensures { result.now ≡ self.now.connections }
    {
        self.list.as_slice()
    }

    /// One more connection, with the next number and one command.
    pub(crate) fn push(&mut self, mailbox: M)
        requires room { length self.old.connections < max_connections }
        requires number { self.old.last < 18446744073709551615 }
        ensures { self.new ≡ with_connection self.old mailbox }
    {
        self.last += 1;
        self.list.push_reserved(Connection {
            number: self.last,
            mailbox,
            commands: 1,
        });
    }

    /// One more command of a connection that is there.
    pub(crate) fn count_command(&mut self, number: u64)
        requires there { is_connected number self.old.connections ≡ true }
        requires fits { commands_of number self.old.connections < 18446744073709551615 }
        ensures { self.new ≡ record self.old { connections = with_command number self.old.connections } }
    {
        match place_of(self.list.as_slice(), number) {
            Some(place) => self.list[place].commands += 1,
            None => {}
        }
    }

    /// Takes a connection out, if it is there.
    pub(crate) fn remove(&mut self, number: u64)
    where
        M: Drop,
        ensures { self.new ≡ record self.old { connections = without_connection number self.old.connections } }
    {
        match place_of(self.list.as_slice(), number) {
            Some(place) => {
                self.list.remove(place);
            }
            None => {}
        }
    }
}

/// The first place from which no number is below this one.
fn lower_bound<M>(list: &[Connection<M>], number: u64) -> usize
    requires { IsStrictlyIncreasing (numbers_of list.now) }
    ensures within { result ≤ length list.now }
    ensures below { (k : ℕ) → k < result → slice_index (numbers_of list.now) k < number }
    ensures above { (k : ℕ) → result ≤ k → k < length list.now → number ≤ slice_index (numbers_of list.now) k }
{
    let mut low = 0;
    let mut high = list.len();
    while low < high {
        let middle = low + (high - low) / 2;
        if list[middle].number < number {
            low = middle + 1;
        } else {
            high = middle;
        }
    }
    low
}

/// The place of the connection of a number, if none between the first one and it is gone.
fn place_in_row<M>(list: &[Connection<M>], number: u64) -> Option<usize>
    requires { IsStrictlyIncreasing (numbers_of list.now) }
    ensures { IfSome result (IsPlaceOf number list.now) }
{
    if list.is_empty() || number < list[0].number {
        return None;
    }
    let distance = number - list[0].number;
    if distance >= list.len() as u64 {
        return None;
    }
    let place = distance as usize;
    if list[place].number == number {
        Some(place)
    } else {
        None
    }
}

/// The place of the connection of a number. It is searched for only where connections before it are gone.
fn place_of<M>(list: &[Connection<M>], number: u64) -> Option<usize>
    requires { IsStrictlyIncreasing (numbers_of list.now) }
    ensures { MatchOption result (HaveOtherNumbers number list.now) (IsPlaceOf number list.now) }
{
    if let Some(place) = place_in_row(list, number) {
        return Some(place);
    }
    let place = lower_bound(list, number);
    if place < list.len() && list[place].number == number {
        Some(place)
    } else {
        None
    }
}
