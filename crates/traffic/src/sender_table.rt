// What is counted of messages, by sender and member.

ghost use Rattle.std.specs.Prelude.{◌≡◌, ◌++◌, ◌-◌, ◌/◌, ◌^◌, OnOk, option_map, string_bytes, take};
ghost use Rattle.std.specs.Option.{option_to_list};
ghost use Rattle.std.specs.Map.Iter.{deref_pair};
ghost use Rattle.traffic.specs.Senders.{with_message, rarity, sender_lines, sender_line, rate_column};

use crate::columns::{put_name, put_right, put_thousandths};
use indexmap::IndexMap;
use itoa::Buffer;
use std::alloc::{AllocError, Global};
use std::marker::Model;

/// How many senders with their members are counted by themselves.
const MAX_ROWS: usize = 16_384;

/// The name by which further messages are counted.
const FURTHER: &str = "(further senders and members)";

/// The heads of the columns.
const HEAD: &str = "  messages         bytes    per second  sender and member\n";

/// Nanoseconds of a microsecond.
const MICROSECOND: u64 = 1_000;

/// Thousandths of a second's messages, for each message a microsecond.
const THOUSANDTHS: u64 = 1_000_000_000;

/// How many messages there were, and how many bytes they have.
#[derive(Clone, Copy)]
pub struct Messages {
    pub count: u64,
    pub bytes: u64,
}

/// No messages.
const NONE: Messages = Messages { count: 0, bytes: 0 };

/// With one message more, of a length in bytes.
fn with_message(len: u64, messages: Messages) -> Messages
    ensures { result ≡ with_message len messages }
{
    Messages {
        count: messages.count.saturating_add(1),
        bytes: messages.bytes.saturating_add(len),
    }
}

/// What is counted of messages, by sender and member. Contracts see the rows.
#[derive(Drop)]
pub struct SenderTable {
    rows: IndexMap<String, Messages>,
}

impl Model for SenderTable {
    ghost use Rattle.traffic.specs.Senders.{SenderRows};

    ghost Value = { SenderRows };

    ghost view = { λ t. t.rows.entries };
}

impl SenderTable {
    ghost use Rattle.std.specs.Prelude.{◌≡◌, [], take, OnOk, IfOk, string_bytes};
    ghost use Rattle.traffic.specs.Senders.{TakesMessage, sender_counted_as, sender_report, rarity, AreInOrder, AreByCount};

    /// No messages, which takes no memory.
    pub fn new(alloc: Global) -> SenderTable
        ensures { result ≡ [] }
    {
        SenderTable {
            rows: IndexMap::new(alloc),
        }
    }

    /// Counts a message of a sender and a member, which has a length in bytes. Beyond a great number of senders and members
    /// further ones are counted together.
    ///
    /// # Errors
    ///
    /// Memory was refused.
    pub fn take(&mut self, alloc: Global, name: &str, len: u64) -> Result<(), AllocError>
        ensures { OnOk result (TakesMessage (sender_counted_as self.old name.now) len self.old self.new) }
    {
        let name = self.counted_as(name);
        self.take_as(alloc, name, len)
    }

    /// The name by which messages are counted.
    fn counted_as<'a>(&self, name: &'a str) -> &'a str
        ensures { result.now ≡ sender_counted_as self.now name.entry.now }
    {
        if self.rows.contains_key(name) || self.rows.len() < MAX_ROWS {
            name
        } else {
            FURTHER
        }
    }

    /// Counts a message by a name.
    fn take_as(&mut self, alloc: Global, name: &str, len: u64) -> Result<(), AllocError>
        ensures { OnOk result (TakesMessage name.now len self.old self.new) }
    {
        if let Some(messages) = self.rows.get_mut(name) {
            *messages = with_message(len, *messages);
            return Ok(());
        }
        let one = with_message(len, NONE);
        self.rows.insert(String::from_str(alloc, name)?, one)?;
        Ok(())
    }

    /// Puts the rows in the order of their names, and answers a table of them with a line for each: how many messages, how
    /// many bytes, and how many messages a second over a time in nanoseconds.
    ///
    /// # Errors
    ///
    /// Memory was refused.
    pub fn report(&mut self, alloc: Global, time: u64) -> Result<String, AllocError>
        ensures order { OnOk result (AreInOrder self.old self.new) }
        ensures text { IfOk result (λ text. string_bytes text ≡ sender_report time self.new) }
    {
        self.rows.sort_keys()?;
        let mut text = String::from_str(alloc, HEAD)?;
        put_lines(alloc, &mut text, &self.rows, self.rows.len(), time)?;
        Ok(text)
    }

    /// Puts the rows with the most messages first, and those with as many in the order of their names, and answers a table of
    /// the first of them, at most as many as are said, as `report` does.
    ///
    /// # Errors
    ///
    /// Memory was refused.
    pub fn busiest(&mut self, alloc: Global, time: u64, most: usize) -> Result<String, AllocError>
        ensures order { OnOk result (AreByCount self.old self.new) }
        ensures text { IfOk result (λ text. string_bytes text ≡ sender_report time (take most self.new)) }
    {
        self.sort_by_count()?;
        let mut text = String::from_str(alloc, HEAD)?;
        put_lines(alloc, &mut text, &self.rows, most, time)?;
        Ok(text)
    }

    /// Puts the rows with the most messages first, and those with as many in the order of their names.
    fn sort_by_count(&mut self) -> Result<(), AllocError>
        ensures { OnOk result (AreByCount self.old self.new) }
    {
        self.rows.sort_keys()?;
        self.rows.sort_by_key(
            |_name: &String, messages: &Messages| -> u64
                ensures { result ≡ rarity messages.now }
            { rarity(*messages) },
        )
    }
}

/// How far messages are below the greatest count: the fewer there are, the greater it is.
fn rarity(messages: Messages) -> u64
    ensures { result ≡ rarity messages }
{
    u64::MAX - messages.count
}

/// Adds a line for each of the first rows, at most as many as are said.
fn put_lines(
    alloc: Global,
    text: &mut String,
    rows: &IndexMap<String, Messages>,
    most: usize,
    time: u64,
) -> Result<(), AllocError>
    ensures { OnOk result (string_bytes text.new ≡ string_bytes text.old ++ sender_lines time (take most rows.now.entries)) }
{
    for place in 0..most {
        put_row(alloc, text, rows.get_index(place), time)?;
    }
    Ok(())
}

/// Adds the line of a row, if it is there.
fn put_row(
    alloc: Global,
    text: &mut String,
    row: Option<(&String, &Messages)>,
    time: u64,
) -> Result<(), AllocError>
    ensures { OnOk result (string_bytes text.new ≡ string_bytes text.old ++ sender_lines time (option_to_list (option_map deref_pair row.entry))) }
{
    match row {
        Some((name, messages)) => put_line(alloc, text, name.as_str(), *messages, time),
        None => Ok(()),
    }
}

/// Adds the line of a sender and a member.
fn put_line(
    alloc: Global,
    text: &mut String,
    name: &str,
    messages: Messages,
    time: u64,
) -> Result<(), AllocError>
    ensures { OnOk result (string_bytes text.new ≡ string_bytes text.old ++ sender_line time name.now messages) }
{
    put_right(text, 10, Buffer::new().format(messages.count))?;
    put_right(text, 14, Buffer::new().format(messages.bytes))?;
    put_rate(alloc, text, messages.count, time / MICROSECOND)?;
    put_name(text, name)
}

/// Adds how many of some messages came in a second, or `-` where they came in no time. The time is in microseconds.
fn put_rate(alloc: Global, text: &mut String, count: u64, time: u64) -> Result<(), AllocError>
    ensures { OnOk result (string_bytes text.new ≡ string_bytes text.old ++ rate_column count time) }
{
    if time == 0 {
        return put_right(text, 14, "-");
    }
    let mut rate = String::new(alloc);
    put_thousandths(alloc, &mut rate, count.saturating_mul(THOUSANDTHS) / time)?;
    put_right(text, 14, rate.as_str())
}
