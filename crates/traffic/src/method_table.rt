// What is counted of calls, for each method.

ghost use Rattle.std.specs.Prelude.{◌≡◌, ◌++◌, OnOk, option_map, string_bytes};
ghost use Rattle.std.specs.Option.{option_to_list};
ghost use Rattle.std.specs.Map.Iter.{deref_pair};
ghost use Rattle.traffic.specs.Reports.{method_lines, method_line, count_columns, time_columns, time_column};

use crate::columns::{put_name, put_right, time_text};
use crate::methods::{MethodCounts, Outcome};
use crate::times::Times;
use indexmap::IndexMap;
use itoa::Buffer;
use std::alloc::{AllocError, Global};
use std::marker::Model;

/// How many methods are counted by themselves.
const MAX_METHODS: usize = 4096;

/// The name by which calls of further methods are counted.
const FURTHER: &str = "(further methods)";

/// The heads of the columns.
const HEAD: &str = "  calls errors unanswered      median        99th        most  method\n";

/// What is counted of calls, by the callee and the method. Contracts see the rows.
#[derive(Drop)]
pub struct MethodTable {
    rows: IndexMap<String, MethodCounts>,
}

impl Model for MethodTable {
    ghost use Rattle.traffic.specs.Reports.{MethodRows};

    ghost Value = { MethodRows };

    ghost view = { λ t. t.rows.entries };
}

impl MethodTable {
    ghost use Rattle.std.specs.Prelude.{◌≡◌, [], OnOk, IfOk, string_bytes};
    ghost use Rattle.traffic.specs.Reports.{TakesCall, counted_as, method_report, IsInOrder};

    /// No calls, which takes no memory.
    pub fn new(alloc: Global) -> MethodTable
        ensures { result ≡ [] }
    {
        MethodTable {
            rows: IndexMap::new(alloc),
        }
    }

    /// Counts a call of a method. Where very many methods were called, calls of further ones are counted together.
    ///
    /// # Errors
    ///
    /// Memory was refused.
    pub fn take(&mut self, alloc: Global, method: &str, outcome: Outcome) -> Result<(), AllocError>
        ensures { OnOk result (TakesCall (counted_as self.old method.now) outcome self.old self.new) }
    {
        let method = self.counted_as(method);
        self.take_as(alloc, method, outcome)
    }

    /// The name by which calls of a method are counted.
    fn counted_as<'a>(&self, method: &'a str) -> &'a str
        ensures { result.now ≡ counted_as self.now method.entry.now }
    {
        if self.rows.contains_key(method) || self.rows.len() < MAX_METHODS {
            method
        } else {
            FURTHER
        }
    }

    /// Counts a call by a name.
    fn take_as(&mut self, alloc: Global, name: &str, outcome: Outcome) -> Result<(), AllocError>
        ensures { OnOk result (TakesCall name.now outcome self.old self.new) }
    {
        if let Some(row) = self.rows.get_mut(name) {
            row.take(outcome)?;
            return Ok(());
        }
        let mut row = MethodCounts::new(alloc);
        row.take(outcome)?;
        self.rows.insert(String::from_str(alloc, name)?, row)?;
        Ok(())
    }

    /// Puts the rows in the order of their names, and answers a table of them with a line for each.
    ///
    /// # Errors
    ///
    /// Memory was refused.
    pub fn report(&mut self, alloc: Global) -> Result<String, AllocError>
        ensures order { OnOk result (IsInOrder self.old self.new) }
        ensures text { IfOk result (λ text. string_bytes text ≡ method_report self.new) }
    {
        self.rows.sort_keys()?;
        let mut text = String::from_str(alloc, HEAD)?;
        put_lines(alloc, &mut text, &self.rows)?;
        Ok(text)
    }
}

/// Adds a line for each method.
fn put_lines(
    alloc: Global,
    text: &mut String,
    rows: &IndexMap<String, MethodCounts>,
) -> Result<(), AllocError>
    ensures { OnOk result (string_bytes text.new ≡ string_bytes text.old ++ method_lines rows.now.entries) }
{
    for place in 0..rows.len() {
        put_row(alloc, text, rows.get_index(place))?;
    }
    Ok(())
}

/// Adds the line of a row, if it is there.
fn put_row(
    alloc: Global,
    text: &mut String,
    row: Option<(&String, &MethodCounts)>,
) -> Result<(), AllocError>
    ensures { OnOk result (string_bytes text.new ≡ string_bytes text.old ++ method_lines (option_to_list (option_map deref_pair row.entry))) }
{
    match row {
        Some((name, row)) => put_line(alloc, text, name.as_str(), row),
        None => Ok(()),
    }
}

/// Adds the line of a method.
fn put_line(
    alloc: Global,
    text: &mut String,
    name: &str,
    row: &MethodCounts,
) -> Result<(), AllocError>
    ensures { OnOk result (string_bytes text.new ≡ string_bytes text.old ++ method_line name.now row.now) }
{
    put_counts(text, row)?;
    put_times(alloc, text, &row.times)?;
    put_name(text, name)
}

/// Adds how many calls there were, how many errors, and how many that nobody answered.
fn put_counts(text: &mut String, row: &MethodCounts) -> Result<(), AllocError>
    ensures { OnOk result (string_bytes text.new ≡ string_bytes text.old ++ count_columns row.now) }
{
    put_right(text, 7, Buffer::new().format(row.calls))?;
    put_right(text, 7, Buffer::new().format(row.errors))?;
    put_right(text, 11, Buffer::new().format(row.unanswered))
}

/// Adds the median, the 99th of 100 and the longest of times.
fn put_times(alloc: Global, text: &mut String, times: &Times) -> Result<(), AllocError>
    ensures { OnOk result (string_bytes text.new ≡ string_bytes text.old ++ time_columns times.now) }
{
    put_time(alloc, text, times, times.median())?;
    put_time(alloc, text, times, times.percentile_99())?;
    put_time(alloc, text, times, times.longest())
}

/// Adds one of some times, or `-` where there are none.
fn put_time(alloc: Global, text: &mut String, times: &Times, time: u64) -> Result<(), AllocError>
    ensures { OnOk result (string_bytes text.new ≡ string_bytes text.old ++ time_column times.now time) }
{
    if times.is_empty() {
        return put_right(text, 12, "-");
    }
    put_right(text, 12, time_text(alloc, time)?.as_str())
}
