// How long calls of a method took.

ghost use Rattle.std.specs.Prelude.{◌≡◌, ◌<◌, OnOk, length};
ghost use Rattle.traffic.specs.Times.{IsClass, reaching, put_at, at_rank};

use std::alloc::{AllocError, Global};
use std::marker::Model;

/// Nanoseconds of a microsecond.
const MICROSECOND: u64 = 1_000;

/// Into how many classes the times from a power of two to the next are divided.
const CLASSES: usize = 16;

/// Up to this power of two each time in microseconds has a class of its own.
const FIRST_OCTAVE: u32 = 4;

/// The most that is left of a time in the classes of its power of two.
const LAST_PART: u64 = 31;

/// How many times are in a class, and the longest of them, in nanoseconds.
#[derive(Clone, Copy)]
pub struct Class {
    pub count: u64,
    pub longest: u64,
}

impl Class {
    /// A class without times.
    const EMPTY: Class = Class {
        count: 0,
        longest: 0,
    };
}

/// Times in classes, each of which differs from the others in its class by less than a sixteenth of itself, and how many they
/// are in all. Contracts see both.
#[derive(Drop)]
pub struct Times {
    classes: Vec<Class>,
    total: u64,
}

impl Model for Times {
    ghost use Rattle.traffic.specs.Times.{TimesInClasses};

    ghost Value = { TimesInClasses };

    ghost view = { λ t. record { classes = t.classes.items; total = t.total } };
}

impl Times {
    ghost use Rattle.std.specs.Prelude.{◌≡◌, ◌==◌, ◌-◌, ◌/◌, ℕ, OnOk};
    ghost use Rattle.traffic.specs.Times.{IsClass, no_times, with_time, at_rank};

    /// No times, which takes no memory.
    pub fn new(alloc: Global) -> Times
        ensures { result ≡ no_times }
    {
        Times {
            classes: Vec::new(alloc),
            total: 0,
        }
    }

    /// Adds a time in nanoseconds.
    ///
    /// # Errors
    ///
    /// Memory was refused.
    pub fn add(&mut self, time: u64) -> Result<(), AllocError>
        ensures { OnOk result ((class : ℕ) × IsClass (time / 1000) class × (self.new ≡ with_time class time self.old)) }
    {
        let class = class_of(time / MICROSECOND);
        reach(&mut self.classes, class)?;
        put(&mut self.classes, class, time);
        self.total = self.total.saturating_add(1);
        Ok(())
    }

    /// Whether there are no times.
    pub fn is_empty(&self) -> bool
        ensures { result ≡ (self.now.total == 0) }
    {
        self.total == 0
    }

    /// A time that half of the times are no longer than. It is the longest of its class.
    pub fn median(&self) -> u64
        ensures { result ≡ at_rank (self.now.total - self.now.total / 2) self.now.classes }
    {
        at_rank(&self.classes, self.total - self.total / 2)
    }

    /// A time that 99 of 100 times are no longer than. It is the longest of its class.
    pub fn percentile_99(&self) -> u64
        ensures { result ≡ at_rank (self.now.total - self.now.total / 100) self.now.classes }
    {
        at_rank(&self.classes, self.total - self.total / 100)
    }

    /// The longest time.
    pub fn longest(&self) -> u64
        ensures { result ≡ at_rank self.now.total self.now.classes }
    {
        at_rank(&self.classes, self.total)
    }
}

/// The class of a time in microseconds.
fn class_of(time: u64) -> usize
    ensures value { IsClass time result }
    ensures bound { result < 2048 }
{
    if time == 0 {
        return 0;
    }
    let octave = time.ilog2().saturating_sub(FIRST_OCTAVE);
    let part = (time >> octave).min(LAST_PART);
    octave as usize * CLASSES + part as usize
}

/// Adds empty classes up to this one.
fn reach(classes: &mut Vec<Class>, class: usize) -> Result<(), AllocError>
    requires { class < 2048 }
    ensures classes { OnOk result (classes.new.items ≡ reaching class classes.old.items) }
    ensures len { OnOk result (class < length classes.new.items) }
{
    if classes.len() <= class {
        classes.resize(class + 1, Class::EMPTY)?;
    }
    Ok(())
}

/// Puts a time into a class that is there.
fn put(classes: &mut [Class], class: usize, time: u64)
    requires { class < length classes.old }
    ensures { classes.new ≡ put_at class time classes.old }
{
    let it = &mut classes[class];
    it.count = it.count.saturating_add(1);
    it.longest = it.longest.max(time);
}

/// The longest time of the first class up to which there are as many times as this; 0 if there are fewer.
fn at_rank(classes: &[Class], rank: u64) -> u64
    ensures { result ≡ at_rank rank classes.now }
{
    let mut left = rank;
    for class in classes {
        if left <= class.count {
            return class.longest;
        }
        left -= class.count;
    }
    0
}
