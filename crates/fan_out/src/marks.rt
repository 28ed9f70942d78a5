ghost use Rattle.std.specs.Prelude.{◌≡◌, ◌+◌, ◌*◌, ◌%◌, ◌<◌, ◌≤◌, ◌++◌, ℕ, [], Some, true, false, length, drop, replicate, slice_get, slice_set};
ghost use Rattle.arrayvec.specs.ArrayVec.{array_vec_len};
ghost use Rattle.program_table.specs.Connections.{numbers_of};
ghost use Rattle.fan_out.specs.Marks.{AreInRows, AreWithin, marked_numbers};
ghost use Rattle.fan_out.specs.Joining.{AreBoth};

use crate::cost::Cost;
use arrayvec::ArrayVec;
use program_table::Connection;

/// How many recipients a message has at most, which is how many connections a bus has at most.
pub const MAX_RECIPIENTS: usize = 4096;

/// How many places stand in a row.
const ROW: usize = 16;

/// How many rows there are.
const ROWS: usize = 256;

/// By how much numbers are divided for their remainders.
const REMAINDERS: usize = 256;

/// The lesser of two places.
fn lesser(a: usize, b: usize) -> usize
    ensures first { result ≤ a }
    ensures second { result ≤ b }
{
    if a < b { a } else { b }
}

/// The greater of two places.
fn greater(a: usize, b: usize) -> usize
    ensures first { a ≤ result }
    ensures second { b ≤ result }
    ensures most { a ≤ 4096 → b ≤ 4096 → result ≤ 4096 }
{
    if a < b { b } else { a }
}

/// Which connections are marked, by their places among the connections, with room for as many as there may be. A row is
/// noted if it has a mark, and all marks lie between two places, so that a few marks are found without a look at each
/// place. The remainders of the marked connections' numbers are noted, so that most other connections are known without
/// a search for their place. What it cost to find those that were listed last stands beside them.
#[derive(Drop)]
pub struct Marks {
    pub(crate) places: [bool; MAX_RECIPIENTS],
    rows: [bool; ROWS],
    pub(crate) remainders: [bool; REMAINDERS],
    /// No mark lies before this place.
    low: usize,
    /// No mark lies at or after this place.
    high: usize,
    cost: Cost,
    ghost size: { length places ≡ 4096 },
    ghost row_count: { length rows ≡ 256 },
    ghost remainder_count: { length remainders ≡ 256 },
    ghost in_rows: { AreInRows places rows },
    ghost within: { AreWithin places low high },
    ghost top: { high ≤ 4096 },
    ghost bottom: { low ≤ 4096 },
}

impl Marks {
    /// No connection is marked.
    #[inline(always)]
    pub fn new() -> Marks
        ensures { result.places ≡ replicate MAX_RECIPIENTS false }
    {
        Marks {
            places: [false; MAX_RECIPIENTS],
            rows: [false; ROWS],
            remainders: [false; REMAINDERS],
            low: MAX_RECIPIENTS,
            high: 0,
            cost: Cost::none(),
        }
    }

    /// What it cost to find the recipients that were listed last.
    pub fn cost(&self) -> Cost {
        self.cost
    }

    pub(crate) fn note_cost(&mut self, cost: Cost) {
        self.cost = cost;
    }

    /// No connection is marked any more. Only the places between which the marks lie are written.
    pub(crate) fn clear(&mut self)
        ensures { self.new.places ≡ replicate MAX_RECIPIENTS false }
    {
        for place in self.low..self.high {
            self.remove(place);
        }
        self.begin_anew();
    }

    /// Takes the mark at a place away, if there is one.
    fn remove(&mut self, place: usize)
        requires { place < MAX_RECIPIENTS }
        ensures places { self.new.places ≡ slice_set self.old.places place false }
        ensures low { self.new.low ≡ self.old.low }
        ensures high { self.new.high ≡ self.old.high }
    {
        self.places[place] = false;
    }

    /// Forgets rows and remainders, once no place is marked.
    fn begin_anew(&mut self)
        requires { AreWithin self.old.places self.old.high self.old.high }
        ensures { self.new.places ≡ replicate MAX_RECIPIENTS false }
    {
        self.rows = [false; ROWS];
        self.remainders = [false; REMAINDERS];
        self.low = MAX_RECIPIENTS;
        self.high = 0;
    }

    pub(crate) fn has(&self, place: usize) -> bool
        requires { place < MAX_RECIPIENTS }
        ensures { slice_get self.now.places place ≡ Some result }
    {
        self.places[place]
    }

    pub(crate) fn add(&mut self, place: usize)
        requires { place < MAX_RECIPIENTS }
        ensures places { self.new.places ≡ slice_set self.old.places place true }
        ensures remainders { self.new.remainders ≡ self.old.remainders }
    {
        self.places[place] = true;
        self.rows[place / ROW] = true;
        self.low = lesser(self.low, place);
        self.high = greater(self.high, place + 1);
    }

    /// Whether the number of a marked connection leaves the same remainder.
    pub(crate) fn has_remainder(&self, number: u64) -> bool
        ensures { slice_get self.now.remainders (number % 256) ≡ Some result }
    {
        self.remainders[(number % REMAINDERS as u64) as usize]
    }

    pub(crate) fn add_remainder(&mut self, number: u64)
        ensures places { self.new.places ≡ self.old.places }
        ensures remainders { self.new.remainders ≡ slice_set self.old.remainders (number % 256) true }
    {
        self.remainders[(number % REMAINDERS as u64) as usize] = true;
    }

    /// Marks all that the other marks.
    pub(crate) fn join(&mut self, other: &Marks)
        ensures { AreBoth self.new.places self.old.places other.now.places }
    {
        for place in 0..MAX_RECIPIENTS {
            if other.has(place) {
                self.add(place);
            }
        }
    }

    /// Whether a place in the row is marked.
    fn has_row(&self, row: usize) -> bool
        requires { row < 256 }
        ensures { slice_get self.now.rows row ≡ Some result }
    {
        self.rows[row]
    }

    /// Appends the number of the connection at a place, if it is marked.
    fn list_place<M>(
        &self,
        place: usize,
        connections: &[Connection<M>],
        numbers: &mut ArrayVec<u64, MAX_RECIPIENTS>,
    )
        requires place { place < 4096 }
        requires few { array_vec_len numbers.old ≤ place }
        ensures few { array_vec_len numbers.new ≤ place + 1 }
        ensures listed { numbers.new.items ++ marked_numbers (drop (place + 1) (numbers_of connections.now)) (drop (place + 1) self.now.places) ≡ numbers.old.items ++ marked_numbers (drop place (numbers_of connections.now)) (drop place self.now.places) }
    {
        if place >= connections.len() {
            return;
        }
        if !self.has(place) {
            return;
        }
        numbers.push(connections[place].number);
    }

    /// Appends the numbers of the connections that are marked in a row.
    fn list_row<M>(
        &self,
        row: usize,
        connections: &[Connection<M>],
        numbers: &mut ArrayVec<u64, MAX_RECIPIENTS>,
    )
        requires row { row < 256 }
        requires few { array_vec_len numbers.old ≤ 16 * row }
        ensures few { array_vec_len numbers.new ≤ 16 * row + 16 }
        ensures listed { numbers.new.items ++ marked_numbers (drop (16 * row + 16) (numbers_of connections.now)) (drop (16 * row + 16) self.now.places) ≡ numbers.old.items ++ marked_numbers (drop (16 * row) (numbers_of connections.now)) (drop (16 * row) self.now.places) }
    {
        if !self.has_row(row) {
            return;
        }
        for place in ROW * row..ROW * row + ROW {
            self.list_place(place, connections, numbers);
        }
    }

    /// Lists the numbers of the connections that are marked, row by row.
    fn list_rows<M>(
        &self,
        connections: &[Connection<M>],
        numbers: &mut ArrayVec<u64, MAX_RECIPIENTS>,
    )
        requires none { numbers.old.items ≡ [] }
        ensures { numbers.new.items ≡ marked_numbers (numbers_of connections.now) self.now.places }
    {
        for row in self.low / ROW..(self.high + ROW - 1) / ROW {
            self.list_row(row, connections, numbers);
        }
    }

    /// Lists the numbers of the connections that are marked, place by place.
    fn list_places<M>(
        &self,
        connections: &[Connection<M>],
        numbers: &mut ArrayVec<u64, MAX_RECIPIENTS>,
    )
        requires none { numbers.old.items ≡ [] }
        ensures { numbers.new.items ≡ marked_numbers (numbers_of connections.now) self.now.places }
    {
        for place in self.low..self.high {
            self.list_place(place, connections, numbers);
        }
    }

    /// Lists the numbers of the connections that are marked. Where all marks lie close together, as one mark does, only
    /// the places between them are looked at.
    pub(crate) fn list<M>(
        &self,
        connections: &[Connection<M>],
        numbers: &mut ArrayVec<u64, MAX_RECIPIENTS>,
    )
        requires few { length connections.now ≤ MAX_RECIPIENTS }
        requires none { numbers.old.items ≡ [] }
        ensures { numbers.new.items ≡ marked_numbers (numbers_of connections.now) self.now.places }
    {
        if self.high <= self.low + ROW {
            self.list_places(connections, numbers);
        } else {
            self.list_rows(connections, numbers);
        }
    }
}
