// The search for the recipients of a message.

ghost use Rattle.std.specs.Prelude.{◌≡◌, ◌+◌, ◌<◌, ◌≤◌, List, [], ◌∷◌, MatchBool, Contains, true, false, length, replicate};
ghost use Rattle.message_view.specs.Message.{Message};
ghost use Rattle.message_view.specs.Valid.{Valid};
ghost use Rattle.summary.specs.declared.edition.Edition.TheVariants.{One, Two};
ghost use Rattle.entry_table.specs.declared.entry.Entry.{Entry};
ghost use Rattle.match_rule.specs.FixedTexts.{texts_of};
ghost use Rattle.entry_table.specs.OfferedEntries.{AreOffered};
ghost use Rattle.program_table.specs.Answers.{max_entries};
ghost use Rattle.program_table.specs.Connections.{numbers_of, is_connected};
ghost use Rattle.program_table.specs.IsState.{IsState};
ghost use Rattle.program_table.specs.Candidates.{candidates};
ghost use Rattle.fan_out.specs.Answers.{IsImage, edition_of};
ghost use Rattle.fan_out.specs.Marks.{mark_count, AreNoted, IsMarked, IsMarkedMore, IsUnmarked};
ghost use Rattle.fan_out.specs.Pieces.{ArePieceRecipients};
ghost use Rattle.fan_out.specs.Marking.{MayBeMarked, NeedsNoRun, NeedsImage, IsAsked, ReadsOne, Considers, AreMarkedSoFar, AreMarkedRecipients};

use crate::cost::Cost;
use crate::marks::{MAX_RECIPIENTS, Marks};
use crate::piece::Piece;
use crate::programs::{Programs, edition_of};
use arrayvec::ArrayVec;
use bpf_machine::ends_in_one_way;
use entry_table::{Entry, Offers, offered_where_it_holds};
use message_view::View;
use program_table::{BusState, Handle};
use summary::{Edition, Image};

/// Whether a connection is marked. It is searched for only where a marked one's number leaves the same remainder.
fn is_marked<M: Handle>(state: &BusState<M>, marks: &Marks, connection: u64) -> bool
    requires state { IsState state.now }
    requires connected { is_connected connection state.now.connections ≡ true }
    requires noted { AreNoted (numbers_of state.now.connections) marks.now.places marks.now.remainders }
    ensures { MatchBool result (IsMarked (numbers_of state.now.connections) marks.now.places connection) (IsUnmarked (numbers_of state.now.connections) marks.now.places connection) }
{
    if !marks.has_remainder(connection) {
        return false;
    }
    match state.place_of(connection) {
        Some(place) => marks.has(place),
        None => unreachable!(),
    }
}

/// Marks a connection that isn't marked.
fn mark<M: Handle>(state: &BusState<M>, marks: &mut Marks, connection: u64)
    requires state { IsState state.now }
    requires connected { is_connected connection state.now.connections ≡ true }
    requires noted { AreNoted (numbers_of state.now.connections) marks.old.places marks.old.remainders }
    ensures marked { IsMarkedMore (numbers_of state.now.connections) connection marks.old.places marks.new.places }
    ensures noted { AreNoted (numbers_of state.now.connections) marks.new.places marks.new.remainders }
{
    match state.place_of(connection) {
        Some(place) => {
            marks.add(place);
            marks.add_remainder(connection);
        }
        None => unreachable!(),
    }
}

/// Whether the program of an entry needn't be run: the message's envelope tells that it doesn't match, or its
/// connection is in another piece, or is marked already.
#[inline(always)]
fn is_passed_over<M: Handle>(
    state: &BusState<M>,
    piece: Piece,
    entry: &Entry,
    programs: &Programs<'_, '_>,
    marks: &Marks,
) -> bool
    requires state { IsState state.now }
    requires connected { is_connected entry.now.connection state.now.connections ≡ true }
    requires noted { AreNoted (numbers_of state.now.connections) marks.now.places marks.now.remainders }
    ensures { MatchBool result (NeedsNoRun state.now piece.part piece.of programs.now.view.now entry.now marks.now.places) (MayBeMarked state.now piece.part piece.of programs.now.view.now entry.now marks.now.places) }
{
    if !piece.has(entry.connection) {
        return true;
    }
    if programs.misses(&entry.filter) {
        return true;
    }
    is_marked(state, marks, entry.connection)
}

/// Runs the program of an entry over the image that it reads, and marks the entry's connection where it matches.
#[inline(always)]
fn ask<'a, M: Handle>(
    state: &BusState<M>,
    piece: Piece,
    entry: &Entry,
    programs: &mut Programs<'_, 'a>,
    image: &Image<'a>,
    marks: &mut Marks,
)
    requires state { IsState state.now }
    requires connected { is_connected entry.now.connection state.now.connections ≡ true }
    requires noted { AreNoted (numbers_of state.now.connections) marks.old.places marks.old.remainders }
    requires room { programs.old.cost.runs < max_entries }
    requires image { IsImage (edition_of entry.now.filter) programs.old.view.now programs.old.owned.now image.now }
    requires unmarked { MayBeMarked state.now piece.part piece.of programs.old.view.now entry.now marks.old.places }
    ensures view { programs.new.view.now ≡ programs.old.view.now }
    ensures owned { programs.new.owned.now ≡ programs.old.owned.now }
    ensures noted { AreNoted (numbers_of state.now.connections) marks.new.places marks.new.remainders }
    ensures asked { IsAsked (numbers_of state.now.connections) piece.part piece.of programs.old.view.now programs.old.owned.now entry.now marks.old.places marks.new.places programs.old.cost.runs programs.new.cost.runs }
{
    if programs.matches(image, &entry.filter) {
        mark(state, marks, entry.connection);
    }
}

/// Marks the connection of an entry of the piece where the entry matches, and tells whether its program still has to be
/// run, over an image.
#[inline(always)]
fn consider<M: Handle>(
    state: &BusState<M>,
    piece: Piece,
    entry: &Entry,
    programs: &mut Programs<'_, '_>,
    marks: &mut Marks,
) -> bool
    requires state { IsState state.now }
    requires connected { is_connected entry.now.connection state.now.connections ≡ true }
    requires noted { AreNoted (numbers_of state.now.connections) marks.old.places marks.old.remainders }
    requires room { programs.old.cost.runs < max_entries }
    ensures view { programs.new.view.now ≡ programs.old.view.now }
    ensures owned { programs.new.owned.now ≡ programs.old.owned.now }
    ensures noted { AreNoted (numbers_of state.now.connections) marks.new.places marks.new.remainders }
    ensures considered { MatchBool result (NeedsImage state.now piece.part piece.of programs.old.view.now entry.now marks.old.places marks.new.places programs.old.cost.runs programs.new.cost.runs) (Considers state.now piece.part piece.of programs.old.view.now programs.old.owned.now entry.now marks.old.places marks.new.places programs.old.cost.runs programs.new.cost.runs) }
{
    if is_passed_over(state, piece, entry, programs, marks) {
        return false;
    }
    match programs.matches_at_once(&entry.filter) {
        None => true,
        Some(matches) => {
            if matches {
                mark(state, marks, entry.connection);
            }
            false
        }
    }
}

/// As `consider`, with the image of edition 2: tells whether the program still has to be run, over the image of edition 1.
#[inline(always)]
fn consider_over_edition_two<'a, M: Handle>(
    state: &BusState<M>,
    piece: Piece,
    entry: &Entry,
    programs: &mut Programs<'_, 'a>,
    edition_two: &Image<'a>,
    marks: &mut Marks,
) -> bool
    requires state { IsState state.now }
    requires connected { is_connected entry.now.connection state.now.connections ≡ true }
    requires noted { AreNoted (numbers_of state.now.connections) marks.old.places marks.old.remainders }
    requires room { programs.old.cost.runs < max_entries }
    requires edition_two { IsImage Two programs.old.view.now programs.old.owned.now edition_two.now }
    ensures view { programs.new.view.now ≡ programs.old.view.now }
    ensures owned { programs.new.owned.now ≡ programs.old.owned.now }
    ensures noted { AreNoted (numbers_of state.now.connections) marks.new.places marks.new.remainders }
    ensures considered { MatchBool result (ReadsOne state.now piece.part piece.of programs.old.view.now entry.now marks.old.places marks.new.places programs.old.cost.runs programs.new.cost.runs) (Considers state.now piece.part piece.of programs.old.view.now programs.old.owned.now entry.now marks.old.places marks.new.places programs.old.cost.runs programs.new.cost.runs) }
{
    if !consider(state, piece, entry, programs, marks) {
        return false;
    }
    match edition_of(&entry.filter) {
        Edition::One => true,
        Edition::Two => {
            ask(state, piece, entry, programs, edition_two, marks);
            false
        }
    }
}

/// As `consider`, with the images of both editions.
fn consider_over_both<'a, M: Handle>(
    state: &BusState<M>,
    piece: Piece,
    entry: &Entry,
    programs: &mut Programs<'_, 'a>,
    edition_one: &Image<'a>,
    edition_two: &Image<'a>,
    marks: &mut Marks,
)
    requires state { IsState state.now }
    requires connected { is_connected entry.now.connection state.now.connections ≡ true }
    requires noted { AreNoted (numbers_of state.now.connections) marks.old.places marks.old.remainders }
    requires room { programs.old.cost.runs < max_entries }
    requires edition_one { IsImage One programs.old.view.now programs.old.owned.now edition_one.now }
    requires edition_two { IsImage Two programs.old.view.now programs.old.owned.now edition_two.now }
    ensures view { programs.new.view.now ≡ programs.old.view.now }
    ensures owned { programs.new.owned.now ≡ programs.old.owned.now }
    ensures noted { AreNoted (numbers_of state.now.connections) marks.new.places marks.new.remainders }
    ensures considered { Considers state.now piece.part piece.of programs.old.view.now programs.old.owned.now entry.now marks.old.places marks.new.places programs.old.cost.runs programs.new.cost.runs }
{
    if consider_over_edition_two(state, piece, entry, programs, edition_two, marks) {
        ask(state, piece, entry, programs, edition_one, marks);
    }
}

/// Considers an entry whose program reads edition 1, and all entries after it, and tells what was run. It
/// is a function of its own, since a function clears room for its values whenever it is called, and few messages need an
/// image of edition 1.
#[inline(never)]
fn consider_with_edition_one<'a, M: Handle>(
    state: &BusState<M>,
    piece: Piece,
    first: &Entry,
    others: &mut Offers<'_>,
    mut programs: Programs<'_, 'a>,
    edition_two: &Image<'a>,
    marks: &mut Marks,
) -> Cost
    requires state { IsState state.now }
    requires few { programs.cost.runs + (length others.old + 1) ≤ max_entries }
    requires connected { (e : Entry) → Contains (first.now ∷ others.old) e → is_connected e.connection state.now.connections ≡ true }
    requires noted { AreNoted (numbers_of state.now.connections) marks.old.places marks.old.remainders }
    requires unmarked { MayBeMarked state.now piece.part piece.of programs.view.now first.now marks.old.places }
    requires edition { edition_of first.now.filter ≡ One }
    requires edition_two { IsImage Two programs.view.now programs.owned.now edition_two.now }
    ensures marked { (all : List Entry)
        → AreMarkedSoFar state.now piece.part piece.of programs.entry.view.now programs.entry.owned.now all (first.now ∷ others.old) marks.old.places programs.entry.cost.runs
        → AreMarkedSoFar state.now piece.part piece.of programs.entry.view.now programs.entry.owned.now all [] marks.new.places result.runs }
{
    let mut edition_one = Image::empty();
    edition_one.fill(programs.view, programs.owned, Edition::One);
    ask(state, piece, first, &mut programs, &edition_one, marks);
    while let Some(entry) = others.next() {
        consider_over_both(
            state,
            piece,
            entry,
            &mut programs,
            &edition_one,
            edition_two,
            marks,
        );
    }
    programs.cost()
}

/// Considers an entry whose program reads an image, and all entries after it, and tells what was run. The
/// image of edition 2, which rules read, is made here: a rule of which nothing is left to test needs none.
#[inline(never)]
fn consider_with_edition_two<'a, M: Handle>(
    state: &BusState<M>,
    piece: Piece,
    first: &Entry,
    others: &mut Offers<'_>,
    mut programs: Programs<'_, 'a>,
    marks: &mut Marks,
) -> Cost
    requires state { IsState state.now }
    requires few { programs.cost.runs + (length others.old + 1) ≤ max_entries }
    requires connected { (e : Entry) → Contains (first.now ∷ others.old) e → is_connected e.connection state.now.connections ≡ true }
    requires noted { AreNoted (numbers_of state.now.connections) marks.old.places marks.old.remainders }
    ensures marked { (all : List Entry)
        → AreMarkedSoFar state.now piece.part piece.of programs.entry.view.now programs.entry.owned.now all (first.now ∷ others.old) marks.old.places programs.entry.cost.runs
        → AreMarkedSoFar state.now piece.part piece.of programs.entry.view.now programs.entry.owned.now all [] marks.new.places result.runs }
{
    let mut edition_two = Image::empty();
    edition_two.fill(programs.view, programs.owned, Edition::Two);
    let mut entry = first;
    'entries: loop {
        if consider_over_edition_two(state, piece, entry, &mut programs, &edition_two, marks) {
            return consider_with_edition_one(
                state,
                piece,
                entry,
                others,
                programs,
                &edition_two,
                marks,
            );
        }
        match others.next() {
            Some(next) => entry = next,
            None => return programs.cost(),
        }
    }
}

/// Considers the entries that a message is offered to, one after the other, and tells what was run.
fn consider_all<M: Handle>(
    state: &BusState<M>,
    piece: Piece,
    first: &Entry,
    others: &mut Offers<'_>,
    mut programs: Programs<'_, '_>,
    marks: &mut Marks,
) -> Cost
    requires state { IsState state.now }
    requires few { length others.old + 1 ≤ max_entries }
    requires connected { (e : Entry) → Contains (first.now ∷ others.old) e → is_connected e.connection state.now.connections ≡ true }
    requires none_run { programs.cost.runs ≡ 0 }
    requires none_marked { marks.old.places ≡ replicate MAX_RECIPIENTS false }
    ensures marked { AreMarkedSoFar state.now piece.part piece.of programs.entry.view.now programs.entry.owned.now (first.now ∷ others.old) [] marks.new.places result.runs }
{
    let mut entry = first;
    'entries: loop {
        if consider(state, piece, entry, &mut programs, marks) {
            return consider_with_edition_two(state, piece, entry, others, programs, marks);
        }
        match others.next() {
            Some(next) => entry = next,
            None => return programs.cost(),
        }
    }
}

/// Considers the entries that a message is offered to, at least one. It is a function of its own, since a function
/// clears room for its values whenever it is called, and a message that is offered to no entry needs no sender's slots.
#[inline(never)]
fn consider_offered<'a, M: Handle>(
    state: &BusState<M>,
    sender: Option<u64>,
    view: &View<'a>,
    piece: Piece,
    first: &Entry,
    others: &mut Offers<'_>,
    marks: &mut Marks,
) -> Cost
    requires state { IsState state.now }
    requires offers { (m : Message) → Valid view.now m → AreOffered state.now.registrations.entries (texts_of m) (first.now ∷ others.old) }
    requires none_marked { marks.old.places ≡ replicate MAX_RECIPIENTS false }
    ensures exact { (m : Message) → Valid view.now m → AreMarkedRecipients state.now sender m piece.part piece.of marks.new.places }
    ensures most { result.runs ≤ length others.old + 1 }
    ensures least { mark_count marks.new.places ≤ result.runs }
{
    ends_in_one_way();
    offered_where_it_holds();
    let _ = view.raw();
    let owned = state.slots_of(sender);
    let programs = Programs::new(view, &owned);
    consider_all(state, piece, first, others, programs, marks)
}

/// Marks the recipients of a message among the connections of a piece, and tells what was run. Without a
/// sender it is of the bus.
pub(crate) fn mark_recipients<'a, M: Handle>(
    state: &'a BusState<M>,
    sender: Option<u64>,
    view: &View<'a>,
    piece: Piece,
    marks: &mut Marks,
) -> Cost
    requires { marks.old.places ≡ replicate MAX_RECIPIENTS false }
    ensures exact { (m : Message) → Valid view.entry.now m → AreMarkedRecipients state.entry.now sender m piece.part piece.of marks.new.places }
    ensures most { (m : Message) → Valid view.entry.now m → result.runs ≤ length (candidates state.entry.now m) }
    ensures least { mark_count marks.new.places ≤ result.runs }
    ensures state { IsState state.entry.now }
{
    offered_where_it_holds();
    let mut offers = state.entries_for(view, view.sender());
    match offers.next() {
        None => Cost::none(),
        Some(first) => { consider_offered(state, sender, view, piece, first, &mut offers, marks) }
    }
}

/// Lists the recipients of a message among the connections of a piece, and tells what was run. Whatever was
/// marked before isn't any more.
pub(crate) fn list_recipients<'a, M: Handle>(
    state: &'a BusState<M>,
    sender: Option<u64>,
    view: &View<'a>,
    piece: Piece,
    marks: &mut Marks,
    recipients: &mut ArrayVec<u64, MAX_RECIPIENTS>,
) -> Cost
    requires { recipients.old.items ≡ [] }
    ensures exact { (m : Message) → Valid view.entry.now m → ArePieceRecipients state.entry.now sender m piece.part piece.of recipients.new.items }
    ensures most { (m : Message) → Valid view.entry.now m → result.runs ≤ length (candidates state.entry.now m) }
    ensures least { length recipients.new.items ≤ result.runs }
{
    marks.clear();
    let cost = mark_recipients(state, sender, view, piece, marks);
    marks.list(state.connections(), recipients);
    cost
}
