// Laws of the rules.

ghost use Rattle.std.specs.Prelude.{ℕ, ◌≡◌, ◌≤◌, ◌+◌, ◌++◌, List, map};
ghost use mathlib.Core.Option.{some};
ghost use lib.ListN.{get_elem?};
ghost use Rattle.atomic_table.specs.Table.{State};
ghost use Rattle.outbox.specs.Items.{Item};
ghost use Rattle.outbox.specs.declared.rule.ReleaseView.{ReleaseView};
ghost use Rattle.outbox.specs.declared.rule.SeatView.{SeatView};
ghost use Rattle.outbox.specs.Counts.{Among, of_seat, Rises, counts_from};
ghost use Rattle.outbox.specs.Places.{Climbs, places_of, PlacesRise};
ghost use Rattle.outbox.specs.Released.{Counts, sender_at};
ghost use Rattle.outbox.specs.Views.{Merged, PutAlone, item_of, put_of, seat_known};
ghost use Rattle.outbox.specs.Weights.{weight, put_in_all, taken_in_all};

/// What a seat took of another one's items was put by that seat, in this order: nothing is invented.
pub fn taken_was_put()
    ensures { (items : List Item) (views : List SeatView) (taker putter : ℕ) → Merged items views → Among (of_seat putter (seat_known views taker).taken) (seat_known views putter).put }
{}

/// However items are weighed, what all seats have put is what all seats took and what stands: nothing is lost, and
/// nothing is there twice.
pub fn put_is_taken_or_stands()
    ensures { (f : Item → ℕ) (items : List Item) (views : List SeatView) → Merged items views → put_in_all f views ≡ taken_in_all f views + weight f items }
{}

/// Where one seat alone has put an origin's broadcasts, their counts rise strictly in what was taken and then stands,
/// and in what each seat took: none is there twice.
pub fn in_order_of_each_origin()
    ensures all { (items : List Item) (views : List SeatView) (origin seat : ℕ) (h : Merged items views) → PutAlone origin seat views → Rises 0 (counts_from origin (map item_of (map put_of h.gone) ++ items)) }
    ensures each { (items : List Item) (views : List SeatView) (origin seat taker : ℕ) → Merged items views → PutAlone origin seat views → Rises 0 (counts_from origin (map item_of (seat_known views taker).taken)) }
{}

/// The places in what was taken and then stands never go back, whoever put them, and so do those that each seat took.
pub fn places_rise()
    ensures all { (items : List Item) (views : List SeatView) (h : Merged items views) → Climbs 0 (places_of (map item_of (map put_of h.gone) ++ items)) }
    ensures each { (items : List Item) (views : List SeatView) (taker : ℕ) → Merged items views → PlacesRise (seat_known views taker).taken }
{}

/// What a seat at a sender's word knows to be released is released: of an event that the sender still holds nobody can show
/// that it may be given out.
pub fn known_is_released()
    ensures { (s : State (Unit {0}) ReleaseView) (sender seat released event : ℕ) (v : ReleaseView) → Counts s → get_elem? s.views sender ≡ some (sender_at released)
        → get_elem? s.views seat ≡ some v → event ≤ v.released → event ≤ released }
{}
