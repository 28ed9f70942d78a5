// The programs of entries, run over one message.

ghost use Rattle.std.specs.Prelude.{◌≡◌, ◌+◌, ◌<◌, MatchBool, MatchOption};
ghost use Rattle.program_table.specs.Answers.{max_entries};
ghost use Rattle.fan_out.specs.Answers.{IsImage, IsAnswer, edition_of};
ghost use Rattle.fan_out.specs.Marking.{IsMissed, IsFit};

use crate::cost::Cost;
use bpf_verify::Verified;
use entry_table::Filter;
use match_rule::envelope_fits_where_it_holds;
use message_view::View;
use summary::{Edition, Image, Slots};

/// The edition of the images that a filter's program reads: 2 of a rule, its own of an attached program.
pub(crate) fn edition_of(filter: &Filter) -> Edition
    ensures { result ≡ edition_of filter.now }
{
    match filter {
        Filter::Rule(_) => Edition::Two,
        Filter::Attached(attached) => attached.edition(),
    }
}

/// A message, the slots of its sender, and what was run of programs.
#[derive(Drop)]
pub(crate) struct Programs<'v, 'a> {
    pub(crate) view: &'v View<'a>,
    pub(crate) owned: &'v Slots,
    cost: Cost,
}

impl<'v, 'a> Programs<'v, 'a> {
    /// The programs for a message whose sender owns the names of these slots.
    pub(crate) fn new(view: &'v View<'a>, owned: &'v Slots) -> Programs<'v, 'a>
        ensures view { result.view.now ≡ view.entry.now }
        ensures owned { result.owned.now ≡ owned.entry.now }
        ensures none_run { result.cost.runs ≡ 0 }
    {
        Programs {
            view,
            owned,
            cost: Cost::none(),
        }
    }

    /// What was run.
    pub(crate) fn cost(&self) -> Cost
        ensures { result.runs ≡ self.now.cost.runs }
    {
        self.cost
    }

    /// Whether a filter can't match, since it asks for another envelope than the message's.
    pub(crate) fn misses(&self, filter: &Filter) -> bool
        ensures { MatchBool result (IsMissed self.now.view.now filter.now) (IsFit self.now.view.now filter.now) }
    {
        envelope_fits_where_it_holds();
        !filter.fits_envelope(self.view)
    }

    /// Whether a filter's program has a verdict other than 0 on every image, where it returns a constant at once, as that
    /// of a rule does of which nothing is left to test. No image has to be there for it.
    pub(crate) fn matches_at_once(&mut self, filter: &Filter) -> Option<bool>
        requires { self.old.cost.runs < max_entries }
        ensures view { self.new.view.now ≡ self.old.view.now }
        ensures owned { self.new.owned.now ≡ self.old.owned.now }
        ensures answer { MatchOption result (self.new.cost.runs ≡ self.old.cost.runs) (λ answer. IsAnswer self.old.view.now self.old.owned.now filter.now answer × (self.new.cost.runs ≡ self.old.cost.runs + 1)) }
    {
        match filter {
            Filter::Rule(compiled) => Some(self.cost.run_constant(compiled.rest())? != 0),
            Filter::Attached(attached) => { Some(self.cost.run_constant(attached.program())? != 0) }
        }
    }

    /// Whether a filter's program has a verdict other than 0 on the image that it reads. A message that is offered to a
    /// rule has the texts that the rule fixes, and its envelope was seen, so of a rule the program of what is left is run.
    pub(crate) fn matches(&mut self, image: &Image<'a>, filter: &Filter) -> bool
        requires room { self.old.cost.runs < max_entries }
        requires image { IsImage (edition_of filter.now) self.old.view.now self.old.owned.now image.now }
        ensures view { self.new.view.now ≡ self.old.view.now }
        ensures owned { self.new.owned.now ≡ self.old.owned.now }
        ensures answer { IsAnswer self.old.view.now self.old.owned.now filter.now result }
        ensures counted { self.new.cost.runs ≡ self.old.cost.runs + 1 }
    {
        match filter {
            Filter::Rule(compiled) => self.cost.run(compiled.rest(), image) != 0,
            Filter::Attached(attached) => self.cost.run(attached.program(), image) != 0,
        }
    }
}
