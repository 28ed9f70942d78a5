// The options among the words after a command.

use summary::Edition;

/// The options that were given.
#[derive(Clone, Copy)]
pub(crate) struct Options<'a> {
    pub(crate) owns: bool,
    pub(crate) each: bool,
    pub(crate) why: bool,
    pub(crate) trace: bool,
    pub(crate) nearest: Option<u64>,
    pub(crate) edition: Option<Edition>,
    pub(crate) filter: Option<&'a str>,
}

impl<'a> Options<'a> {
    ghost use Rattle.std.specs.Prelude.{◌≡◌};
    ghost use Rattle.command_line.specs.CommandRow.{no_options};
    ghost use Rattle.command_line.specs.RowReading.{are_plain, fit_a_filter, fit_a_rule};
    ghost use Rattle.command_line.specs.Views.{options_of};

    pub(crate) fn none() -> Options<'a>
        ensures { options_of result ≡ no_options }
    {
        Options {
            owns: false,
            each: false,
            why: false,
            trace: false,
            nearest: None,
            edition: None,
            filter: None,
        }
    }

    /// May they stand beside a rule after `match`?
    pub(crate) fn fit_a_rule(self) -> bool
        ensures { result ≡ fit_a_rule (options_of self.entry) }
    {
        !self.trace && self.edition.is_none() && (self.each || self.nearest.is_none())
    }

    /// May they stand beside a filter after `match`?
    pub(crate) fn fit_a_filter(self) -> bool
        ensures { result ≡ fit_a_filter (options_of self.entry) }
    {
        !self.trace && self.edition.is_none() && self.nearest.is_none()
    }

    /// Is none given, but for a filter?
    pub(crate) fn are_plain(self) -> bool
        ensures { result ≡ are_plain (options_of self.entry) }
    {
        !self.owns
            && !self.each
            && !self.why
            && !self.trace
            && self.nearest.is_none()
            && self.edition.is_none()
    }
}
