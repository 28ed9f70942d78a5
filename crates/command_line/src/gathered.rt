// The words after a command.

ghost use Rattle.std.specs.Prelude.{◌≡◌};
ghost use Rattle.command_line.specs.CommandRow.{is_option};
ghost use Rattle.command_line.specs.RowReading.{edition_of};

use crate::command_row::CommandRow;
use crate::number::number_of;
use crate::options::Options;
use summary::Edition;

#[derive(Clone, Copy)]
pub(crate) enum Names<'a> {
    Nothing,
    One(&'a str),
    Two(&'a str, &'a str),
}

/// What the next word may be.
#[derive(Clone, Copy)]
pub(crate) enum Awaited {
    /// An option, `--` or a name.
    AnyWord,
    /// The number of `--nearest`.
    NearestWord,
    /// The word of `--edition`.
    EditionWord,
    /// The expression of `--filter`, which may be any word.
    FilterWord,
    /// A name: after `--` no word is an option.
    NameAlone,
}

/// What the words after a command say so far.
#[derive(Clone, Copy)]
pub(crate) struct Gathered<'a> {
    names: Names<'a>,
    options: Options<'a>,
    awaited: Awaited,
}

impl<'a> Gathered<'a> {
    ghost use Rattle.std.specs.Prelude.{◌≡◌, map};
    ghost use Rattle.std.specs.Option.{option_map};
    ghost use Rattle.command_line.specs.Views.{asked_by, names_of, options_of, gathering_of};
    ghost use Rattle.command_line.specs.RowReading.{no_words, with_name, with_owns, with_each, with_why, with_trace, with_nearest, with_nearest_word, with_edition, with_edition_word, with_filter, with_filter_word, with_any, with_word, gather, match_of, compile_of, only_word, run_of};

    fn nothing() -> Gathered<'a>
        ensures { gathering_of result ≡ no_words }
    {
        Gathered {
            names: Names::Nothing,
            options: Options::none(),
            awaited: Awaited::AnyWord,
        }
    }

    /// What some words say, if they are at most two names and known options.
    pub(crate) fn read(words: &[&'a str]) -> Option<Gathered<'a>>
        ensures { option_map gathering_of result ≡ gather no_words (map (λ word. word.now) words.now) }
    {
        let mut so_far = Gathered::nothing();
        for i in 0..words.len() {
            so_far = so_far.with_word(words[i])?;
        }
        match so_far.awaited {
            Awaited::NearestWord | Awaited::EditionWord | Awaited::FilterWord => None,
            Awaited::AnyWord | Awaited::NameAlone => Some(so_far),
        }
    }

    fn with_word(self, word: &'a str) -> Option<Gathered<'a>>
        ensures { option_map gathering_of result ≡ with_word word.entry.now (gathering_of self.entry) }
    {
        match self.awaited {
            Awaited::AnyWord => self.with_any(word),
            Awaited::NearestWord => self.with_nearest_word(word),
            Awaited::EditionWord => self.with_edition_word(word),
            Awaited::FilterWord => Some(self.with_filter_word(word)),
            Awaited::NameAlone => self.with_name(word),
        }
    }

    fn with_any(self, word: &'a str) -> Option<Gathered<'a>>
        ensures { option_map gathering_of result ≡ with_any word.entry.now (gathering_of self.entry) }
    {
        match word {
            "--" => Some(Gathered {
                awaited: Awaited::NameAlone,
                ..self
            }),
            "--owns" => self.with_owns(),
            "--each" => self.with_each(),
            "--why" => self.with_why(),
            "--trace" => self.with_trace(),
            "--nearest" => self.with_nearest(),
            "--edition" => self.with_edition(),
            "--filter" => self.with_filter(),
            _ if is_option(word) => None,
            _ => self.with_name(word),
        }
    }

    fn with_owns(self) -> Option<Gathered<'a>>
        ensures { option_map gathering_of result ≡ with_owns (gathering_of self.entry) }
    {
        if self.options.owns {
            return None;
        }
        let options = Options {
            owns: true,
            ..self.options
        };
        Some(Gathered { options, ..self })
    }

    fn with_each(self) -> Option<Gathered<'a>>
        ensures { option_map gathering_of result ≡ with_each (gathering_of self.entry) }
    {
        if self.options.each {
            return None;
        }
        let options = Options {
            each: true,
            ..self.options
        };
        Some(Gathered { options, ..self })
    }

    fn with_why(self) -> Option<Gathered<'a>>
        ensures { option_map gathering_of result ≡ with_why (gathering_of self.entry) }
    {
        if self.options.why {
            return None;
        }
        let options = Options {
            why: true,
            ..self.options
        };
        Some(Gathered { options, ..self })
    }

    fn with_trace(self) -> Option<Gathered<'a>>
        ensures { option_map gathering_of result ≡ with_trace (gathering_of self.entry) }
    {
        if self.options.trace {
            return None;
        }
        let options = Options {
            trace: true,
            ..self.options
        };
        Some(Gathered { options, ..self })
    }

    fn with_nearest(self) -> Option<Gathered<'a>>
        ensures { option_map gathering_of result ≡ with_nearest (gathering_of self.entry) }
    {
        if self.options.nearest.is_some() {
            return None;
        }
        Some(Gathered {
            awaited: Awaited::NearestWord,
            ..self
        })
    }

    fn with_nearest_word(self, word: &str) -> Option<Gathered<'a>>
        ensures { option_map gathering_of result ≡ with_nearest_word word.now (gathering_of self.entry) }
    {
        let count = number_of(word)?;
        let options = Options {
            nearest: Some(count),
            ..self.options
        };
        Some(Gathered {
            options,
            awaited: Awaited::AnyWord,
            ..self
        })
    }

    fn with_edition(self) -> Option<Gathered<'a>>
        ensures { option_map gathering_of result ≡ with_edition (gathering_of self.entry) }
    {
        if self.options.edition.is_some() {
            return None;
        }
        Some(Gathered {
            awaited: Awaited::EditionWord,
            ..self
        })
    }

    fn with_edition_word(self, word: &str) -> Option<Gathered<'a>>
        ensures { option_map gathering_of result ≡ with_edition_word word.now (gathering_of self.entry) }
    {
        let edition = edition_of(word)?;
        let options = Options {
            edition: Some(edition),
            ..self.options
        };
        Some(Gathered {
            options,
            awaited: Awaited::AnyWord,
            ..self
        })
    }

    fn with_filter(self) -> Option<Gathered<'a>>
        ensures { option_map gathering_of result ≡ with_filter (gathering_of self.entry) }
    {
        if self.options.filter.is_some() {
            return None;
        }
        Some(Gathered {
            awaited: Awaited::FilterWord,
            ..self
        })
    }

    fn with_filter_word(self, word: &'a str) -> Gathered<'a>
        ensures { gathering_of result ≡ with_filter_word word.entry.now (gathering_of self.entry) }
    {
        let options = Options {
            filter: Some(word),
            ..self.options
        };
        Gathered {
            options,
            awaited: Awaited::AnyWord,
            ..self
        }
    }

    fn with_name(self, word: &'a str) -> Option<Gathered<'a>>
        ensures { option_map gathering_of result ≡ with_name word.entry.now (gathering_of self.entry) }
    {
        let names = match self.names {
            Names::Nothing => Names::One(word),
            Names::One(first) => Names::Two(first, word),
            Names::Two(..) => return None,
        };
        Some(Gathered { names, ..self })
    }

    /// What `match` and these words ask for.
    pub(crate) fn to_match(self) -> Option<CommandRow<'a>>
        ensures { option_map asked_by result ≡ match_of (names_of self.entry.names) (options_of self.entry.options) }
    {
        let Options {
            owns,
            each,
            why,
            nearest,
            ..
        } = self.options;
        match (self.names, self.options.filter) {
            (Names::Two(rule, file), None) if self.options.fit_a_rule() => {
                Some(CommandRow::Match {
                    rule,
                    file,
                    owns,
                    each,
                    why,
                    nearest,
                })
            }
            (Names::One(file), Some(filter)) if self.options.fit_a_filter() => {
                Some(CommandRow::MatchFilter {
                    filter,
                    file,
                    owns,
                    each,
                    why,
                })
            }
            _ => None,
        }
    }

    /// What `compile` and these words ask for.
    pub(crate) fn to_compile(self) -> Option<CommandRow<'a>>
        ensures { option_map asked_by result ≡ compile_of (names_of self.entry.names) (options_of self.entry.options) }
    {
        if !self.options.are_plain() {
            return None;
        }
        match (self.names, self.options.filter) {
            (Names::One(rule), None) => Some(CommandRow::Compile { rule }),
            (Names::Nothing, Some(filter)) => Some(CommandRow::CompileFilter { filter }),
            _ => None,
        }
    }

    /// The one word that stands there, if there is no other and no option.
    pub(crate) fn only_word(self) -> Option<&'a str>
        ensures { option_map (λ word. word.now) result ≡ only_word (names_of self.entry.names) (options_of self.entry.options) }
    {
        match (self.names, self.options.filter) {
            (Names::One(word), None) if self.options.are_plain() => Some(word),
            _ => None,
        }
    }

    /// What `run` and these words ask for.
    pub(crate) fn to_run(self) -> Option<CommandRow<'a>>
        ensures { option_map asked_by result ≡ run_of (names_of self.entry.names) (options_of self.entry.options) }
    {
        let Options {
            owns,
            each,
            why,
            trace,
            nearest,
            edition,
            ..
        } = self.options;
        match (self.names, self.options.filter) {
            (Names::Two(program, file), None) if !owns && !why && nearest.is_none() => {
                if program == "-" && file == "-" {
                    return None;
                }
                Some(CommandRow::Run {
                    program,
                    file,
                    edition: edition.unwrap_or(Edition::One),
                    each,
                    trace,
                })
            }
            _ => None,
        }
    }
}

// Does a word begin with `-`, and is it more than that?
fn is_option(word: &str) -> bool
    ensures { result ≡ is_option word.now }
{
    word.len() > 1 && word.as_bytes()[0] == b'-'
}

// The edition that a word says.
fn edition_of(word: &str) -> Option<Edition>
    ensures { result ≡ edition_of word.now }
{
    match word {
        "1" => Some(Edition::One),
        "2" => Some(Edition::Two),
        _ => None,
    }
}
