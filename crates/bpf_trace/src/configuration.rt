// Configurations of a run.

ghost use Rattle.std.specs.Prelude.{◌≡◌, ◌<◌, ◌^◌, ◌+◌};
ghost use Rattle.bpf_code.specs.Steps.{State, start, after, with_word};
ghost use Rattle.bpf_trace.specs.Views.{state_of, next_of, effect_by, IsWordFine};

use crate::effect::Effect;

/// How many scratch words there are.
pub(crate) const WORDS: u32 = 16;

/// What a run has before a step: the place of the instruction, A, X, and the scratch words that are set.
#[derive(Clone, Copy)]
pub(crate) struct Configuration {
    pub(crate) place: usize,
    pub(crate) a: u32,
    pub(crate) x: u32,
    pub(crate) words: [Option<u32>; 16],
}

/// What a step leads to.
#[derive(Clone, Copy)]
pub(crate) enum Next {
    Goes(Configuration),
    Stops(u32),
}

/// The configuration that a run begins with.
pub(crate) fn first() -> Configuration
    ensures { state_of result ≡ start }
{
    Configuration {
        place: 0,
        a: 0,
        x: 0,
        words: [None; 16],
    }
}

/// A scratch word, if it is set.
pub(crate) fn word_of(at: &Configuration, k: u32) -> Option<u32>
    ensures { result ≡ (state_of at.now).words k }
{
    if k < WORDS {
        at.words[k as usize]
    } else {
        None
    }
}

/// The configuration at the next place, with a scratch word set.
fn storing(at: &Configuration, k: u32, value: u32) -> Configuration
    requires place { at.now.place < 2 ^ 63 }
    requires word { k < 16 }
    ensures { state_of result ≡ record { place = at.now.place + 1; a = at.now.a; x = at.now.x; words = with_word (state_of at.now).words k value } }
{
    let mut words = at.words;
    words[k as usize] = Some(value);
    Configuration {
        place: at.place + 1,
        a: at.a,
        x: at.x,
        words,
    }
}

/// What an effect leads to; a scratch word that it sets is M[k].
pub(crate) fn after(at: &Configuration, k: u32, effect: Effect) -> Next
    requires place { at.now.place < 2 ^ 63 }
    requires word { IsWordFine k effect }
    ensures { next_of result ≡ after (state_of at.now) k (effect_by effect) }
{
    let Configuration { place, a, x, words } = *at;
    match effect {
        Effect::SetA(value) => Next::Goes(Configuration {
            place: place + 1,
            a: value,
            x,
            words,
        }),
        Effect::SetX(value) => Next::Goes(Configuration {
            place: place + 1,
            a,
            x: value,
            words,
        }),
        Effect::SetWord(value) => Next::Goes(storing(at, k, value)),
        Effect::Skip(distance) => Next::Goes(Configuration {
            place: place + 1 + distance as usize,
            a,
            x,
            words,
        }),
        Effect::Finish(verdict) => Next::Stops(verdict),
    }
}
