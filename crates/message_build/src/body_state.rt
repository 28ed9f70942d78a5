// How a builder's body was given.

ghost use Rattle.std.specs.Prelude.{◌≡◌};
ghost use Rattle.message_build.specs.Asked.{is_spoiled, is_nothing, takes_arguments};

/// How the body was given so far.
#[derive(Clone, Copy, Debug, PartialEq, Eq)]
pub(crate) enum BodyState {
    Nothing,
    /// Argument by argument.
    Arguments,
    /// As a signature and bytes.
    Raw,
    /// In a way that no message has: in both, or the second twice.
    Spoiled,
}

impl BodyState {
    pub(crate) fn is_spoiled(self) -> bool
        ensures { result ≡ is_spoiled self }
    {
        match self {
            BodyState::Spoiled => true,
            BodyState::Nothing | BodyState::Arguments | BodyState::Raw => false,
        }
    }

    /// Whether arguments may follow.
    pub(crate) fn takes_arguments(self) -> bool
        ensures { result ≡ takes_arguments self }
    {
        match self {
            BodyState::Nothing | BodyState::Arguments => true,
            BodyState::Raw | BodyState::Spoiled => false,
        }
    }

    /// Whether nothing was given.
    pub(crate) fn is_nothing(self) -> bool
        ensures { result ≡ is_nothing self }
    {
        match self {
            BodyState::Nothing => true,
            BodyState::Arguments | BodyState::Raw | BodyState::Spoiled => false,
        }
    }
}
