// How conditions compare.

ghost use Rattle.std.specs.Prelude.{◌≡◌};
ghost use Rattle.match_key.specs.Key.{once_relation};

/// How a text stands to the value of a condition (D-Bus Specification, "Match Rules").
#[derive(Clone, Copy, Debug, PartialEq, Eq)]
pub enum Relation {
    /// The text is the value.
    Equal,
    /// The text is a path in the namespace of the value, as `path_namespace` asks.
    PathNamespace,
    /// The text is a name in the namespace of the value, as `arg0namespace` asks.
    NameNamespace,
    /// One of the text and the value is a path that the other lies in, as `argNpath` asks.
    NestedPath,
}

impl Relation {
    /// The relation that stands for all those of which a rule may have only one: `argN` and `argNpath` share one.
    pub(crate) fn once(self) -> Relation
        ensures { result ≡ once_relation self }
    {
        match self {
            Relation::NestedPath => Relation::Equal,
            relation => relation,
        }
    }
}
