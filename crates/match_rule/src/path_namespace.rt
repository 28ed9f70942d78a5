// The path namespace that a rule asks for.

ghost use Rattle.std.specs.Prelude.{◌≡◌, ◌↔◌, ◌<◌, ℕ, Bool, List, length, IsTrue, option_map};
ghost use Rattle.message_view.specs.Message.{Message, path_of};
ghost use Rattle.match_rule.specs.RuleTree.{RuleTree};
ghost use Rattle.match_rule.specs.Holds.{Holds};
ghost use Rattle.match_rule.specs.PathNamespaces.{namespace_asked, end_of, HasPathIn, IsElsewhere};

use crate::fixed::first_value;
use crate::namespace::is_in_path_namespace;
use crate::rule::Rule;
use match_key::Key;

impl Rule {
    /// The path namespace that the rule asks for, if it asks for one.
    pub fn path_namespace(&self) -> Option<&str>
        ensures { option_map (λ text. text.now) result ≡ namespace_asked self.now }
    {
        first_value(self.conditions(), Key::path_namespace())
    }
}

/// Whether a path is there and lies in the namespace (D-Bus Specification, "Match Rules", `path_namespace`).
pub fn has_path_in(path: Option<&str>, namespace: &str) -> bool
    ensures { IsTrue result ↔ HasPathIn (option_map (λ text. text.now) path.entry) namespace.now }
{
    path.is_some_and(|path| is_in_path_namespace(path, namespace))
}

/// How a namespace ends, by which most that can't have a path are told without a look at their texts.
#[derive(Clone, Copy, Debug, PartialEq, Eq)]
pub struct NamespaceEnd {
    /// The namespace's length in bytes.
    pub len: usize,
    /// Its last byte.
    pub last: u8,
}

impl NamespaceEnd {
    /// How this namespace ends.
    pub fn of(namespace: &str) -> NamespaceEnd
        ensures { result ≡ end_of namespace.now }
    {
        let bytes = namespace.as_bytes();
        NamespaceEnd {
            len: bytes.len(),
            last: bytes.last().copied().unwrap_or(0),
        }
    }

    /// Whether a namespace other than `/` that ends so may have the path: the path has the same byte there, and is as
    /// long, or has a `/` after it.
    pub fn may_have(self, path: Option<&str>) -> bool
        ensures { (namespace : List ℕ) → self ≡ end_of namespace → 1 < self.len → HasPathIn (option_map (λ text. text.now) path.entry) namespace → IsTrue result }
    {
        let Some(path) = path else {
            return false;
        };
        let bytes = path.as_bytes();
        if self.len == 0 || self.len > bytes.len() {
            return false;
        }
        if bytes[self.len - 1] != self.last {
            return false;
        }
        match bytes.get(self.len) {
            Some(byte) => *byte == b'/',
            None => true,
        }
    }
}

/// Of a message whose path isn't in the namespace that a rule asks for the rule doesn't hold.
pub fn not_elsewhere_where_it_holds()
    ensures { (rule : RuleTree) (m : Message) (owned : List ℕ → Bool) → Holds rule m owned → IsElsewhere rule (path_of m) → ⊥ }
{}
