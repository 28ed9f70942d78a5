// The namespaces that rules ask for, and those that a text is in.

ghost use Rattle.std.specs.Prelude.{◌≡◌, ◌<◌, [], ◌∷◌, MatchOption, Some, option_map};
ghost use Rattle.match_rule.specs.PathNamespaces.{namespace_asked};
ghost use Rattle.entry_table.specs.Namespaces.{arg0_namespace_asked};
ghost use Rattle.entry_table.specs.OfferedEntries.{OfferedWhereItHolds};
ghost use Rattle.entry_table.specs.Fronts.{shorter_fronts, fronts_after, namespace_front};

use match_rule::{ArgNumber, Key, Relation, Rule, Source};
use memchr::memrchr;

/// The namespace of names that a rule asks for as argument 0, if it asks for one.
pub(crate) fn arg0_namespace(rule: &Rule) -> Option<&str>
    ensures { option_map (λ text. text.now) result ≡ arg0_namespace_asked rule.now }
{
    let asked = Key::Compares(Source::Arg(ArgNumber::first()), Relation::NameNamespace);
    for condition in rule.conditions() {
        if condition.key() == asked {
            return Some(condition.value());
        }
    }
    None
}

/// A path namespace as the front of the paths that it has: a `/` follows there. Before the `/` of a path that is in the
/// namespace `/` nothing stands.
fn namespace_front(namespace: &str) -> &str
    ensures { result.now ≡ namespace_front namespace.now }
{
    if namespace == "/" { "" } else { namespace }
}

/// A path namespace, if there is one, as a front of paths.
pub(crate) fn front_of(namespace: Option<&str>) -> Option<&str>
    ensures { option_map (λ text. text.now) result ≡ option_map namespace_front (option_map (λ text. text.now) namespace.entry) }
{
    match namespace {
        None => None,
        Some(namespace) => Some(namespace_front(namespace)),
    }
}

/// The path namespace that a rule asks for, as a front of paths, if it asks for one.
pub(crate) fn path_namespace(rule: &Rule) -> Option<&str>
    ensures { option_map (λ text. text.now) result ≡ option_map namespace_front (namespace_asked rule.now) }
{
    front_of(rule.path_namespace())
}

/// The longest front of a text after which the divider stands.
fn shorter_front(divider: u8, text: &str) -> Option<&str>
    requires { divider < 128 }
    ensures { MatchOption result (shorter_fronts divider text.now ≡ []) (λ front. shorter_fronts divider text.now ≡ front.now ∷ shorter_fronts divider front.now) }
{
    match memrchr(divider, text.as_bytes()) {
        None => None,
        Some(end) => {
            let (front, _) = text.split_at(end);
            Some(front)
        }
    }
}

/// The next of the fronts of a text, where a namespace is looked up.
pub(crate) fn front_after(is_wanted: bool, divider: u8, text: Option<&str>) -> Option<&str>
    requires { divider < 128 }
    ensures { MatchOption result (fronts_after is_wanted divider (option_map (λ text. text.now) text.entry) ≡ []) (λ front. fronts_after is_wanted divider (option_map (λ text. text.now) text.entry) ≡ Some front.now ∷ fronts_after is_wanted divider (Some front.now)) }
{
    if !is_wanted {
        return None;
    }
    match text {
        None => None,
        Some(text) => shorter_front(divider, text),
    }
}

/// A message of which a rule holds has the texts that the rule fixes, and lies in the namespaces that it asks for.
pub fn offered_where_it_holds()
    ensures { OfferedWhereItHolds }
{}
