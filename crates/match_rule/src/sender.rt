// The sender that a rule asks for.

ghost use Rattle.std.specs.Prelude.{◌≡◌, option_map};
ghost use Rattle.match_rule.specs.RuleTree.{is_owned_name, first_owned_name};

use crate::condition::Condition;

/// The name of the bus itself.
const BUS_NAME: &str = "org.freedesktop.DBus";

/// Whether a name is one that a connection owns and that no message's SENDER field has: neither a unique
/// name nor that of the bus.
pub fn is_owned_name(name: &str) -> bool
    ensures { result ≡ is_owned_name name.now }
{
    match name.as_bytes() {
        [b':', ..] => false,
        _ => name != BUS_NAME,
    }
}

/// The first owned name among the senders of conditions.
pub(crate) fn first_owned_name(conditions: &[Condition]) -> Option<&str>
    ensures { option_map (λ name. name.now) result ≡ first_owned_name conditions.now }
{
    for condition in conditions {
        if let Condition::Sender(name) = condition {
            if is_owned_name(name.as_str()) {
                return Some(name.as_str());
            }
        }
    }
    None
}
