// The match rules of another connection.

ghost use Rattle.std.specs.Prelude.{◌≡◌, ◌≢◌, ◌⊎◌, [], IfOk, OnOk, map, string_bytes};
ghost use Rattle.watch_command.specs.CountedRules.{text_counts};
ghost use Rattle.watch_command.specs.RulesCounted.{IsCounted, IsPassedOver, AreCounted};

use crate::counts::CountedRule;
use crate::error::Fault;
use crate::plan::read_rule;
use crate::shown_text::shown_text;
use bus_client::Client;
use command_line::{Output, Writer};
use match_rule::RuleError;
use std::alloc::Global;
use std::io::{Read, Write};

/// The rules of the connection that has a name, as the bus tells them, none of which has taken a message yet. One that only
/// that bus can read is said and passed over.
pub(crate) fn connection_rules<S: Read + Write + Drop, E: Writer>(
    alloc: Global,
    client: &mut Client<S>,
    name: &str,
    is_monitor: bool,
    err: &mut Output<E>,
) -> Result<Vec<CountedRule>, Fault> {
    let Some(connection) = connection_of(alloc, client, name)? else {
        return Err(Fault::NoConnection(shown_text(alloc, name)?));
    };
    let texts = client
        .match_rules(connection.as_str())
        .map_err(Fault::of_match_rules)?;
    let Some(texts) = texts else {
        return Err(Fault::NoConnection(shown_text(alloc, name)?));
    };
    if texts.is_empty() {
        return Err(Fault::WithoutRules(shown_text(alloc, name)?));
    }
    readable_rules(alloc, &texts, is_monitor, err)
}

/// The unique name of the connection that has a name.
fn connection_of<S: Read + Write + Drop>(
    alloc: Global,
    client: &mut Client<S>,
    name: &str,
) -> Result<Option<String>, Fault> {
    if name.starts_with(":") {
        Ok(Some(String::from_str(alloc, name)?))
    } else {
        Ok(client.name_owner(name)?)
    }
}

/// The rules that some texts are.
fn readable_rules<E: Writer>(
    alloc: Global,
    texts: &[String],
    is_monitor: bool,
    err: &mut Output<E>,
) -> Result<Vec<CountedRule>, Fault>
    ensures { IfOk result (λ rules. AreCounted (map string_bytes texts.now) [] (text_counts rules.items)) }
{
    let mut rules = Vec::new(alloc);
    for text in texts {
        put_rule(alloc, &mut rules, text.as_str(), is_monitor, err)?;
    }
    Ok(rules)
}

/// Adds the rule that a text is, or says that it is none here.
fn put_rule<E: Writer>(
    alloc: Global,
    rules: &mut Vec<CountedRule>,
    text: &str,
    is_monitor: bool,
    err: &mut Output<E>,
) -> Result<(), Fault>
    ensures { OnOk result (IsCounted text.now (text_counts rules.old.items) (text_counts rules.new.items) ⊎ IsPassedOver text.now (text_counts rules.old.items) (text_counts rules.new.items)) }
{
    match read_rule(alloc, text, is_monitor) {
        Ok(rule) => {
            let text = shown_text(alloc, text)?;
            rules.push(CountedRule {
                text,
                rule,
                count: 0,
            })?;
            Ok(())
        }
        Err(error) => {
            note_unreadable(alloc, error, text, err)?;
            Ok(())
        }
    }
}

/// Says that a text is no rule here, unless memory ran out.
fn note_unreadable<E: Writer>(
    alloc: Global,
    error: RuleError,
    text: &str,
    err: &mut Output<E>,
) -> Result<(), Fault>
    ensures { OnOk result (error ≢ RuleError.NoMemory) }
{
    match error {
        RuleError::NoMemory => Err(Fault::Tool(command_line::Fault::Memory)),
        _ => {
            let text = shown_text(alloc, text)?;
            let line = format!(in alloc; "dbusfan: rule {error}: {text}\n")?;
            err.put(line.as_bytes());
            Ok(())
        }
    }
}
