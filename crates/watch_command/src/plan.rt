// What the options come to: rules that are read and programs that are verified.

ghost use Rattle.std.specs.Prelude.{◌≡◌, ◌≢◌, IfOk, IfErr, true, if◌then◌else◌};
ghost use Rattle.match_rule.specs.RuleTree.{RuleTree};
ghost use Rattle.match_rule.specs.Grammar.{ReadsAs};
ghost use Rattle.watch_command.specs.Options.{word_of};
ghost use Rattle.watch_command.specs.Showing.{expression_of};
ghost use Rattle.watch_command.specs.Choosing.{choice_by, destinations_by};

use crate::counts::CountedRule;
use crate::criteria::{Acceptor, Choice, Criteria, Destinations, Program};
use crate::error::Fault;
use crate::expression::Expression;
use crate::options::Options;
use crate::words::Key;
use bpf_code::{Ins, encode};
use bpf_text::assemble_bytes;
use bpf_verify::verify;
use command_line::Files;
use match_rule::{Rule, RuleError};
use std::alloc::{AllocError, Global};
use summary::Edition;

/// The rule of all calls.
const CALLS: &str = "type='method_call'";

/// The rules of all answers.
const ANSWERS: [&str; 2] = ["type='method_return'", "type='error'"];

/// What the bus is to run.
#[derive(Drop)]
pub(crate) enum Attached<'a> {
    /// The byte form of a program, for images of the edition, or of the first where none is said.
    Program(Option<Edition>, Vec<u8>),
    /// The text of a filter expression.
    Filter(&'a str),
}

/// What the options come to.
#[derive(Drop)]
pub(crate) struct Plan<'a> {
    pub(crate) criteria: Criteria,
    /// The rules of `--rules`, or of `--of`.
    pub(crate) counted: Vec<CountedRule>,
    /// The rules that the bus is asked for; none is all messages.
    pub(crate) asked: Vec<&'a str>,
    pub(crate) attached: Option<Attached<'a>>,
}

impl<'a> Plan<'a> {
    ghost use Rattle.std.specs.Prelude.{◌≡◌, None, IfOk, if◌then◌else◌};
    ghost use Rattle.watch_command.specs.declared.words.Key.TheVariants.{Attach, Filter};
    ghost use Rattle.watch_command.specs.Options.{has, word_of};
    ghost use Rattle.watch_command.specs.Showing.{expression_of};
    ghost use Rattle.watch_command.specs.Choosing.{choice_by, destinations_by};

    /// Reads what the options name.
    pub(crate) fn read<F: Files>(
        alloc: Global,
        options: &Options<'a>,
        files: &mut F,
    ) -> Result<Plan<'a>, Fault>
        // The filter expression that is said is the one that messages have to pass, unless the bus runs it.
        ensures expression { IfOk result (λ plan. expression_of plan.criteria.acceptor ≡ (if has Attach options.now then None else word_of Filter options.now)) }
        ensures choice { IfOk result (λ plan. plan.criteria.choice ≡ choice_by options.now) }
        ensures destinations { IfOk result (λ plan. plan.criteria.destinations ≡ destinations_by options.now) }
    {
        let is_monitor = options.is_monitor();
        let choice = choice_by(options);
        let destinations = destinations_by(options);
        let mut rules = Vec::new(alloc);
        let mut asked = Vec::new(alloc);
        for text in options.rules(alloc)? {
            rules.push(rule_of(alloc, text, is_monitor)?)?;
            if choice == Choice::Selected {
                asked.push(text)?;
            }
        }
        if options.has(Key::Calls) {
            put_rules_of_calls(&mut asked)?;
        }
        let counted = match options.text_of(Key::Rules) {
            Some(file) => read_rules(alloc, file, is_monitor, files)?,
            None => Vec::new(alloc),
        };
        let (acceptor, attached) = if options.has(Key::Attach) {
            (None, read_attached(alloc, options, files)?)
        } else {
            (read_acceptor(alloc, options, files)?, None)
        };
        Ok(Plan {
            criteria: Criteria {
                rules,
                destinations,
                acceptor,
                choice,
            },
            counted,
            asked,
            attached,
        })
    }

    /// The well-known names that rules ask for as senders.
    pub(crate) fn sender_names(&self, alloc: Global) -> Result<Vec<&str>, Fault> {
        let mut names = Vec::new(alloc);
        for rule in &self.criteria.rules {
            if let Some(name) = rule.sender_name() {
                names.push(name)?;
            }
        }
        for counted in &self.counted {
            if let Some(name) = counted.rule.sender_name() {
                names.push(name)?;
            }
        }
        Ok(names)
    }
}

/// Which messages are shown.
fn choice_by(options: &Options<'_>) -> Choice
    ensures { result ≡ choice_by options.now }
{
    if options.has(Key::Why) {
        Choice::NearMisses
    } else if options.has(Key::Invert) {
        Choice::Others
    } else {
        Choice::Selected
    }
}

/// Who compares destinations: the bus, if it is asked for the messages of these rules as a monitor's.
fn destinations_by(options: &Options<'_>) -> Destinations
    ensures { result ≡ destinations_by options.now }
{
    let is_asked = options.is_monitor() && !options.has(Key::Read);
    if is_asked && choice_by(options) == Choice::Selected {
        Destinations::Decided
    } else {
        Destinations::Compared
    }
}

/// Adds the rules of answers to those of calls, or of all calls where there are none.
fn put_rules_of_calls(asked: &mut Vec<&str>) -> Result<(), AllocError> {
    if asked.is_empty() {
        asked.push(CALLS)?;
    }
    for rule in ANSWERS {
        asked.push(rule)?;
    }
    Ok(())
}

/// The rule of a text, which has to be one.
fn rule_of(alloc: Global, text: &str, is_monitor: bool) -> Result<Rule, Fault> {
    Ok(read_rule(alloc, text, is_monitor).map_err(command_line::Fault::from)?)
}

/// Reads a rule. A monitor's is of messages to others too, whatever it says of that itself.
pub(crate) fn read_rule(alloc: Global, text: &str, is_monitor: bool) -> Result<Rule, RuleError>
    // It is what the text reads as, but that a monitor's is of messages to others too.
    ensures found { IfOk result (λ made. (rule : RuleTree) × ReadsAs text.now rule × (made ≡ (if is_monitor then record rule { eavesdrops = true } else rule))) }
    // A text that reads as a rule is refused for want of memory alone.
    ensures refused { (rule : RuleTree) → ReadsAs text.now rule → IfErr result (λ error. error ≢ RuleError.NoMemory → ⊥) }
{
    let rule = match Rule::read(alloc, text) {
        Ok(rule) => rule,
        Err(error) => return Err(error),
    };
    if is_monitor {
        Ok(rule.eavesdropping())
    } else {
        Ok(rule)
    }
}

/// The rules of a file, one a line; lines that are empty or begin with `#` are passed over.
fn read_rules<F: Files>(
    alloc: Global,
    file: &str,
    is_monitor: bool,
    files: &mut F,
) -> Result<Vec<CountedRule>, Fault> {
    let bytes = files.read(alloc, file).map_err(command_line::Fault::from)?;
    let text = String::from_utf8(bytes).map_err(|_| command_line::Fault::File)?;
    let mut rules = Vec::new(alloc);
    for line in text.as_str().lines() {
        if !line.is_empty() && !line.starts_with("#") {
            rules.push(CountedRule {
                text: String::from_str(alloc, line)?,
                rule: rule_of(alloc, line, is_monitor)?,
                count: 0,
            })?;
        }
    }
    Ok(rules)
}

/// What accepts messages here besides rules, if anything is said.
fn read_acceptor<F: Files>(
    alloc: Global,
    options: &Options<'_>,
    files: &mut F,
) -> Result<Option<Acceptor>, Fault>
    ensures { IfOk result (λ acceptor. expression_of acceptor ≡ word_of Key.Filter options.now) }
{
    if let Some(text) = options.text_of(Key::Filter) {
        let expression = Expression::read(alloc, text)?;
        return Ok(Some(Acceptor::Expression(expression)));
    }
    let Some(file) = options.text_of(Key::Program) else {
        return Ok(None);
    };
    let instructions = read_program(alloc, file, files)?;
    let edition = options.edition().unwrap_or(Edition::One);
    let program = verify_program(instructions, edition)?;
    Ok(Some(Acceptor::Program(program)))
}

/// What the bus is to run. Whether it accepts a program is its own answer; a filter expression is read and compiled here
/// too, so that its fault is said as it is without a bus.
fn read_attached<'a, F: Files>(
    alloc: Global,
    options: &Options<'a>,
    files: &mut F,
) -> Result<Option<Attached<'a>>, Fault> {
    if let Some(text) = options.text_of(Key::Filter) {
        Expression::read(alloc, text)?;
        return Ok(Some(Attached::Filter(text)));
    }
    let Some(file) = options.text_of(Key::Program) else {
        return Ok(None);
    };
    let instructions = read_program(alloc, file, files)?;
    let code = encode(alloc, &instructions).map_err(command_line::Fault::from)?;
    Ok(Some(Attached::Program(options.edition(), code)))
}

/// The instructions of the program in a file.
fn read_program<F: Files>(
    alloc: Global,
    file: &str,
    files: &mut F,
) -> Result<Vec<Ins>, command_line::Fault> {
    let text = files.read(alloc, file)?;
    Ok(assemble_bytes(alloc, &text)?)
}

/// The program of some instructions, if it is accepted.
fn verify_program(
    instructions: Vec<Ins>,
    edition: Edition,
) -> Result<Program, command_line::Fault> {
    match verify(instructions) {
        Ok(code) => Ok(Program { code, edition }),
        Err((fault, _)) => Err(command_line::Fault::Program(fault)),
    }
}
