// Removal of entries, and of the slots of names that nothing uses any more.

ghost use Rattle.std.specs.Prelude.{◌≡◌, ◌<◌, true, false, IfSome, Some, length};
ghost use Rattle.match_rule.specs.RuleTree.{sender_name_of};
ghost use Rattle.owners.specs.Registry.{rules_of, IsRegistry};
ghost use Rattle.program_table.specs.SlotNames.{sender_asked};
ghost use Rattle.program_table.specs.Senders.{without_sender};
ghost use Rattle.program_table.specs.Registrations.{without_entry, without_all_of};
ghost use Rattle.program_table.specs.Ties.{registrations_of, AreTied};
ghost use Rattle.program_table.specs.Removal.{entries_not_of, AreSomeGone};

use entry_table::{EntryTable, Filter, RuleProgram};
use owners::{Claims, WellKnown};

/// The owned name that a rule asks for as the sender.
pub(crate) fn sender_of(program: &RuleProgram) -> Option<WellKnown>
    ensures { result ≡ sender_name_of program.now.rule }
{
    let rule = program.rule();
    let _ = rule.conditions();
    match rule.sender_name() {
        Some(name) => WellKnown::read(name).ok(),
        None => None,
    }
}

/// Counts one rule fewer of a rule's sender name, once the rule is gone.
fn free_slot(names: &mut Claims, filter: &Filter)
    requires rule { IfSome (sender_asked filter.now) (λ name. 0 < rules_of name names.old.slots) }
    requires registry { IsRegistry names.old }
    ensures after { names.new ≡ without_sender (sender_asked filter.now) names.old }
    ensures registry { IsRegistry names.new }
{
    if let Filter::Rule(program) = filter {
        if let Some(name) = sender_of(program) {
            names.slot_free(&name);
        }
    }
}

/// Takes out the connection's entry of this id, if it has one.
pub(crate) fn remove_entry(names: &mut Claims, entries: &mut EntryTable, connection: u64, id: u32)
    requires { AreTied names.old entries.old }
    ensures tied { AreTied names.new entries.new }
    ensures gone { registrations_of names.new entries.new ≡ without_entry connection (Some id) (registrations_of names.old entries.old) }
{
    if let Some(entry) = entries.remove(connection, id) {
        let _ = entries.last_id();
        free_slot(names, &entry.filter);
    }
}

/// Takes out one of the connection's entries, and tells whether it had one.
fn remove_any(names: &mut Claims, entries: &mut EntryTable, connection: u64) -> bool
    requires { AreTied names.old entries.old }
    ensures tied { AreTied names.new entries.new }
    ensures gone { AreSomeGone connection (registrations_of names.old entries.old) (registrations_of names.new entries.new) }
    ensures fewer { result ≡ true → length entries.new.entries < length entries.old.entries }
    ensures last { result ≡ false → entries_not_of connection entries.new.entries ≡ entries.new.entries }
{
    match entries.remove_any(connection) {
        Some(entry) => {
            let _ = entries.last_id();
            free_slot(names, &entry.filter);
            true
        }
        None => false,
    }
}

/// Takes out all entries of the connection, and then its claims.
pub(crate) fn remove_all(names: &mut Claims, entries: &mut EntryTable, connection: u64)
    requires { AreTied names.old entries.old }
    ensures tied { AreTied names.new entries.new }
    ensures gone { registrations_of names.new entries.new ≡ without_all_of connection (registrations_of names.old entries.old) }
{
    'theirs: while remove_any(names, entries, connection) {}
    names.drop_all(connection);
}
