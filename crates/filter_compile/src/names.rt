// The names whose owners a filter asks for.
ghost use Rattle.std.specs.Prelude.{◌≡◌, ◌≤◌, ◌*◌, [], IfOk, map, length};
ghost use Rattle.filter.specs.FilterTree.{list_of};
ghost use Rattle.filter.specs.Filters.{tree_of};
ghost use Rattle.filter.specs.Weights.{asks_owner, tests_weight};
ghost use Rattle.filter_compile.specs.Names.{name_in, has_name, with_one_name, with_name, with_names, with_all_names, names_of, slot_in};

use filter::{Filter, Test, TextField, TextRelation, TextSource};
use match_rule::is_owned_name;
use std::alloc::{AllocError, Global};
use std::marker::Model;

/// Whether a name is among others.
fn has_name(names: &[&str], name: &str) -> bool
    ensures { result ≡ has_name (map (λ other. other.now) names.now) name.now }
{
    for other in names {
        if *other == name {
            return true;
        }
    }
    false
}

/// How many names stand before the first that is this one.
fn slot_in(names: &[&str], name: &str) -> usize
    ensures value { result ≡ slot_in (map (λ other. other.now) names.now) name.now }
    ensures few { result ≤ length names.now }
{
    let mut slot = 0;
    for other in names {
        if *other == name {
            return slot;
        }
        slot += 1;
    }
    slot
}

/// Names, each once. A name's slot is its place among them, from 0.
#[derive(Drop)]
pub struct Names<'a> {
    names: Vec<&'a str>,
}

impl<'a> Model for Names<'a> {
    ghost use Rattle.std.specs.Prelude.{ℕ, List, map};

    ghost Value = { List (List ℕ) };

    ghost view = { λ n. map (λ name. name.now) n.names.items };
}

impl<'a> Names<'a> {
    /// No names.
    fn new(alloc: Global) -> Self
        ensures { result ≡ [] }
    {
        Names {
            names: Vec::new(alloc),
        }
    }

    /// The names that a filter asks for, in the order of its text.
    #[tactic(auto, using(crate::proofs::NamesOf::names_below))]
    pub fn of(alloc: Global, filter: &'a Filter) -> Result<Self, AllocError>
        ensures value { IfOk result (λ names. names ≡ names_of (tree_of filter.entry.now)) }
        ensures few { IfOk result (λ names. 8 * length names ≤ tests_weight (tree_of filter.entry.now)) }
    {
        let mut names = Names::new(alloc);
        add_names(&mut names, filter)?;
        Ok(names)
    }

    /// Adds a name that isn't among them.
    fn add(&mut self, name: &'a str) -> Result<(), AllocError>
        ensures { IfOk result (λ _. self.new ≡ with_one_name self.old name.entry.now) }
    {
        if !has_name(self.names.as_slice(), name) {
            self.names.push(name)?;
        }
        Ok(())
    }

    /// The names, by rising slot.
    pub fn as_slice(&self) -> &[&'a str]
        ensures { map (λ name. name.now) result.now ≡ self.now }
    {
        self.names.as_slice()
    }

    /// The slot of a name.
    pub fn slot(&self, name: &str) -> usize
        ensures value { result ≡ slot_in self.now name.now }
        ensures few { result ≤ length self.now }
    {
        slot_in(self.names.as_slice(), name)
    }
}

/// Whether a test asks who owns a name.
#[tactic(auto, using(crate::proofs::OwnedNames::same_owned))]
pub(crate) fn asks_owner(source: TextSource, relation: TextRelation, text: &str) -> bool
    ensures { result ≡ asks_owner source relation text.now }
{
    match (source, relation) {
        (TextSource::Field(TextField::Sender), TextRelation::Equal | TextRelation::Unequal) => {
            is_owned_name(text)
        }
        _ => false,
    }
}

/// Adds the name that a test asks for.
fn add_name<'a>(names: &mut Names<'a>, test: &'a Test) -> Result<(), AllocError>
    ensures { IfOk result (λ _. names.new ≡ with_name names.old (name_in test.entry.now)) }
{
    if let Test::Text(source, relation, value) = test
        && asks_owner(*source, *relation, value.as_str())
    {
        return names.add(value.as_str());
    }
    Ok(())
}

/// Adds the names that a filter asks for.
#[cycle(names)]
fn add_names<'a>(names: &mut Names<'a>, filter: &'a Filter) -> Result<(), AllocError>
    ensures { IfOk result (λ _. names.new ≡ with_names names.old (tree_of filter.entry.now)) }
{
    match filter {
        Filter::Test(test) => add_name(names, test),
        Filter::All(filters) => add_all_names(names, filters.as_slice()),
        Filter::Any(filters) => add_all_names(names, filters.as_slice()),
        Filter::Not(filter) => add_names(names, filter),
    }
}

/// Adds the names that filters ask for.
#[cycle(names)]
fn add_all_names<'a>(names: &mut Names<'a>, filters: &'a [Filter]) -> Result<(), AllocError>
    ensures { IfOk result (λ _. names.new ≡ with_all_names names.old (list_of (map tree_of filters.entry.now))) }
{
    for filter in filters {
        add_names(names, filter)?;
    }
    Ok(())
}
