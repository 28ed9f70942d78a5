//! The labels of a text, found by their names.

ghost use Rattle.std.specs.Prelude.{◌≡◌, ◌++◌, ◌∷◌, [], OnOk};
ghost use Rattle.bpf_text.specs.Source.{defined, has_name};

use std::alloc::{AllocError, Global};
use std::collections::BTreeMap;
use std::marker::Model;

/// A label, and the place of the instruction that it names.
#[derive(Clone, Copy)]
pub(crate) struct Label<'a> {
    pub(crate) name: &'a [u8],
    pub(crate) place: usize,
}

/// Labels in their order, with a map from each name to the place of its first definition: a text may have thousands.
#[derive(Drop)]
pub(crate) struct Labels<'a> {
    list: Vec<Label<'a>>,
    places: BTreeMap<&'a [u8], usize>,
}

impl<'a> Model for Labels<'a> {
    ghost use Rattle.std.specs.Prelude.{List, map};
    ghost use Rattle.bpf_text.specs.LabelPlaces.{Finds, label_view};
    ghost use Rattle.bpf_text.specs.Source.{Label};

    ghost Value = { List Label };

    ghost view = { λ labels. map label_view labels.list.items };

    ghost invariant = { λ labels. Finds labels.places (map label_view labels.list.items) };
}

impl<'a> Labels<'a> {
    /// No labels.
    pub(crate) fn new(alloc: Global) -> Self
        ensures { result ≡ [] }
    {
        Labels {
            list: Vec::new(alloc),
            places: BTreeMap::new(alloc),
        }
    }

    /// Adds a label after the others.
    pub(crate) fn push(&mut self, name: &'a [u8], place: usize) -> Result<(), AllocError>
        ensures { OnOk result (self.new ≡ self.old ++ record { name = name.entry.now; place = place } ∷ []) }
    {
        self.list.push(Label { name, place })?;
        if self.places.contains_key(name) {
            return Ok(());
        }
        match self.places.insert(name, place) {
            Ok(_) => Ok(()),
            Err(refused) => {
                self.list.pop();
                Err(AllocError::from(refused))
            }
        }
    }

    /// Whether one of them has the name.
    pub(crate) fn has(&self, name: &[u8]) -> bool
        ensures { result ≡ has_name self.now name.now }
    {
        self.places.contains_key(name)
    }

    /// The place that a name has by its first definition.
    pub(crate) fn place_of(&self, name: &[u8]) -> Option<usize>
        ensures { result ≡ defined self.now name.now }
    {
        self.places.get(name).copied()
    }
}
