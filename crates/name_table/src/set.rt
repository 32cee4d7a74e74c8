//! A set of names, numbered in the order in which they were added.

ghost use Rattle.std.specs.Prelude.{◌≡◌, ◌<◌, [], ◌∷◌, ◌++◌, length, not, is_some, if◌then◌else◌, IfSome, IfOk, OnErr};
ghost use Rattle.name_table.specs.Names.{has_name, index_named};

use crate::table::NameTable;
use ptg_base::{OutOfMemory, Seq, Text};
use std::alloc::Global;
use std::marker::Model;

/// A set of names. Contracts see it as the list of its names in the order in which they were added. No name is in it
/// twice.
#[derive(Drop)]
pub struct NameSet {
    names: NameTable<()>,
}

impl Model for NameSet {
    ghost use Rattle.std.specs.Prelude.{List, ℕ};
    ghost use Rattle.std.specs.Map.{keys_of};

    ghost Value = { List (List ℕ) };

    ghost view = { λ s. keys_of s.names };
}

impl NameSet {
    /// The empty set. It takes no memory.
    pub fn new(alloc: Global) -> NameSet
        ensures { result ≡ [] }
    {
        NameSet {
            names: NameTable::new(alloc),
        }
    }

    /// The number of names in the set.
    pub fn len(&self) -> usize
        ensures { result ≡ length self.now }
    {
        self.names.len()
    }

    /// Whether the set has the name.
    pub fn contains(&self, name: &Text) -> bool
        ensures { result ≡ has_name self.now name.now }
    {
        self.names.get(name).is_some()
    }

    /// The number of the name in the order of adding, from 0, if the set has it.
    pub fn index_of(&self, name: &Text) -> Option<usize>
        ensures index { result ≡ index_named self.now name.now }
        ensures found { is_some result ≡ has_name self.now name.now }
        ensures within { IfSome result (λ i. i < length self.now) }
    {
        self.names.number_of(name)
    }

    /// Adds a name if the set does not have it yet, and returns whether it was new. After an `Err` the set is as it
    /// was.
    pub fn add(&mut self, name: Text) -> Result<bool, OutOfMemory>
        ensures added { IfOk result (λ new. new ≡ not (has_name self.old name)) }
        ensures names { IfOk result (λ new. self.new ≡ (if new then self.old ++ name ∷ [] else self.old)) }
        ensures err { OnErr result (self.new ≡ self.old) }
    {
        self.names.add(name, ())
    }

    /// The names, in the order in which they were added.
    pub fn into_seq(self, alloc: Global) -> Result<Seq<Text>, OutOfMemory>
        ensures { IfOk result (λ names. names ≡ self) }
    {
        let mut names = Seq::new(alloc);
        for (name, _value) in self.names.into_pairs() {
            names.push(name)?;
        }
        Ok(names)
    }
}
