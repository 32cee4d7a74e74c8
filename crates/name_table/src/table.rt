//! A table from names to values.

ghost use Rattle.std.specs.Prelude.{◌≡◌, [], ◌∷◌, ◌++◌, if◌then◌else◌, length, not, is_some, None, IfOk, OnOk, OnErr};
ghost use Rattle.std.specs.Map.{keys_of};
ghost use Rattle.std.specs.Option.{option_copied};
ghost use Rattle.name_table.specs.Index.{IsIndexOf, found};
ghost use Rattle.name_table.specs.Names.{index_named, value_named};

use crate::index::Index;
use ptg_base::{OutOfMemory, Text};
use std::alloc::Global;
use std::marker::Model;

/// A table from names to values. Contracts see it as the list of its pairs in the order in which they were added. No
/// name is in it twice.
///
/// Names are looked up by an index that no choice of names makes slow.
pub struct NameTable<V> {
    alloc: Global,
    pairs: Vec<(Text, V)>,
    index: Index,
}

impl<V: Drop> Drop for NameTable<V> {
    fn drop(self) {
        let NameTable {
            alloc: _alloc,
            pairs: _pairs,
            index: _index,
        } = self;
    }
}

impl<V> Model for NameTable<V> {
    ghost use Rattle.std.specs.Prelude.{List, ℕ};
    ghost use Rattle.std.specs.Map.{keys_of};

    ghost Value = { List (List ℕ × V) };

    ghost use Rattle.name_table.specs.Index.{IsIndexOf};

    ghost view = { λ t. t.pairs.items };

    ghost invariant = { λ t. IsIndexOf (keys_of t.pairs.items) t.index };
}

impl<V> NameTable<V> {
    /// The empty table. It takes no memory.
    pub fn new(alloc: Global) -> NameTable<V>
        ensures { result ≡ [] }
    {
        NameTable {
            alloc,
            pairs: Vec::new(alloc),
            index: Index::new(alloc),
        }
    }

    /// The number of names in the table.
    pub(crate) fn len(&self) -> usize
        ensures { result ≡ length self.now }
    {
        self.pairs.len()
    }

    /// The value of a name, if the table has it.
    pub fn get(&self, name: &Text) -> Option<&V>
        ensures { option_copied result ≡ value_named self.now name.now }
    {
        match self.index.number_of(self.pairs.as_slice(), name) {
            Some(number) => Some(&self.pairs[number as usize].1),
            None => None,
        }
    }

    /// The number of a name in the order of adding, from 0, if the table has it.
    pub(crate) fn number_of(&self, name: &Text) -> Option<usize>
        ensures { result ≡ index_named (keys_of self.now) name.now }
    {
        match self.index.number_of(self.pairs.as_slice(), name) {
            Some(number) => Some(number as usize),
            None => None,
        }
    }

    /// The names with their values, in the order in which they were added.
    pub(crate) fn into_pairs(self) -> Vec<(Text, V)>
        ensures { result.items ≡ self }
    {
        let NameTable {
            alloc: _alloc,
            pairs,
            index: _index,
        } = self;
        pairs
    }
}

impl<V: Drop> NameTable<V> {
    /// Adds a name and its value if the table does not have the name yet, and returns whether it was new. After an
    /// `Err` the table is as it was.
    pub fn add(&mut self, name: Text, value: V) -> Result<bool, OutOfMemory>
        ensures added { IfOk result (λ new. new ≡ not (is_some (value_named self.old name))) }
        ensures entries { IfOk result (λ new. self.new ≡ (if new then self.old ++ (name, value) ∷ [] else self.old)) }
        ensures err { OnErr result (self.new ≡ self.old) }
    {
        if self.number_of(&name).is_some() {
            return Ok(false);
        }
        put(self.alloc, &mut self.pairs, &mut self.index, (name, value))?;
        Ok(true)
    }
}

// Adds the pair of a new name at the end. After an `Err` the pairs are as they were.
fn put<V: Drop>(
    alloc: Global,
    pairs: &mut Vec<(Text, V)>,
    index: &mut Index,
    pair: (Text, V),
) -> Result<(), OutOfMemory>
    requires index { IsIndexOf (keys_of pairs.old.items) index.old }
    requires new { found (keys_of pairs.old.items) index.old pair.0 ≡ None }
    ensures ok { OnOk result (pairs.new.items ≡ pairs.old.items ++ pair ∷ []) }
    ensures err { OnErr result (pairs.new.items ≡ pairs.old.items) }
    ensures index { IsIndexOf (keys_of pairs.new.items) index.new }
{
    pairs.reserve(1)?;
    index.add(alloc, pairs.as_slice(), &pair.0)?;
    pairs.push_reserved(pair);
    Ok(())
}
