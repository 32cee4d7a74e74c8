//! An index of names: the number of each, in a bucket, or in an ordered map if the bucket is full.

ghost use Rattle.std.specs.Prelude.{◌≡◌, ◌<◌, ◌*◌, ◌+◌, [], ◌∷◌, ◌++◌, ℕ, List, None, length, IfOk, OnOk, OnErr};
ghost use Rattle.std.specs.Map.{keys_of};
ghost use Rattle.name_table.specs.Index.{IsIndexOf, found, has_number, in_bucket};
ghost use Rattle.name_table.specs.Names.{IsEachOnce};

use crate::bucket::{Bucket, Slot};
use crate::mix::{low, mixed, within};
use ptg_base::{OutOfMemory, Text};
use std::alloc::Global;
use std::collections::BTreeMap;

/// The numbers of names. A bucket has room for seven; names that find no room in theirs are in an ordered map. So a
/// look-up takes at most the few steps of a bucket and those of the map, however the names were chosen.
pub struct Index {
    pub(crate) buckets: Vec<Bucket>,
    pub(crate) others: BTreeMap<Text, u32>,
}

impl Drop for Index {
    fn drop(self) {
        let Index {
            buckets: _buckets,
            others: _others,
        } = self;
    }
}

// Whether the name has this number among these.
fn has_number<V>(names: &[(Text, V)], name: &Text, number: u32) -> bool
    ensures { result ≡ has_number (keys_of names.now) name.now number }
{
    match names.get(number as usize) {
        Some(pair) => pair.0.bytes() == name.bytes(),
        None => false,
    }
}

// The number of a name among the slots of a bucket.
fn in_bucket<V>(names: &[(Text, V)], name: &Text, mark: u32, slots: &[Slot]) -> Option<u32>
    ensures { result ≡ in_bucket (keys_of names.now) name.now mark slots.now }
{
    for slot in slots {
        if slot.mark == mark && has_number(names, name, slot.number) {
            return Some(slot.number);
        }
    }
    None
}

impl Index {
    // An index of no names, without buckets. It takes no memory.
    pub(crate) fn new(alloc: Global) -> Index
        ensures { IsIndexOf [] result }
    {
        Index {
            buckets: Vec::new(alloc),
            others: BTreeMap::new(alloc),
        }
    }

    // An index of no names, with this many buckets.
    fn with_buckets(alloc: Global, count: usize) -> Result<Index, OutOfMemory>
        ensures index { IfOk result (λ index. IsIndexOf [] index) }
        ensures count { IfOk result (λ index. length index.buckets.items ≡ count) }
    {
        let mut buckets = Vec::with_capacity(alloc, count)?;
        for _ in 0..count {
            buckets.push(Bucket::new())?;
        }
        Ok(Index {
            buckets,
            others: BTreeMap::new(alloc),
        })
    }

    // The number of a name, if it is one of these.
    pub(crate) fn number_of<V>(&self, names: &[(Text, V)], name: &Text) -> Option<u32>
        ensures { result ≡ found (keys_of names.now) self.now name.now }
    {
        if self.buckets.is_empty() {
            return None;
        }
        let mixed = mixed(name.bytes());
        let bucket = &self.buckets[within(mixed, self.buckets.len())];
        let number = in_bucket(names, name, low(mixed), bucket.as_slice());
        if number.is_some() || bucket.has_room() {
            return number;
        }
        self.others.get(name).copied()
    }

    // Puts the number of a new name into its bucket, or into the map if the bucket is full.
    fn put(&mut self, alloc: Global, name: &Text, number: u32) -> Result<(), OutOfMemory>
        requires { 0 < length self.old.buckets.items }
        ensures put { OnOk result
            ((names : List (List ℕ)) → IsIndexOf names self.old → length names ≡ number
            → found names self.old name.now ≡ None → IsIndexOf (names ++ name.now ∷ []) self.new) }
        ensures kept { OnErr result ((names : List (List ℕ)) → IsIndexOf names self.old → IsIndexOf names self.new) }
        ensures count { length self.new.buckets.items ≡ length self.old.buckets.items }
    {
        let mixed = mixed(name.bytes());
        let at = within(mixed, self.buckets.len());
        if self.buckets[at].has_room() {
            self.buckets[at].push(Slot {
                mark: low(mixed),
                number,
            });
            return Ok(());
        }
        self.others.insert(Text::of(alloc, name.bytes())?, number)?;
        Ok(())
    }

    // The index of these names, none of which repeats, with this many buckets.
    fn rebuilt<V>(alloc: Global, names: &[(Text, V)], count: usize) -> Result<Index, OutOfMemory>
        requires count { 0 < count }
        requires once { IsEachOnce (keys_of names.now) }
        ensures index { IfOk result (λ index. IsIndexOf (keys_of names.now) index) }
        ensures count { IfOk result (λ index. length index.buckets.items ≡ count) }
    {
        let mut index = Index::with_buckets(alloc, count)?;
        for number in 0..names.len() {
            let Ok(next) = u32::try_from(number) else {
                return Err(OutOfMemory);
            };
            index.put(alloc, &names[number].0, next)?;
        }
        Ok(index)
    }

    // Makes room for one more name: rebuilds the index with twice as many buckets and one more, unless there are more
    // than a quarter as many buckets as names.
    fn make_room<V>(
        &mut self,
        alloc: Global,
        names: &[(Text, V)],
        number: u32,
    ) -> Result<(), OutOfMemory>
        requires { IsIndexOf (keys_of names.now) self.old }
        ensures ok { OnOk result (0 < length self.new.buckets.items) }
        ensures index { IsIndexOf (keys_of names.now) self.new }
    {
        let enough = number as usize / 4;
        let count = self.buckets.len();
        if enough < count {
            return Ok(());
        }
        *self = Index::rebuilt(alloc, names, 2 * count + 1)?;
        Ok(())
    }

    // Adds a new name, with the next number.
    pub(crate) fn add<V>(
        &mut self,
        alloc: Global,
        names: &[(Text, V)],
        name: &Text,
    ) -> Result<(), OutOfMemory>
        requires index { IsIndexOf (keys_of names.now) self.old }
        requires new { found (keys_of names.now) self.old name.now ≡ None }
        ensures added { OnOk result (IsIndexOf (keys_of names.now ++ name.now ∷ []) self.new) }
        ensures kept { OnErr result (IsIndexOf (keys_of names.now) self.new) }
    {
        let Ok(number) = u32::try_from(names.len()) else {
            return Err(OutOfMemory);
        };
        self.make_room(alloc, names, number)?;
        self.put(alloc, name, number)
    }
}
