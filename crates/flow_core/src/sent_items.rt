//! The items that were sent, and the tiles that are kept for them.

ghost use Rattle.std.specs.Prelude.{◌≡◌, [], ◌∷◌, ◌++◌, IfOk, OnOk, OnErr, None, is_some, option_to_list};
ghost use Rattle.ptg_base.specs.declared.edge.Item.{Item as ItemValue};
ghost use Rattle.ptg_base.specs.declared.edge.Item.TheVariants as item;
ghost use Rattle.flow_meaning.specs.Machine.{first_tile};
ghost use Rattle.flow_core.specs.SentItems.{all_sent};
ghost use Rattle.flow_core.specs.Kept as kept;
ghost use Rattle.flow_core.specs.Kept.{kept_with, sent_as, with_sent};
ghost use Rattle.flow_core.specs.Rows.{write_with, writes_among};

use crate::history::{History, SentItem};
use indexmap::IndexMap;
use ptg_base::{Item, OutOfMemory, Tile, WriteBack, items_compare_field_by_field};
use std::alloc::Global;
use std::marker::Model;

// The items that were sent. An edge is kept with its tile until it is taken, and a write-back to the end. Contracts see
// what was sent, and what is kept of it.
pub struct SentItems {
    edges: IndexMap<Item, Option<Tile>>,
    // In the order of the sends.
    writes: IndexMap<Item, Option<Tile>>,
    history: History,
}

impl Drop for SentItems {
    fn drop(self) {
        let SentItems {
            edges: _edges,
            writes: _writes,
            history: _history,
        } = self;
    }
}

impl Model for SentItems {
    ghost use Rattle.flow_core.specs.Kept.{SentAndKept};

    ghost Value = { SentAndKept };

    ghost use Rattle.flow_core.specs.SentItems.{all_sent};

    ghost view = { λ s.
        record { sends = s.history.sends; edges = all_sent s.edges.entries; writes = all_sent s.writes.entries } };
}

// Adds a write-back with its tile, if it has one.
fn push_write_back(
    write: WriteBack,
    tile: Option<Tile>,
    writes: &mut Vec<(WriteBack, Tile)>,
) -> Result<(), OutOfMemory>
    ensures { OnOk result (writes.new.items ≡ writes.old.items ++ option_to_list (write_with (item.Write write) tile)) }
{
    let Some(tile) = tile else {
        return Ok(());
    };
    writes.push((write, tile))?;
    Ok(())
}

// Adds an item with its tile, if it is a write-back and has one.
fn push_write(
    item: Item,
    tile: Option<Tile>,
    writes: &mut Vec<(WriteBack, Tile)>,
) -> Result<(), OutOfMemory>
    ensures { OnOk result (writes.new.items ≡ writes.old.items ++ option_to_list (write_with item tile)) }
{
    match item {
        Item::Edge(_) => Ok(()),
        Item::Write(write) => push_write_back(write, tile, writes),
    }
}

// The write-backs of a table, each with its tile if it has one, in the order of the table.
fn write_backs_of(
    table: IndexMap<Item, Option<Tile>>,
    alloc: Global,
) -> Result<Vec<(WriteBack, Tile)>, OutOfMemory>
    ensures { IfOk result (λ writes. writes.items ≡ writes_among (all_sent table.entries)) }
{
    let mut writes = Vec::new(alloc);
    for (item, tile) in table {
        push_write(item, tile, &mut writes)?;
    }
    Ok(writes)
}

// Whether an item is a write-back.
fn is_write(item: &Item) -> bool
    ensures { result ≡ kept.is_write item.now }
{
    match item {
        Item::Edge(_) => false,
        Item::Write(_) => true,
    }
}

// Adds an item that is not in the table, with its tile.
fn enter(
    table: &mut IndexMap<Item, Option<Tile>>,
    item: Item,
    tile: Option<Tile>,
) -> Result<(), OutOfMemory>
    requires { sent_as item (all_sent table.old.entries) ≡ None }
    ensures ok { OnOk result
        (all_sent table.new.entries ≡ all_sent table.old.entries ++ record { item = item; tile = tile } ∷ []) }
    ensures err { OnErr result (table.new.entries ≡ table.old.entries) }
{
    items_compare_field_by_field();
    table.insert(item, tile)?;
    Ok(())
}

impl SentItems {
    // No items.
    pub(crate) fn new(alloc: Global) -> SentItems
        ensures { result ≡ record { sends = []; edges = []; writes = [] } }
    {
        SentItems {
            edges: IndexMap::new(alloc),
            writes: IndexMap::new(alloc),
            history: History::new(),
        }
    }

    // Whether the item is kept.
    pub(crate) fn is_kept(&self, item: &Item) -> bool
        ensures { result ≡ is_some (sent_as item.now (kept_with item.now self.now)) }
    {
        items_compare_field_by_field();
        if is_write(item) {
            return self.writes.contains_key(item);
        }
        self.edges.contains_key(item)
    }

    // Removes an edge from those that are kept, and returns its tile, if it has one.
    pub(crate) fn take(&mut self, item: &Item) -> Option<Tile>
        ensures tile { result ≡ first_tile item.now self.old.edges }
        ensures others { (other : ItemValue) → (item.now ≡ other → ⊥)
            → sent_as other self.new.edges ≡ sent_as other self.old.edges }
        ensures sends { self.new.sends ≡ self.old.sends }
        ensures writes { self.new.writes ≡ self.old.writes }
    {
        items_compare_field_by_field();
        let Some(tile) = self.edges.swap_remove(item) else {
            return None;
        };
        tile
    }

    // Adds an item with its tile. An `Err` changes nothing.
    pub(crate) fn add(&mut self, item: Item, tile: Option<Tile>) -> Result<(), OutOfMemory>
        requires { sent_as item (kept_with item self.old) ≡ None }
        ensures ok { OnOk result (self.new ≡ with_sent self.old (record { item = item; tile = tile })) }
        ensures err { OnErr result (self.new ≡ self.old) }
    {
        let sent_item = SentItem { item, tile };
        let history = History::with(&self.history, &sent_item);
        let SentItem { item, tile } = sent_item;
        if is_write(&item) {
            enter(&mut self.writes, item, tile)?;
            self.history = history;
            return Ok(());
        }
        enter(&mut self.edges, item, tile)?;
        self.history = history;
        Ok(())
    }

    // The write-backs, each with its tile, in the order of the sends.
    pub(crate) fn into_writes(self, alloc: Global) -> Result<Vec<(WriteBack, Tile)>, OutOfMemory>
        ensures { IfOk result (λ writes. writes.items ≡ writes_among self.writes) }
    {
        let SentItems {
            edges: _edges,
            writes,
            history: _history,
        } = self;
        write_backs_of(writes, alloc)
    }
}
