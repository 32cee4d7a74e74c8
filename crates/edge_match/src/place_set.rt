//! A set of places of collections, a byte for each place.

ghost use Rattle.std.specs.Prelude.{◌≡◌, ◌↔◌, ◌<◌, ◌++◌, ◌∷◌, ◌⊎◌, [], List, ℤ, IfOk, IsTrue, MatchOption, Some};
ghost use Rattle.std.specs.Prelude.{length, unsigned_abs};
ghost use Rattle.ptg_base.specs.Lists.{IsIn};
ghost use Rattle.ptg_base.specs.Places.{number_in};
ghost use Rattle.ptg_base.specs.declared.place.Place.{Place as PlaceValue};
ghost use Rattle.plan_core.specs.declared.shape.Shape.{Shape as ShapeValue};
ghost use Rattle.plan_core.specs.Place.{HasPlace};
ghost use Rattle.edge_match.specs.Sets.{IsEmpty, IsSetOf, IsWithin, has_at};

use crate::rows::Rows;
use plan_core::Shape;
use ptg_base::{OutOfMemory, Place};
use std::alloc::Global;

impl Rows {
    // An empty set of places of a collection of this shape.
    fn new(alloc: Global, shape: &Shape) -> Result<Rows, OutOfMemory>
        ensures { IfOk result (IsEmpty shape.now) }
    {
        let cols = shape.cols.unwrap_or(1);
        let has = vec![in alloc; false; shape.rows as usize * cols as usize]?;
        Ok(Rows {
            rows: shape.rows,
            cols,
            has,
        })
    }

    // The index of a place by its row and column, if the collection has them.
    fn index(&self, i: i64, j: i64) -> Option<usize>
        ensures { MatchOption result (IsWithin self.now i j → ⊥)
            (λ k. (k ≡ number_in (Some self.now.cols) (unsigned_abs i) (unsigned_abs j))
            × (k < length self.now.has.items)) }
    {
        if i < 0 || j < 0 {
            return None;
        }
        let row = i.unsigned_abs();
        let column = j.unsigned_abs();
        if row >= u64::from(self.rows) || column >= u64::from(self.cols) {
            return None;
        }
        let at = row as usize * self.cols as usize + column as usize;
        if at < self.has.len() { Some(at) } else { None }
    }

    // Adds the place in this row and column, and returns whether it is new.
    fn insert(&mut self, i: i64, j: i64) -> bool
        ensures rows { self.new.rows ≡ self.old.rows }
        ensures cols { self.new.cols ≡ self.old.cols }
        ensures fresh { IsWithin self.old i j → IsTrue result ↔ (IsTrue (has_at self.old i j) → ⊥) }
        ensures added { IsWithin self.old i j → (k l : ℤ) → IsWithin self.old k l
            → IsTrue (has_at self.new k l) ↔ (IsTrue (has_at self.old k l) ⊎ ((k ≡ i) × (l ≡ j))) }
    {
        let Some(k) = self.index(i, j) else {
            return false;
        };
        let old = self.has[k];
        self.has[k] = true;
        !old
    }
}

/// A set of places of some collections, with a byte for each place of them.
#[derive(Drop)]
pub struct PlaceSet {
    sets: Vec<Rows>,
}

impl PlaceSet {
    /// The empty set of places of collections of these shapes.
    pub fn new(alloc: Global, shapes: &[Shape]) -> Result<PlaceSet, OutOfMemory>
        ensures { IfOk result (λ set. IsSetOf shapes.now set []) }
    {
        let mut sets = Vec::new(alloc);
        for shape in shapes {
            sets.push(Rows::new(alloc, shape)?)?;
        }
        Ok(PlaceSet { sets })
    }

    /// Adds a place, and returns whether it is new. Returns false for a place outside the collections.
    pub fn insert(&mut self, p: Place) -> bool
        ensures fresh { (colls : List ShapeValue) (ps : List PlaceValue) → HasPlace colls p → IsSetOf colls self.old ps
            → IsTrue result ↔ (IsIn p ps → ⊥) }
        ensures added { (colls : List ShapeValue) (ps : List PlaceValue) → HasPlace colls p → IsSetOf colls self.old ps
            → IsSetOf colls self.new (ps ++ p ∷ []) }
    {
        let n = p.coll as usize;
        if n >= self.sets.len() {
            return false;
        }
        self.sets[n].insert(p.i, p.j)
    }
}
