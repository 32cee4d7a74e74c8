//! Plans.

ghost use Rattle.std.specs.Prelude.{◌≡◌, ◌<◌, ◌↔◌, IsTrue, Some, length, slice_get};
ghost use Rattle.term_core.specs.declared.space.ClassSpace.{ClassSpace};
ghost use Rattle.term_core.specs.WellSpace.{IsWellSpace};
ghost use Rattle.plan_core.specs.Place.{HasPlace};
ghost use Rattle.plan_core.specs.WellMade.{is_element_count, IsWellClass, IsWellMade};

use crate::class::ClassPlan;
use crate::shape::Shape;
use ptg_base::{Place, Seq};
use term_core::ClassSpace;

/// A job with all its names resolved. It holds for the data that it was resolved with.
pub struct Plan {
    /// The classes, in the text's order.
    pub classes: Seq<ClassPlan>,
    /// The space of each class.
    pub spaces: Seq<ClassSpace>,
    /// The collections, in the data's order.
    pub colls: Seq<Shape>,
    /// How many numbers a tile of each type has, by the number of the type; type 0 is DEFAULT.
    pub elems: Seq<u32>,
    /// Every number names something that exists, each target has as many arguments as it needs, and flows, targets,
    /// datatypes and bodies fit one another.
    pub ghost well_made: { IsWellMade classes spaces colls elems },
}

impl Drop for Plan {
    fn drop(self) {
        let Plan {
            classes: _classes,
            spaces: _spaces,
            colls: _colls,
            elems: _elems,
        } = self;
    }
}

impl Plan {
    /// The plan with these parts, which must fit one another.
    pub fn new(
        classes: Seq<ClassPlan>,
        spaces: Seq<ClassSpace>,
        colls: Seq<Shape>,
        elems: Seq<u32>,
    ) -> Plan
        requires { IsWellMade classes spaces colls elems }
        ensures classes { result.classes ≡ classes }
        ensures spaces { result.spaces ≡ spaces }
        ensures colls { result.colls ≡ colls }
        ensures elems { result.elems ≡ elems }
    {
        Plan {
            classes,
            spaces,
            colls,
            elems,
        }
    }

    /// The class with this number.
    pub fn class(&self, n: u32) -> &ClassPlan
        requires { n < length self.now.classes }
        ensures class { slice_get self.now.classes n ≡ Some result.now }
        ensures well_made { (s : ClassSpace) → slice_get self.now.spaces n ≡ Some s
            → IsWellClass self.now.classes self.now.spaces self.now.colls (length self.now.elems) s result.now }
    {
        self.classes.get(n as usize)
    }

    /// The space of the class with this number.
    pub fn space(&self, n: u32) -> &ClassSpace
        requires { n < length self.now.classes }
        ensures space { slice_get self.now.spaces n ≡ Some result.now }
        ensures well { IsWellSpace result.now }
    {
        self.spaces.get(n as usize)
    }

    /// A law: each class has a space, which is well made.
    pub fn each_class_has_a_space(&self, n: u32)
        requires { n < length self.now.classes }
        ensures { (s : ClassSpace) × (slice_get self.now.spaces n ≡ Some s) × IsWellSpace s }
    {
        let _space = self.space(n);
    }

    /// The collection with this number.
    pub fn coll(&self, n: u32) -> &Shape
        requires { n < length self.now.colls }
        ensures { slice_get self.now.colls n ≡ Some result.now }
    {
        self.colls.get(n as usize)
    }

    /// How many numbers a tile of this type has.
    pub fn elements(&self, datatype: u32) -> u32
        requires { datatype < length self.now.elems }
        ensures elements { slice_get self.now.elems datatype ≡ Some result }
        ensures within { IsTrue (is_element_count result) }
    {
        *self.elems.get(datatype as usize)
    }

    /// Whether the place's collection exists and has the place's row and column.
    pub fn has_place(&self, p: &Place) -> bool
        ensures { IsTrue result ↔ HasPlace self.now.colls p.now }
    {
        let n = p.coll as usize;
        if n >= self.colls.len() {
            return false;
        }
        let shape = self.colls.get(n);
        shape.has_row(p.i) && shape.has_column(p.j)
    }
}
