//! The locals on which a walk over a task's dependences evaluates.

ghost use Rattle.std.specs.Prelude.{◌≡◌};
ghost use Rattle.dep_iter.specs.WalkLocals.{walk_locals};

use ptg_base::MOST_LOCALS;
use range_space::Numbers;

// The locals of a task, owned by the walk or borrowed.
#[derive(Drop)]
pub enum Locals<'a> {
    Own(Numbers<MOST_LOCALS>),
    Lent(&'a [i64]),
}

impl Locals<'_> {
    // The locals in their order.
    pub(crate) fn as_slice(&self) -> &[i64]
        ensures { result.now ≡ walk_locals self.now }
    {
        match self {
            Locals::Own(locals) => locals.as_slice(),
            Locals::Lent(locals) => locals,
        }
    }
}
