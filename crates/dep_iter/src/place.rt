//! Values of expressions, and places.

ghost use Rattle.std.specs.Prelude.{◌≡◌, map, pos, slice_index_or};
ghost use Rattle.dep_iter.specs.Arguments as arguments;

use ptg_base::Place;
use term_core::{Expr, eval};

// The value of an expression; one with a fault counts as 0.
pub(crate) fn value_or_zero(env: &[i64], e: &Expr) -> i64
    ensures { result ≡ arguments.value_or_zero env.now e.now }
{
    eval(e, env).unwrap_or(0)
}

// The value of the first of these expressions, or 0 if there is none.
fn first_or_zero(es: &[Expr], env: &[i64]) -> i64
    ensures { result ≡ slice_index_or (map (arguments.value_or_zero env.now) es.now) 0 (pos 0) }
{
    match es.split_first() {
        Some((e, _)) => value_or_zero(env, e),
        None => 0,
    }
}

/// The place in a collection that indices name under these locals. An index with a fault counts as 0; a well task has
/// none.
pub fn place_of(coll: u32, indices: &[Expr], env: &[i64]) -> Place
    ensures { result ≡ arguments.place_of coll indices.now env.now }
{
    let Some((row, columns)) = indices.split_first() else {
        return Place { coll, i: 0, j: 0 };
    };
    Place {
        coll,
        i: value_or_zero(env, row),
        j: first_or_zero(columns, env),
    }
}
