//! Looks up the names of integers and collections.

ghost use Rattle.std.specs.Prelude.{◌≡◌, ◌<◌, length, IfSome};
ghost use Rattle.data_read.specs.Draft.{coll_index, is_new};
ghost use Rattle.data_read.specs.Growing.{draft_of, meaning, IsKeyed};

use crate::growing::{Growing, Known};
use ptg_base::Text;

// The meaning of a name, if it has one.
fn known(all: &Growing, name: &Text) -> Option<Known>
    requires { IsKeyed all.now }
    ensures { result ≡ meaning all.now.ints all.now.colls.items name.now }
{
    all.names.get(name).copied()
}

// Whether neither an integer nor a collection has this name.
pub(crate) fn is_new(all: &Growing, name: &Text) -> bool
    requires { IsKeyed all.now }
    ensures { result ≡ is_new (draft_of all.now) name.now }
{
    known(all, name).is_none()
}

// The number of the collection with this name.
pub(crate) fn coll_index(all: &Growing, name: &Text) -> Option<usize>
    requires { IsKeyed all.now }
    ensures index { result ≡ coll_index name.now all.now.colls.items }
    ensures within { IfSome result (λ at. at < length all.now.colls.items) }
{
    match known(all, name) {
        Some(Known::Collection(at)) => Some(at),
        Some(Known::Integer) => None,
        None => None,
    }
}
