//! What a name in an expression means.

ghost use Rattle.std.specs.Prelude.{◌≡◌, is_some};
ghost use Rattle.ptg_base.specs.Returns.{Returns};
ghost use Rattle.name_table.specs.Names.{value_named};
ghost use Rattle.expr_names.specs.Meanings.{outer_meaning, value_of};

use jdf_lex::{JdfCode, JdfRefusal, fault_at};
use jdf_tree::Word;
use name_table::NameTable;
use ptg_base::Text;
use term_core::Expr;

/// What a name in an expression means; `Nothing` if no such name is known there.
#[derive(Clone, Copy, Debug, PartialEq, Eq)]
pub enum Meaning {
    /// A variable of the body, by its slot.
    Variable(u16),
    /// The variable of a loop, by its slot.
    LoopVariable(u16),
    /// A definition of the class, by its number.
    Local(u16),
    /// A global that is an integer, by its value.
    Integer(i64),
    /// A global that is a collection.
    Collection,
    Nothing,
}

/// What a name means that is no variable. `local` is the number of its definition, if it has one, and the globals are
/// in the two tables.
pub fn outer_meaning(
    local: Option<u16>,
    ints: &NameTable<i64>,
    colls: &NameTable<u32>,
    name: &Text,
) -> Meaning
    ensures { result ≡ outer_meaning local (value_named ints.now name.now) (is_some (value_named colls.now name.now)) }
{
    if let Some(number) = local {
        return Meaning::Local(number);
    }
    if let Some(value) = ints.get(name) {
        return Meaning::Integer(*value);
    }
    if colls.get(name).copied().is_some() {
        Meaning::Collection
    } else {
        Meaning::Nothing
    }
}

/// Returns the term of a name that means a number, else a fault at the name: WrongKind for a collection, UnknownName
/// for nothing.
pub fn value_of(word: &Word, meaning: Meaning) -> Result<Expr, JdfRefusal>
    ensures { Returns (λ e. e) result (value_of word.now meaning) }
{
    match meaning {
        Meaning::Variable(slot) | Meaning::LoopVariable(slot) => Ok(Expr::local(slot)),
        Meaning::Local(number) => Ok(Expr::local(number)),
        Meaning::Integer(value) => Ok(Expr::num(value)),
        Meaning::Collection => Err(fault_at(word.spot, JdfCode::WrongKind)),
        Meaning::Nothing => Err(fault_at(word.spot, JdfCode::UnknownName)),
    }
}
