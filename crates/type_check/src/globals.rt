//! The globals of a JDF by name, tabulated once for a job.

ghost use Rattle.std.specs.Prelude.{◌≡◌, ◌≤◌, ◌++◌, ◌∷◌, [], ℕ, List, None, IfOk, OnOk, length, position, if◌then◌else◌};
ghost use Rattle.std.specs.List.{list_any};
ghost use Rattle.ptg_base.specs.Limits.{most_elements};
ghost use Rattle.name_table.specs.Names.{has_name, value_named};
ghost use Rattle.type_rules.specs.Contexts.{AreGlobals};
ghost use Rattle.type_rules.specs.Names.{word_is, is_declared, coll_is};
ghost use Rattle.type_check.specs.Globals.{AreDeclared, with_value, job_with};

use coll_data::{Coll, Given};
use jdf_tree::{Jdf, Word};
use name_table::{NameSet, NameTable};
use ptg_base::{OutOfMemory, Text};
use std::alloc::Global;
use type_rules::Globals;

// A JDF with its data, and the set of the names of its globals.
#[derive(Clone, Copy)]
struct Declared<'a> {
    alloc: Global,
    jdf: &'a Jdf,
    given: &'a Given,
    names: &'a NameSet,
}

// The names of the globals of a JDF.
fn declared_names(alloc: Global, globals: &[Word]) -> Result<NameSet, OutOfMemory>
    ensures { IfOk result (λ names. (n : List ℕ) → has_name names n ≡ list_any (word_is n) globals.now) }
{
    let mut names = NameSet::new(alloc);
    for global in globals {
        add_name(alloc, &mut names, &global.text)?;
    }
    Ok(names)
}

// Adds a name, unless the set has it.
#[tactic(auto, using(crate::proofs::GlobalTables::added_name))]
fn add_name(alloc: Global, names: &mut NameSet, name: &Text) -> Result<(), OutOfMemory>
    ensures { OnOk result
        (names.new ≡ (if has_name names.old name.now then names.old else names.old ++ name.now ∷ [])) }
{
    names.add(Text::of(alloc, name.bytes())?)?;
    Ok(())
}

// Adds an integer of the data, unless the table has its name.
#[tactic(auto, using(crate::proofs::GlobalTables::added_value))]
fn add_int(alloc: Global, table: &mut NameTable<i64>, int: &(Text, i64)) -> Result<(), OutOfMemory>
    ensures { OnOk result (table.new ≡ with_value table.old int.now) }
{
    let value = int.1;
    table.add(Text::of(alloc, int.0.bytes())?, value)?;
    Ok(())
}

// The values, by name, of the integers among `ints` that are declared as globals.
fn ints_among(declared: &Declared, ints: &[(Text, i64)]) -> Result<NameTable<i64>, OutOfMemory>
    requires { AreDeclared (job_with declared.now) declared.now.names.now }
    ensures { IfOk result (λ table.
        (n : List ℕ)
        → value_named table n ≡ (if is_declared (job_with declared.now) n then value_named ints.now n else None)) }
{
    let mut table = NameTable::new(declared.alloc);
    for int in ints {
        if declared.names.contains(&int.0) {
            add_int(declared.alloc, &mut table, int)?;
        }
    }
    Ok(table)
}

// Adds a name with its number, unless the table has that name.
#[tactic(auto, using(crate::proofs::GlobalTables::added_value))]
fn add_number(
    alloc: Global,
    table: &mut NameTable<u32>,
    name: &Text,
    number: u32,
) -> Result<(), OutOfMemory>
    ensures { OnOk result (table.new ≡ with_value table.old (name.now, number)) }
{
    table.add(Text::of(alloc, name.bytes())?, number)?;
    Ok(())
}

// The numbers, by name, of the collections among `colls` that are declared as globals.
fn numbers_among(declared: &Declared, colls: &[Coll]) -> Result<NameTable<u32>, OutOfMemory>
    requires declared { AreDeclared (job_with declared.now) declared.now.names.now }
    requires at_most { length colls.now ≤ most_elements }
    ensures { IfOk result (λ table.
        (n : List ℕ)
        → value_named table n
        ≡ (if is_declared (job_with declared.now) n then position (coll_is n) colls.now else None)) }
{
    let mut table = NameTable::new(declared.alloc);
    for i in 0..colls.len() {
        let coll = &colls[i];
        if declared.names.contains(&coll.name) {
            add_number(declared.alloc, &mut table, &coll.name, i as u32)?;
        }
    }
    Ok(table)
}

// The globals by name, from all integers and collections of the data.
fn globals_among(
    declared: &Declared,
    ints: &[(Text, i64)],
    colls: &[Coll],
) -> Result<Globals, OutOfMemory>
    requires declared { AreDeclared (job_with declared.now) declared.now.names.now }
    requires ints { ints.now ≡ declared.now.given.now.ints }
    requires colls { colls.now ≡ declared.now.given.now.colls }
    requires at_most { length colls.now ≤ most_elements }
    ensures { IfOk result (λ globals. AreGlobals (job_with declared.now) globals) }
{
    Ok(Globals {
        ints: ints_among(declared, ints)?,
        colls: numbers_among(declared, colls)?,
    })
}

/// The globals of a JDF by name: the value of each integer, and the number of each collection among the collections of
/// the data. A global that the data lack is in neither table.
pub fn globals_of(alloc: Global, jdf: &Jdf, given: &Given) -> Result<Globals, OutOfMemory>
    ensures { IfOk result (λ globals. AreGlobals (record { jdf = jdf.now; given = given.now }) globals) }
{
    let names = declared_names(alloc, jdf.globals.as_slice())?;
    let declared = Declared {
        alloc,
        jdf,
        given,
        names: &names,
    };
    globals_among(&declared, given.ints(), given.colls())
}
