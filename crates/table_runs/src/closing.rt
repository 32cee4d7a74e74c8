//! Closes of tables with all their passes.

ghost use Rattle.std.specs.Prelude.{◌≡◌, [], ◌∷◌};
ghost use Rattle.dep_table.specs.Passes.{IsPassOf};
ghost use Rattle.dep_table.specs.Tables.{id_of};
ghost use Rattle.dep_table.specs.Views.{shown};
ghost use Rattle.table_rule.specs.Changes.{first_pass};
ghost use Rattle.table_runs.specs.Watching.{split_as};

use dep_table::{Closed, DepTable, Pass};
use ptg_base::OutOfMemory;
use std::alloc::Global;
use table_rule::all_passes_stay_all;

/// Closes a table with its first pass, its only one.
pub fn close_one(alloc: Global, table: DepTable, pass: Pass) -> Result<Closed, OutOfMemory>
    requires pass { IsPassOf (id_of table) pass }
    requires names { (shown pass).names ≡ first_pass.names }
{
    all_passes_stay_all();
    let mut passes = Vec::new(alloc);
    passes.push(pass)?;
    Ok(table.close(passes))
}

/// Closes a table with its first pass and the two that were split off it, in another order.
pub fn close_three(
    alloc: Global,
    table: DepTable,
    mine: Pass,
    first: Pass,
    second: Pass,
) -> Result<Closed, OutOfMemory>
    requires mine { IsPassOf (id_of table) mine × ((shown mine).names ≡ ([], 2) ∷ []) }
    requires first { IsPassOf (id_of table) first × ((shown first).names ≡ split_as 0) }
    requires second { IsPassOf (id_of table) second × ((shown second).names ≡ split_as 1) }
{
    all_passes_stay_all();
    let mut passes = Vec::new(alloc);
    passes.push(mine)?;
    passes.push(second)?;
    passes.push(first)?;
    Ok(table.close(passes))
}
