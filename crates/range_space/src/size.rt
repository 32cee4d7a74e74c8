//! Counts the tasks of all classes.

ghost use Rattle.std.specs.Prelude.{◌≡◌, ◌+◌, ◌<◌, ◌≤◌, [], ◌∷◌, length, All, OnOk, IfOk, IfErr, IsOk};
ghost use Rattle.std.specs.List.{AllByRecursion};
ghost use Rattle.ptg_base.specs.Limits.{most_classes, most_locals, most_prefixes, most_tasks};
ghost use Rattle.range_space.specs.Values.{values};
ghost use Rattle.range_space.specs.Sound.{prefix_total, IsSound};
ghost use Rattle.range_space.specs.Walk.{Prefix, Task, walk, walk_among, walk_all, IsUnstopped, IsFirstFault, IsWalked, task_total};

use crate::fault::SpaceFault;
use crate::numbers::Numbers;
use crate::steps::Steps;
use crate::walk::def_steps;
use ptg_base::{MOST_LOCALS, MOST_TASKS};
use term_core::{ClassSpace, Def};

// The most prefixes that all classes together may have.
const MOST_PREFIXES: u64 = 16_000_000;

// How many tasks and prefixes a walk has visited.
#[derive(Drop)]
struct Counts {
    tasks: u64,
    prefixes: u64,
    ghost tasks_at_most: { tasks ≤ most_tasks },
    ghost prefixes_at_most: { prefixes ≤ most_prefixes },
}

// Counts a task of this class, or refuses the first one that is too many.
fn count_task(class: u32, counts: &mut Counts) -> Result<(), SpaceFault>
    ensures ok { OnOk result
        (IsWalked counts.old.tasks counts.old.prefixes counts.new.tasks counts.new.prefixes (Task class ∷ [])) }
    ensures fault { IfErr result (IsFirstFault counts.old.tasks counts.old.prefixes (Task class ∷ [])) }
{
    if counts.tasks == MOST_TASKS {
        return Err(SpaceFault::TooManyTasks(class));
    }
    counts.tasks += 1;
    Ok(())
}

// Counts a prefix of this class, or refuses the first one that is too many.
fn count_prefix(class: u32, counts: &mut Counts) -> Result<(), SpaceFault>
    ensures ok { OnOk result
        (IsWalked counts.old.tasks counts.old.prefixes counts.new.tasks counts.new.prefixes (Prefix class ∷ [])) }
    ensures fault { IfErr result (IsFirstFault counts.old.tasks counts.old.prefixes (Prefix class ∷ [])) }
{
    if counts.prefixes == MOST_PREFIXES {
        return Err(SpaceFault::TooManyTasks(class));
    }
    counts.prefixes += 1;
    Ok(())
}

// Counts a prefix and a task of this class for each value of its last definition, or refuses the first one that is too
// many.
fn count_last(class: u32, steps: &Steps, counts: &mut Counts) -> Result<(), SpaceFault>
    ensures ok { OnOk result
        (IsWalked counts.old.tasks counts.old.prefixes counts.new.tasks counts.new.prefixes
        (walk_among class [] [] (values steps.now.lo steps.now.hi steps.now.step))) }
    ensures fault { IfErr result
        (IsFirstFault counts.old.tasks counts.old.prefixes
        (walk_among class [] [] (values steps.now.lo steps.now.hi steps.now.step))) }
{
    let count = steps.count();
    let room = (MOST_TASKS - counts.tasks).min(MOST_PREFIXES - counts.prefixes);
    if count > u128::from(room) {
        return Err(SpaceFault::TooManyTasks(class));
    }
    counts.tasks += count as u64;
    counts.prefixes += count as u64;
    Ok(())
}

// Counts what the walk visits from these outer values on.
#[cycle(counting)]
fn count_from(
    class: u32,
    defs: &[Def],
    outer: &mut Numbers<MOST_LOCALS>,
    counts: &mut Counts,
) -> Result<(), SpaceFault>
    requires { length outer.old + length defs.now ≤ most_locals }
    ensures ok { OnOk result
        (IsWalked counts.old.tasks counts.old.prefixes counts.new.tasks counts.new.prefixes
        (walk class defs.now outer.old)) }
    ensures fault { IfErr result (IsFirstFault counts.old.tasks counts.old.prefixes (walk class defs.now outer.old)) }
    ensures same { OnOk result (outer.new ≡ outer.old) }
{
    let Some((def, inner)) = defs.split_first() else {
        return count_task(class, counts);
    };
    match def_steps(def, outer.as_slice()) {
        Ok(steps) if inner.is_empty() => count_last(class, &steps, counts),
        Ok(steps) => count_among(class, &steps, inner, outer, counts),
        Err(_) => Err(SpaceFault::BadExpr(class, outer.copy())),
    }
}

// Counts what the walk visits from these outer values on, value by value of the next definition.
#[cycle(counting)]
fn count_among(
    class: u32,
    steps: &Steps,
    inner: &[Def],
    outer: &mut Numbers<MOST_LOCALS>,
    counts: &mut Counts,
) -> Result<(), SpaceFault>
    requires { length outer.old + length inner.now < most_locals }
    ensures ok { OnOk result
        (IsWalked counts.old.tasks counts.old.prefixes counts.new.tasks counts.new.prefixes
        (walk_among class inner.now outer.old (values steps.now.lo steps.now.hi steps.now.step))) }
    ensures fault { IfErr result
        (IsFirstFault counts.old.tasks counts.old.prefixes
        (walk_among class inner.now outer.old (values steps.now.lo steps.now.hi steps.now.step))) }
    ensures same { OnOk result (outer.new ≡ outer.old) }
{
    for v in steps.values() {
        count_prefix(class, counts)?;
        outer.push(v);
        count_from(class, inner, outer, counts)?;
        let _ = outer.pop();
    }
    Ok(())
}

// Counts what the walk through these classes visits; the first one has the number `class`.
fn count_all(class: u32, spaces: &[ClassSpace], counts: &mut Counts) -> Result<(), SpaceFault>
    requires classes { class + length spaces.now ≤ most_classes }
    requires defs_at_most { All (λ s. length s.defs ≤ most_locals) spaces.now }
    ensures ok { OnOk result
        (IsWalked counts.old.tasks counts.old.prefixes counts.new.tasks counts.new.prefixes
        (walk_all class spaces.now)) }
    ensures fault { IfErr result (IsFirstFault counts.old.tasks counts.old.prefixes (walk_all class spaces.now)) }
{
    let Some((space, others)) = spaces.split_first() else {
        return Ok(());
    };
    let mut outer = Numbers::new();
    count_from(class, space.defs.as_slice(), &mut outer, counts)?;
    count_all(class + 1, others, counts)
}

/// How many tasks the classes have, or the first fault in walk order. Values of a last definition are counted by
/// arithmetic, not visited.
pub fn space_size(spaces: &[ClassSpace]) -> Result<u64, SpaceFault>
    requires classes { length spaces.now ≤ most_classes }
    requires defs_at_most { All (λ s. length s.defs ≤ most_locals) spaces.now }
    ensures unstopped { IfOk result (λ _. IsUnstopped 0 0 (walk_all 0 spaces.now)) }
    ensures tasks { IfOk result (λ n. (n ≡ task_total spaces.now) × (n ≤ most_tasks)) }
    ensures prefixes { IfOk result (λ _. prefix_total spaces.now ≤ most_prefixes) }
    ensures sound { IfOk result (λ _. AllByRecursion IsSound spaces.now) }
    ensures fault { IfErr result (IsFirstFault 0 0 (walk_all 0 spaces.now)) }
    ensures no_fault { AllByRecursion IsSound spaces.now → task_total spaces.now ≤ most_tasks
        → prefix_total spaces.now ≤ most_prefixes → IsOk result }
{
    let mut counts = Counts {
        tasks: 0,
        prefixes: 0,
    };
    count_all(0, spaces, &mut counts)?;
    Ok(counts.tasks)
}
