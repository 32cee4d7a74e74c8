//! Laws of the meaning of a command, and of the bytes of a preload.

ghost use Rattle.top_laws.specs.Meanings.{OneJob, OneMeaning, OneOutput, SomeMeaning, SomeOutput};
ghost use Rattle.top_laws.specs.Replays.{TracesReplay};
ghost use Rattle.top_laws.specs.Settings.{SeedsChangeNothing, ShardsChangeNothing, WorkersChangeNothing};
ghost use Rattle.std.specs.Prelude.{◌≡◌, ◌+◌, ◌*◌, ℕ, [], ◌∷◌, length};
ghost use Rattle.ptg_base.specs.Limits.{most_flows};
ghost use Rattle.plan_core.specs.declared.plan.Plan.{Plan as PlanValue};
ghost use Rattle.dep_iter.specs.Consistent.{all_data, all_writes};
ghost use Rattle.run_pool.specs.Bytes as bytes;

use word_laws::words_form_one_command;

/// A law: arguments that ask for no trace, with what their files hold, denote at most one verdict. So they determine
/// what is printed.
pub fn one_meaning()
    ensures meaning { OneMeaning }
    ensures output { OneOutput }
{}

/// A law: two verdicts that the same arguments and files denote are the same, or texts of whole orders of one job.
pub fn one_job()
    ensures { OneJob }
{}

/// A law: any arguments and files denote a verdict, so no input is without a meaning, and something is printed for it.
pub fn some_meaning()
    ensures meaning { SomeMeaning }
    ensures output { SomeOutput }
{
    words_form_one_command();
}

/// A law: the number of shards changes nothing in what a `run` denotes, and without a preload the number of workers
/// changes nothing either. The seed changes nothing in what `ranks` denotes.
pub fn settings_change_nothing_else()
    ensures shards { ShardsChangeNothing }
    ensures workers { WorkersChangeNothing }
    ensures seeds { SeedsChangeNothing }
{}

/// A law: `replay` accepts what `trace` prints, if that is at most 16 MiB and the JDF and the data are the same. It
/// then denotes what `run` denotes without a preload, whatever the numbers of workers and shards.
pub fn traces_replay()
    ensures { TracesReplay }
{}

/// A law: if DEFAULT is the only type, all tiles have the same number of numbers, and the bytes of a preload are a
/// product.
pub fn with_one_type_the_preload_is_a_product()
    ensures { (P : PlanValue) (elems workers : ℕ) → P.elems ≡ elems ∷ []
        → bytes.preload_bytes P workers
        ≡ 8 * elems * (length (all_data P) + length (all_writes P) + most_flows * workers) }
{}
