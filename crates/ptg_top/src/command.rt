//! What is done for a command: which job it is on, and what is done with it.

ghost use Rattle.std.specs.Prelude.{◌≡◌};
ghost use Rattle.ptg_top.specs.Commands.{command_of};
ghost use Rattle.ptg_top.specs.Tables.{usual_settings};

use ptg_base::{Text, USUAL_SHARDS, USUAL_WORKERS};
use ptg_words::Order;
use run_pool::Settings;

/// What is done for a command.
#[derive(Drop)]
pub enum Command {
    /// The canonical spelling of this JDF file is printed.
    Show(Text),
    /// This job is checked and, if it is consistent, this is done with it.
    Job(Source, Action),
}

/// Where the two texts of a job come from.
#[derive(Drop)]
pub enum Source {
    /// They are the JDF file and the data file with these names.
    Files(Text, Text),
    /// They are made, for this many rows of tiles.
    Made(u32),
}

/// What is done with a consistent job.
#[derive(Drop)]
pub enum Action {
    /// Its tasks, edges and write-backs are counted.
    Count,
    /// A table with these settings runs it, for its answer.
    Run(Settings),
    /// A table with these settings runs it, for the summary of a made job of this many rows.
    Sum(u32, Settings),
    /// A table with these settings runs it, for the order in which its tasks run.
    Trace(Settings),
    /// It is run in the order of the trace file with this name.
    Replay(Text),
    /// A table with these settings runs it, for a heaviest chain of its tasks or a cycle.
    Certify(Settings),
    /// Ranks run it, which send one another messages.
    Rank(RankSettings),
}

/// The settings of a run by ranks.
#[derive(Clone, Copy, Debug, PartialEq, Eq)]
pub struct RankSettings {
    /// The number of ranks.
    pub ranks: u32,
    /// The seed that chooses the order in which tasks run and messages are delivered.
    pub seed: u64,
}

impl Command {
    /// What is done for the command that the arguments form.
    pub fn of(order: Order) -> Command
        ensures { result ≡ command_of order }
    {
        match order {
            Order::Run(jdf, data_name, workers, shards, preload) => {
                let settings = Settings {
                    workers,
                    shards,
                    preload,
                };
                Command::Job(Source::Files(jdf, data_name), Action::Run(settings))
            }
            Order::Show(jdf) => Command::Show(jdf),
            Order::Check(jdf, data_name) => {
                Command::Job(Source::Files(jdf, data_name), Action::Count)
            }
            Order::Demo(rows) => {
                Command::Job(Source::Made(rows), Action::Sum(rows, usual_settings()))
            }
            Order::Trace(jdf, data_name, workers, shards) => {
                let settings = Settings {
                    workers,
                    shards,
                    preload: false,
                };
                Command::Job(Source::Files(jdf, data_name), Action::Trace(settings))
            }
            Order::Replay(jdf, data_name, trace) => {
                Command::Job(Source::Files(jdf, data_name), Action::Replay(trace))
            }
            Order::Certify(jdf, data_name) => {
                let action = Action::Certify(usual_settings());
                Command::Job(Source::Files(jdf, data_name), action)
            }
            Order::Ranks(jdf, data_name, ranks, seed) => {
                let action = Action::Rank(RankSettings { ranks, seed });
                Command::Job(Source::Files(jdf, data_name), action)
            }
        }
    }
}

// The settings of a command that has no options for them.
fn usual_settings() -> Settings
    ensures { result ≡ usual_settings }
{
    Settings {
        workers: USUAL_WORKERS,
        shards: USUAL_SHARDS,
        preload: false,
    }
}
