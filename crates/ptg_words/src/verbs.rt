//! The verbs of the command line.

ghost use Rattle.std.specs.Prelude.{◌≡◌, length, true};
ghost use Rattle.ptg_words.specs.Words as Words;
ghost use Rattle.ptg_words.specs.Readings.{are_ids, texts};

use crate::options::Options;

/// What the first word of a command names.
#[derive(Clone, Copy)]
pub enum Verb {
    /// Runs a job.
    Run,
    /// Prints the canonical spelling of a JDF.
    Show,
    /// Checks the consistency of a job.
    Check,
    /// Runs the made job.
    Demo,
    /// Runs a job, and prints the order in which its tasks ran.
    Trace,
    /// Runs a job in the order of a trace.
    Replay,
    /// Runs a job, and prints a heaviest chain of its tasks or a cycle.
    Certify,
    /// Runs a job on ranks that send messages to each other.
    Ranks,
}

/// The verb with this name.
pub(crate) fn verb_of(word: &str) -> Option<Verb>
    ensures { result ≡ Words.verb_of word.now }
{
    match word {
        "run" => Some(Verb::Run),
        "show" => Some(Verb::Show),
        "check" => Some(Verb::Check),
        "demo" => Some(Verb::Demo),
        "trace" => Some(Verb::Trace),
        "replay" => Some(Verb::Replay),
        "certify" => Some(Verb::Certify),
        "ranks" => Some(Verb::Ranks),
        _ => None,
    }
}

impl Verb {
    /// The ids by which `clap` knows its operands, in order.
    pub(crate) fn operand_ids(self) -> &'static [&'static str]
        ensures ids { are_ids (texts result.now) ≡ true }
        ensures count { length result.now ≡ Words.operand_count self }
    {
        match self {
            Verb::Show => &["jdf"],
            Verb::Demo => &["rows"],
            Verb::Run | Verb::Check | Verb::Trace | Verb::Certify => &["jdf", "data"],
            Verb::Replay => &["jdf", "data", "trace"],
            Verb::Ranks => &["jdf", "data", "ranks", "seed"],
        }
    }

    /// Its options.
    pub(crate) fn options(self) -> Options
        ensures { result ≡ Words.options_of self }
    {
        match self {
            Verb::Run => Options::CountsAndPreload,
            Verb::Trace => Options::Counts,
            _ => Options::NoOptions,
        }
    }
}
