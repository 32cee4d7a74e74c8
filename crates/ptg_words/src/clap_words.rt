//! What `clap` finds in the words of a verb, as text.

ghost use Rattle.std.specs.Prelude.{◌≡◌, ◌≢◌, ◌≤◌, ℕ, List, [], true, false, IfOk, Err, drop, length};
ghost use Rattle.std.specs.List.{AllByRecursion};
ghost use Rattle.ptg_words.specs.Words.{IsProper};
ghost use Rattle.clap.specs.Words.{app_of, found_of, rows_of, rule_of, fault_of, is_simple_and_free, matches_of};
ghost use Rattle.ptg_words.specs.Commands as Commands;
ghost use Rattle.ptg_words.specs.Parts.{parts};
ghost use Rattle.ptg_words.specs.Readings.{HasFirstValues, HasWords, are_ids, is_read, texts};

use crate::options::Options;
use crate::order::WordsRefusal;
use clap::error::ErrorKind;
use clap::{Arg, ArgAction, ArgMatches, Command};
use std::alloc::{AllocError, Global};

// The words of a verb, as text: its operands, and the values of its options.
#[derive(Drop)]
pub(crate) struct VerbWords<'a> {
    pub(crate) operands: Vec<&'a str>,
    pub(crate) workers: Option<&'a str>,
    pub(crate) shards: Option<&'a str>,
    pub(crate) preload: bool,
}

// An operand, which must be given.
fn operand<'a>(alloc: Global, id: &'a str) -> Arg<'a>
    ensures rule { rule_of result ≡ Commands.operand_rule id.entry.now }
    ensures local { result.global ≡ false }
{
    Arg::new(alloc, id).required(true).action(ArgAction::Set)
}

// An option with a number.
fn option<'a>(alloc: Global, name: &'a str) -> Arg<'a>
    ensures rule { rule_of result ≡ Commands.option_rule name.entry.now }
    ensures local { result.global ≡ false }
{
    Arg::new(alloc, name).long(name).action(ArgAction::Set)
}

// An option without a value.
fn flag<'a>(alloc: Global, name: &'a str) -> Arg<'a>
    ensures rule { rule_of result ≡ Commands.flag_rule name.entry.now }
    ensures local { result.global ≡ false }
{
    Arg::new(alloc, name).long(name).action(ArgAction::SetTrue)
}

// The command of a verb without operands and options, and without clap's own help.
fn plain<'a>(alloc: Global, name: &'a str) -> Command<'a>
    ensures { app_of result ≡ Commands.command name.entry.now [] }
{
    Command::new(alloc, name).disable_help_flag(true)
}

// Adds the options with a number to a command.
fn with_counts<'a>(alloc: Global, command: Command<'a>) -> Result<Command<'a>, AllocError>
    ensures { IfOk result (λ c.
        app_of c ≡ Commands.with_rules (app_of command.entry) (Commands.option_rules Options.Counts)) }
{
    let command = command.arg(option(alloc, "workers"))?;
    command.arg(option(alloc, "shards"))
}

// Adds these options to a command.
fn with_options<'a>(
    alloc: Global,
    command: Command<'a>,
    options: Options,
) -> Result<Command<'a>, AllocError>
    ensures { IfOk result (λ c. app_of c ≡ Commands.with_rules (app_of command.entry) (Commands.option_rules options)) }
{
    match options {
        Options::NoOptions => Ok(command),
        Options::Counts => with_counts(alloc, command),
        Options::CountsAndPreload => {
            let command = with_counts(alloc, command)?;
            command.arg(flag(alloc, "preload"))
        }
    }
}

// The command of a verb with these operands and options.
fn verb_command<'a>(
    alloc: Global,
    name: &'a str,
    ids: &'a [&'a str],
    options: Options,
) -> Result<Command<'a>, AllocError>
    ensures { IfOk result (λ c. app_of c ≡ Commands.verb_command name.entry.now (texts ids.entry.now) options) }
{
    let mut command = plain(alloc, name);
    for id in ids {
        command = command.arg(operand(alloc, id))?;
    }
    with_options(alloc, command, options)
}

// Parses the words; the first one is the verb.
fn parsed<'a>(command: Command<'a>, words: &'a [&'a str]) -> Result<ArgMatches<'a>, WordsRefusal>
    requires { is_simple_and_free (app_of command) ≡ true }
    ensures passes { IfOk result (λ m. (fault_of (app_of command.entry) (texts words.entry.now) ≡ [])
        × (rows_of (found_of m) ≡ matches_of (app_of command.entry) (texts words.entry.now))) }
    ensures fails { result ≡ Err WordsRefusal.Usage → fault_of (app_of command.entry) (texts words.entry.now) ≢ [] }
{
    match command.try_get_matches_from(words) {
        Ok(matches) => Ok(matches),
        Err(error) => match error.kind() {
            ErrorKind::OutOfMemory => Err(WordsRefusal::OutOfMemory),
            _ => Err(WordsRefusal::Usage),
        },
    }
}

// The values of the operands with these ids, in order.
fn operands_in<'a>(
    alloc: Global,
    matches: &ArgMatches<'a>,
    ids: &[&str],
) -> Result<Vec<&'a str>, WordsRefusal>
    ensures found { IfOk result (λ words. HasFirstValues (found_of matches.now) (texts ids.now) (texts words.items)) }
    ensures usage { result ≡ Err WordsRefusal.Usage → (values : List (List ℕ))
        → HasFirstValues (found_of matches.now) (texts ids.now) values → ⊥ }
{
    let mut words = Vec::new(alloc);
    for id in ids {
        let Some(word) = matches.get_str(id) else {
            return Err(WordsRefusal::Usage);
        };
        words.push(word)?;
    }
    Ok(words)
}

/// Parses the words of a verb with these operands and options. The first word is the verb.
pub(crate) fn verb_words<'a>(
    alloc: Global,
    name: &'a str,
    ids: &'a [&'a str],
    options: Options,
    words: &'a [&'a str],
) -> Result<VerbWords<'a>, WordsRefusal>
    requires proper { AllByRecursion IsProper (drop 1 (texts words.now)) }
    requires ids { are_ids (texts ids.now) ≡ true }
    requires at_most { length ids.now ≤ 4 }
    ensures found { IfOk result (λ r.
        (is_read (length ids.entry.now) (parts options (drop 1 (texts words.entry.now))) ≡ true)
        × HasWords (parts options (drop 1 (texts words.entry.now))) r) }
    ensures usage { result ≡ Err WordsRefusal.Usage
        → is_read (length ids.entry.now) (parts options (drop 1 (texts words.entry.now))) ≡ false }
{
    let matches = parsed(verb_command(alloc, name, ids, options)?, words)?;
    let operands = operands_in(alloc, &matches, ids)?;
    let workers = matches.get_str("workers");
    let shards = matches.get_str("shards");
    let preload = matches.get_flag("preload");
    Ok(VerbWords {
        operands,
        workers,
        shards,
        preload,
    })
}
