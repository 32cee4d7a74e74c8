//! The words of a verb, with the numbers of its options.

ghost use Rattle.std.specs.Prelude.{◌≡◌, ◌⊎◌, ◌≤◌, IfOk, MatchOption, Err, true, false, drop, length};
ghost use Rattle.std.specs.List.{AllByRecursion};
ghost use Rattle.ptg_base.specs.Decimal.{decimal};
ghost use Rattle.ptg_words.specs.Parts.{parts};
ghost use Rattle.ptg_words.specs.Words as Words;
ghost use Rattle.ptg_words.specs.Words.{has_bad_count, has_no_number, is_number, IsProper};
ghost use Rattle.ptg_words.specs.Readings.{IsReadOf, are_ids, is_read, texts, texts_in};

use crate::clap_words::verb_words;
use crate::options::Options;
use crate::order::WordsRefusal;
use ptg_base::{
    MOST_SHARDS, MOST_WORKERS, OutOfMemory, Text, USUAL_SHARDS, USUAL_WORKERS, decimal,
};
use std::alloc::Global;

// How many digits a number may have, including leading zeros.
const MOST_DIGITS: usize = 20;

// The words of a verb: its operands as text, its numbers of workers and of shards, and whether all memory is reserved
// before the run.
#[derive(Drop)]
pub(crate) struct ReadVerb<'a> {
    pub(crate) operands: Vec<&'a str>,
    pub(crate) workers: u32,
    pub(crate) shards: u32,
    pub(crate) preload: bool,
}

/// Reads the words of a verb with these operands and options: 1 to 64 workers, 4 by default, and 1 to 256 shards, 16 by
/// default.
pub(crate) fn read_verb<'a>(
    alloc: Global,
    name: &'a str,
    ids: &'a [&'a str],
    options: Options,
    words: &'a [&'a str],
) -> Result<ReadVerb<'a>, WordsRefusal>
    requires proper { AllByRecursion IsProper (drop 1 (texts words.now)) }
    requires ids { are_ids (texts ids.now) ≡ true }
    requires at_most { length ids.now ≤ 4 }
    ensures found { IfOk result (IsReadOf (length ids.entry.now) (parts options (drop 1 (texts words.entry.now)))) }
    ensures usage { result ≡ Err WordsRefusal.Usage
        → (is_read (length ids.entry.now) (parts options (drop 1 (texts words.entry.now))) ≡ false)
        ⊎ (has_bad_count (parts options (drop 1 (texts words.entry.now))) ≡ true) }
{
    let found = verb_words(alloc, name, ids, options, words)?;
    let Some(workers) = count(found.workers, MOST_WORKERS, USUAL_WORKERS) else {
        return Err(WordsRefusal::Usage);
    };
    let Some(shards) = count(found.shards, MOST_SHARDS, USUAL_SHARDS) else {
        return Err(WordsRefusal::Usage);
    };
    Ok(ReadVerb {
        operands: found.operands,
        workers,
        shards,
        preload: found.preload,
    })
}

// The number that the text spells, or `default` if there is no text. None if the text is no number from 1 to `most`.
fn count(text: Option<&str>, most: u32, default: u32) -> Option<u32>
    ensures { MatchOption result (has_no_number 1 most (texts_in text.entry) ≡ true)
        (λ n. (has_no_number 1 most (texts_in text.entry) ≡ false)
        × (n ≡ Words.number_or default (texts_in text.entry))) }
{
    match text {
        None => Some(default),
        Some(text) => small_number(text, most),
    }
}

/// The number that 1 to 20 decimal digits spell, if it is from 1 to `most`.
pub(crate) fn small_number(text: &str, most: u32) -> Option<u32>
    ensures { MatchOption result (is_number 1 most text.now ≡ false) (λ n.
        (is_number 1 most text.now ≡ true) × (n ≡ decimal text.now)) }
{
    match number(text, 1, most as u64) {
        Some(value) => Some(value as u32),
        None => None,
    }
}

/// The number that 1 to 20 decimal digits spell, if it is from `least` to `most`. Leading zeros are allowed.
pub(crate) fn number(text: &str, least: u64, most: u64) -> Option<u64>
    ensures { MatchOption result (is_number least most text.now ≡ false) (λ n.
        (is_number least most text.now ≡ true) × (n ≡ decimal text.now)) }
{
    if text.len() > MOST_DIGITS {
        return None;
    }
    match decimal(text.as_bytes(), most) {
        Some(value) if value >= least => Some(value),
        _ => None,
    }
}

/// The name of a file, copied.
pub(crate) fn file(alloc: Global, word: &str) -> Result<Text, OutOfMemory>
    ensures { IfOk result (λ text. text ≡ word.now) }
{
    Text::of(alloc, word.as_bytes())
}
