//! The command that words form: the verb, its operands and its numbers.

ghost use Rattle.std.specs.Prelude.{◌≡◌, ◌≤◌, ◌∷◌, IfOk, MatchResult, Err, Ok, drop, length};
ghost use Rattle.std.specs.List.{All};
ghost use Rattle.ptg_words.specs.Words as Words;
ghost use Rattle.ptg_words.specs.Words.{IsProper, IsUsage, Orders};
ghost use Rattle.ptg_words.specs.Readings.{Forms, HasBadOperand, texts};

use crate::order::{Order, WordsRefusal};
use crate::verb::{ReadVerb, file, number, read_verb, small_number};
use crate::verbs::{Verb, verb_of};
use ptg_base::{MOST_RANKS, MOST_ROWS, OutOfMemory, Text};
use std::alloc::Global;

/// Parses the command line, without the program's name: `run JDF DATA [--workers N] [--shards K] [--preload]`, `show
/// JDF`, `check JDF DATA`, `demo N`, `trace JDF DATA [--workers N] [--shards K]`, `replay JDF DATA TRACE`, `certify JDF
/// DATA` or `ranks JDF DATA R SEED`, with options anywhere after the verb. Unless memory runs out, it returns `Usage`
/// if and only if one of the seven rules is broken.
pub fn words(alloc: Global, list: &[Text]) -> Result<Order, WordsRefusal>
    ensures found { IfOk result (λ order. Orders list.now order) }
    ensures usage { result ≡ Err WordsRefusal.Usage → IsUsage list.now }
{
    let words = texts_of(alloc, list)?;
    command(alloc, words.as_slice())
}

// The words as text. `Usage` if one is not proper.
fn texts_of<'a>(alloc: Global, list: &'a [Text]) -> Result<Vec<&'a str>, WordsRefusal>
    ensures found { IfOk result (λ words. (texts words.items ≡ list.now) × All IsProper list.now) }
    ensures usage { result ≡ Err WordsRefusal.Usage → IsUsage list.now }
{
    let mut words = Vec::new(alloc);
    for word in list {
        words.push(proper(word)?)?;
    }
    Ok(words)
}

// The word as text. `Usage` if it is not UTF-8, or is empty, `-` or `--`.
fn proper(word: &Text) -> Result<&str, WordsRefusal>
    ensures { MatchResult result (λ text. (text.now ≡ word.now) × IsProper word.now) (λ e.
        (e ≡ WordsRefusal.Usage) × (IsProper word.now → ⊥)) }
{
    match std::str::from_utf8(word.bytes()) {
        Ok(text) if text != "" && text != "-" && text != "--" => Ok(text),
        _ => Err(WordsRefusal::Usage),
    }
}

// The command that proper words form.
fn command(alloc: Global, words: &[&str]) -> Result<Order, WordsRefusal>
    requires { All IsProper (texts words.now) }
    ensures found { IfOk result (λ order. Orders (texts words.now) order) }
    ensures usage { result ≡ Err WordsRefusal.Usage → IsUsage (texts words.now) }
{
    let [name, ..] = words else {
        return Err(WordsRefusal::Usage);
    };
    let Some(verb) = verb_of(name) else {
        return Err(WordsRefusal::Usage);
    };
    let read = read_verb(alloc, name, verb.operand_ids(), verb.options(), words)?;
    formed(alloc, verb, &read)
}

// The command of a verb, from the operands and options that were read after it.
fn formed(alloc: Global, verb: Verb, read: &ReadVerb) -> Result<Order, WordsRefusal>
    requires { length read.now.operands.items ≡ Words.operand_count verb }
    ensures found { IfOk result (Forms verb read.now) }
    ensures usage { result ≡ Err WordsRefusal.Usage → HasBadOperand verb read.now }
{
    match verb {
        Verb::Run => run(alloc, read),
        Verb::Show => show(alloc, read),
        Verb::Check => check(alloc, read),
        Verb::Demo => demo(read),
        Verb::Trace => trace(alloc, read),
        Verb::Replay => replay(alloc, read),
        Verb::Certify => certify(alloc, read),
        Verb::Ranks => ranks(alloc, read),
    }
}

// The command of `run JDF DATA` with its options.
fn run(alloc: Global, read: &ReadVerb) -> Result<Order, WordsRefusal>
    requires { length read.now.operands.items ≡ 2 }
    ensures found { IfOk result (Forms Verb.Run read.now) }
    ensures usage { result ≡ Err WordsRefusal.Usage → HasBadOperand Verb.Run read.now }
{
    let (jdf, data_name) = job_files(alloc, read.operands.as_slice())?;
    Ok(Order::Run(jdf, data_name, read.workers, read.shards, read.preload))
}

// The command of `show JDF`.
fn show(alloc: Global, read: &ReadVerb) -> Result<Order, WordsRefusal>
    requires { length read.now.operands.items ≡ 1 }
    ensures found { IfOk result (Forms Verb.Show read.now) }
    ensures usage { result ≡ Err WordsRefusal.Usage → HasBadOperand Verb.Show read.now }
{
    let operands = read.operands.as_slice();
    Ok(Order::Show(file(alloc, operands[0])?))
}

// The command of `check JDF DATA`.
fn check(alloc: Global, read: &ReadVerb) -> Result<Order, WordsRefusal>
    requires { length read.now.operands.items ≡ 2 }
    ensures found { IfOk result (Forms Verb.Check read.now) }
    ensures usage { result ≡ Err WordsRefusal.Usage → HasBadOperand Verb.Check read.now }
{
    let (jdf, data_name) = job_files(alloc, read.operands.as_slice())?;
    Ok(Order::Check(jdf, data_name))
}

// The command of `demo N`.
fn demo(read: &ReadVerb) -> Result<Order, WordsRefusal>
    requires { length read.now.operands.items ≡ 1 }
    ensures found { IfOk result (Forms Verb.Demo read.now) }
    ensures usage { result ≡ Err WordsRefusal.Usage → HasBadOperand Verb.Demo read.now }
{
    let operands = read.operands.as_slice();
    match small_number(operands[0], MOST_ROWS) {
        Some(rows) => Ok(Order::Demo(rows)),
        None => Err(WordsRefusal::Usage),
    }
}

// The command of `trace JDF DATA` with its options.
fn trace(alloc: Global, read: &ReadVerb) -> Result<Order, WordsRefusal>
    requires { length read.now.operands.items ≡ 2 }
    ensures found { IfOk result (Forms Verb.Trace read.now) }
    ensures usage { result ≡ Err WordsRefusal.Usage → HasBadOperand Verb.Trace read.now }
{
    let (jdf, data_name) = job_files(alloc, read.operands.as_slice())?;
    Ok(Order::Trace(jdf, data_name, read.workers, read.shards))
}

// The command of `replay JDF DATA TRACE`.
fn replay(alloc: Global, read: &ReadVerb) -> Result<Order, WordsRefusal>
    requires { length read.now.operands.items ≡ 3 }
    ensures found { IfOk result (Forms Verb.Replay read.now) }
    ensures usage { result ≡ Err WordsRefusal.Usage → HasBadOperand Verb.Replay read.now }
{
    let operands = read.operands.as_slice();
    let (jdf, data_name) = job_files(alloc, operands)?;
    Ok(Order::Replay(jdf, data_name, file(alloc, operands[2])?))
}

// The command of `certify JDF DATA`.
fn certify(alloc: Global, read: &ReadVerb) -> Result<Order, WordsRefusal>
    requires { length read.now.operands.items ≡ 2 }
    ensures found { IfOk result (Forms Verb.Certify read.now) }
    ensures usage { result ≡ Err WordsRefusal.Usage → HasBadOperand Verb.Certify read.now }
{
    let (jdf, data_name) = job_files(alloc, read.operands.as_slice())?;
    Ok(Order::Certify(jdf, data_name))
}

// The command of `ranks JDF DATA R SEED`, with 1 to 64 ranks and a seed of 64 bits.
fn ranks(alloc: Global, read: &ReadVerb) -> Result<Order, WordsRefusal>
    requires { length read.now.operands.items ≡ 4 }
    ensures found { IfOk result (Forms Verb.Ranks read.now) }
    ensures usage { result ≡ Err WordsRefusal.Usage → HasBadOperand Verb.Ranks read.now }
{
    let operands = read.operands.as_slice();
    let Some(ranks) = small_number(operands[2], MOST_RANKS) else {
        return Err(WordsRefusal::Usage);
    };
    let Some(seed) = number(operands[3], 0, u64::MAX) else {
        return Err(WordsRefusal::Usage);
    };
    let (jdf, data_name) = job_files(alloc, operands)?;
    Ok(Order::Ranks(jdf, data_name, ranks, seed))
}

// The names of a job's JDF file and data file, which are the first two operands.
fn job_files(alloc: Global, operands: &[&str]) -> Result<(Text, Text), OutOfMemory>
    requires { 2 ≤ length operands.now }
    ensures { IfOk result (λ (jdf, data_file). jdf ∷ data_file ∷ drop 2 (texts operands.now) ≡ texts operands.now) }
{
    let jdf = file(alloc, operands[0])?;
    Ok((jdf, file(alloc, operands[1])?))
}
