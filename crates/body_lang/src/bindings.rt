//! The bindings of a body's names between two of its tokens.

ghost use Rattle.std.specs.Prelude.{◌≡◌, ◌<◌, take, OnOk, IfOk, drop};
ghost use Rattle.std.specs.List.{list_any};
ghost use Rattle.std.specs.Str.{bytes_eq};
ghost use Rattle.ptg_base.specs.Limits.{most_variables};
ghost use Rattle.body_lang.specs.Environment.{environment_of};
ghost use Rattle.ptg_base.specs.Returns.{Returns};
ghost use Rattle.body_lang.specs.Bindings.{bindings_of, no_bindings, next_slot, with_variable, require_room, require_fresh, word_number};

use crate::scope::{Context, Scope};
use crate::variable::Variable;
use jdf_lex::{JdfCode, JdfRefusal, fault_at};
use jdf_tree::Word;
use name_table::NameSet;
use ptg_base::{MOST_VARIABLES, OutOfMemory, Text};
use std::alloc::Global;

/// What the names of a body are bound to between two of its tokens.
pub struct BindingTable {
    /// The variables that are seen here, in the order of their declarations.
    pub seen: Vec<Variable>,
    /// How many of these belong to blocks around the innermost one.
    pub outside: usize,
    /// How many variables the body has declared so far.
    pub declared: u16,
    /// The trap words so far, in the order of their first use.
    pub words: NameSet,
}

impl Drop for BindingTable {
    fn drop(self) {
        let BindingTable {
            seen: _seen,
            outside: _outside,
            declared: _declared,
            words: _words,
        } = self;
    }
}

impl BindingTable {
    /// The bindings before a body: none.
    pub(crate) fn new(alloc: Global) -> BindingTable
        ensures { bindings_of result ≡ no_bindings }
    {
        BindingTable {
            seen: Vec::new(alloc),
            outside: 0,
            declared: 0,
            words: NameSet::new(alloc),
        }
    }

    // Keeps the trap words alone.
    pub(crate) fn into_words(self) -> NameSet
        ensures { result ≡ self.words }
    {
        let BindingTable {
            seen: _seen,
            outside: _outside,
            declared: _declared,
            words,
        } = self;
        words
    }
}

/// Refuses the name with TooManyVars if there is no room for one more variable.
pub(crate) fn require_room(word: &Word, bindings: &BindingTable) -> Result<(), JdfRefusal>
    ensures room { OnOk result (bindings.now.declared < most_variables) }
    ensures answer { Returns (λ _. tt) result (require_room word.now (bindings_of bindings.now)) }
{
    if usize::from(bindings.declared) < MOST_VARIABLES {
        Ok(())
    } else {
        Err(fault_at(word.spot, JdfCode::TooManyVars))
    }
}

// The variables of the innermost block.
#[tactic(auto, using(std::proofs::lemmas::List::drop_all))]
fn innermost(bindings: &BindingTable) -> &[Variable]
    ensures { result.now ≡ drop bindings.now.outside bindings.now.seen.items }
{
    let seen = bindings.seen.as_slice();
    if bindings.outside <= seen.len() {
        &seen[bindings.outside..]
    } else {
        &[]
    }
}

// Whether one of the variables has this name.
fn is_named(variables: &[Variable], name: &[u8]) -> bool
    ensures { result ≡ list_any (λ v. bytes_eq v.name name.now) variables.now }
{
    variables
        .iter()
        .any(|variable| variable.name.bytes() == name)
}

/// Refuses the name with NameTwice if the innermost block has a variable of that name.
pub(crate) fn require_fresh(word: &Word, bindings: &BindingTable) -> Result<(), JdfRefusal>
    ensures { Returns (λ _. tt) result (require_fresh word.now (bindings_of bindings.now)) }
{
    if is_named(innermost(bindings), word.text.bytes()) {
        Err(fault_at(word.spot, JdfCode::NameTwice))
    } else {
        Ok(())
    }
}

/// The slot of the next variable.
pub(crate) fn next_slot(scope: &Scope, bindings: &BindingTable) -> u16
    requires { bindings.now.declared < most_variables }
    ensures { result ≡ next_slot (environment_of scope.now) (bindings_of bindings.now) }
{
    scope.locals.len() as u16 + bindings.declared
}

/// Declares a variable, for which there must be room.
pub(crate) fn add_variable(
    context: &Context,
    bindings: &mut BindingTable,
    word: &Word,
    is_loop_variable: bool,
) -> Result<(), OutOfMemory>
    requires { bindings.old.declared < most_variables }
    ensures { OnOk result
        (bindings_of bindings.new
        ≡ with_variable (environment_of context.now.scope.now) word.now.text is_loop_variable
        (bindings_of bindings.old)) }
{
    let slot = next_slot(context.scope, bindings);
    let name = Text::of(context.alloc, word.text.bytes())?;
    bindings.seen.push(Variable {
        name,
        slot,
        is_loop_variable,
    })?;
    bindings.declared += 1;
    Ok(())
}

/// Closes a block. Before it, `seen` variables were seen, and `outside` of them belonged to blocks around.
pub(crate) fn close(bindings: &mut BindingTable, seen: usize, outside: usize)
    ensures { bindings_of bindings.new
        ≡ record (bindings_of bindings.old) { seen = take seen bindings.old.seen.items; outside = outside } }
{
    bindings.seen.truncate(seen);
    bindings.outside = outside;
}

// A number as one of 32 bits; out of memory if it is larger.
fn as_u32(number: usize) -> Result<u32, OutOfMemory>
    ensures { IfOk result (λ n. n ≡ number) }
{
    if number > u32::MAX as usize {
        return Err(OutOfMemory);
    }
    Ok(number as u32)
}

/// The number of a trap word. A new word gets the next number.
pub(crate) fn word_number(
    alloc: Global,
    bindings: &mut BindingTable,
    word: &Word,
) -> Result<u32, OutOfMemory>
    ensures { IfOk result (λ n. word_number word.now.text (bindings_of bindings.old) ≡ (n, bindings_of bindings.new)) }
{
    if let Some(number) = bindings.words.index_of(&word.text) {
        return as_u32(number);
    }
    let number = as_u32(bindings.words.len())?;
    let text = Text::of(alloc, word.text.bytes())?;
    bindings.words.add(text)?;
    Ok(number)
}
