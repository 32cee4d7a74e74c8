//! Scans a body token by token, and keeps what is known at each.

ghost use Rattle.std.specs.Prelude.{◌≡◌, OnOk};
ghost use Rattle.body_lang.specs.TokenScan.{declared, block_entered, block_left, named_by, after_token, at_first};
ghost use Rattle.body_lang.specs.Scanner.{scan_of};

use crate::bindings::{BindingTable, close};
use crate::role::previous_is;
use crate::variable::Variable;
use jdf_lex::{Terminal, Token};
use ptg_base::{OutOfMemory, Text};
use std::alloc::Global;

/// What is known at a token of a body.
pub struct Scanner {
    pub bindings: BindingTable,
    /// For each open block, the innermost last: how many variables were seen before it, and how many of those belonged
    /// to blocks around.
    pub open_blocks: Vec<(usize, usize)>,
    /// The name of the variable whose declaration has begun.
    pub naming: Option<Text>,
    /// The terminal of the token before.
    pub previous: Option<Terminal>,
}

impl Drop for Scanner {
    fn drop(self) {
        let Scanner {
            bindings: _bindings,
            open_blocks: _open_blocks,
            naming: _naming,
            previous: _previous,
        } = self;
    }
}

impl Scanner {
    /// A scanner at the first token.
    pub(crate) fn new(alloc: Global) -> Scanner
        ensures { scan_of result ≡ at_first }
    {
        Scanner {
            bindings: BindingTable::new(alloc),
            open_blocks: Vec::new(alloc),
            naming: None,
            previous: None,
        }
    }
}

// Lets the declaration that has begun, if one has, take effect.
fn declare(scanner: &mut Scanner, is_loop_variable: bool) -> Result<(), OutOfMemory>
    ensures { OnOk result (scan_of scanner.new ≡ declared is_loop_variable (scan_of scanner.old)) }
{
    let naming = scanner.naming.take();
    if let Some(name) = naming {
        scanner.bindings.seen.push(Variable {
            name,
            slot: 0,
            is_loop_variable,
        })?;
    }
    Ok(())
}

// Opens a block.
fn enter(scanner: &mut Scanner) -> Result<(), OutOfMemory>
    ensures { OnOk result (scan_of scanner.new ≡ block_entered (scan_of scanner.old)) }
{
    let seen = scanner.bindings.seen.len();
    scanner.open_blocks.push((seen, scanner.bindings.outside))?;
    scanner.bindings.outside = seen;
    Ok(())
}

// Closes the innermost block.
fn leave(scanner: &mut Scanner)
    ensures { scan_of scanner.new ≡ block_left (scan_of scanner.old) }
{
    if let Some((seen, outside)) = scanner.open_blocks.pop() {
        close(&mut scanner.bindings, seen, outside);
    }
}

// Takes note of a name that begins a declaration.
fn name(alloc: Global, scanner: &mut Scanner, text: &Text) -> Result<(), OutOfMemory>
    ensures { OnOk result (scan_of scanner.new ≡ named_by text.now (scan_of scanner.old)) }
{
    if previous_is(Terminal::Int, scanner.previous)
        || previous_is(Terminal::For, scanner.previous)
    {
        scanner.naming = Some(Text::of(alloc, text.bytes())?);
    }
    Ok(())
}

/// Moves the scanner past a token.
pub(crate) fn pass(alloc: Global, scanner: &mut Scanner, token: &Token) -> Result<(), OutOfMemory>
    ensures { OnOk result (scan_of scanner.new ≡ after_token token.now (scan_of scanner.old)) }
{
    let terminal = Terminal::of(token);
    match terminal {
        Terminal::Semicolon => declare(scanner, false)?,
        Terminal::LeftBrace => {
            enter(scanner)?;
            declare(scanner, true)?;
        }
        Terminal::RightBrace => leave(scanner),
        Terminal::Name | Terminal::TypeWord => name(alloc, scanner, &token.text)?,
        _ => {}
    }
    scanner.previous = Some(terminal);
    Ok(())
}
