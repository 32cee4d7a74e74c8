//! The role of a name in a body, judged by the tokens beside it.

ghost use Rattle.std.specs.Prelude.{◌≡◌};
ghost use Rattle.body_lang.specs.TokenScan.{previous_is, begins_here, role_of};

use jdf_lex::{Terminal, Token, is_next};

/// The role of a name in a body.
#[derive(Clone, Copy, Debug, PartialEq, Eq)]
pub enum Role {
    /// It names a variable that `int` declares.
    Declared,
    /// It is not looked up: a loop's variable, a trap word, or a name that begins a statement and has neither `=` nor
    /// `[` after it.
    NotLookedUp,
    /// It names a variable that is assigned.
    Assigned,
    /// It names a flow whose element is assigned.
    ElementAssigned,
    /// It names a flow whose element is read.
    Element,
    /// It stands for a number.
    Value,
}

/// Whether this is the terminal of the token before; there may be none.
#[tactic(auto, using(jdf_lex::proofs::Same::same_is))]
pub(crate) fn previous_is(terminal: Terminal, last: Option<Terminal>) -> bool
    ensures { result ≡ previous_is terminal last }
{
    match last {
        None => false,
        Some(before) => terminal == before,
    }
}

// Whether a statement begins after a token of this terminal, or at the start of the body.
fn begins_here(last: Option<Terminal>) -> bool
    ensures { result ≡ begins_here last }
{
    last.is_none()
        || previous_is(Terminal::Semicolon, last)
        || previous_is(Terminal::LeftBrace, last)
        || previous_is(Terminal::RightBrace, last)
}

/// The role of a name between a token of the terminal `last`, if there is one, and these tokens.
pub(crate) fn role_of(last: Option<Terminal>, rest: &[Token]) -> Role
    ensures { result ≡ role_of last rest.now }
{
    if previous_is(Terminal::Int, last) {
        return Role::Declared;
    }
    if previous_is(Terminal::For, last) || previous_is(Terminal::Trap, last) {
        return Role::NotLookedUp;
    }
    let indexed = is_next(rest, Terminal::LeftBracket);
    if !begins_here(last) {
        return if indexed { Role::Element } else { Role::Value };
    }
    if indexed {
        return Role::ElementAssigned;
    }
    if is_next(rest, Terminal::Assign) {
        Role::Assigned
    } else {
        Role::NotLookedUp
    }
}
