//! Prints bodies, token by token.

ghost use Rattle.std.specs.Prelude.{◌≡◌, ◌∷◌, [], ◌++◌, OnOk};
ghost use Rattle.std.specs.List.{flat_map};
ghost use Rattle.jdf_print.specs.Fragments.{text, token, space};
ghost use Rattle.jdf_print.specs.Spelling.{body};

use crate::writer::put;
use jdf_lex::Token;
use ptg_base::{OutOfMemory, Seq};

// Appends the tokens after the first, a space before each.
fn put_later(out: &mut Seq<u8>, tokens: &[Token]) -> Result<(), OutOfMemory>
    ensures { OnOk result (out.new ≡ out.old ++ text (flat_map (λ t. space ∷ token t.text ∷ []) tokens.now)) }
{
    for t in tokens {
        put(out, b" ")?;
        put(out, t.text.bytes())?;
    }
    Ok(())
}

/// Appends the tokens of a body on a line, or nothing if there are none.
pub(crate) fn put_body(out: &mut Seq<u8>, tokens: &[Token]) -> Result<(), OutOfMemory>
    ensures { OnOk result (out.new ≡ out.old ++ text (body tokens.now)) }
{
    let Some((first, later)) = tokens.split_first() else {
        return Ok(());
    };
    put(out, first.text.bytes())?;
    put_later(out, later)?;
    put(out, b"\n")
}
