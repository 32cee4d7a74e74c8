//! Prints a whole tree.

ghost use Rattle.std.specs.Prelude.{◌≡◌, ◌∷◌, [], ◌++◌, OnOk, IfOk};
ghost use Rattle.std.specs.List.{flat_map};
ghost use Rattle.jdf_print.specs.Fragments.{text, token, line};
ghost use Rattle.jdf_print.specs.Spelling.{class, spelling};

use crate::class::put_class;
use crate::writer::{put, put_word};
use jdf_tree::{ClassTree, Jdf, Word};
use ptg_base::{OutOfMemory, Seq, Text};
use std::alloc::Global;

// Appends the globals, each on a line of its own.
fn put_globals(out: &mut Seq<u8>, names: &[Word]) -> Result<(), OutOfMemory>
    ensures { OnOk result (out.new ≡ out.old ++ text (flat_map (λ w. line (token w.text ∷ [])) names.now)) }
{
    for name in names {
        put_word(out, name)?;
        put(out, b"\n")?;
    }
    Ok(())
}

// Appends classes, an empty line before each.
fn put_classes(out: &mut Seq<u8>, classes: &[ClassTree]) -> Result<(), OutOfMemory>
    ensures { OnOk result (out.new ≡ out.old ++ text (flat_map class classes.now)) }
{
    for c in classes {
        put_class(out, c)?;
    }
    Ok(())
}

/// Returns the canonical spelling of a tree; fails only if memory runs out.
pub fn print(alloc: Global, jdf: &Jdf) -> Result<Text, OutOfMemory>
    ensures { IfOk result (λ t. t ≡ spelling jdf.now) }
{
    let mut out = Seq::new(alloc);
    put_globals(&mut out, jdf.globals.as_slice())?;
    put_classes(&mut out, jdf.classes.as_slice())?;
    Text::of(alloc, out.as_slice())
}
