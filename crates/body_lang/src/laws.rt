//! Laws of reading a body.

ghost use Rattle.body_lang.specs.Laws.{OneBody, OneFault, BodyOrFault};

/// A law: tokens are the text of at most one body, or have at most one first fault, never both.
pub fn one_answer()
    ensures body { OneBody }
    ensures fault { OneFault }
    ensures either { BodyOrFault }
{}
