//! Laws of terminals, lexical units, tokens and the trees of texts.

ghost use Rattle.std.specs.Prelude.{◌≡◌};
ghost use Rattle.jdf_lex.specs.declared.code.GrammarCode.{GrammarCode};
ghost use Rattle.jdf_lex.specs.declared.terminal.Terminal.{Terminal};
ghost use Rattle.jdf_lex.specs.Codes.{code_at, code_number};
ghost use Rattle.jdf_lex.specs.Terminals.{number_of, terminal_at};
ghost use Rattle.jdf_lex.specs.Tokens.{LongestIsTaken, NotBoth, OneTokenFault, TokensOrFault};
ghost use Rattle.jdf_read.specs.Laws as tree;
ghost use Rattle.jdf_read.specs.Laws.{TreeOrFault};
ghost use Rattle.text_laws.specs.Forms.{UnitsAsWritten};

/// A law: each terminal, and each code of the grammar, is found by its number.
pub fn numbers_are_exact()
    ensures terminals { (k : Terminal) → terminal_at (number_of k) ≡ k }
    ensures codes { (c : GrammarCode) → code_at (code_number c) ≡ c }
{}

/// A law: at each position the longest word is taken.
pub fn longest_is_taken()
    ensures { LongestIsTaken }
{}

/// A law: the lexical units of a text are those of the written forms.
pub fn units_as_written()
    ensures { UnitsAsWritten }
{}

/// A law: each text has at most 1,000,000 tokens or one first token fault, and not both.
pub fn tokens_or_one_fault()
    ensures either { TokensOrFault }
    ensures not_both { NotBoth }
    ensures one_fault { OneTokenFault }
{}

/// A law: each text, whatever its bytes, has a tree or a first fault, and not both.
pub fn tree_or_fault()
    ensures either { TreeOrFault }
    ensures not_both { tree.NotBoth }
{}
