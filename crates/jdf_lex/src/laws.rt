//! Laws of the lexer's definitions.

ghost use Rattle.jdf_lex.specs.Tokens.{OneListOfTokens};

/// A law: a text has at most one list of tokens, and at most one end.
pub fn one_list_of_tokens()
    ensures { OneListOfTokens }
{}
