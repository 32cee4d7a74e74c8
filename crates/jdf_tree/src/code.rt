//! The codes of the grammar as codes of JDF.

ghost use Rattle.std.specs.Prelude.{◌≡◌};
ghost use Rattle.jdf_tree.specs.Fault.{code_at_token, stated_code};

use grammar_core::Code;
use jdf_lex::{GrammarCode, JdfCode};

// The JDF code for a code that the grammar states.
fn stated_code(code: GrammarCode) -> JdfCode
    ensures { result ≡ stated_code code }
{
    match code {
        GrammarCode::BadNumber => JdfCode::BadNumber,
        GrammarCode::ExprTooLong => JdfCode::ExprTooLong,
        GrammarCode::TooManyClasses => JdfCode::TooManyClasses,
        GrammarCode::TooManyParams => JdfCode::TooManyParams,
        GrammarCode::TooManyLocals => JdfCode::TooManyLocals,
        GrammarCode::TooManyFlows => JdfCode::TooManyFlows,
        GrammarCode::TooManyDeps => JdfCode::TooManyDeps,
        GrammarCode::TooDeep => JdfCode::TooDeep,
        GrammarCode::TooManyVars => JdfCode::TooManyVars,
    }
}

/// The JDF code for a code of the grammar.
pub fn code_at_token(code: Code) -> JdfCode
    ensures { result ≡ code_at_token code }
{
    match code {
        Code::Syntax => JdfCode::Syntax,
        Code::Stated(number) => stated_code(GrammarCode::at(number)),
    }
}
