//! The codes that the grammar of JDF states.

ghost use Rattle.std.specs.Prelude.{◌≡◌};
ghost use Rattle.jdf_lex.specs.Codes.{code_at, stated};

use grammar_core::Code;

/// What is wrong with a text at one of its tokens, if it is not `Syntax`.
#[derive(Clone, Copy, Debug, PartialEq, Eq)]
pub enum GrammarCode {
    /// A number is not decimal, has a leading zero or is too large.
    BadNumber,
    /// An expression has more than 512 tokens, or more than 128 names, numbers, operators and `?`.
    ExprTooLong,
    /// A text has too many classes.
    TooManyClasses,
    /// A class has too many parameters.
    TooManyParams,
    /// A class has too many definitions.
    TooManyLocals,
    /// A class has too many flows.
    TooManyFlows,
    /// A flow has too many dependences.
    TooManyDeps,
    /// The blocks of a body nest too deep.
    TooDeep,
    /// A body declares too many variables.
    TooManyVars,
}

// The codes, each at the index that is its number.
const CODES: [GrammarCode; 9] = [
    GrammarCode::BadNumber,
    GrammarCode::ExprTooLong,
    GrammarCode::TooManyClasses,
    GrammarCode::TooManyParams,
    GrammarCode::TooManyLocals,
    GrammarCode::TooManyFlows,
    GrammarCode::TooManyDeps,
    GrammarCode::TooDeep,
    GrammarCode::TooManyVars,
];

impl GrammarCode {
    /// The code as a grammar states it: by its number.
    pub fn code(self) -> Code
        ensures { result ≡ stated self }
    {
        Code::Stated(self as u8)
    }

    /// The code with this number; `BadNumber` if there is none.
    #[tactic(auto, unfolding(crate::specs::Codes::code_at))]
    pub fn at(number: u8) -> GrammarCode
        ensures { result ≡ code_at number }
    {
        match CODES.get(number as usize) {
            Some(code) => *code,
            None => GrammarCode::BadNumber,
        }
    }
}
