//! Why tokens could not be read.

ghost use Rattle.std.specs.Prelude.{◌≡◌, length};
ghost use Rattle.grammar_core.specs.Refusing.{fault_with};

use crate::code::Code;
use crate::token::Token;
use ptg_base::Refusal;

/// The first fault of a list of tokens, by its distance from the end of the list.
#[derive(Clone, Copy, Debug, PartialEq, Eq)]
pub struct ReadFault {
    /// How many tokens are left at the fault, including the wrong one. It is 0 if the tokens end too early.
    pub left: usize,
    /// What is wrong there.
    pub code: Code,
}

/// Why tokens could not be read: their first fault, or out of memory.
pub type ReadRefusal = Refusal<ReadFault>;

/// The refusal for a fault at the first of these tokens, or at the end if there are none.
pub fn refusal_at(tokens: &[Token], code: Code) -> ReadRefusal
    ensures { result ≡ fault_with (length tokens.now) code }
{
    Refusal::Fault(ReadFault {
        left: tokens.len(),
        code,
    })
}
