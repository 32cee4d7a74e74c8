//! Why a text is refused.

ghost use Rattle.std.specs.Prelude.{◌≡◌};
ghost use Rattle.ptg_base.specs.declared.refusal.Refusal.TheVariants.{Fault};

use grammar_core::Spot;
use ptg_base::Refusal;

/// Why a JDF text is refused, as the program prints it.
#[derive(Clone, Copy, Debug, PartialEq, Eq)]
pub enum JdfCode {
    /// The text has more than 16 MiB.
    TooLong,
    /// The text is not UTF-8 from this spot on.
    NotUtf8,
    /// A comment, a quoted text or a raw block is not closed.
    Unclosed,
    /// The text has more than 1,000,000 tokens; the spot is that of token 1,000,001.
    TooManyTokens,
    /// No text of the grammar begins with the tokens up to and including this one.
    Syntax,
    /// The text ends where the grammar requires more tokens.
    Truncated,
    /// A number is not spelled as decimal digits without a leading 0, or is above the largest number.
    BadNumber,
    /// An expression has more than 512 tokens, or more than 128 names, numbers, operators and `?`.
    ExprTooLong,
    /// More classes than a text may have.
    TooManyClasses,
    /// More parameters than a class may have.
    TooManyParams,
    /// More definitions than a class may have.
    TooManyLocals,
    /// More flows than a class may have.
    TooManyFlows,
    /// More dependences than a flow may have.
    TooManyDeps,
    /// The blocks of a body are nested too deeply.
    TooDeep,
    /// More variables than a body may declare.
    TooManyVars,
    /// A global, a class, a parameter, a flow or a variable of a block has the name of an earlier one.
    NameTwice,
    /// A definition has the name of an earlier one of its class.
    LocalTwice,
    /// A parameter has no definition.
    ParamUndefined,
    /// A range defines a name that is not a parameter.
    RangedLocal,
    /// A name is not in scope.
    UnknownName,
    /// A collection is named where a number is needed, or a number where a collection is.
    WrongKind,
    /// The class of a target has no flow with this name.
    NoSuchFlow,
    /// A task or an element of a collection has the wrong number of arguments.
    Arity,
    /// A control flow is connected to a data flow, or a body names it.
    CtlMixed,
    /// A WRITE flow takes its tile from a task or from `NULL`.
    WriteInput,
    /// `NEW` is the target of an output.
    NewSent,
    /// An input of a data flow has a range.
    RangeInDataInput,
    /// A range is an index of a collection.
    RangeInPlace,
    /// A dependence has a datatype that it may not have.
    Datatype,
    /// A dependence has another datatype than the first one of its flow.
    MixedTypes,
    /// The flow or the collection of a target has another datatype than the flow.
    TypeDiffers,
    /// A body assigns to an element of a flow that is only read.
    ReadAssigned,
    /// A body assigns to a global, a local or a loop variable.
    NotAssignable,
}

/// A fault of a text: where, and why.
#[derive(Clone, Copy, Debug, PartialEq, Eq)]
pub struct JdfFault {
    pub spot: Spot,
    pub code: JdfCode,
}

/// Why a text was not read: its fault, or out of memory.
pub type JdfRefusal = Refusal<JdfFault>;

/// The refusal for a fault with this code at a spot.
pub fn fault_at(spot: Spot, code: JdfCode) -> JdfRefusal
    ensures { result ≡ Fault (record { spot = spot; code = code }) }
{
    JdfRefusal::Fault(JdfFault { spot, code })
}
