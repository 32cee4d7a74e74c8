//! The codes of refusals, as they are printed.

ghost use Rattle.std.specs.Prelude.{◌≡◌};
ghost use Rattle.report_text.specs.Codes.{data_code, jdf_code, match_code, trace_code};

use coll_data::DataCode;
use edge_match::MatchCode;
use jdf_lex::JdfCode;
use trace_core::TraceCode;

/// The code of a refused JDF text.
pub fn jdf_code(code: JdfCode) -> &'static [u8]
    ensures { result.now ≡ jdf_code code }
{
    match code {
        JdfCode::TooLong => b"TooLong",
        JdfCode::NotUtf8 => b"NotUtf8",
        JdfCode::Unclosed => b"Unclosed",
        JdfCode::TooManyTokens => b"TooManyTokens",
        JdfCode::Syntax => b"Syntax",
        JdfCode::Truncated => b"Truncated",
        JdfCode::BadNumber => b"BadNumber",
        JdfCode::ExprTooLong => b"ExprTooLong",
        JdfCode::TooManyClasses => b"TooManyClasses",
        JdfCode::TooManyParams => b"TooManyParams",
        JdfCode::TooManyLocals => b"TooManyLocals",
        JdfCode::TooManyFlows => b"TooManyFlows",
        JdfCode::TooManyDeps => b"TooManyDeps",
        JdfCode::TooDeep => b"TooDeep",
        JdfCode::TooManyVars => b"TooManyVars",
        JdfCode::NameTwice => b"NameTwice",
        JdfCode::LocalTwice => b"LocalTwice",
        JdfCode::ParamUndefined => b"ParamUndefined",
        JdfCode::RangedLocal => b"RangedLocal",
        JdfCode::UnknownName => b"UnknownName",
        JdfCode::WrongKind => b"WrongKind",
        JdfCode::NoSuchFlow => b"NoSuchFlow",
        JdfCode::Arity => b"Arity",
        JdfCode::CtlMixed => b"CtlMixed",
        JdfCode::WriteInput => b"WriteInput",
        JdfCode::NewSent => b"NewSent",
        JdfCode::RangeInDataInput => b"RangeInDataInput",
        JdfCode::RangeInPlace => b"RangeInPlace",
        JdfCode::Datatype => b"Datatype",
        JdfCode::MixedTypes => b"MixedTypes",
        JdfCode::TypeDiffers => b"TypeDiffers",
        JdfCode::ReadAssigned => b"ReadAssigned",
        JdfCode::NotAssignable => b"NotAssignable",
    }
}

/// The code of a refused data file.
pub fn data_code(code: DataCode) -> &'static [u8]
    ensures { result.now ≡ data_code code }
{
    match code {
        DataCode::TooLong => b"TooLong",
        DataCode::NoElems => b"NoElems",
        DataCode::ElemsTwice => b"ElemsTwice",
        DataCode::UnknownRow => b"UnknownRow",
        DataCode::FieldCount => b"FieldCount",
        DataCode::BadElems => b"BadElems",
        DataCode::BadName => b"BadName",
        DataCode::NameTwice => b"NameTwice",
        DataCode::TypeTwice => b"TypeTwice",
        DataCode::TooManyTypes => b"TooManyTypes",
        DataCode::UnknownType => b"UnknownType",
        DataCode::UnknownColl => b"UnknownColl",
        DataCode::TileCount => b"TileCount",
        DataCode::BadNumber => b"BadNumber",
        DataCode::TooManyTiles => b"TooManyTiles",
        DataCode::TooManyElements => b"TooManyElements",
        DataCode::BadIndex => b"BadIndex",
        DataCode::TileTwice => b"TileTwice",
        DataCode::MissingName => b"MissingName",
    }
}

/// The code of a job that is not consistent.
pub fn match_code(code: MatchCode) -> &'static [u8]
    ensures { result.now ≡ match_code code }
{
    match code {
        MatchCode::BadExpr => b"BadExpr",
        MatchCode::TooManyTasks => b"TooManyTasks",
        MatchCode::BadPlace => b"BadPlace",
        MatchCode::NoInput => b"NoInput",
        MatchCode::OutOfSpace => b"OutOfSpace",
        MatchCode::TooManyEdges => b"TooManyEdges",
        MatchCode::NullSent => b"NullSent",
        MatchCode::DoubleWrite => b"DoubleWrite",
        MatchCode::NoMatchingOut => b"NoMatchingOut",
        MatchCode::NoMatchingIn => b"NoMatchingIn",
        MatchCode::DoubleEdge => b"DoubleEdge",
    }
}

/// The code of a refused trace.
pub fn trace_code(code: TraceCode) -> &'static [u8]
    ensures { result.now ≡ trace_code code }
{
    match code {
        TraceCode::TooLong => b"TooLong",
        TraceCode::BadTrace => b"BadTrace",
        TraceCode::UnknownTask => b"UnknownTask",
        TraceCode::RanTwice => b"RanTwice",
        TraceCode::TooEarly => b"TooEarly",
        TraceCode::Unfinished => b"Unfinished",
    }
}
