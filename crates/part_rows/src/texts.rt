//! Parts that are called with a text, or with words alone.

use crate::{bodies, commands, data, expressions, tokens};
use ptg_base::Text;
use ptg_io::File;
use row_files::{Printed, Why};
use std::alloc::Global;

/// What is called with the one file of a row, or with its words alone.
#[derive(Clone, Copy)]
pub enum TextPart {
    Tokens,
    Expression,
    BodyExpression,
    Syntax,
    Names,
    Run,
    Data,
    Command,
}

impl TextPart {
    /// The part that this word names, if it names one.
    pub fn of(word: &str) -> Option<TextPart> {
        match word {
            "read-tokens" => Some(TextPart::Tokens),
            "read-expression" => Some(TextPart::Expression),
            "read-body-expression" => Some(TextPart::BodyExpression),
            "read-syntax" => Some(TextPart::Syntax),
            "read-body" => Some(TextPart::Names),
            "run-body" => Some(TextPart::Run),
            "read-data" => Some(TextPart::Data),
            "read-command" => Some(TextPart::Command),
            _ => None,
        }
    }

    /// What a call of it prints, with these files and these words after its own.
    pub fn printed(self, alloc: Global, files: &[File], words: &[Text]) -> Result<Printed, Why> {
        match (self, words) {
            (TextPart::Tokens, []) => tokens::read(alloc, only(files)?),
            (TextPart::Expression, []) => expressions::read(alloc, only(files)?, false),
            (TextPart::BodyExpression, []) => expressions::read(alloc, only(files)?, true),
            (TextPart::Syntax, []) => bodies::read_syntax(alloc, only(files)?),
            (TextPart::Names, []) => bodies::read_names(alloc, only(files)?),
            (TextPart::Run, [elements]) => bodies::run(alloc, only(files)?, elements.bytes()),
            (TextPart::Data, []) => data::read(alloc, only(files)?),
            (TextPart::Command, words) => commands::read(alloc, words),
            _ => Err(Why("words that call nothing")),
        }
    }
}

// The bytes of the one file that there is.
fn only(files: &[File]) -> Result<&[u8], Why> {
    match files {
        [file] => Ok(file.bytes()),
        _ => Err(Why("not one file")),
    }
}
