//! Texts, read into tokens.

use jdf_lex::{JdfRefusal, Lexed, Terminal, tokens};
use ptg_base::MOST_BYTES;
use row_files::{Printed, Why};
use std::alloc::Global;

/// Reads the tokens of a text. Returns each with its terminal, its line, its column and its text, and then the end of
/// the text; or the text's first fault.
pub fn read(alloc: Global, text: &[u8]) -> Result<Printed, Why> {
    match lexed(alloc, text)? {
        Ok(lexed) => shown(alloc, &lexed),
        Err(refusal) => refused(alloc, refusal),
    }
}

/// The tokens of a text that is short enough.
pub fn lexed(alloc: Global, text: &[u8]) -> Result<Result<Lexed, JdfRefusal>, Why> {
    let text = str::from_utf8(text).map_err(|_| Why("a text that is not UTF-8"))?;
    if text.len() > MOST_BYTES {
        return Err(Why("a text that is too long"));
    }
    Ok(tokens(alloc, text))
}

/// What is printed of the refusal of a text.
pub fn refused(alloc: Global, refusal: JdfRefusal) -> Result<Printed, Why> {
    let JdfRefusal::Fault(fault) = refusal else {
        return Err(Why("there is no memory for it"));
    };
    let line = fault.spot.line;
    let column = fault.spot.column;
    let code = fault.code;
    let text = format!(in alloc; "refused,{line},{column},{code:?}\n")?;
    Ok(Printed {
        text: text.into_bytes(),
        status: 2,
    })
}

// Lines with the tokens, then the spot after the last byte.
fn shown(alloc: Global, lexed: &Lexed) -> Result<Printed, Why> {
    let mut text = String::new(alloc);
    for token in lexed.tokens.as_slice() {
        let terminal = Terminal::of(token);
        let line = token.spot.line;
        let column = token.spot.column;
        let word = str::from_utf8(token.text.bytes()).map_err(|_| Why("a token that is no text"))?;
        write!(text, "{terminal:?},{line},{column},{word}\n")?;
    }
    let line = lexed.end.line;
    let column = lexed.end.column;
    write!(text, "end,{line},{column}\n")?;
    Ok(Printed {
        text: text.into_bytes(),
        status: 0,
    })
}
