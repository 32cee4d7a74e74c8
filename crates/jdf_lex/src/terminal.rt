//! The terminals of the grammar.

ghost use Rattle.std.specs.Prelude.{◌≡◌, map, slice_get, unwrap_or};
ghost use Rattle.jdf_lex.specs.Terminals.{number_of, spelled, terminal_by, terminal_of};

use crate::kind::TokenKind;
use grammar_core::Token;

/// A terminal of the grammar. Some words and each mark are terminals of their own. Any other token has the terminal of
/// its kind.
#[derive(Clone, Copy, Debug, PartialEq, Eq)]
pub enum Terminal {
    /// A name that is none of the words below.
    Name,
    /// `type`
    TypeWord,
    /// `int`
    Int,
    /// `if`
    If,
    /// `else`
    Else,
    /// `for`
    For,
    /// `trap`
    Trap,
    /// A digit, then letters, digits and `_`.
    Number,
    /// A quoted text.
    Quoted,
    /// `%{` up to the first `%}`.
    Raw,
    /// `%option` up to the end of the line.
    OptionLine,
    /// Any other character.
    Other,
    /// `extern`
    Extern,
    /// `BODY`
    Body,
    /// `END`
    End,
    /// `READ`
    Read,
    /// `WRITE`
    Write,
    /// `RW`
    Rw,
    /// `CTL`
    Ctl,
    /// `NEW`
    New,
    /// `NULL`
    Null,
    /// `(`
    LeftParen,
    /// `)`
    RightParen,
    /// `[`
    LeftBracket,
    /// `]`
    RightBracket,
    /// `{`
    LeftBrace,
    /// `}`
    RightBrace,
    /// `,`
    Comma,
    /// `;`
    Semicolon,
    /// `:`
    Colon,
    /// `?`
    Question,
    /// `=`
    Assign,
    /// `..`
    Dots,
    /// `<-`
    Inward,
    /// `->`
    Outward,
    /// `+`
    Plus,
    /// `-`
    Minus,
    /// `*`
    Star,
    /// `/`
    Slash,
    /// `%`
    Percent,
    /// `==`
    Equal,
    /// `!=`
    NotEqual,
    /// `<`
    Less,
    /// `<=`
    AtMost,
    /// `>`
    Greater,
    /// `>=`
    AtLeast,
    /// `&`
    And,
    /// `&&`
    AndAnd,
    /// `|`
    Or,
    /// `||`
    OrOr,
    /// `!`
    Not,
}

// How many terminals a grammar may have. The number in a token stands for its remainder by this.
const TERMINAL_COUNT: u8 = 64;

// The terminals, each at the index that is its number.
const TERMINALS: [Terminal; 51] = [
    Terminal::Name,
    Terminal::TypeWord,
    Terminal::Int,
    Terminal::If,
    Terminal::Else,
    Terminal::For,
    Terminal::Trap,
    Terminal::Number,
    Terminal::Quoted,
    Terminal::Raw,
    Terminal::OptionLine,
    Terminal::Other,
    Terminal::Extern,
    Terminal::Body,
    Terminal::End,
    Terminal::Read,
    Terminal::Write,
    Terminal::Rw,
    Terminal::Ctl,
    Terminal::New,
    Terminal::Null,
    Terminal::LeftParen,
    Terminal::RightParen,
    Terminal::LeftBracket,
    Terminal::RightBracket,
    Terminal::LeftBrace,
    Terminal::RightBrace,
    Terminal::Comma,
    Terminal::Semicolon,
    Terminal::Colon,
    Terminal::Question,
    Terminal::Assign,
    Terminal::Dots,
    Terminal::Inward,
    Terminal::Outward,
    Terminal::Plus,
    Terminal::Minus,
    Terminal::Star,
    Terminal::Slash,
    Terminal::Percent,
    Terminal::Equal,
    Terminal::NotEqual,
    Terminal::Less,
    Terminal::AtMost,
    Terminal::Greater,
    Terminal::AtLeast,
    Terminal::And,
    Terminal::AndAnd,
    Terminal::Or,
    Terminal::OrOr,
    Terminal::Not,
];

// The words that are terminals of their own.
const WORDS: [(&[u8], Terminal); 15] = [
    (b"type", Terminal::TypeWord),
    (b"int", Terminal::Int),
    (b"if", Terminal::If),
    (b"else", Terminal::Else),
    (b"for", Terminal::For),
    (b"trap", Terminal::Trap),
    (b"extern", Terminal::Extern),
    (b"BODY", Terminal::Body),
    (b"END", Terminal::End),
    (b"READ", Terminal::Read),
    (b"WRITE", Terminal::Write),
    (b"RW", Terminal::Rw),
    (b"CTL", Terminal::Ctl),
    (b"NEW", Terminal::New),
    (b"NULL", Terminal::Null),
];

// The marks.
const MARKS: [(&[u8], Terminal); 30] = [
    (b"(", Terminal::LeftParen),
    (b")", Terminal::RightParen),
    (b"[", Terminal::LeftBracket),
    (b"]", Terminal::RightBracket),
    (b"{", Terminal::LeftBrace),
    (b"}", Terminal::RightBrace),
    (b",", Terminal::Comma),
    (b";", Terminal::Semicolon),
    (b":", Terminal::Colon),
    (b"?", Terminal::Question),
    (b"=", Terminal::Assign),
    (b"..", Terminal::Dots),
    (b"<-", Terminal::Inward),
    (b"->", Terminal::Outward),
    (b"+", Terminal::Plus),
    (b"-", Terminal::Minus),
    (b"*", Terminal::Star),
    (b"/", Terminal::Slash),
    (b"%", Terminal::Percent),
    (b"==", Terminal::Equal),
    (b"!=", Terminal::NotEqual),
    (b"<", Terminal::Less),
    (b"<=", Terminal::AtMost),
    (b">", Terminal::Greater),
    (b">=", Terminal::AtLeast),
    (b"&", Terminal::And),
    (b"&&", Terminal::AndAnd),
    (b"|", Terminal::Or),
    (b"||", Terminal::OrOr),
    (b"!", Terminal::Not),
];

// The terminal that the table has for this spelling, or `other` if it has none.
fn spelled(table: &[(&[u8], Terminal)], text: &[u8], other: Terminal) -> Terminal
    ensures { result ≡ spelled (map (λ (word, terminal). (word.now, terminal)) table.now) text.now other }
{
    for (word, terminal) in table {
        if *word == text {
            return *terminal;
        }
    }
    other
}

// The terminal at this index; `Other` if there is none.
fn entry(table: &[Terminal], index: usize) -> Terminal
    ensures { result ≡ unwrap_or (slice_get table.now index) Terminal.Other }
{
    match table.get(index) {
        Some(terminal) => *terminal,
        None => Terminal::Other,
    }
}

impl Terminal {
    /// The number of the terminal, as its tokens have it.
    pub fn number(self) -> u8
        ensures { result ≡ number_of self }
    {
        self as u8
    }

    /// The terminal of the tokens of this kind and spelling.
    #[tactic(auto, unfolding(crate::specs::Terminals::words, crate::specs::Terminals::marks))]
    pub fn spelled(kind: TokenKind, text: &[u8]) -> Terminal
        ensures { result ≡ terminal_by kind text.now }
    {
        match kind {
            TokenKind::Name => spelled(&WORDS, text, Terminal::Name),
            TokenKind::Mark => spelled(&MARKS, text, Terminal::Other),
            TokenKind::Number => Terminal::Number,
            TokenKind::Quoted => Terminal::Quoted,
            TokenKind::Raw => Terminal::Raw,
            TokenKind::OptionLine => Terminal::OptionLine,
            TokenKind::Other => Terminal::Other,
        }
    }

    /// The terminal of a token.
    #[tactic(auto, unfolding(grammar_core::specs::Terminals::terminal_of, crate::specs::Terminals::terminal_at))]
    pub fn of(token: &Token) -> Terminal
        ensures { result ≡ terminal_of token.now }
    {
        entry(&TERMINALS, (token.terminal % TERMINAL_COUNT) as usize)
    }
}
