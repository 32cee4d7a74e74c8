//! Classes of bytes, and marks.

ghost use Rattle.std.specs.Prelude.{◌≡◌, [], ◌∷◌};
ghost use Rattle.jdf_lex.specs.Spelling.{is_digit, is_blank, is_not_lf, continues_character, is_mark};
ghost use Rattle.jdf_lex.specs.Reading.{mark_len};

/// Whether the byte is a decimal digit.
pub fn is_digit(b: u8) -> bool
    ensures { result ≡ is_digit b }
{
    b.is_ascii_digit()
}

/// Whether the byte is a space, a tab, CR or LF.
pub fn is_blank(b: u8) -> bool
    ensures { result ≡ is_blank b }
{
    matches!(b, b' ' | b'\t' | b'\r' | b'\n')
}

/// Whether the byte is not LF.
pub fn is_not_lf(b: u8) -> bool
    ensures { result ≡ is_not_lf b }
{
    b != b'\n'
}

/// Whether the byte continues a UTF-8 character: it is from 128 to 191.
pub fn continues_character(b: u8) -> bool
    ensures { result ≡ continues_character b }
{
    matches!(b, 128..=191)
}

// Whether the byte is a mark by itself.
fn is_short_mark(a: u8) -> bool
    ensures { result ≡ is_mark (a ∷ []) }
{
    matches!(
        a,
        b'(' | b')'
            | b'['
            | b']'
            | b'{'
            | b'}'
            | b','
            | b';'
            | b':'
            | b'?'
            | b'='
            | b'+'
            | b'-'
            | b'*'
            | b'/'
            | b'%'
            | b'<'
            | b'>'
            | b'&'
            | b'|'
            | b'!'
    )
}

// Whether the two bytes are a mark.
fn is_long_mark(a: u8, b: u8) -> bool
    ensures { result ≡ is_mark (a ∷ b ∷ []) }
{
    match a {
        b'.' | b'&' | b'|' => b == a,
        b'<' => b == b'-' || b == b'=',
        b'-' => b == b'>',
        b'=' | b'!' | b'>' => b == b'=',
        _ => false,
    }
}

/// The length of the longest mark at the front, or 0 if there is none.
pub fn mark_len(rest: &[u8]) -> usize
    ensures { result ≡ mark_len rest.now }
{
    match rest {
        [a, b, ..] if is_long_mark(*a, *b) => 2,
        [a, ..] if is_short_mark(*a) => 1,
        _ => 0,
    }
}
