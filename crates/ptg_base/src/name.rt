//! How names are spelled.

ghost use Rattle.std.specs.Prelude.{◌≡◌};
ghost use Rattle.ptg_base.specs.Names.{is_letter, is_part, is_name};

/// Whether the byte may begin a name: an ASCII letter or `_`.
pub fn is_letter(b: u8) -> bool
    ensures { result ≡ is_letter b }
{
    b.is_ascii_alphabetic() || b == b'_'
}

/// Whether the byte may follow the first byte of a name or a number: an ASCII letter, `_` or a digit.
pub fn is_part(b: u8) -> bool
    ensures { result ≡ is_part b }
{
    is_letter(b) || b.is_ascii_digit()
}

/// Whether the bytes spell a name. Reserved words are names too.
pub fn is_name(bytes: &[u8]) -> bool
    ensures { result ≡ is_name bytes.now }
{
    match bytes.split_first() {
        Some((b, bs)) => is_letter(*b) && bs.iter().all(|c| is_part(*c)),
        None => false,
    }
}
