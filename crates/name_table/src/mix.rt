//! Hashing of names.

ghost use Rattle.std.specs.Prelude.{◌≡◌, ◌<◌, ◌^◌, ◌%◌};
ghost use Rattle.name_table.specs.Index.{mixed, with_byte};

// 2^64 divided by the golden ratio, as in Knuth's multiplicative hashing.
const MULTIPLIER: u64 = 11400714819323198485;

// Mixes one more byte into a number. Digits are appended in decimal, so that names that end in consecutive numbers of
// equally many digits get consecutive numbers.
#[tactic(auto, unfolding(crate::specs::Index::with_byte))]
fn with_byte(number: u64, byte: u8) -> u64
    ensures { result ≡ with_byte number byte }
{
    if 48 <= byte && byte <= 57 {
        return number.wrapping_mul(10).wrapping_add(u64::from(byte - 48));
    }
    number
        .wrapping_add(u64::from(byte))
        .wrapping_mul(MULTIPLIER)
}

// The hash of a name.
pub(crate) fn mixed(name: &[u8]) -> u64
    ensures { result ≡ mixed name.now }
{
    let mut number: u64 = 0;
    for byte in name {
        number = with_byte(number, *byte);
    }
    number
}

// The low 32 bits of a number.
pub(crate) fn low(number: u64) -> u32
    ensures { result ≡ number % 2 ^ 32 }
{
    (number % 4294967296) as u32
}

// The remainder of a number by a count.
pub(crate) fn within(number: u64, count: usize) -> usize
    requires { 0 < count }
    ensures left { result ≡ number % count }
    ensures within { result < count }
{
    (number % count as u64) as usize
}
