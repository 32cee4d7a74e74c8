//! Numbers in decimal digits.

ghost use Rattle.std.specs.Prelude.{◌≡◌, true, false, MatchOption};
ghost use Rattle.ptg_base.specs.Decimal.{decimal, is_decimal};

/// The number that these decimal digits spell. None if the text is empty, has a byte that is no digit, or spells a
/// number greater than `most`. Leading zeros are allowed.
pub fn decimal(text: &[u8], most: u64) -> Option<u64>
    ensures { MatchOption result (is_decimal most text.now ≡ false) (λ n.
        (is_decimal most text.now ≡ true) × (n ≡ decimal text.now)) }
{
    if text.is_empty() {
        return None;
    }
    let mut value: u64 = 0;
    for byte in text {
        if *byte < b'0' || *byte > b'9' {
            return None;
        }
        let digit = (*byte - b'0') as u64;
        if digit > most || value > (most - digit) / 10 {
            return None;
        }
        value = value * 10 + digit;
    }
    Some(value)
}

#[cfg(test)]
mod tests {
    use super::*;

    #[test]
    fn digits_make_a_number(rt: HostRuntime) {
        let most = u64::MAX;
        let rows: [(&[u8], u64, Option<u64>); 9] = [
            (b"", most, None),
            (b"0", most, Some(0)),
            (b"007", most, Some(7)),
            (b"1a", most, None),
            (b"-1", most, None),
            (b"18446744073709551615", most, Some(most)),
            (b"18446744073709551616", most, None),
            (b"64", 64, Some(64)),
            (b"65", 64, None),
        ];
        for (text, most, wanted) in rows {
            assert_eq!(rt; decimal(text, most), wanted);
        }
    }
}
