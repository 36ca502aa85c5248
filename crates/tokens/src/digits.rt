// The number that digits write.
ghost use Rattle.std.specs.Prelude.{◌≡◌, MatchOption};
ghost use Rattle.tokens.specs.Words.{FewDigits, number_written};

// Whatever so many digits write fits 64 bits.
const MOST_DIGITS: usize = 19;

// The number that digits write in base ten, where there are at most 19 of them and nothing else. No digit writes 0.
pub fn number_of(digits: &[u8]) -> Option<u64>
    ensures { MatchOption result (FewDigits digits.now → ⊥) (λ n. FewDigits digits.now × (n ≡ number_written digits.now)) }
{
    if digits.len() > MOST_DIGITS {
        return None;
    }
    let mut value: u64 = 0;
    for digit in digits {
        if !digit.is_ascii_digit() {
            return None;
        }
        value = value * 10 + (*digit - b'0') as u64;
    }
    Some(value)
}
