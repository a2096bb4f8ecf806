// Numbers in words.
ghost use Rattle.std.specs.Prelude.{◌≡◌, ◌<◌, ◌≤◌, IfSome, true, MatchOption};
ghost use Rattle.conda_base.specs.Digits.{number_after};
ghost use Rattle.command_words.specs.Options.{number_within};

use conda_base::is_numeral;

// The number that digits write, where it is no more than this.
fn number_up_to(digits: &[u8], most: u64) -> Option<u64>
    ensures { MatchOption result (most < number_after 0 digits.now)
        (λ n. (n ≡ number_after 0 digits.now) × (n ≤ most)) }
{
    let mut number = 0u64;
    for digit in digits {
        let next = u128::from(number) * 10 + u128::from(digit.saturating_sub(b'0'));
        if next > u128::from(most) {
            return None;
        }
        number = next as u64;
    }
    Some(number)
}

/// The number that a word is, where it lies in this range.
pub fn number_in(from: u64, to: u64, word: &str) -> Option<u64>
    ensures value { result ≡ number_within from to word.now }
    ensures range { IfSome result (λ n. (from ≤ n) × (n ≤ to)) }
{
    let digits = word.as_bytes();
    if !is_numeral(digits) {
        return None;
    }
    let number = number_up_to(digits, to)?;
    if from <= number { Some(number) } else { None }
}
