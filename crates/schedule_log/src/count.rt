// Counts of events.
ghost use Rattle.std.specs.Prelude.{◌≡◌};
ghost use Rattle.schedule_log.specs.Schedule.{count_of};

use conda_base::is_decimal;

/// The most events that one line of a schedule may ask for.
const MAX_COUNT: u32 = 67_108_864;

// A count in decimal digits, with no leading zero.
pub(crate) fn read_count(digits: &[u8]) -> Option<u32>
    ensures { result ≡ count_of digits.now }
{
    if digits.is_empty() || digits[0] == b'0' {
        return None;
    }
    let mut count = 0u32;
    for digit in digits {
        if !is_decimal(*digit) {
            return None;
        }
        count = count * 10 + u32::from(*digit - b'0');
        if count > MAX_COUNT {
            return None;
        }
    }
    Some(count)
}
