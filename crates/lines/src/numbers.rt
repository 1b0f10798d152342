// Numbers of one to five decimal digits.
ghost use Rattle.std.specs.Prelude.{◌≡◌, ◌<◌, ◌≤◌, length, if◌then◌else◌, Some, None, Ok, Err};
ghost use Rattle.lines.specs.Shape.{all_digits, value_on, read_number};

use crate::faults::LineFault;

const MOST_DIGITS: usize = 5;

// The number that at most five digits write, if all bytes are digits.
fn digits(text: &[u8]) -> Option<u32>
    requires { length text.now ≤ 5 }
    ensures { result ≡ (if all_digits text.now then Some (value_on 0 text.now) else None) }
{
    let mut sum = 0u32;
    for b in text {
        if !b.is_ascii_digit() {
            return None;
        }
        sum = 10 * sum + u32::from(*b - b'0');
    }
    Some(sum)
}

// One to five digits, with no leading zero but for 0.
pub fn read_number(text: &[u8]) -> Result<u32, LineFault>
    ensures { result ≡ read_number text.now }
{
    let number = match text {
        [] | [b'0', _, ..] => None,
        _ if text.len() > MOST_DIGITS => None,
        _ => digits(text),
    };
    number.ok_or(LineFault::Shape)
}
