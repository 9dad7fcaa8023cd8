// Numbers in groups of seven bits, read at a place of any bytes: one, several, or a count.
#![tactic(auto)]

ghost use Rattle.std.specs.Prelude.{◌≡◌, ◌≤◌, ◌<◌, length, get_or, drop};
ghost use Rattle.journal.specs.Groups.{number, numbers};
ghost use Rattle.journal.specs.Reading.{count};
ghost use Rattle.journal.specs.Coded.{cause_of};
ghost use Rattle.journal_numbers.specs.Parts.{Reads, first, second, itself};

use journal::{Cause, Damage, GROUPS};

// A group this large is not the last, and the next ones count so many times as much.
const GROUP: u64 = 128;

// A number whose first group is not the last.
fn read_groups(bytes: &[u8], at: usize, low: u64) -> Result<(u32, usize), Damage>
    requires { (at < length bytes.now) × (low ≡ get_or bytes.now at 0) × (128 ≤ low) × (low < 256) }
    ensures { Reads bytes.now at first second result (number (drop at bytes.now)) }
{
    let mut value = low - GROUP;
    let mut scale = GROUP;
    // By index, as the place behind the number is wanted too.
    for i in 1..GROUPS {
        let Some(byte) = bytes.get(at + i) else {
            return Err(Cause::Cut.at(at));
        };
        let group = *byte as u64;
        if group == 0 {
            return Err(Cause::LongForm.at(at));
        }
        if group < GROUP {
            let Ok(number) = u32::try_from(value + scale * group) else {
                return Err(Cause::Width.at(at));
            };
            return Ok((number, at + i + 1));
        }
        value += scale * (group - GROUP);
        scale *= GROUP;
    }
    Err(Cause::Width.at(at))
}

// A number, and the place behind it.
pub fn read_number(bytes: &[u8], at: usize) -> Result<(u32, usize), Damage>
    requires { at ≤ length bytes.now }
    ensures { Reads bytes.now at first second result (number (drop at bytes.now)) }
{
    let Some(byte) = bytes.get(at) else {
        return Err(Cause::Cut.at(at));
    };
    let low = *byte as u64;
    if low < GROUP {
        return Ok((low as u32, at + 1));
    }
    read_groups(bytes, at, low)
}

// As many numbers as there is room for, and the place behind them.
pub fn read_numbers(bytes: &[u8], at: usize, into: &mut [u32]) -> Result<usize, Damage>
    requires { at ≤ length bytes.now }
    ensures { Reads bytes.now at (λ end. into.new) itself result (numbers (length into.old) (drop at bytes.now)) }
{
    let mut place = at;
    for number in into.iter_mut() {
        let (value, behind) = read_number(bytes, place)?;
        *number = value;
        place = behind;
    }
    Ok(place)
}

// How many follow, at most so many, and the place behind that; where it is more, `past` is why.
pub fn read_count(
    bytes: &[u8],
    at: usize,
    most: usize,
    past: Cause,
) -> Result<(usize, usize), Damage>
    requires { at ≤ length bytes.now }
    ensures { Reads bytes.now at first second result (count most (cause_of past) (drop at bytes.now)) }
{
    let (n, behind) = read_number(bytes, at)?;
    if most < n as usize {
        return Err(past.at(at));
    }
    Ok((n as usize, behind))
}
