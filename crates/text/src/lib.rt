// Numbers in decimal, as bytes: read from a field, and appended to a text.
#![tactic(auto)]

ghost use Rattle.std.specs.Prelude.{◌≡◌, ◌+◌, ◌≤◌, ◌==◌, ◌++◌, length};
ghost use Rattle.std.specs.List.{position};
ghost use Rattle.arrayvec.specs.ArrayVec.{array_vec_len};
ghost use Rattle.text.specs.Text.{number_in, decimal};
ghost use Rattle.text.specs.Fields.{number_said, Put};
ghost use Rattle.text.specs.Finding.{index_of, slice};

use arrayvec::ArrayVec;
use itoa::Buffer;

// Digits of a number, leading zeros among them.
pub const MOST_DIGITS: usize = 10;

// The number that a field says: one to ten digits that fit 32 bits.
pub fn read_number(field: &[u8]) -> Option<u32>
    ensures { number_said result ≡ number_in field.now }
{
    if field.is_empty() || MOST_DIGITS < field.len() {
        return None;
    }
    let mut value: u32 = 0;
    for byte in field {
        if !byte.is_ascii_digit() {
            return None;
        }
        value = value.checked_mul(10)?.checked_add(u32::from(byte - b'0'))?;
    }
    Some(value)
}

// The place of the first separator.
fn first(text: &[u8], separator: u8) -> Option<usize>
    ensures { result ≡ position (λ b. b == separator) text.now }
{
    text.iter().position(|byte| *byte == separator)
}

// The place of the first separator in the part of a text from one place to another, or the part's end.
pub fn find(text: &[u8], from: usize, to: usize, separator: u8) -> usize
    requires { (from ≤ to) × (to ≤ length text.now) }
    ensures { (result ≡ from + index_of separator (slice from to text.now)) × (result ≤ to) }
{
    from + first(&text[from..to], separator).unwrap_or(to - from)
}

// Puts a text at a place of a buffer; the place behind it.
pub fn put(out: &mut [u8], at: usize, text: &[u8]) -> usize
    requires { at + length text.now ≤ length out.old }
    ensures { Put out.old at text.now out.new result }
{
    let end = at + text.len();
    out[at..end].copy_from_slice(text);
    end
}

// Appends a number's digits, as few as say it.
#[tactic(auto, using(crate::proofs::Laws::Decimals::decimal_printed))]
pub fn put_decimal<const N: usize>(out: &mut ArrayVec<u8, N>, number: u32)
    requires { array_vec_len out.old + length (decimal number) ≤ N }
    ensures { out.new.items ≡ out.old.items ++ decimal number }
{
    let mut buffer = Buffer::new();
    let _ = out.try_extend_from_slice(buffer.format(number).as_bytes());
}
