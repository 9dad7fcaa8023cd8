// A journal as text, a line for each record.
#![tactic(auto)]

ghost use Rattle.journal_text.specs.Listed.{Listing};

use arrayvec::ArrayVec;
use journal::Damage;

// The most bytes of a line.
pub const MOST_LINE: usize = 1_076;

// How far a journal was printed, how many bytes that takes, and what stands there: no record, or one for whose line
// there was no room, and the place behind it.
#[derive(Drop)]
pub struct Listed {
    pub at: usize,
    pub written: usize,
    pub next: Result<Option<usize>, Damage>,
}

// Puts a line for each record at the front of a buffer, as far as it has room. The buffer is the caller's: what stands
// behind is promised to stay.
pub fn list(bytes: &[u8], out: &mut [u8]) -> Listed
    ensures { Listing bytes.now out.old out.new result }
{
    let mut at: usize = 0;
    let mut written: usize = 0;
    loop {
        let (content, end) = match journal_reader::next(bytes, at) {
            Ok(Some(read)) => read,
            Ok(None) => {
                return Listed {
                    at,
                    written,
                    next: Ok(None),
                };
            }
            Err(damage) => {
                return Listed {
                    at,
                    written,
                    next: Err(damage),
                };
            }
        };
        if out.len() - written < MOST_LINE {
            return Listed {
                at,
                written,
                next: Ok(Some(end)),
            };
        }
        let mut line = ArrayVec::<u8, MOST_LINE>::new();
        listing::put_record(&mut line, &content);
        written = text::put(out, written, line.as_slice());
        at = end;
    }
}
