// A reply, appended to a text as it is printed.
#![tactic(auto)]

ghost use Rattle.std.specs.Prelude.{◌≡◌, [], ◌∷◌, ◌++◌, map, ◌+◌, ◌*◌, ◌≤◌, length, take};
ghost use Rattle.arrayvec.specs.ArrayVec.{array_vec_len};
ghost use Rattle.operations.specs.Stored.{answer_of};
ghost use Rattle.bitset.specs.Bitset.{members};
ghost use Rattle.store.specs.Store.{transaction_count};
ghost use Rattle.protocol.specs.Calls.{batch_limit};
ghost use Rattle.protocol.specs.ReplyOf.{reply_of, batched_of, Filled};
ghost use Rattle.protocol.specs.Replies.{answer_numbers};
ghost use Rattle.replies.specs.Printed.{word_of, printed_numbers, spaced, printed};

use arrayvec::ArrayVec;
use operations::Answer;
use protocol::{BATCH, Batched, Reply};

// The most bytes of a reply with its line feed, 359: `answer` and the answers of a batch, each two numbers of a
// space and ten digits at most.
pub const MOST: usize = 6 + 2 * (1 + text::MOST_DIGITS) * BATCH + 1;

// Appends a number behind a space.
pub fn put_field<const N: usize>(out: &mut ArrayVec<u8, N>, number: u32)
    requires room { array_vec_len out.old + length (spaced (number ∷ [])) ≤ N }
    ensures text { out.new.items ≡ out.old.items ++ spaced (number ∷ []) }
    ensures few { array_vec_len out.new ≤ array_vec_len out.old + 11 }
{
    out.push(b' ');
    text::put_decimal(out, number);
}

// Appends the numbers at the front of a list, each a space and three digits at most.
fn put_front<const N: usize>(out: &mut ArrayVec<u8, N>, list: &[u8], count: u32)
    requires room { array_vec_len out.old + 4 * length list.now ≤ N }
    ensures text { out.new.items ≡ out.old.items ++ spaced (take count list.now) }
    ensures few { array_vec_len out.new ≤ array_vec_len out.old + 4 * length list.now }
{
    for byte in list.iter().take(count as usize) {
        put_field(out, u32::from(*byte));
    }
}

// Appends the members of a set, ascending: each a space and two digits at most. `journal_writer` puts them in groups of
// bits: a loop of its own is plainer than one that is handed how to put a number.
pub fn put_members<const N: usize>(out: &mut ArrayVec<u8, N>, set: u64)
    requires room { array_vec_len out.old + 3 * transaction_count ≤ N }
    ensures text { out.new.items ≡ out.old.items ++ spaced (members set) }
    ensures few { array_vec_len out.new ≤ array_vec_len out.old + 3 * transaction_count }
{
    for member in bitset::members(set) {
        put_field(out, member);
    }
}

// Appends an answer's numbers, each a space and ten digits at most.
#[tactic(auto, using(crate::proofs::Laws::Printing::field_few))]
fn put_answer<const N: usize>(out: &mut ArrayVec<u8, N>, code: u32, value: u32)
    requires room { array_vec_len out.old + 22 ≤ N }
    ensures text { out.new.items ≡ out.old.items ++ spaced (code ∷ value ∷ []) }
    ensures few { array_vec_len out.new ≤ array_vec_len out.old + 22 }
{
    put_field(out, code);
    put_field(out, value);
}

// Appends a batch's answers.
fn put_answers<const N: usize>(out: &mut ArrayVec<u8, N>, answers: &[Answer])
    requires room { array_vec_len out.old + 22 * batch_limit ≤ N }
    requires short { length answers.now ≤ batch_limit }
    ensures text { out.new.items ≡ out.old.items ++ spaced (answer_numbers (map answer_of answers.now)) }
    ensures few { array_vec_len out.new ≤ array_vec_len out.old + 22 * batch_limit }
{
    for answer in answers {
        put_answer(out, answer.code, answer.value);
    }
}

fn word(reply: Reply) -> &'static [u8]
    ensures { result.now ≡ word_of (reply_of reply) }
{
    match reply {
        Reply::Ok => b"ok",
        Reply::Answered(_, _) | Reply::Answers => b"answer",
        Reply::Wait(_, _) => b"wait",
        Reply::Finished => b"finished",
        Reply::Committed(_) => b"committed",
        Reply::Circle(_) => b"circle",
        Reply::Cancelled(_) => b"cancelled",
        Reply::Counted(_) => b"counted",
        Reply::Refused(_) => b"refused",
    }
}

// Appends the numbers behind the word.
#[tactic(auto, using(crate::proofs::Laws::Printing::field_few))]
fn put_numbers<const N: usize>(out: &mut ArrayVec<u8, N>, reply: Reply, list: &[u8])
    requires room { array_vec_len out.old + 256 ≤ N }
    requires short { length list.now ≤ 64 }
    ensures text { out.new.items ≡ out.old.items ++ spaced (printed_numbers (reply_of reply) list.now) }
    ensures few { array_vec_len out.new ≤ array_vec_len out.old + 256 }
{
    match reply {
        Reply::Ok | Reply::Answers | Reply::Finished => {}
        Reply::Answered(code, value) => put_answer(out, code, value),
        Reply::Wait(owners, count) => {
            put_field(out, count);
            put_members(out, owners);
        }
        Reply::Committed(count) | Reply::Circle(count) | Reply::Cancelled(count) => put_front(
            out, list, count,
        ),
        Reply::Counted(rows) => put_field(out, rows),
        Reply::Refused(reason) => put_field(out, reason),
    }
}

// Appends a reply without its line feed; a batch's answers stand beside it, and `put_batched` appends them.
pub fn put_reply<const N: usize>(out: &mut ArrayVec<u8, N>, reply: Reply, list: &[u8])
    requires room { array_vec_len out.old + 265 ≤ N }
    requires short { length list.now ≤ 64 }
    ensures text { out.new.items ≡ out.old.items ++ printed (reply_of reply) list.now }
    ensures few { array_vec_len out.new ≤ array_vec_len out.old + 265 }
{
    let _ = out.try_extend_from_slice(word(reply));
    put_numbers(out, reply, list);
}

// Appends a batch's reply without its line feed.
#[tactic(auto, using(protocol::proofs::Laws::Beside::filled_within))]
pub fn put_batched<const N: usize>(out: &mut ArrayVec<u8, N>, batched: Batched)
    requires room { array_vec_len out.old + 358 ≤ N }
    requires filled { Filled batched }
    ensures text { out.new.items ≡ out.old.items ++ printed (batched_of batched) [] }
    ensures few { array_vec_len out.new ≤ array_vec_len out.old + 358 }
{
    put_reply(out, batched.reply, b"");
    if let Reply::Answers = batched.reply {
        put_answers(out, &batched.answers[..batched.count]);
    }
}
