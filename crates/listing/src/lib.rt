// A record of a journal, appended to a text as a line.
#![tactic(auto)]

ghost use Rattle.std.specs.Prelude.{◌≡◌, true, ◌++◌, ◌+◌, ◌*◌, ◌≤◌, length};
ghost use Rattle.arrayvec.specs.ArrayVec.{array_vec_len};
ghost use Rattle.bitset.specs.Bitset.{members};
ghost use Rattle.replies.specs.Printed.{spaced};
ghost use Rattle.journal.specs.Records.{shaped, wait};
ghost use Rattle.journal.specs.Coded.{reply_of, record_of};
ghost use Rattle.listing.specs.Listing.{reply_text, record_line, most_line};
ghost use Rattle.listing.specs.Room.{most_number, most_wait, most_reply, list_word};

use arrayvec::ArrayVec;
use journal::Record;

// Appends numbers, a space before each.
fn put_spaced<const N: usize>(out: &mut ArrayVec<u8, N>, numbers: &[u32])
    requires room { array_vec_len out.old + most_number * length numbers.now ≤ N }
    ensures text { out.new.items ≡ out.old.items ++ spaced numbers.now }
    ensures few { array_vec_len out.new ≤ array_vec_len out.old + most_number * length numbers.now }
{
    for number in numbers {
        replies::put_field(out, *number);
    }
}

// The word of a reply code that is no wait's.
fn word(code: u32) -> &'static [u8]
    ensures { result.now ≡ list_word code }
{
    match code {
        codes::ANSWERED => b"answer",
        codes::FINISHED => b"finished",
        codes::COMMITTED => b"committed",
        codes::CIRCLE => b"circle",
        _ => b"cancelled",
    }
}

// Appends a wait for the members of a set.
#[tactic(auto, using(replies::proofs::Laws::Printing::field_few))]
fn put_wait<const N: usize>(out: &mut ArrayVec<u8, N>, owners: u64)
    requires room { array_vec_len out.old + most_wait ≤ N }
    ensures text { out.new.items ≡ out.old.items ++ reply_text (wait (members owners)) }
    ensures few { array_vec_len out.new ≤ array_vec_len out.old + most_wait }
{
    let _ = out.try_extend_from_slice(b"wait");
    replies::put_field(out, bitset::size(owners));
    replies::put_members(out, owners);
}

// Appends the word of a reply code that is no wait's, and numbers behind it.
fn put_list<const N: usize>(out: &mut ArrayVec<u8, N>, code: u32, numbers: &[u32])
    requires room { array_vec_len out.old + length (list_word code) + most_number * length numbers.now ≤ N }
    ensures text { out.new.items ≡ out.old.items ++ (list_word code ++ spaced numbers.now) }
    ensures few { array_vec_len out.new
        ≤ array_vec_len out.old + length (list_word code) + most_number * length numbers.now }
{
    let _ = out.try_extend_from_slice(word(code));
    put_spaced(out, numbers);
}

// Appends the reply of a record that a journal has.
#[tactic(auto, using(crate::proofs::Laws::Shapes::bounds))]
fn put_reply<const N: usize>(out: &mut ArrayVec<u8, N>, content: &Record)
    requires room { array_vec_len out.old + most_reply (reply_of content.now) ≤ N }
    requires shape { shaped (record_of content.now) ≡ true }
    ensures text { out.new.items ≡ out.old.items ++ reply_text (reply_of content.now) }
    ensures few { array_vec_len out.new ≤ array_vec_len out.old + most_reply (reply_of content.now) }
{
    if !letters::has_reply(content.letter) {
        let _ = out.try_extend_from_slice(b"ok");
        return;
    }
    match content.code {
        codes::WAIT => put_wait(out, content.owners),
        codes::ANSWERED => {
            let count = letters::answer_count(content.letter, content.operations);
            put_list(out, codes::ANSWERED, &content.numbers[..count]);
        }
        code => put_list(out, code, &content.numbers[..content.listed]),
    }
}

// Appends a record that a journal has as a line.
#[tactic(auto, using(crate::proofs::Laws::Shapes::few_arguments))]
pub fn put_record<const N: usize>(out: &mut ArrayVec<u8, N>, content: &Record)
    requires room { array_vec_len out.old + most_line ≤ N }
    requires shape { shaped (record_of content.now) ≡ true }
    ensures text { out.new.items ≡ out.old.items ++ record_line (record_of content.now) }
    ensures few { array_vec_len out.new ≤ array_vec_len out.old + most_line }
{
    let count = letters::argument_count(content.letter, content.operations);
    out.push(content.letter);
    put_spaced(out, &content.arguments[..count]);
    out.push(b'\t');
    put_reply(out, content);
    out.push(b'\n');
}
