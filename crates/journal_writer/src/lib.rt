// A record written: its bytes, or none where the reader would turn it away.
#![tactic(auto)]

ghost use Rattle.std.specs.Prelude.{◌≡◌, true, false, [], ◌+◌, ◌≤◌, ◌++◌, length};
ghost use Rattle.arrayvec.specs.ArrayVec.{array_vec_len};
ghost use Rattle.bitset.specs.Bitset.{members};
ghost use Rattle.journal.specs.Groups.{groups, grouped, narrow};
ghost use Rattle.journal.specs.Records.{reply_numbers, arguments_of, argument_numbers, arguments_fit as ArgumentsFit};
ghost use Rattle.journal.specs.Records.{reply_fits as ReplyFits};
ghost use Rattle.journal.specs.Records.{shaped, fits, written};
ghost use Rattle.journal.specs.Coded.{front, argument_count, reply_of, record_of};
ghost use Rattle.journal_writer.specs.Written.{bytes_said, bytes_put};

use arrayvec::ArrayVec;
use journal::{LISTED, MOST, Record};
use protocol::BATCH;

// A byte is a group of seven bits, and above them the bit that says that more groups follow.
const GROUP: u32 = 128;

const MORE: u8 = 128;

// ---- Which records the reader takes

// Whether a record has the arguments of a call.
#[tactic(auto, using(crate::specs::Laws::Shape::arguments_right))]
fn arguments_fit(content: &Record) -> bool
    ensures { result ≡ ArgumentsFit content.now.letter (record_of content.now).arguments
        (arguments_of content.now.letter) }
{
    letters::arguments_of(content.letter).is_some()
        && (content.letter != letters::BATCH || content.operations <= BATCH)
}

// Whether it has a reply of that call.
#[tactic(auto, using(crate::specs::Laws::Shape::reply_right))]
fn reply_fits(content: &Record) -> bool
    ensures { result ≡ ReplyFits content.now.letter (record_of content.now).arguments (reply_of content.now) }
{
    if !letters::has_reply(content.letter) {
        return true;
    }
    letters::gives(content.letter, content.code)
        && (content.code <= codes::ANSWERED || content.listed <= LISTED)
}

// Whether a record is one that the reader takes, whatever its numbers are.
fn is_shaped(content: &Record) -> bool
    ensures { result ≡ shaped (record_of content.now) }
{
    arguments_fit(content) && reply_fits(content)
}

// ---- Numbers

// Puts the groups of a number, lowest first.
fn put_number(out: &mut ArrayVec<u8, MOST>, number: u32)
    requires { array_vec_len out.old + length (groups number) ≤ MOST }
    ensures { out.new.items ≡ out.old.items ++ groups number }
{
    let mut left = number;
    while GROUP <= left {
        out.push(MORE + (left % GROUP) as u8);
        left /= GROUP;
    }
    out.push(left as u8);
}

// Puts numbers, one behind the other.
fn put_numbers(out: &mut ArrayVec<u8, MOST>, numbers: &[u32])
    requires { array_vec_len out.old + length (grouped numbers.now) ≤ MOST }
    ensures bytes { out.new.items ≡ out.old.items ++ grouped numbers.now }
    ensures small { narrow numbers.now ≡ true }
{
    for number in numbers {
        put_number(out, *number);
    }
}

// Puts the members of a set, ascending.
fn put_members(out: &mut ArrayVec<u8, MOST>, set: u64)
    requires { array_vec_len out.old + length (grouped (members set)) ≤ MOST }
    ensures { out.new.items ≡ out.old.items ++ grouped (members set) }
{
    for member in bitset::members(set) {
        put_number(out, member);
    }
}

// ---- The parts of a record

// Puts the arguments of a call, a batch's operations behind their count.
#[tactic(auto, using(crate::specs::Laws::Shape::most))]
fn put_arguments(out: &mut ArrayVec<u8, MOST>, content: &Record)
    requires shape { shaped (record_of content.now) ≡ true }
    requires room { array_vec_len out.old
        + length (grouped (argument_numbers content.now.letter (record_of content.now).arguments)) ≤ MOST }
    ensures bytes { out.new.items ≡ out.old.items
        ++ grouped (argument_numbers content.now.letter (record_of content.now).arguments) }
    ensures small { narrow (argument_numbers content.now.letter (record_of content.now).arguments) ≡ true }
{
    let count = letters::argument_count(content.letter, content.operations);
    let arguments = &content.arguments[..count];
    if content.letter != letters::BATCH {
        put_numbers(out, arguments);
        return;
    }
    let (transaction, operations) = arguments.split_at(1);
    put_numbers(out, transaction);
    put_number(out, content.operations as u32);
    put_numbers(out, operations);
}

// Puts the reply code and the reply, where there is one.
#[tactic(auto, using(crate::specs::Laws::Shape::most))]
fn put_reply(out: &mut ArrayVec<u8, MOST>, content: &Record)
    requires shape { shaped (record_of content.now) ≡ true }
    requires room { array_vec_len out.old + length (grouped (reply_numbers (reply_of content.now))) ≤ MOST }
    ensures bytes { out.new.items ≡ out.old.items ++ grouped (reply_numbers (reply_of content.now)) }
    ensures small { narrow (reply_numbers (reply_of content.now)) ≡ true }
{
    if !letters::has_reply(content.letter) {
        return;
    }
    put_number(out, content.code);
    if content.code == codes::WAIT {
        put_number(out, bitset::size(content.owners));
        put_members(out, content.owners);
        return;
    }
    if content.code == codes::ANSWERED {
        let count = letters::answer_count(content.letter, content.operations);
        put_numbers(out, &content.numbers[..count]);
        return;
    }
    put_number(out, content.listed as u32);
    put_numbers(out, &content.numbers[..content.listed]);
}

// Puts the bytes of a record into an array, in place of what it held; whether the reader takes such a record. Where it
// doesn't, the array is left empty. The last clause: numbers of the code have 32 bits.
pub fn write_into(out: &mut ArrayVec<u8, MOST>, content: &Record) -> bool
    ensures bytes { bytes_put result out.new ≡ written (record_of content.now) }
    ensures none { result ≡ false → out.new.items ≡ [] }
    ensures fits { shaped (record_of content.now) ≡ true → fits (record_of content.now) ≡ true }
{
    out.clear();
    if !is_shaped(content) {
        return false;
    }
    out.push(content.letter);
    put_arguments(out, content);
    put_reply(out, content);
    true
}

// The bytes of a record. The second clause: numbers of the code have 32 bits.
pub fn write(content: &Record) -> Option<ArrayVec<u8, MOST>>
    ensures bytes { bytes_said result ≡ written (record_of content.now) }
    ensures fits { shaped (record_of content.now) ≡ true → fits (record_of content.now) ≡ true }
{
    let mut out = ArrayVec::new();
    if !write_into(&mut out, content) {
        return None;
    }
    Some(out)
}
