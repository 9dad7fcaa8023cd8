// The record of a call that was made, from the call and what was told of it.
#![tactic(auto)]

ghost use Rattle.std.specs.Prelude.{◌≡◌, true, [], ◌∷◌, map, ◌*◌, ◌≤◌, length, Some};
ghost use Rattle.operations.specs.Stored.{answer_of};
ghost use Rattle.store.specs.Store.{list_length};
ghost use Rattle.protocol.specs.Calls.{operation_words, batch_limit};
ghost use Rattle.protocol.specs.Replies.{answer_numbers as AnswerNumbers};
ghost use Rattle.protocol.specs.ReplyOf.{reply_of, batched_of, Filled};
ghost use Rattle.lines.specs.Coded.{call_of};
ghost use Rattle.serving.specs.Told.{outcome_of, FilledIn};
ghost use Rattle.recording.specs.Recording.{given_to, Recorded};
ghost use Rattle.recording.specs.Parts.{Begins, Called, NumbersPut, Completed};

use arrayvec::ArrayVec;
use codes::Numbers;
use journal::{ARGUMENTS, LISTED, Record};
use lines::Call;
use operations::Answer;
use protocol::{Batched, OPERATION_WORDS, Reply};
use serving::Told;

// ---- Numbers in a record's arrays, 0 behind them

fn array_of<const N: usize>(numbers: &[u32]) -> [u32; N]
    requires { length numbers.now ≤ N }
    ensures { Begins numbers.now result }
{
    let mut array = [0u32; N];
    array[..numbers.len()].copy_from_slice(numbers);
    array
}

// Bytes as numbers. They are written by place: an `ArrayVec` of any capacity asks for a bound on its size.
fn widened<const N: usize>(bytes: &[u8]) -> [u32; N]
    requires { length bytes.now ≤ N }
    ensures { Begins bytes.now result }
{
    let mut numbers = [0u32; N];
    for (i, byte) in bytes.iter().enumerate() {
        numbers[i] = u32::from(*byte);
    }
    numbers
}

// A batch's arguments: its transaction, then its operations.
fn batch_arguments(transaction: u32, operations: &[u32]) -> [u32; ARGUMENTS]
    requires { length operations.now ≤ operation_words * batch_limit }
    ensures { Begins (transaction ∷ operations.now) result }
{
    let mut arguments = ArrayVec::<u32, ARGUMENTS>::new();
    arguments.push(transaction);
    let _ = arguments.try_extend_from_slice(operations);
    array_of(&arguments)
}

// The numbers of a batch's answers.
fn answer_numbers(answers: &[Answer]) -> [u32; LISTED]
    requires { length answers.now ≤ batch_limit }
    ensures { Begins (AnswerNumbers (map answer_of answers.now)) result }
{
    let mut numbers = ArrayVec::<u32, LISTED>::new();
    for answer in answers {
        numbers.push(answer.code);
        numbers.push(answer.value);
    }
    array_of(&numbers)
}

// The numbers behind a reply code: an answer, or the list.
fn behind(told: Numbers, list: &[u8]) -> [u32; LISTED]
    requires { length list.now ≤ list_length }
    ensures { NumbersPut told list.now result }
{
    if told.code == codes::ANSWERED {
        array_of(&[told.answer, told.value])
    } else {
        widened(list)
    }
}

// ---- A call's part of its record

fn named(letter: u8, operations: usize, arguments: [u32; ARGUMENTS]) -> Record
    ensures { (result.letter ≡ letter) × (result.operations ≡ operations) × (result.arguments ≡ arguments) }
{
    Record {
        letter,
        operations,
        arguments,
        code: 0,
        owners: 0,
        listed: 0,
        numbers: [0; LISTED],
    }
}

fn called(call: &Call) -> Record
    ensures { Called (call_of call.now) result }
{
    match call {
        Call::SetUp(kinds) => named(b'S', 0, widened(kinds)),
        Call::Begin(transaction) => named(b'B', 0, array_of(&[*transaction])),
        Call::Operate {
            transaction,
            object,
            operation,
            key,
            value,
        } => named(
            b'I',
            0,
            array_of(&[*transaction, *object, *operation, *key, *value]),
        ),
        Call::Batch(transaction, operations) => named(
            b'G',
            operations.as_slice().len() / OPERATION_WORDS,
            batch_arguments(*transaction, operations.as_slice()),
        ),
        Call::Finish(transaction) => named(b'F', 0, array_of(&[*transaction])),
        Call::Cancel(transaction) => named(b'C', 0, array_of(&[*transaction])),
    }
}

// ---- The record

// Completes a call's part with its reply's numbers.
fn complete(content: &mut Record, told: Numbers, listed: usize, numbers: [u32; LISTED])
    requires { told.refusal ≡ 0 }
    ensures { Completed content.old told listed numbers (Some content.new) }
{
    content.code = told.code;
    content.owners = told.owners;
    content.listed = listed;
    content.numbers = numbers;
}

// A call that is refused has no record, and none is begun.
fn with_list(call: &Call, reply: Reply, list: &[u8]) -> Option<Record>
    requires given { given_to (call_of call.now) (reply_of reply) ≡ true }
    requires few { length list.now ≤ list_length }
    ensures { Recorded (call_of call.now) (reply_of reply) list.now result }
{
    let told = Numbers::from(reply);
    if told.refusal != protocol::ACCEPTED {
        return None;
    }
    let listed = list.len().min(told.count as usize);
    let mut content = called(call);
    complete(&mut content, told, listed, behind(told, &list[..listed]));
    Some(content)
}

fn with_answers(call: &Call, batched: &Batched) -> Option<Record>
    requires given { given_to (call_of call.now) (batched_of batched.now) ≡ true }
    requires filled { Filled batched.now }
    ensures { Recorded (call_of call.now) (batched_of batched.now) [] result }
{
    let told = Numbers::from(batched.reply);
    if told.refusal != protocol::ACCEPTED {
        return None;
    }
    let mut content = called(call);
    let numbers = answer_numbers(&batched.answers[..batched.count]);
    complete(&mut content, told, 0, numbers);
    Some(content)
}

pub fn record_of(call: &Call, told: &Told) -> Option<Record>
    requires given { given_to (call_of call.now) (outcome_of told.now).reply ≡ true }
    requires filled { FilledIn told.now }
    ensures { Recorded (call_of call.now) (outcome_of told.now).reply (outcome_of told.now).list result }
{
    match told {
        Told::Plain(reply) => with_list(call, *reply, b""),
        Told::Listed(reply, list) => with_list(call, *reply, list),
        Told::Answered(batched) => with_answers(call, batched),
    }
}
