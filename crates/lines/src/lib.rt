// A line of a script, read as a call.
#![tactic(auto)]

ghost use Rattle.std.specs.Prelude.{◌≡◌, ◌*◌, ◌≤◌, length};
ghost use Rattle.protocol.specs.Calls.{operation_words, batch_limit};
ghost use Rattle.lines.specs.Lines.{asked, set_up_of, batch_of, call_in};
ghost use Rattle.lines.specs.Coded.{words_of, call_said};

use arrayvec::ArrayVec;
use layout::OBJECTS;
use protocol::{BATCH, OPERATION_WORDS};

// The words of a batch's operations.
pub const MOST_OPERATIONS: usize = OPERATION_WORDS * BATCH;

// A batch has the most: its transaction, and these.
pub const MOST_ARGUMENTS: usize = 1 + MOST_OPERATIONS;

const SPACE: u8 = b' ';

// The operations of a batch. No `ArrayVec`, since that is not `Copy`.
#[derive(Clone, Copy)]
pub struct Operations {
    pub words: [u32; MOST_OPERATIONS],
    // how many words in front are theirs
    pub count: usize,
}

impl Operations {
    // Their words: all, where it counts more.
    pub fn as_slice(&self) -> &[u32]
        ensures same { result.now ≡ words_of self.now }
        ensures few { length result.now ≤ operation_words * batch_limit }
    {
        &self.words[..self.count.min(MOST_OPERATIONS)]
    }
}

// What a line asks for.
#[derive(Clone, Copy)]
pub enum Call {
    // the kinds
    SetUp([u8; OBJECTS]),
    Begin(u32),
    Operate {
        transaction: u32,
        object: u32,
        operation: u32,
        // or the item
        key: u32,
        value: u32,
    },
    // with its transaction
    Batch(u32, Operations),
    Finish(u32),
    Cancel(u32),
}

// A set up of these kinds, each a byte, the missing ones 0.
fn set_up(arguments: &[u32]) -> Option<Call>
    ensures { call_said result ≡ set_up_of arguments.now }
{
    if OBJECTS < arguments.len() {
        return None;
    }
    let mut kinds = [0u8; OBJECTS];
    for (i, argument) in arguments.iter().enumerate() {
        kinds[i] = u8::try_from(*argument).ok()?;
    }
    Some(Call::SetUp(kinds))
}

// A batch: the first is its transaction, the others are its operations, four numbers for each.
fn batch(arguments: &[u32]) -> Option<Call>
    ensures { call_said result ≡ batch_of arguments.now }
{
    let (transaction, operations) = arguments.split_first()?;
    let count = operations.len();
    if MOST_OPERATIONS < count || count % OPERATION_WORDS != 0 {
        return None;
    }
    let mut words = [0u32; MOST_OPERATIONS];
    words[..count].copy_from_slice(operations);
    Some(Call::Batch(*transaction, Operations { words, count }))
}

// The call of a letter with these arguments.
pub fn line_of(letter: u8, arguments: &[u32]) -> Option<Call>
    ensures { call_said result ≡ asked letter arguments.now }
{
    match (letter, arguments) {
        (b'S', _) => set_up(arguments),
        (b'G', _) => batch(arguments),
        (b'B', &[transaction]) => Some(Call::Begin(transaction)),
        (b'I', &[transaction, object, operation, key, value]) => Some(Call::Operate {
            transaction,
            object,
            operation,
            key,
            value,
        }),
        (b'F', &[transaction]) => Some(Call::Finish(transaction)),
        (b'C', &[transaction]) => Some(Call::Cancel(transaction)),
        _ => None,
    }
}

// The call that a line asks for: its first field is a letter alone, the others are numbers. A line whose second byte is
// no space is turned away by that, and not looked through for one.
pub fn read_line(line: &[u8]) -> Option<Call>
    ensures { call_said result ≡ call_in line.now }
{
    if 1 < line.len() && line[1] != SPACE {
        return None;
    }
    let mut fields = line.split(|byte| *byte == SPACE);
    let first = fields.next()?;
    let &[letter] = first else {
        return None;
    };
    let mut arguments = ArrayVec::<u32, MOST_ARGUMENTS>::new();
    for field in fields {
        arguments.try_push(text::read_number(field)?).ok()?;
    }
    line_of(letter, &arguments)
}
