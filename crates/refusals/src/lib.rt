// Reasons for saying no: for each call the first that applies.
#![tactic(auto)]

ghost use Rattle.std.specs.Prelude.{◌≡◌, not, ◌||◌, List, [], ◌∷◌, ◌↔◌, ℕ, ◌*◌, ◌%◌, ◌≤◌, eqb, ltb, length, IsSome};
ghost use Rattle.std.specs.Prelude.{IfOk};
ghost use Rattle.operations.specs.Kinds.{kind_in_model};
ghost use Rattle.store.specs.Store.{object_of};
ghost use Rattle.store.specs.Layout.{BookLong, base, decode, Packed};
ghost use Rattle.store.proofs.Decisions.{whether_sound};
ghost use Rattle.store.specs.Soundness.{Sound};
ghost use Rattle.protocol.specs.Calls.{lent_operation, operation_words, batch_limit};
ghost use Rattle.protocol.specs.Calls.{some_above as SomeAbove, is_of as IsOf};
ghost use Rattle.protocol.specs.Calls.{wrong_length, unsound, above_last, not_active, without_kind};
ghost use Rattle.protocol.specs.Calls.{own_reasons, first, set_up_reason, begin_reason, batch_reason, operate_reason};
ghost use Rattle.protocol.specs.Calls.{end_reason, contents_reason};
ghost use Rattle.protocol.specs.Lent.{lent_operations};
ghost use Rattle.protocol.specs.Refusals.{reason_of};
ghost use Rattle.protocol.proofs.Laws.Reasons.{Silent};
ghost use Rattle.protocol.proofs.Laws.Lent.{needed_of};
ghost use Rattle.refusals.specs.Reasons.{asker_reasons, row_limits};

use layout::{LAST_OBJECT, LAST_TRANSACTION};
use operations::{Kind, MEMBER, MODIFY, PUSH, SET_INSERT, TABLE_INSERT, TOP};
use protocol::{OPERATION_WORDS, Refusal};

// A kind's byte is at most this.
const LAST_KIND: u8 = Kind::Table as u8;

// ---- Tests that calls share

fn long(book: &[u32]) -> Result<(), Refusal>
    ensures { reason_of result ≡ first ((1, wrong_length book.now) ∷ []) }
{
    if book.len() != layout::WORDS {
        return Err(Refusal::WrongLength);
    }
    Ok(())
}

fn sound(book: &[u32]) -> Result<(), Refusal>
    ensures { reason_of result ≡ first ((1, wrong_length book.now) ∷ (4, unsound whether_sound book.now) ∷ []) }
{
    long(book)?;
    if !sound::sound(book) {
        return Err(Refusal::Unsound);
    }
    Ok(())
}

// Of transactions that can be.
fn numbered(transaction: u32) -> Result<(), Refusal>
    ensures { reason_of result ≡ first ((5, above_last transaction) ∷ []) }
{
    if transaction > LAST_TRANSACTION {
        return Err(Refusal::NoSuchTransaction);
    }
    Ok(())
}

fn active(book: &[u32], transaction: u32) -> Result<(), Refusal>
    requires { BookLong book.now × (transaction ≤ 63) }
    ensures { reason_of result ≡ first ((7, not_active (decode base book.now) transaction) ∷ []) }
{
    if statuses::status_word(book, transaction) != statuses::ACTIVE {
        return Err(Refusal::NotActive);
    }
    Ok(())
}

// ---- Set up and begin

// Whether a kind is above the last.
fn some_above(kinds: &[u8]) -> bool
    ensures { result ≡ SomeAbove 3 kinds.now }
{
    kinds.iter().any(|kind| *kind > LAST_KIND)
}

pub fn set_up(book: &[u32], kinds: &[u8]) -> Result<(), Refusal>
    ensures { reason_of result ≡ set_up_reason base book.now kinds.now }
{
    long(book)?;
    if kinds.len() != layout::OBJECTS || some_above(kinds) {
        return Err(Refusal::BadKinds);
    }
    Ok(())
}

pub fn begin(book: &[u32], transaction: u32) -> Result<(), Refusal>
    ensures { reason_of result ≡ begin_reason base whether_sound book.now transaction }
{
    sound(book)?;
    numbered(transaction)?;
    if statuses::status_word(book, transaction) != statuses::ABSENT {
        return Err(Refusal::AlreadyLive);
    }
    Ok(())
}

// ---- Operate and batch

// Of who asks: 1, 4, 5, 12 and 7. Whether too many operations are lent is handed in.
fn asker(book: &[u32], transaction: u32, many: bool) -> Result<(), Refusal>
    ensures { reason_of result ≡ first (asker_reasons book.now transaction many) }
{
    sound(book)?;
    numbered(transaction)?;
    if many {
        return Err(Refusal::TooMany);
    }
    active(book, transaction)
}

// The kind of an object that has one.
fn kind_of(book: &[u32], object: u32) -> Result<Kind, Refusal>
    requires { Packed base book.now }
    ensures reason { reason_of result ≡ first ((8, without_kind (decode base book.now) object) ∷ []) }
    ensures kind { IfOk result (λ kind. (object_of (decode base book.now) object).kind ≡ kind_in_model kind) }
{
    if object > LAST_OBJECT {
        return Err(Refusal::NoObject);
    }
    let Ok(kind) = Kind::try_from(layout::object_kind(book, object as usize)) else {
        return Err(Refusal::NoObject);
    };
    match kind {
        Kind::None => Err(Refusal::NoObject),
        _ => Ok(kind),
    }
}

// Whether the number is that of an operation of the kind.
fn is_of(kind: Kind, number: u32) -> bool
    ensures { result ≡ IsOf (kind_in_model kind) number }
{
    match kind {
        Kind::None => false,
        Kind::Stack => PUSH <= number && number <= TOP,
        Kind::Set => SET_INSERT <= number && number <= MEMBER,
        Kind::Table => TABLE_INSERT <= number && number <= MODIFY,
    }
}

// Reasons 8 and 9, which an operation has of its own.
fn own(book: &[u32], object: u32, number: u32) -> Result<(), Refusal>
    requires { Packed base book.now }
    ensures { reason_of result
        ≡ first (own_reasons (decode base book.now) (lent_operation object number 0 0 ∷ [])) }
{
    let kind = kind_of(book, object)?;
    if !is_of(kind, number) {
        return Err(Refusal::NotOfKind);
    }
    Ok(())
}

pub fn operate(book: &[u32], transaction: u32, object: u32, number: u32) -> Result<(), Refusal>
    ensures { (k v : ℕ)
        → reason_of result ≡ operate_reason base whether_sound book.now transaction object number k v }
{
    asker(book, transaction, false)?;
    own(book, object, number)?;
    if layout::entry_count(book) == layout::ENTRIES {
        return Err(Refusal::LogFull);
    }
    if answers::rows_needed(number) == 1 && answers::used(book, object as usize) >= layout::ROWS {
        return Err(Refusal::NoRoom);
    }
    Ok(())
}

// The first operation with an 8 or 9 of its own gives the reason.
fn first_own(book: &[u32], lent: &[[u32; OPERATION_WORDS]]) -> Result<(), Refusal>
    requires { Packed base book.now }
    ensures { reason_of result
        ≡ first (own_reasons (decode base book.now) (lent_operations lent.now)) }
{
    for &[object, number, ..] in lent {
        own(book, object, number)?;
    }
    Ok(())
}

// How many rows these operations may need of an object.
fn needed(lent: &[[u32; OPERATION_WORDS]], object: u32) -> usize
    ensures { (result ≡ needed_of object (lent_operations lent.now)) × (result ≤ length lent.now) }
{
    let mut needed: usize = 0;
    for &[on, number, ..] in lent {
        if on == object {
            needed += answers::rows_needed(number);
        }
    }
    needed
}

// Reason 11: each push and insert must find room, those before it counted with the logged ones.
fn roomy(book: &[u32], lent: &[[u32; OPERATION_WORDS]]) -> Result<(), Refusal>
    requires { Sound base book.now
        × Silent (own_reasons (decode base book.now) (lent_operations lent.now)) }
    ensures { (t : ℕ) → reason_of result ≡ first (row_limits t book.now (lent_operations lent.now)) }
{
    for (i, &[object, number, ..]) in lent.iter().enumerate() {
        if answers::rows_needed(number) == 1 {
            let used = answers::used(book, object as usize);
            if used + needed(&lent[..i], object) >= layout::ROWS {
                return Err(Refusal::NoRoom);
            }
        }
    }
    Ok(())
}

// Whether so many words are more operations than a batch may have, or have a part of one at their end.
fn too_many(words: usize) -> bool
    ensures { result ≡ ltb (operation_words * batch_limit) words || not (eqb (words % operation_words) 0) }
{
    words > OPERATION_WORDS * protocol::BATCH || words % OPERATION_WORDS != 0
}

// The limits count the batch together.
pub fn batch(book: &[u32], transaction: u32, operations: &[u32]) -> Result<(), Refusal>
    ensures { reason_of result ≡ batch_reason base whether_sound book.now transaction operations.now }
{
    asker(book, transaction, too_many(operations.len()))?;
    let lent = protocol::lent(operations);
    first_own(book, lent)?;
    if layout::entry_count(book) + lent.len() > layout::ENTRIES {
        return Err(Refusal::LogFull);
    }
    roomy(book, lent)
}

// ---- Finish, cancel and contents

// Of finish and of cancel. What was found of a sound book is handed in, and handed back where no reason applies.
pub fn end(
    book: &[u32],
    transaction: u32,
    len: usize,
    examined: Option<u64>,
) -> Result<u64, Refusal>
    requires { IsSome examined ↔ Sound base book.now }
    ensures reason { (list : List ℕ) → length list ≡ len
        → reason_of result ≡ end_reason base whether_sound book.now transaction list }
    ensures handed { (finished : ℕ) → result ≡ Ok finished → examined ≡ Some finished }
{
    long(book)?;
    if len < layout::LIST {
        return Err(Refusal::ShortList);
    }
    let finished = examined.ok_or(Refusal::Unsound)?;
    numbered(transaction)?;
    active(book, transaction)?;
    Ok(finished)
}

pub fn contents(book: &[u32], object: u32) -> Result<(), Refusal>
    ensures { reason_of result ≡ contents_reason base whether_sound book.now object }
{
    sound(book)?;
    kind_of(book, object)?;
    Ok(())
}
