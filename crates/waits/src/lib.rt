// The operation that a call asks for: as it is stored, and whom it waits for.
#![tactic(auto)]

ghost use Rattle.std.specs.Prelude.{◌≡◌};
ghost use Rattle.operations.specs.Operations as model;
ghost use Rattle.operations.specs.PairRules.{Numbered};
ghost use Rattle.store.specs.Store.{on_object};
ghost use Rattle.store.specs.Layout.{base, decode};
ghost use Rattle.entry_log.specs.Log.{StoredAs};
ghost use Rattle.protocol.specs.Calls.{request as Request, owners as Owners};
ghost use Rattle.waits.specs.Waits.{Asked};

use operations::{Kind, Operation};

// The key reduced, and arguments that the operation doesn't use 0.
pub fn request(number: u32, key: u32, value: u32) -> Operation
    requires { Numbered number }
    ensures { StoredAs result (Request base number key value) }
{
    let (key, value) = match number {
        operations::PUSH => (key, 0),
        operations::POP | operations::TOP | operations::SIZE => (0, 0),
        operations::TABLE_INSERT | operations::MODIFY => (key % layout::KEYS, value),
        _ => (key % layout::KEYS, 0),
    };
    Operation { number, key, value }
}

// The set of those that force the request to wait: every other transaction with an entry on the object that the request
// isn't recoverable against. The paper names the form: a loop left by its label, with a match of kind and key in it.
pub fn owners(book: &[u32], transaction: u32, object: u32, requested: Operation) -> u64
    requires { Asked book.now object requested }
    ensures { (o : model.Operation) → StoredAs requested o
        → result ≡ Owners transaction o (on_object object (decode base book.now).log) }
{
    let entries = layout::entry_count(book);
    let mut set: u64 = 0;
    let mut i: usize = 0;
    'scan: loop {
        if i == entries {
            break 'scan set;
        }
        let owner = layout::entry_transaction(book, i);
        let on = layout::entry_object(book, i);
        let logged = layout::entry_operation(book, i);
        i += 1;
        if owner == transaction || on != object {
            continue 'scan;
        }
        let rule = match Kind::of(requested.number) {
            Kind::Stack => pairs::stack_recoverable(requested.number, logged.number),
            Kind::Set => pairs::set_recoverable(requested.number, logged.number),
            Kind::Table => pairs::table_recoverable(requested.number, logged.number),
            Kind::None => unreachable!(),
        };
        match rule {
            pairs::ALWAYS => continue 'scan,
            pairs::APART => {
                if requested.key != logged.key {
                    continue 'scan;
                }
            }
            _ => {}
        }
        set = bitset::join(set, bitset::single(owner));
    }
}
