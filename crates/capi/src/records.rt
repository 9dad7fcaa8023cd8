// The journal's writer and reader for programs in other languages, by C's rules of calling. None asks anything of its
// arguments.
ghost use Rattle.std.specs.Prelude.{◌≡◌, ◌≤◌, length, drop};
ghost use Rattle.journal.specs.Records.{written};
ghost use Rattle.journal.specs.Reading.{step, records_in};
ghost use Rattle.journal.specs.Coded.{record_of, cause_of};
ghost use Rattle.journal_reader.specs.Said.{count_of};
ghost use Rattle.capi.specs.Records.{handed, cause_number, SaysNext, SaysCount};

use arrayvec::ArrayVec;
use journal::{BAD_RECORD, Cause, MOST, Record};
use protocol::ACCEPTED;

// Why a record cannot be read: 0 where it can, else the number of the cause, which C alone has.
const NO_CAUSE: u32 = 0;

const CUT: u32 = 1;

const LETTER: u32 = 2;

const CODE: u32 = 3;

const OWNERS: u32 = 4;

const LIST: u32 = 5;

const BATCH: u32 = 6;

const LONG_FORM: u32 = 7;

const WIDTH: u32 = 8;

// What write record replies: a record's bytes and their number; or 13, and none.
#[repr(C)]
#[derive(Drop)]
pub struct Written {
    pub refusal: u32,
    pub count: usize,
    pub bytes: [u8; MOST],
}

// What next record replies: 1 found, with the record and the place behind it; 0 at the end; or 13, the cause, and the
// place of the letter or number that cannot be read. The content is a record only where one is found.
#[repr(C)]
#[derive(Drop)]
pub struct NextRecord {
    pub refusal: u32,
    pub found: u32,
    pub cause: u32,
    pub place: usize,
    pub content: Record,
}

// What count records replies: how many there are; or 13, the cause, and the place that cannot be read.
#[repr(C)]
#[derive(Drop)]
pub struct CountedRecords {
    pub refusal: u32,
    pub cause: u32,
    pub place: usize,
    pub records: usize,
}

fn number_of(cause: Cause) -> u32
    ensures { result ≡ cause_number (cause_of cause) }
{
    match cause {
        Cause::Cut => CUT,
        Cause::Letter => LETTER,
        Cause::Code => CODE,
        Cause::Owners => OWNERS,
        Cause::List => LIST,
        Cause::Batch => BATCH,
        Cause::LongForm => LONG_FORM,
        Cause::Width => WIDTH,
    }
}

#[unsafe(no_mangle)]
pub extern "C" fn lending_desk_write_record(content: Record) -> Written
    ensures { result ≡ handed (written (record_of content)) }
{
    let mut record = ArrayVec::new();
    let mut bytes = [0; MOST];
    if !journal_writer::write_into(&mut record, &content) {
        return Written {
            refusal: BAD_RECORD,
            count: 0,
            bytes,
        };
    }
    let count = record.len();
    bytes[..count].copy_from_slice(record.as_slice());
    Written {
        refusal: ACCEPTED,
        count,
        bytes,
    }
}

#[unsafe(no_mangle)]
pub extern "C" fn lending_desk_next_record(bytes: &[u8], at: usize) -> NextRecord
    ensures { SaysNext bytes.now result (step (drop at bytes.now))
        × (result.place ≤ length bytes.now) }
{
    let mut content = Record::EMPTY;
    if bytes.len() <= at {
        return NextRecord {
            refusal: ACCEPTED,
            found: 0,
            cause: NO_CAUSE,
            place: 0,
            content,
        };
    }
    match journal_reader::read_record(bytes, at, &mut content) {
        Ok(place) => NextRecord {
            refusal: ACCEPTED,
            found: 1,
            cause: NO_CAUSE,
            place,
            content,
        },
        // With what was read until then.
        Err(damage) => NextRecord {
            refusal: BAD_RECORD,
            found: 0,
            cause: number_of(damage.cause),
            place: damage.place,
            content,
        },
    }
}

#[unsafe(no_mangle)]
pub extern "C" fn lending_desk_count_records(bytes: &[u8]) -> CountedRecords
    ensures { SaysCount bytes.now result (count_of (records_in bytes.now))
        × (result.place ≤ length bytes.now) }
{
    match journal_reader::read(bytes) {
        Ok(records) => CountedRecords {
            refusal: ACCEPTED,
            cause: NO_CAUSE,
            place: 0,
            records,
        },
        Err(damage) => CountedRecords {
            refusal: BAD_RECORD,
            cause: number_of(damage.cause),
            place: damage.place,
            records: 0,
        },
    }
}
