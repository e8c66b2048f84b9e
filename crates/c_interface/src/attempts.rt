// The attempt over its record without enums: the start, the events, the own list, the client's Version Information, the
// journal; the record's layout.
ghost use Rattle.std.specs.Prelude.{◌≡◌, length};
ghost use Rattle.refusals.specs.Written.{leaves};
ghost use Rattle.attempt.specs.Start.{input_of};
ghost use Rattle.c_record.specs.Records.{step_record, start_record, record_information, shown_left};
ghost use Rattle.c_interface.specs.Layout.{known_record, record_size};
ghost use Rattle.c_interface.specs.Numbers.{returned, leaving, own_answer, journal_answer, leaving_answers, used_told, count_told};

use crate::RECORD_SIZE;
use crate::handing::hand_over;
use attempt::MAX_ID;
use c_record::attempts::{put_own, start_record, write_record_information};
use c_record::coding::is_record;
use c_record::events::step_record;
use c_record::{NOT_VALID, Record, RecordAndRefusal};
use journal::{Journal, PLACES, tell};
use versions::MAX_TABLE;

// One event in place. `kind` is 0 for a datagram, 1 for a processed packet, 2 for an outcome with information given,
// 3 for one with it missing; `value` is the version in use of an outcome. `bytes` is the datagram, or the information
// that is given; else it is not read. Refusals, in order:
// 255 for a record that could not be an attempt's or another kind, which leaves the record as found, its journal too;
// a datagram: 61, 62, 63, 64, unchanged; 65, which ends the attempt;
// a processed packet: 62, unchanged;
// an outcome: 62, unchanged; 31 to 35 and 71 to 75, which end the attempt.
// "Unchanged" leaves the journal out: every answer but 255 is noted there.
#[unsafe(no_mangle)]
pub extern "C" fn qv_event(held: &mut Record, kind: u32, value: u32, bytes: &[u8]) -> u32
    ensures { (result ≡ (step_record held.old kind value bytes.now).refusal) ×
        (held.new ≡ (step_record held.old kind value bytes.now).left) }
{
    let out = step_record(*held, kind, value, bytes);
    *held = out.attempt;
    out.refusal
}

// Starts an attempt, with pairs that are barred for its flights: its record and 0; or 41, 43, 44, 45, with a record that
// is no attempt.
#[unsafe(no_mangle)]
pub extern "C" fn qv_start(
    table: &[u32],
    pairs: &[[u32; 2]],
    barred: &[[u32; 2]],
    original: u32,
    destination: &[u8],
    source: &[u8],
) -> RecordAndRefusal
    ensures { shown_left result ≡ start_record (input_of table.now pairs.now barred.now original destination.now source.now) }
{
    start_record(table, pairs, barred, original, destination, source)
}

// The own list of an attempt, for the client's Version Information: its versions and their count; places past it keep
// their values. Refusal: 255 for a record that could not be an attempt's, which leaves both as found.
#[unsafe(no_mangle)]
pub extern "C" fn qv_own_list(
    held: &Record,
    versions: &mut [u32; MAX_TABLE],
    count: &mut usize,
) -> u32
    ensures answer { result ≡ returned (own_answer held.now) }
    ensures list { versions.new ≡ leaves (own_answer held.now) versions.old }
    ensures counted { count.new ≡ leaving length (own_answer held.now) count.old }
{
    put_own_list(*held, versions, count)
}

// The same of a record by value.
#[tactic(auto, unfolding(c_record::specs::Records::own_record))]
fn put_own_list(held: Record, versions: &mut [u32; MAX_TABLE], count: &mut usize) -> u32
    ensures answer { result ≡ returned (own_answer held) }
    ensures list { versions.new ≡ leaves (own_answer held) versions.old }
    ensures counted { count.new ≡ leaving length (own_answer held) count.old }
{
    let Some(own) = put_own(held, versions) else {
        return NOT_VALID;
    };
    *count = own;
    0
}

// Writes the client's Version Information from its record: the attempted version as Chosen, and the own list as sent, with
// reserved numbers, each with its place in that list, counted from 0. It is no event: the record stays as it is. Refusals, in
// order: 255 for a record that could not be an attempt's, 37, 47, which leave buffer and count as found; else 0, and `count`
// bytes of the buffer are written.
#[unsafe(no_mangle)]
pub extern "C" fn qv_write_client_information(
    held: &Record,
    reserved: &[[u32; 2]],
    buffer: &mut [u8],
    count: &mut usize,
) -> u32
    ensures answer { result ≡ returned (record_information held.now reserved.now (length buffer.old)) }
    ensures left { buffer.new ≡ leaves (record_information held.now reserved.now (length buffer.old)) buffer.old }
    ensures counted { count.new ≡ leaving length (record_information held.now reserved.now (length buffer.old)) count.old }
{
    put_client_information(*held, reserved, buffer, count)
}

// The same of a record by value.
fn put_client_information(
    held: Record,
    reserved: &[[u32; 2]],
    buffer: &mut [u8],
    count: &mut usize,
) -> u32
    ensures answer { result ≡ returned (record_information held reserved.now (length buffer.old)) }
    ensures left { buffer.new ≡ leaves (record_information held reserved.now (length buffer.old)) buffer.old }
    ensures counted { count.new ≡ leaving length (record_information held reserved.now (length buffer.old)) count.old }
{
    hand_over(write_record_information(held, reserved, buffer), count)
}

// What happened to an attempt: its last event answers, oldest first, each the number of a refusal or 0 for none; how many of
// the places are used, the others are 0 and last; and the count of all events, which stops at 4,294,967,295. It is no event:
// the record stays as it is. Refusal: 255 for a record that could not be an attempt's, which leaves all three as found.
#[unsafe(no_mangle)]
pub extern "C" fn qv_read_journal(
    held: &Record,
    answers: &mut [u8; PLACES],
    used: &mut usize,
    count: &mut u32,
) -> u32
    ensures answer { result ≡ returned (journal_answer held.now) }
    ensures told { answers.new ≡ leaving_answers (journal_answer held.now) answers.old }
    ensures places { used.new ≡ leaving used_told (journal_answer held.now) used.old }
    ensures counted { count.new ≡ leaving count_told (journal_answer held.now) count.old }
{
    put_journal(*held, answers, used, count)
}

// The same of a record by value.
fn put_journal(held: Record, answers: &mut [u8; PLACES], used: &mut usize, count: &mut u32) -> u32
    ensures answer { result ≡ returned (journal_answer held) }
    ensures told { answers.new ≡ leaving_answers (journal_answer held) answers.old }
    ensures places { used.new ≡ leaving used_told (journal_answer held) used.old }
    ensures counted { count.new ≡ leaving count_told (journal_answer held) count.old }
{
    if !is_record(held) {
        return NOT_VALID;
    }
    let journal = held.journal;
    let told = tell(journal);
    let noted = told.answers;
    *answers = noted;
    *used = told.used;
    *count = told.count;
    0
}

// A record with known values in every field, to compare the layout with.
#[unsafe(no_mangle)]
#[tactic(auto, unfolding(crate::specs::Layout::known_record))]
pub extern "C" fn qv_known_record() -> Record
    ensures { result ≡ known_record }
{
    Record {
        rows: [0x1112131415161718; MAX_TABLE],
        table: [0x21222324; MAX_TABLE],
        destination: [0x31; MAX_ID],
        source: [0x32; MAX_ID],
        table_len: 0x41,
        destination_len: 0x42,
        source_len: 0x43,
        original: 0x44,
        attempted: 0x45,
        acted: 0x46,
        heard: 0x47,
        end_mark: 0x48,
        end_value: 0x49,
        journal: Journal {
            answers: [0x51; PLACES],
            count: 0x52,
        },
    }
}

// The size of the record in bytes.
#[unsafe(no_mangle)]
pub extern "C" fn qv_record_size() -> usize
    ensures { result ≡ record_size }
{
    RECORD_SIZE
}
