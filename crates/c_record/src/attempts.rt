// The start of an attempt, its own list and its Version Information, over the record without enums.
ghost use Rattle.std.specs.Prelude.{◌≡◌, length};
ghost use Rattle.refusals.specs.Written.{written_reply, counted, leaves};
ghost use Rattle.attempt.specs.Attempt.{over};
ghost use Rattle.attempt.specs.Start.{input_of, blank};
ghost use Rattle.c_record.specs.Records.{record_of, start_record, own_record, own_count, record_information, shown_left};

use crate::coding::{counts_fit, marks_fit};
use crate::{Record, RecordAndRefusal};
use attempt::own::put_members;
use attempt::{MAX_ID, NOT_A_RECORD};
use client_information::write_as_sent;
use client_start::start;
use client_verdict::Fitting;
use journal::empty;
use refusals::Refusal;
use versions::MAX_TABLE;
use versions::table::place_of;

// Starts an attempt: its record and 0. Refusals, in order: 41, 43, 44, 45, with the record of no attempt.
pub fn start_record(
    table: &[u32],
    pairs: &[[u32; 2]],
    barred: &[[u32; 2]],
    original: u32,
    destination: &[u8],
    source: &[u8],
) -> RecordAndRefusal
    ensures { shown_left result ≡ start_record (input_of table.now pairs.now barred.now original destination.now source.now) }
{
    match start(table, pairs, barred, original, destination, source) {
        Ok(attempt) => RecordAndRefusal {
            attempt: Record::from(Fitting { attempt }),
            refusal: 0,
        },
        Err(refusal) => RecordAndRefusal {
            attempt: no_attempt(),
            refusal: u32::from(refusal),
        },
    }
}

// The record of no attempt, which a refused start hands over: its end mark has a value that no attempt has.
#[tactic(auto, unfolding(crate::specs::Records::record_of, attempt::specs::Start::blank))]
fn no_attempt() -> Record
    ensures { result ≡ record_of blank }
{
    Record {
        rows: [0; MAX_TABLE],
        table: [0; MAX_TABLE],
        destination: [0; MAX_ID],
        source: [0; MAX_ID],
        table_len: 0,
        destination_len: 0,
        source_len: 0,
        original: 0,
        attempted: 0,
        acted: 0,
        heard: 0,
        end_mark: 2,
        end_value: 0,
        journal: empty(),
    }
}

// Puts the own list of an attempt at the front of the places, and answers how many versions it has; none for a record that
// could not be an attempt's. It refuses nothing. The places past the list keep their values. (Always inlined: where it is
// called the whole record is copied first.)
#[inline(always)]
pub fn put_own(held: Record, versions: &mut [u32; MAX_TABLE]) -> Option<usize>
    ensures answer { result ≡ own_count held }
    ensures left { versions.new ≡ over (own_record held) versions.old }
{
    if !marks_fit(held) || !counts_fit(held) {
        return None;
    }
    let table = held.table;
    // (`as`: Rust has no From between these widths; that the value fits is proved.)
    let length = held.table_len as usize;
    let place = place_of(&table[..length], held.attempted)?;
    let rows = held.rows;
    let count = put_members(&table[..length], rows[place], versions);
    Some(count)
}

// Writes the client's Version Information of a record's attempt, with reserved numbers, each with its place in the list as
// sent, and answers the byte count. Refusals, in order, each of which leaves the buffer as found: 255 for a record that
// could not be an attempt's, 37, 47. Bytes of the buffer past the count keep their values.
pub fn write_record_information(
    held: Record,
    reserved: &[[u32; 2]],
    buffer: &mut [u8],
) -> Result<usize, Refusal>
    ensures answer { written_reply result ≡ counted (record_information held reserved.now (length buffer.old)) }
    ensures left { buffer.new ≡ leaves (record_information held reserved.now (length buffer.old)) buffer.old }
{
    let mut versions = [0u32; MAX_TABLE];
    let Some(count) = put_own(held, &mut versions) else {
        return Err(NOT_A_RECORD);
    };
    write_as_sent(held.attempted, &versions[..count], reserved, buffer)
}
