// The record of an attempt, and back. Every attempt has one record; not every record has an attempt.
ghost use Rattle.std.specs.Prelude.{true, ◌≡◌};
ghost use Rattle.attempt.specs.Step.{counts_fit};
ghost use Rattle.c_record.specs.Records.{is_record, marks_fit, mark_fits, attempt_of, record_of, end_of, mark_of, mark_value};

use crate::Record;
use attempt::{Attempt, End, MAX_ID};
use client_verdict::{Fitting, could_be_attempt};
use refusals::Refusal;
use versions::MAX_TABLE;

// Whether what is judged of a record is as an attempt has it: flags, end mark, counts, and that the attempted version is
// in the table. It refuses nothing.
#[tactic(auto, unfolding(crate::specs::Records::is_record))]
pub fn is_record(held: Record) -> bool
    ensures { result ≡ is_record held }
{
    marks_fit(held) && could_be_attempt(decode(held))
}

// Whether flags and end mark are as an attempt has them.
pub(crate) fn marks_fit(held: Record) -> bool
    ensures { result ≡ marks_fit held }
{
    held.acted <= 1 && held.heard <= 1 && mark_fits(held.end_mark, held.end_value)
}

// Whether the counts are within their arrays. The table's is judged last: the compiler then knows it where the table is
// searched, and searches several entries at a time.
#[tactic(auto, unfolding(crate::specs::Records::attempt_of))]
pub(crate) fn counts_fit(held: Record) -> bool
    ensures { result ≡ counts_fit (attempt_of held) }
{
    // (`as`: Rust has no From between these widths; that the value fits is proved.)
    held.destination_len as usize <= MAX_ID
        && held.source_len as usize <= MAX_ID
        && held.table_len as usize <= MAX_TABLE
}

fn mark_fits(mark: u32, value: u32) -> bool
    ensures { result ≡ mark_fits mark value }
{
    match mark {
        0 => value == 0,
        1 => true,
        2 => value <= 255,
        _ => false,
    }
}

// The attempt of a record. (No TryFrom, and no Option. Tried: an event then copies its record, and `qv_event` takes 3,384
// bytes of stack where scripts/event_code asks for under 960.)
pub(crate) fn decode(held: Record) -> Attempt
    requires { marks_fit held ≡ true }
    ensures { result ≡ attempt_of held }
{
    // (`as`: Rust has no From between these widths; that the value fits is proved.)
    let table_len = held.table_len as usize;
    let destination_len = held.destination_len as usize;
    let source_len = held.source_len as usize;
    let table = held.table;
    let rows = held.rows;
    let destination = held.destination;
    let source = held.source;
    let journal = held.journal;
    let end = end_of(held.end_mark, held.end_value);
    Attempt {
        table,
        table_len,
        rows,
        destination,
        destination_len,
        source,
        source_len,
        original: held.original,
        attempted: held.attempted,
        acted: held.acted == 1,
        heard: held.heard == 1,
        end,
        journal,
    }
}

// How an attempt ended, by its mark.
fn end_of(mark: u32, value: u32) -> End
    requires { mark_fits mark value ≡ true }
    ensures { result ≡ end_of mark value }
{
    match mark {
        0 => End::Open,
        1 => End::Completed(value),
        // (`as`: Rust has no From between these widths; that the value fits is proved.)
        _ => End::Closed(Refusal(value as u8)),
    }
}

// The record of an attempt.
impl From<Fitting> for Record {
    #[tactic(auto, using(crate::proofs::Records::flag_byte), unfolding(crate::specs::Records::record_of))]
    fn from(fitting: Fitting) -> Record
        ensures { result ≡ record_of fitting.attempt }
    {
        let attempt = fitting.attempt;
        // (`as`: Rust has no From between these widths; that the value fits is proved.)
        let table_len = attempt.table_len as u32;
        let destination_len = attempt.destination_len as u32;
        let source_len = attempt.source_len as u32;
        let table = attempt.table;
        let rows = attempt.rows;
        let destination = attempt.destination;
        let source = attempt.source;
        let journal = attempt.journal;
        let end = attempt.end;
        Record {
            rows,
            table,
            destination,
            source,
            table_len,
            destination_len,
            source_len,
            original: attempt.original,
            attempted: attempt.attempted,
            acted: u32::from(attempt.acted),
            heard: u32::from(attempt.heard),
            end_mark: mark_of(end),
            end_value: value_of(end),
            journal,
        }
    }
}

fn mark_of(end: End) -> u32
    ensures { result ≡ mark_of end }
{
    match end {
        End::Open => 0,
        End::Completed(_) => 1,
        End::Closed(_) => 2,
    }
}

fn value_of(end: End) -> u32
    ensures { result ≡ mark_value end }
{
    match end {
        End::Open => 0,
        End::Completed(version) => version,
        End::Closed(refusal) => u32::from(refusal),
    }
}
