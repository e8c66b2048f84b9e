// The attempt's record without enums, as C keeps it, and the client's functions over it: the start, the events, the
// own list. No function requires anything: a record that could not be an attempt's gets 255 and stays as found.
#![tactic(auto)]

pub mod attempts; // the start, the own list
pub mod coding; // the record of an attempt, and back
pub mod events; // the events

use attempt::MAX_ID;
use journal::Journal;
use versions::MAX_TABLE;

// The number for what no caller may hand over, outside document 01's table.
pub const NOT_VALID: u32 = 255;

// The record of an attempt. Fixed-width fields and no padding.
#[repr(C)]
#[derive(Clone, Copy)]
pub struct Record {
    // Bit j of row i: entry j may be answered when entry i is attempted.
    pub rows: [u64; MAX_TABLE],
    pub table: [u32; MAX_TABLE],
    pub destination: [u8; MAX_ID],
    pub source: [u8; MAX_ID],
    pub table_len: u32,
    pub destination_len: u32,
    pub source_len: u32,
    pub original: u32,
    pub attempted: u32,
    // 0 or 1.
    pub acted: u32,
    // 0 or 1.
    pub heard: u32,
    // 0 open, 1 completed, 2 closed.
    pub end_mark: u32,
    // 0; the version in use; document 01's number.
    pub end_value: u32,
    // The last event answers and the count of all events.
    pub journal: Journal,
}

// A record with the number of a refusal, 0 for none.
#[repr(C)]
#[derive(Drop)]
pub struct RecordAndRefusal {
    pub attempt: Record,
    pub refusal: u32,
}
