// The client's attempt (RFC 9368 sections 2.1 and 4): its record, its events, its answers. specs/ has what a start and
// an event do to it, proofs/ has demand 3.
#![tactic(auto)]

pub mod own; // the own list of an attempt

use journal::Journal;
use refusals::Refusal;
use versions::MAX_TABLE;

// The longest connection ID of an attempt (RFC 9000 section 17.2).
pub const MAX_ID: usize = 20;

// The refusal of a host's record that no start handed back: a number outside document 01's table.
pub const NOT_A_RECORD: Refusal = Refusal(255);

// How an attempt stands.
#[derive(Clone, Copy)]
pub enum End {
    Open,
    // Completed with the version in use.
    Completed(u32),
    // Closed with a refusal: 31 to 35, 65, 71 to 75.
    Closed(Refusal),
}

// The record of one attempt (document 01's term). It is what a start handed back, changed since by
// events alone. Places past a count are 0. The arrays have counts beside them and are no slices: the record is plain memory
// that a host keeps and copies, with no heap, and a record of any shape is answered (`step_any`).
#[derive(Clone, Copy)]
pub struct Attempt {
    // The table of versions, best first.
    pub table: [u32; MAX_TABLE],
    // How many entries the table has, 1 to MAX_TABLE.
    pub table_len: usize,
    // Bit j of row i: entry j may be answered when entry i is attempted.
    pub rows: [u64; MAX_TABLE],
    // Our destination connection ID.
    pub destination: [u8; MAX_ID],
    pub destination_len: usize,
    // Our source connection ID.
    pub source: [u8; MAX_ID],
    pub source_len: usize,
    // The version of the first flight that this attempt began with.
    pub original: u32,
    // The version that is attempted now.
    pub attempted: u32,
    // A Version Negotiation packet was acted on (document 01's term).
    pub acted: bool,
    // A genuine packet other than Version Negotiation was processed (document 01's "heard").
    pub heard: bool,
    pub end: End,
    // The last event answers and the count of all events (document 02, C-20). No event reads it, and every event changes it.
    pub journal: Journal,
}

// What happens to an attempt.
#[derive(Clone, Copy)]
pub enum Event<'a> {
    // A datagram came.
    Datagram(&'a [u8]),
    // A genuine packet other than Version Negotiation was processed (document 01's "heard").
    PacketProcessed,
    // The handshake ended with this version in use, and with Version Information, which is authenticated, or without.
    Outcome {
        in_use: u32,
        information: Option<&'a [u8]>,
    },
}

// What an event answers that is not refused.
#[derive(Clone, Copy)]
pub enum Answer {
    // The attempt acted on a Version Negotiation packet: attempt this version now.
    Acted(u32),
    // Noted: later Version Negotiation packets are ignored.
    Noted,
    // The attempt has completed with this version.
    Completed(u32),
}

// What a step hands back: the record, whatever the answer is.
#[derive(Drop)]
pub struct Stepped {
    pub attempt: Attempt,
    pub answer: Result<Answer, Refusal>,
}

// The own list of an attempt (document 01's term): every table entry that is the attempted version, or is
// paired from it by a pair that is not barred, in table order. Places past the count are 0. An array beside a count, since
// there is no heap.
#[derive(Drop)]
pub struct OwnList {
    pub versions: [u32; MAX_TABLE],
    pub count: usize,
}
