// Refusals: each number of document 01's table under a name for its one cause, and the close code
// that goes with it.
#![tactic(auto)]

ghost use Rattle.std.specs.Prelude.{◌≡◌};
ghost use Rattle.refusals.specs.Table.{numbers, table};
ghost use Rattle.refusals.specs.Close.{close_of, code_in};

// A refusal is its number in document 01's table. It is no enum of those numbers: `close_code` answers for any number, and
// 255 stands for what is no record (attempt::NOT_A_RECORD).
#[derive(Clone, Copy, PartialEq, Eq)]
pub struct Refusal(pub u8);

impl Refusal {
    // 11: the datagram has over 65,535 bytes.
    pub const DATAGRAM_TOO_LONG: Refusal = Refusal(11);
    // 12: the datagram is empty, a field runs past its end, or a short form's told length is over 255.
    pub const TRUNCATED: Refusal = Refusal(12);
    // 13: a Version Negotiation list is empty, or bytes are left over (reader only).
    pub const LIST_NOT_WHOLE: Refusal = Refusal(13);
    // 20: the datagram to answer has under 1,200 bytes.
    pub const DATAGRAM_TOO_SMALL: Refusal = Refusal(20);
    // 21: the packet to answer has the short form.
    pub const SHORT_FORM: Refusal = Refusal(21);
    // 22: the packet to answer has version 0.
    pub const VERSION_NEGOTIATION_RECEIVED: Refusal = Refusal(22);
    // 23: the offered table breaks its rule.
    pub const BAD_OFFERED_TABLE: Refusal = Refusal(23);
    // 24: the received version is in the offered table.
    pub const RECEIVED_VERSION_OFFERED: Refusal = Refusal(24);
    // 25: the unused bits are over 127.
    pub const UNUSED_BITS_TOO_LARGE: Refusal = Refusal(25);
    // 26: the buffer is shorter than the packet.
    pub const NO_ROOM_FOR_PACKET: Refusal = Refusal(26);
    // 28: the reserved numbers of the packet break their rule, or the received version is among them.
    pub const BAD_RESERVED_IN_PACKET: Refusal = Refusal(28);
    // 31: the information has under 4 bytes.
    pub const INFORMATION_TOO_SHORT: Refusal = Refusal(31);
    // 32: the information's length is not a multiple of four.
    pub const INFORMATION_NOT_IN_FOURS: Refusal = Refusal(32);
    // 33: the information has over 1,024 bytes, or over 255 entries to write.
    pub const INFORMATION_TOO_LONG: Refusal = Refusal(33);
    // 34: the Chosen Version is 0.
    pub const CHOSEN_IS_ZERO: Refusal = Refusal(34);
    // 35: an Available Version is 0.
    pub const AVAILABLE_HOLDS_ZERO: Refusal = Refusal(35);
    // 36: from a client, the Chosen Version is not among the Available Versions.
    pub const CHOSEN_NOT_AVAILABLE: Refusal = Refusal(36);
    // 37: the buffer is shorter than the information to write.
    pub const NO_ROOM_FOR_INFORMATION: Refusal = Refusal(37);
    // 40: the list to choose from has over 16,382 entries.
    pub const LIST_TOO_LONG: Refusal = Refusal(40);
    // 41: a table of versions (not the offered one) breaks its rule.
    pub const BAD_TABLE: Refusal = Refusal(41);
    // 42: nothing of the table is in the list.
    pub const NOTHING_IN_COMMON: Refusal = Refusal(42);
    // 43: the pairs or the barred pairs break their rule, or over 64 versions are barred.
    pub const BAD_PAIRS: Refusal = Refusal(43);
    // 44: the Original Version is not in the table.
    pub const ORIGINAL_NOT_IN_TABLE: Refusal = Refusal(44);
    // 45: a connection ID has over 20 bytes.
    pub const CONNECTION_ID_TOO_LONG: Refusal = Refusal(45);
    // 47: the reserved numbers of the client's list, or their places in it, break their rule.
    pub const BAD_RESERVED_IN_LIST: Refusal = Refusal(47);
    // 51: the Chosen Version is not the first flight's version.
    pub const CHOSEN_NOT_RECEIVED: Refusal = Refusal(51);
    // 61: the datagram is not a readable Version Negotiation packet.
    pub const NOT_VERSION_NEGOTIATION: Refusal = Refusal(61);
    // 62: the attempt has ended (any event); or, for Version Negotiation, it acted or heard before.
    pub const TOO_LATE: Refusal = Refusal(62);
    // 63: the packet's destination ID is not our source ID, or its source ID is not our destination ID.
    pub const OTHER_CONNECTION: Refusal = Refusal(63);
    // 64: the packet lists the Original Version.
    pub const LISTS_ORIGINAL: Refusal = Refusal(64);
    // 65: the packet and the table have nothing in common; the attempt has ended.
    pub const NO_VERSION_LEFT: Refusal = Refusal(65);
    // 71: acted, the information is missing, and the attempted version is not 1.
    pub const INFORMATION_MISSING: Refusal = Refusal(71);
    // 72: the Chosen Version is not in our own list.
    pub const CHOSEN_NOT_OURS: Refusal = Refusal(72);
    // 73: the Chosen Version (or, if it is missing and we never acted, the attempted version) is not in use.
    pub const CHOSEN_NOT_IN_USE: Refusal = Refusal(73);
    // 74: acted, and there are no Available Versions.
    pub const AVAILABLE_EMPTY: Refusal = Refusal(74);
    // 75: acted, and the choice from Available and the version in use is not the attempted version.
    pub const DOWNGRADED: Refusal = Refusal(75);
    // 80: the sequence of transport parameters, read or to write, has over 16,384 bytes.
    pub const SEQUENCE_TOO_LONG: Refusal = Refusal(80);
    // 81: a field of the sequence, or an integer, runs past the end.
    pub const RUNS_PAST_THE_END: Refusal = Refusal(81);
    // 82: an identifier occurs twice in the sequence.
    pub const IDENTIFIER_REPEATED: Refusal = Refusal(82);
    // 83: the integer to write is over 2^62 - 1.
    pub const INTEGER_TOO_LARGE: Refusal = Refusal(83);
    // 84: the buffer is shorter than the integer or the sequence to write.
    pub const NO_ROOM_TO_WRITE: Refusal = Refusal(84);
    // 85: the sequence, read or to write, has over 64 parameters.
    pub const TOO_MANY_PARAMETERS: Refusal = Refusal(85);
}

impl From<Refusal> for u32 {
    fn from(refusal: Refusal) -> u32
        ensures { result ≡ refusal.0 }
    {
        u32::from(refusal.0)
    }
}

// The kind of call that gave a refusal. Only what was read from the peer can close a connection.
#[derive(Clone, Copy)]
pub enum Call {
    // A reader, the server's choice, an event.
    Reading,
    // A writer.
    Writing,
}

// How many numbers document 01's table has.
pub const COUNT: usize = 42;

// Every number of document 01's table, in its order. Total, and it refuses nothing.
pub fn all_numbers() -> [u8; COUNT]
    ensures { result ≡ numbers }
{
    [
        Refusal::DATAGRAM_TOO_LONG.0,
        Refusal::TRUNCATED.0,
        Refusal::LIST_NOT_WHOLE.0,
        Refusal::DATAGRAM_TOO_SMALL.0,
        Refusal::SHORT_FORM.0,
        Refusal::VERSION_NEGOTIATION_RECEIVED.0,
        Refusal::BAD_OFFERED_TABLE.0,
        Refusal::RECEIVED_VERSION_OFFERED.0,
        Refusal::UNUSED_BITS_TOO_LARGE.0,
        Refusal::NO_ROOM_FOR_PACKET.0,
        Refusal::BAD_RESERVED_IN_PACKET.0,
        Refusal::INFORMATION_TOO_SHORT.0,
        Refusal::INFORMATION_NOT_IN_FOURS.0,
        Refusal::INFORMATION_TOO_LONG.0,
        Refusal::CHOSEN_IS_ZERO.0,
        Refusal::AVAILABLE_HOLDS_ZERO.0,
        Refusal::CHOSEN_NOT_AVAILABLE.0,
        Refusal::NO_ROOM_FOR_INFORMATION.0,
        Refusal::LIST_TOO_LONG.0,
        Refusal::BAD_TABLE.0,
        Refusal::NOTHING_IN_COMMON.0,
        Refusal::BAD_PAIRS.0,
        Refusal::ORIGINAL_NOT_IN_TABLE.0,
        Refusal::CONNECTION_ID_TOO_LONG.0,
        Refusal::BAD_RESERVED_IN_LIST.0,
        Refusal::CHOSEN_NOT_RECEIVED.0,
        Refusal::NOT_VERSION_NEGOTIATION.0,
        Refusal::TOO_LATE.0,
        Refusal::OTHER_CONNECTION.0,
        Refusal::LISTS_ORIGINAL.0,
        Refusal::NO_VERSION_LEFT.0,
        Refusal::INFORMATION_MISSING.0,
        Refusal::CHOSEN_NOT_OURS.0,
        Refusal::CHOSEN_NOT_IN_USE.0,
        Refusal::AVAILABLE_EMPTY.0,
        Refusal::DOWNGRADED.0,
        Refusal::SEQUENCE_TOO_LONG.0,
        Refusal::RUNS_PAST_THE_END.0,
        Refusal::IDENTIFIER_REPEATED.0,
        Refusal::INTEGER_TOO_LARGE.0,
        Refusal::NO_ROOM_TO_WRITE.0,
        Refusal::TOO_MANY_PARAMETERS.0,
    ]
}

// The transport error code to close the connection with after a refusal (RFC 9000 section 20.1, RFC 9368 section 10.2), for
// any number: document 01's table for what was read, none for a writer and for a number that the table does not have.
// Total, and it refuses nothing.
pub fn close_code(refusal: Refusal, call: Call) -> Option<u64>
    ensures { result ≡ close_of refusal.0 call }
{
    match call {
        Call::Reading => code_in_the_table(refusal.0),
        Call::Writing => None,
    }
}

// The close code in the row of a number; none for a number that the table does not have.
#[tactic(auto, using(crate::proofs::Codes::by_ranges))]
fn code_in_the_table(number: u8) -> Option<u64>
    ensures { result ≡ code_in table number }
{
    match number {
        31..=36 | 80..=82 | 85 => Some(0x08),
        51 | 71..=75 => Some(0x11),
        _ => None,
    }
}
