// The header reader (RFC 8999 sections 5 and 6): the form of a datagram and where its parts lie.
ghost use Rattle.std.specs.Prelude.{◌≡◌, true, false, not, ◌||◌, ℕ, ◌%◌, ◌<◌, ◌≤◌, eqb, length};
ghost use Rattle.lists.specs.Wire.{version_bytes};
ghost use Rattle.invariants.specs.Header.{is_long, read_header, header_reply};
ghost use Rattle.invariants.specs.Limits.{max_datagram};

use crate::fields::{destination_length, source_length, version_of};
use crate::{Header, MAX_CONNECTION_ID, MAX_DATAGRAM};
use lists::{Span, VERSION_BYTES};
use refusals::Refusal;

// Reads a datagram's header. Refusals, in order: 11 (over MAX_DATAGRAM bytes), 12 (empty, a field runs past
// the end, or a short form's told length is over MAX_CONNECTION_ID), 13 (a Version Negotiation list is
// empty, or bytes are left over). Else the form, with the version of a long form and where each connection
// ID and the rest lie. `told` is the length of a short form's destination connection ID; a long form
// ignores it.
#[tactic(auto, unfolding(crate::specs::Header::read_header))]
pub fn read_header(datagram: &[u8], told: usize) -> Result<Header, Refusal>
    ensures { header_reply result ≡ read_header datagram.now told }
{
    if MAX_DATAGRAM < datagram.len() {
        return Err(Refusal::DATAGRAM_TOO_LONG);
    }
    if datagram.is_empty() {
        return Err(Refusal::TRUNCATED);
    }
    if datagram[0] < 128 {
        read_short(datagram, told)
    } else {
        read_long(datagram)
    }
}

// The short form of a datagram of 1 to MAX_DATAGRAM bytes.
#[tactic(auto, unfolding(crate::specs::Header::read_header))]
fn read_short(datagram: &[u8], told: usize) -> Result<Header, Refusal>
    requires datagram_nonzero { 0 < length datagram.now }
    requires datagram_len_bound { length datagram.now ≤ max_datagram }
    requires datagram_value { is_long datagram.now ≡ false }
    ensures { header_reply result ≡ read_header datagram.now told }
{
    if MAX_CONNECTION_ID < told {
        return Err(Refusal::TRUNCATED);
    }
    let destination_end = 1 + told;
    if datagram.len() < destination_end {
        return Err(Refusal::TRUNCATED);
    }
    Ok(Header::Short {
        destination: Span {
            start: 1,
            end: destination_end,
        },
        rest: Span {
            start: destination_end,
            end: datagram.len(),
        },
    })
}

// The long form of a datagram of 1 to MAX_DATAGRAM bytes, whatever the told length.
#[tactic(auto, unfolding(crate::specs::Header::read_header))]
fn read_long(datagram: &[u8]) -> Result<Header, Refusal>
    requires datagram_nonzero { 0 < length datagram.now }
    requires datagram_len_bound { length datagram.now ≤ max_datagram }
    requires datagram_value { is_long datagram.now ≡ true }
    ensures { (told : ℕ) → header_reply result ≡ read_header datagram.now told }
{
    let length = datagram.len();
    let destination_bytes = destination_length(datagram);
    let destination_end = 6 + destination_bytes;
    let source_start = 7 + destination_bytes;
    let rest_start = source_start + source_length(datagram);
    if length < rest_start {
        return Err(Refusal::TRUNCATED);
    }
    let destination = Span {
        start: 6,
        end: destination_end,
    };
    let source = Span {
        start: source_start,
        end: rest_start,
    };
    let rest = Span {
        start: rest_start,
        end: length,
    };
    let version = version_of(datagram);
    if version != 0 {
        return Ok(Header::Long {
            version,
            destination,
            source,
            rest,
        });
    }
    if not_whole(length - rest_start) {
        return Err(Refusal::LIST_NOT_WHOLE);
    }
    Ok(Header::VersionNegotiation {
        destination,
        source,
        list: rest,
    })
}

// Whether a list of so many bytes is empty, or has bytes left over.
fn not_whole(count: usize) -> bool
    ensures { result ≡ (eqb count 0 || not (eqb (count % version_bytes) 0)) }
{
    count == 0 || count % VERSION_BYTES != 0
}
