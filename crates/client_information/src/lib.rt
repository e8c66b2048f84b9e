// The client's Version Information (RFC 9368 section 3), written from its record: the attempted version as Chosen, and the
// own list as sent, with reserved numbers (RFC 9000 sections 6.3 and 15). It is a call, and no event: the record stays as it
// is. Every function answers for every input.
#![tactic(auto)]

ghost use Rattle.std.specs.Prelude.{◌≡◌, ◌++◌, ◌+◌, ◌*◌, ◌^◌, ◌≤◌, ◌<◌, length, drop};
ghost use Rattle.refusals.specs.Written.{written_reply, counted, leaves};
ghost use Rattle.lists.specs.Wire.{list_bytes, version_bytes};
ghost use Rattle.attempt.specs.AsSent.{given_for, sent_at, sent_count, list_as_sent, is_taken, given_keep_rule};
ghost use Rattle.client_information.specs.ClientInformation.{information_as_sent, client_information_of};
ghost use Rattle.client_information.specs.Parts.{next_after};

use attempt::Attempt;
use attempt::own::own_list;
use lists::{VERSION_BYTES, put_list};
use refusals::Refusal;
use versions::MAX_RESERVED;
use versions::table::is_reserved;

// Writes the client's Version Information from its record, and answers the byte count: the attempted version as Chosen,
// then the own list as sent. Each reserved number comes with its place in that list, counted from 0; the own versions fill
// the rest in table order. For any record value, of an attempt that has ended too. Refusals, in order, each of which leaves
// the buffer as found: 37 (the buffer is shorter than the information, with all reserved numbers that are given), 47 (there
// are over MAX_RESERVED of them, one is not reserved or is there twice, a place is taken twice, or is past the list's end).
// Bytes of the buffer past the count keep their values. (A number and its place are an array of two, as C hands them over.)
pub fn write_client_information(
    attempt: Attempt,
    reserved: &[[u32; 2]],
    buffer: &mut [u8],
) -> Result<usize, Refusal>
    ensures answer { written_reply result ≡ counted (client_information_of attempt reserved.now (length buffer.old)) }
    ensures left { buffer.new ≡ leaves (client_information_of attempt reserved.now (length buffer.old)) buffer.old }
{
    let own = own_list(attempt);
    write_as_sent(
        attempt.attempted,
        &own.versions[..own.count],
        reserved,
        buffer,
    )
}

// The same of a Chosen Version and any own list.
pub fn write_as_sent(
    chosen: u32,
    own: &[u32],
    reserved: &[[u32; 2]],
    buffer: &mut [u8],
) -> Result<usize, Refusal>
    ensures answer { written_reply result ≡ counted (information_as_sent chosen own.now reserved.now (length buffer.old)) }
    ensures left { buffer.new ≡ leaves (information_as_sent chosen own.now reserved.now (length buffer.old)) buffer.old }
{
    let entries = own.len() + reserved.len();
    let count = VERSION_BYTES + VERSION_BYTES * entries;
    if buffer.len() < count {
        return Err(Refusal::NO_ROOM_FOR_INFORMATION);
    }
    if !are_given(reserved, entries) {
        return Err(Refusal::BAD_RESERVED_IN_LIST);
    }
    put_list(&[chosen], buffer);
    put_as_sent(own, reserved, &mut buffer[VERSION_BYTES..]);
    Ok(count)
}

// Whether reserved numbers and their places keep their rule in a list of so many entries. Of more than MAX_RESERVED it
// reads none.
fn are_given(reserved: &[[u32; 2]], entries: usize) -> bool
    ensures { result ≡ given_keep_rule entries reserved.now }
{
    if MAX_RESERVED < reserved.len() {
        return false;
    }
    for i in 0..reserved.len() {
        let one = reserved[i];
        if !is_reserved(one[0]) {
            return false;
        }
        // (`as`: Rust has no From between these widths; that the value fits is proved.)
        if entries <= one[1] as usize {
            return false;
        }
        if is_taken(one, &reserved[i + 1..]) {
            return false;
        }
    }
    true
}

// Whether one of the others has its number or its place.
fn is_taken(one: [u32; 2], others: &[[u32; 2]]) -> bool
    ensures { result ≡ is_taken one others.now }
{
    others
        .iter()
        .any(|other| other[0] == one[0] || other[1] == one[1])
}

// Puts the list as sent at the front of a buffer that has room for it.
fn put_as_sent(own: &[u32], reserved: &[[u32; 2]], buffer: &mut [u8])
    requires { version_bytes * sent_count own.now reserved.now ≤ length buffer.old }
    ensures { buffer.new ≡ list_bytes (list_as_sent own.now reserved.now) ++
        drop (version_bytes * sent_count own.now reserved.now) buffer.old }
{
    let entries = own.len() + reserved.len();
    let mut next = 0;
    for place in 0..entries {
        let given = given_for(reserved, place);
        let version = sent_at(given, own, next);
        put_list(&[version], &mut buffer[place * VERSION_BYTES..]);
        next = own_after(given, next);
    }
}

// The reserved number that is given for a place, if there is one. (By `find` a list of 64 with four of them took a quarter
// more time.)
fn given_for(reserved: &[[u32; 2]], place: usize) -> Option<u32>
    ensures { result ≡ given_for reserved.now place }
{
    for one in reserved {
        // (`as`: Rust has no From between these widths; that the value fits is proved.)
        if one[1] as usize == place {
            return Some(one[0]);
        }
    }
    None
}

// What stands at a place: the number that is given for it, else the own version at the place that is next.
fn sent_at(given: Option<u32>, own: &[u32], next: usize) -> u32
    ensures { result ≡ sent_at given (drop next own.now) }
{
    match given {
        Some(number) => number,
        None => own.get(next).copied().unwrap_or(0),
    }
}

// The place of the own version that is next after that.
fn own_after(given: Option<u32>, next: usize) -> usize
    requires { next + 1 < 2 ^ 64 }
    ensures { result ≡ next_after given next }
{
    match given {
        Some(_) => next,
        None => next + 1,
    }
}
