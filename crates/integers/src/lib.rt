// Variable-length integers (RFC 9000 section 16): reader and writer. Every function answers for every input.
#![tactic(auto)]

ghost use Rattle.std.specs.Prelude.{◌≡◌, ◌++◌, ◌<◌, ◌≤◌, length, drop};
ghost use Rattle.refusals.specs.Reply.{read_reply};
ghost use Rattle.refusals.specs.Written.{written_reply, counted, leaves};
ghost use Rattle.integers.specs.Integers.{width_of, value_at, read_integer, held_below, shortest, shortest_width, integer_bytes, integer_to_write};

use refusals::Refusal;

// The largest integer that can be written: 2^62 - 1.
pub const MAX_INTEGER: u64 = 4611686018427387903;
// Below these an integer fits in 1, 2 and 4 bytes.
const HELD_BY_1: u64 = 64;

const HELD_BY_2: u64 = 16384;

const HELD_BY_4: u64 = 1073741824;

// An integer that was read: its value, and the bytes that it takes.
#[derive(Clone, Copy)]
pub struct Integer {
    pub value: u64,
    pub width: usize,
}

// Reads the integer at the front of the bytes, in any of the four widths; what follows it is not looked at. Refusal:
// 81 (it runs past the end). It changes nothing.
#[tactic(auto, using(crate::proofs::RoundTrip::reading), unfolding(crate::specs::Integers::read_integer))]
pub fn read_integer(bytes: &[u8]) -> Result<Integer, Refusal>
    ensures { read_reply result ≡ read_integer bytes.now }
{
    if bytes.is_empty() {
        return Err(Refusal::RUNS_PAST_THE_END);
    }
    let width = width_of(bytes[0] / 64);
    if bytes.len() < width {
        return Err(Refusal::RUNS_PAST_THE_END);
    }
    let value = value_at(bytes, width);
    Ok(Integer { value, width })
}

// Writes an integer in the shortest width that holds it, and answers the byte count. Refusals, in order: 83 (over
// MAX_INTEGER), 84 (the buffer is too short). A refusal leaves the buffer as found; else its bytes past the count
// keep their values.
#[tactic(auto, using(crate::proofs::Least::writing), unfolding(crate::specs::Integers::integer_to_write, crate::specs::Integers::shortest_bytes, crate::specs::Integers::shortest_width))]
pub fn write_integer(value: u64, buffer: &mut [u8]) -> Result<usize, Refusal>
    ensures answer { written_reply result ≡ counted (integer_to_write value (length buffer.old)) }
    ensures left { buffer.new ≡ leaves (integer_to_write value (length buffer.old)) buffer.old }
{
    if MAX_INTEGER < value {
        return Err(Refusal::INTEGER_TOO_LARGE);
    }
    let form = form_of(value);
    let width = width_of(form);
    if buffer.len() < width {
        return Err(Refusal::NO_ROOM_TO_WRITE);
    }
    put_in_width(form, width, value, buffer);
    Ok(width)
}

// The bytes that the writer takes for an integer; 8 for one that it refuses. Total, and it refuses nothing.
#[tactic(auto, using(crate::proofs::Least::shortest_lt), unfolding(crate::specs::Integers::shortest_width))]
pub fn integer_width(value: u64) -> usize
    ensures { result ≡ shortest_width value }
{
    width_of(form_of(value))
}

// The width of a form: 1, 2, 4 or 8 bytes. A form is a number, 0 to 3, since it stands as one in the two highest bits of the
// first byte.
#[tactic(auto, unfolding(crate::specs::Integers::width_of))]
fn width_of(form: u8) -> usize
    requires { form < 4 }
    ensures { result ≡ width_of form }
{
    match form {
        0 => 1,
        1 => 2,
        2 => 4,
        _ => 8,
    }
}

// The form of the shortest width that holds an integer; 3 for one that none holds.
#[tactic(auto, unfolding(crate::specs::Integers::shortest, crate::specs::Integers::held_below, crate::specs::Integers::width_of))]
fn form_of(value: u64) -> u8
    ensures { result ≡ shortest value }
{
    match value {
        ..HELD_BY_1 => 0,
        ..HELD_BY_2 => 1,
        ..HELD_BY_4 => 2,
        _ => 3,
    }
}

// The integer in the first bytes: all bits but the two highest.
fn value_at(bytes: &[u8], width: usize) -> u64
    requires { (1 ≤ width) × (width ≤ 8) × (width ≤ length bytes.now) }
    ensures { result ≡ value_at bytes.now width }
{
    let mut value = u64::from(bytes[0]) % 64;
    for byte in &bytes[1..width] {
        value = value * 256 + u64::from(*byte);
    }
    value
}

// Puts an integer at the front of a buffer that has room for it, in the width of a form that holds it. (By `to_be_bytes` and
// a copy of its last bytes one or two bytes took twice as long. `as`: Rust has no From between these widths; that the value
// fits is proved.)
#[tactic(auto, using(crate::proofs::RoundTrip::reading))]
fn put_in_width(form: u8, width: usize, value: u64, buffer: &mut [u8])
    requires { (form < 4) × (width ≡ width_of form) × (value < held_below form) × (width ≤ length buffer.old) }
    ensures { buffer.new ≡ integer_bytes form value ++ drop width buffer.old }
{
    let mut rest = value;
    for i in (1..width).rev() {
        buffer[i] = (rest % 256) as u8;
        rest /= 256;
    }
    buffer[0] = form * 64 + (rest % 64) as u8;
}
