// Variable-length integers and transport parameters as numbers and buffers.
ghost use Rattle.std.specs.Prelude.{◌≡◌, length};
ghost use Rattle.refusals.specs.Written.{leaves};
ghost use Rattle.integers.specs.Integers.{read_integer, integer_to_write};
ghost use Rattle.parameters.specs.Reading.{read_parameters};
ghost use Rattle.parameters.specs.Writing.{parameters_to_write};
ghost use Rattle.c_interface.specs.Numbers.{returned, leaving};
ghost use Rattle.c_interface.specs.Transport.{given_number, place_end, place_start, value_in, width_in};

use crate::handing::hand_over;
use integers::{read_integer, write_integer};
use parameters_reader::read_parameters;
use parameters_writer::write_parameters;

// Reads the integer at the front of the bytes. Refusal: 81, which leaves all as found; else 0, its value, and the bytes
// that it takes.
#[unsafe(no_mangle)]
pub extern "C" fn qv_read_integer(bytes: &[u8], value: &mut u64, width: &mut usize) -> u32
    ensures answer { result ≡ returned (read_integer bytes.now) }
    ensures value { value.new ≡ leaving value_in (read_integer bytes.now) value.old }
    ensures width { width.new ≡ leaving width_in (read_integer bytes.now) width.old }
{
    match read_integer(bytes) {
        Ok(integer) => {
            *value = integer.value;
            *width = integer.width;
            0
        }
        Err(refusal) => u32::from(refusal),
    }
}

// Writes an integer in the shortest width. Refusals: 83, 84, which leave buffer and count as found; else 0, and `count`
// bytes of the buffer are written.
#[unsafe(no_mangle)]
pub extern "C" fn qv_write_integer(value: u64, buffer: &mut [u8], count: &mut usize) -> u32
    ensures answer { result ≡ returned (integer_to_write value (length buffer.old)) }
    ensures left { buffer.new ≡ leaves (integer_to_write value (length buffer.old)) buffer.old }
    ensures counted { count.new ≡ leaving length (integer_to_write value (length buffer.old)) count.old }
{
    hand_over(write_integer(value, buffer), count)
}

// Finds Version Information in a sequence of transport parameters. Refusals: 80, 81, 82, 85, which leave all as found;
// else 0, and `found` is 1 and `start` and `end` say where its value lies, or all three are 0 where it is missing.
#[unsafe(no_mangle)]
pub extern "C" fn qv_read_parameters(
    sequence: &[u8],
    found: &mut u32,
    start: &mut usize,
    end: &mut usize,
) -> u32
    ensures answer { result ≡ returned (read_parameters sequence.now) }
    ensures found { found.new ≡ leaving given_number (read_parameters sequence.now) found.old }
    ensures start { start.new ≡ leaving place_start (read_parameters sequence.now) start.old }
    ensures end { end.new ≡ leaving place_end (read_parameters sequence.now) end.old }
{
    match read_parameters(sequence) {
        Err(refusal) => u32::from(refusal),
        Ok(None) => {
            *found = 0;
            *start = 0;
            *end = 0;
            0
        }
        Ok(Some(place)) => {
            *found = 1;
            *start = place.start;
            *end = place.end;
            0
        }
    }
}

// Writes a sequence of transport parameters with Version Information of this value: in its place, or last. Refusals: 80,
// 81, 82, 84, 85, which leave buffer and count as found; else 0, and `count` bytes of the buffer are written.
#[unsafe(no_mangle)]
pub extern "C" fn qv_write_parameters(
    old: &[u8],
    value: &[u8],
    buffer: &mut [u8],
    count: &mut usize,
) -> u32
    ensures answer { result ≡ returned (parameters_to_write old.now value.now (length buffer.old)) }
    ensures left { buffer.new ≡ leaves
        (parameters_to_write old.now value.now (length buffer.old)) buffer.old }
    ensures counted { count.new ≡ leaving length
        (parameters_to_write old.now value.now (length buffer.old)) count.old }
{
    hand_over(write_parameters(old, value, buffer), count)
}
