// The new sequence put into a buffer that has room for it.
ghost use Rattle.std.specs.Prelude.{◌++◌, ◌≡◌, ◌≤◌, drop, length};
ghost use Rattle.refusals.specs.Reply.{Reply.answered};
ghost use Rattle.refusals.specs.Written.{leaves};
ghost use Rattle.integers.specs.Limits.{max_integer};
ghost use Rattle.parameters.specs.Writing.{content_bytes};
ghost use Rattle.parameters_writer.specs.Renewing.{CanBeWritten, new_bytes, new_sequence, renewed_old};

use crate::renewal::Renewal;
use integers::write_integer;
use lists::put_values;
use parameters::{Parameter, VERSION_INFORMATION};

// Puts the new sequence at the buffer's front.
pub(crate) fn put_sequence(renewal: Renewal, buffer: &mut [u8])
    requires { length (new_sequence renewal) ≤ length buffer.old }
    ensures { buffer.new ≡ leaves (answered (new_sequence renewal.entry)) buffer.old }
{
    let there = put_renewed(renewal, buffer);
    if renewal.last {
        put_parameter(VERSION_INFORMATION, renewal.value, &mut buffer[there..]);
    }
}

// Puts the parameters of the old sequence, ours with the new value, at the buffer's front, and answers the byte count. Each
// is put at the front of what is left of the buffer.
fn put_renewed(renewal: Renewal, buffer: &mut [u8]) -> usize
    requires { length (renewed_old renewal) ≤ length buffer.old }
    ensures count { result ≡ length (renewed_old renewal.entry) }
    ensures left { buffer.new ≡ leaves (answered (renewed_old renewal.entry)) buffer.old }
{
    let mut count = 0;
    for parameter in renewal.old {
        count += put_next(renewal, parameter, &mut buffer[count..]);
    }
    count
}

// Puts the parameter whose value lies there in the old sequence, ours with the new value, and answers the byte count.
fn put_next(renewal: Renewal, parameter: Parameter, buffer: &mut [u8]) -> usize
    requires written { CanBeWritten renewal.old.sequence.now parameter }
    requires room { length (new_bytes renewal.old.sequence.now renewal.value.now parameter) ≤ length buffer.old }
    ensures count { result ≡ length (new_bytes renewal.entry.old.sequence.now renewal.entry.value.now parameter) }
    ensures left { buffer.new ≡ leaves (answered (new_bytes renewal.entry.old.sequence.now renewal.entry.value.now parameter)) buffer.old }
{
    let Parameter { id, value: part } = parameter;
    if id == VERSION_INFORMATION {
        return put_parameter(id, renewal.value, buffer);
    }
    let start = part.start;
    let end = part.end;
    put_parameter(id, &renewal.old.sequence[start..end], buffer)
}

// Puts a parameter with this value at the buffer's front, and answers the byte count. The integer writer is lent the buffer
// and then, for the length, the rest of it; there is room for all, so it refuses nothing,
// and `put_values` answers true.
fn put_parameter(id: u64, value: &[u8], buffer: &mut [u8]) -> usize
    requires written { (id ≤ max_integer) × (length value.now ≤ max_integer) }
    requires room { length (content_bytes (record { id = id; value = value.now })) ≤ length buffer.old }
    ensures count { result ≡ length (content_bytes (record { id = id; value = value.now })) }
    ensures left { buffer.new ≡ leaves (answered (content_bytes (record { id = id; value = value.now }))) buffer.old }
{
    let Ok(first) = write_integer(id, buffer) else {
        return 0;
    };
    // (`as`: Rust has no From between these widths; that the value fits is proved.)
    let Ok(second) = write_integer(value.len() as u64, &mut buffer[first..]) else {
        return 0;
    };
    let start = first + second;
    put_values(value, &mut buffer[start..]);
    start + value.len()
}
