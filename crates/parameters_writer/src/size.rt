// How many bytes and parameters the new sequence has.
ghost use Rattle.std.specs.Prelude.{cond, ◌≡◌, ◌+◌, ◌*◌, ◌≤◌, eqb, length};
ghost use Rattle.integers.specs.Integers.{shortest_width};
ghost use Rattle.parameters.specs.Limits.{max_sequence, version_information};
ghost use Rattle.parameters_writer.specs.Renewing.{fields_in_old, max_one, new_contents, new_sequence, renewed_old};

use crate::renewal::Renewal;
use integers::integer_width;
use parameters::{Parameter, VERSION_INFORMATION};

#[derive(Clone, Copy)]
pub(crate) struct Size {
    pub bytes: usize,
    pub count: usize,
}

// The size of the new sequence.
pub(crate) fn size_of(renewal: Renewal) -> Size
    ensures bytes { result.bytes ≡ length (new_sequence renewal.entry) }
    ensures count { result.count ≡ length (new_contents renewal.entry) }
{
    let mut size = renewed_size(renewal);
    if renewal.last {
        size.bytes += parameter_size(VERSION_INFORMATION, renewal.value.len());
        size.count += 1;
    }
    size
}

// The size of the old sequence, with the new value for that of Version Information, if it is there.
fn renewed_size(renewal: Renewal) -> Size
    ensures bytes { result.bytes ≡ length (renewed_old renewal.entry) }
    ensures count { result.count ≡ length (fields_in_old renewal.entry) }
    ensures few { (result.bytes ≤ max_sequence * max_one) × (result.count ≤ max_sequence) }
{
    let mut bytes = 0;
    let mut count = 0;
    for Parameter { id, value } in renewal.old {
        bytes += parameter_size(
            id,
            renewed_length(id, value.end - value.start, renewal.value.len()),
        );
        count += 1;
    }
    Size { bytes, count }
}

// The length of a value: that of Version Information is the new one.
fn renewed_length(id: u64, old: usize, new: usize) -> usize
    ensures { result ≡ cond (eqb id version_information) new old }
{
    if id == VERSION_INFORMATION {
        return new;
    }
    old
}

// The bytes of a parameter with a value of this length.
fn parameter_size(id: u64, length: usize) -> usize
    requires { length ≤ max_sequence }
    ensures { result ≡ shortest_width id + (shortest_width length + length) }
{
    // (`as`: Rust has no From between these widths; that the value fits is proved.)
    integer_width(id) + (integer_width(length as u64) + length)
}
