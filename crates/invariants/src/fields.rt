// The fields of a long form, read from any datagram: a byte past the end counts as 0.
ghost use Rattle.std.specs.Prelude.{◌≡◌, ◌<◌, get_or};
ghost use Rattle.invariants.specs.Header.{version_of, destination_length, source_length};

// The version of a long form.
pub(crate) fn version_of(datagram: &[u8]) -> u32
    ensures { result ≡ version_of datagram.now }
{
    u32::from_be_bytes([
        byte_at(datagram, 1),
        byte_at(datagram, 2),
        byte_at(datagram, 3),
        byte_at(datagram, 4),
    ])
}

// The length of a long form's destination connection ID.
pub(crate) fn destination_length(datagram: &[u8]) -> usize
    ensures value { result ≡ destination_length datagram.now }
    ensures upper_bound { result < 256 }
{
    usize::from(byte_at(datagram, 5))
}

// The length of a long form's source connection ID.
pub(crate) fn source_length(datagram: &[u8]) -> usize
    ensures value { result ≡ source_length datagram.now }
    ensures upper_bound { result < 256 }
{
    let destination = destination_length(datagram);
    usize::from(byte_at(datagram, 6 + destination))
}

// The byte at a place, 0 past the end.
pub(crate) fn byte_at(datagram: &[u8], at: usize) -> u8
    ensures { result ≡ get_or datagram.now at 0 }
{
    datagram.get(at).copied().unwrap_or(0)
}
