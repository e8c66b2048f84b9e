// RFC 8999, the version-independent properties of QUIC: the header reader, which answers for
// every input.
#![tactic(auto)]

mod fields; // the fields of a long form
pub mod reader; // the header reader

use lists::Span;

// The most bytes that a datagram has.
pub const MAX_DATAGRAM: usize = 65535;
// The longest connection ID, in bytes, that RFC 8999 allows.
pub const MAX_CONNECTION_ID: usize = 255;

// What the header reader finds: the form, with where its parts lie.
#[derive(Clone, Copy)]
pub enum Header {
    // The first byte is 128 or more, and the version is not 0.
    Long {
        version: u32,
        destination: Span,
        source: Span,
        rest: Span,
    },
    // The first byte is below 128.
    Short {
        destination: Span,
        rest: Span,
    },
    // The first byte is 128 or more, and the version is 0; the rest is the list of versions.
    VersionNegotiation {
        destination: Span,
        source: Span,
        list: Span,
    },
}
