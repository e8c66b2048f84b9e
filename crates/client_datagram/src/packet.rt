// A readable Version Negotiation packet, and its parts.
ghost use Rattle.std.specs.Prelude.{◌≡◌};
ghost use Rattle.invariants.specs.Header.{destination_id, source_id, rest_of};
ghost use Rattle.invariants.specs.Parts.{Parts};

use lists::Span;

// A readable Version Negotiation packet: the datagram that it is, and where its parts lie there.
#[derive(Clone, Copy)]
pub(crate) struct Packet<'a> {
    pub(crate) datagram: &'a [u8],
    pub(crate) destination: Span,
    pub(crate) source: Span,
    pub(crate) list: Span,
    ghost parts: { Parts datagram.now destination source list },
}

impl<'a> Packet<'a> {
    // Its Destination Connection ID.
    pub(crate) fn destination_id(self) -> &'a [u8]
        ensures { result.now ≡ destination_id self.entry.datagram.now }
    {
        &self.datagram[self.destination.start..self.destination.end]
    }

    // Its Source Connection ID.
    pub(crate) fn source_id(self) -> &'a [u8]
        ensures { result.now ≡ source_id self.entry.datagram.now }
    {
        &self.datagram[self.source.start..self.source.end]
    }

    // Its list of versions.
    pub(crate) fn versions(self) -> &'a [u8]
        ensures { result.now ≡ rest_of self.entry.datagram.now }
    {
        &self.datagram[self.list.start..]
    }
}
