// The attempts that the cases go through. Our destination connection ID is aa bb, our source connection ID cc.
ghost use Rattle.std.specs.Prelude.{true, [], ◌∷◌, ◌≡◌};
ghost use Rattle.attempt.specs.Events.{Reachable};
ghost use Rattle.attempt.specs.Start.{input_of, is_accepted};

use attempt::{Attempt, End, Event, MAX_ID};
use client_start::start;
use client_step::step;
use journal::empty;
use refusals::Refusal;
use versions::MAX_TABLE;

// The record of a start that is not refused.
#[tactic(auto, using(crate::proofs::Accepted::is_opened))]
fn open(table: &[u32], pairs: &[[u32; 2]], barred: &[[u32; 2]], original: u32) -> Attempt
    requires { is_accepted (input_of table.now pairs.now barred.now original (0xaa ∷ 0xbb ∷ []) (0xcc ∷ [])) ≡ true }
    ensures { Reachable result }
{
    start(table, pairs, barred, original, &[0xaa, 0xbb], &[0xcc]).unwrap()
}

// Table 14, 12, 10, no pairs, Original 12: the start of P4 to P7.
#[tactic(auto, using(crate::proofs::Accepted::plain))]
pub(crate) fn plain() -> Attempt
    ensures { Reachable result }
{
    open(&[14, 12, 10], &[], &[], 12)
}

// Table 3, 4, 1, 2, pairs 1 to 2 and 3 to 4, Original 1: the start of P10 to P12.
#[tactic(auto, using(crate::proofs::Accepted::paired))]
pub(crate) fn paired() -> Attempt
    ensures { Reachable result }
{
    open(&[3, 4, 1, 2], &[[1, 2], [3, 4]], &[], 1)
}

// The same with 3 to 4 barred (document 02, C-17).
#[tactic(auto, using(crate::proofs::Accepted::barring))]
pub(crate) fn barring() -> Attempt
    ensures { Reachable result }
{
    open(&[3, 4, 1, 2], &[[1, 2], [3, 4]], &[[3, 4]], 1)
}

// The same with it turned round, 4 to 3, barred, and 1 to 4, from the Original Version.
#[tactic(auto, using(crate::proofs::Accepted::barring_others))]
pub(crate) fn barring_others() -> Attempt
    ensures { Reachable result }
{
    open(&[3, 4, 1, 2], &[[1, 2], [3, 4]], &[[4, 3], [1, 4]], 1)
}

// Table 14, 1, no pairs, Original 14: the start of P8.
#[tactic(auto, using(crate::proofs::Accepted::down_to_one))]
pub(crate) fn down_to_one() -> Attempt
    ensures { Reachable result }
{
    open(&[14, 1], &[], &[], 14)
}

// The record that stands for a refused start: no attempt is closed with 0.
pub(crate) fn no_attempt() -> Attempt {
    Attempt {
        table: [0; MAX_TABLE],
        table_len: 0,
        rows: [0; MAX_TABLE],
        destination: [0; MAX_ID],
        destination_len: 0,
        source: [0; MAX_ID],
        source_len: 0,
        original: 0,
        attempted: 0,
        acted: false,
        heard: false,
        end: End::Closed(Refusal(0)),
        journal: empty(),
    }
}

// The handshake ended, with Version Information.
pub(crate) fn given(in_use: u32, information: &[u8]) -> Event {
    Event::Outcome {
        in_use,
        information: Some(information),
    }
}

// The handshake ended, and Version Information is missing.
pub(crate) fn missing(in_use: u32) -> Event<'static> {
    Event::Outcome {
        in_use,
        information: None,
    }
}

// The record after an event.
fn after(attempt: Attempt, event: Event) -> Attempt
    requires { Reachable attempt }
    ensures { Reachable result }
{
    step(attempt, event).attempt
}

// The record after a datagram.
pub(crate) fn after_datagram(attempt: Attempt, bytes: &[u8]) -> Attempt
    requires { Reachable attempt }
    ensures { Reachable result }
{
    after(attempt, Event::Datagram(bytes))
}

// The record after a genuine packet other than Version Negotiation was processed.
pub(crate) fn after_packet(attempt: Attempt) -> Attempt
    requires { Reachable attempt }
    ensures { Reachable result }
{
    after(attempt, Event::PacketProcessed)
}

// The record after an outcome with Version Information.
pub(crate) fn after_outcome(attempt: Attempt, in_use: u32, bytes: &[u8]) -> Attempt
    requires { Reachable attempt }
    ensures { Reachable result }
{
    after(attempt, given(in_use, bytes))
}

// The record after an outcome whose Version Information is missing.
pub(crate) fn after_missing(attempt: Attempt, in_use: u32) -> Attempt
    requires { Reachable attempt }
    ensures { Reachable result }
{
    after(attempt, missing(in_use))
}

// `plain` after a packet that lists 10, 13, 14: it attempts 14.
pub(crate) fn acted_with_14() -> Attempt
    ensures { Reachable result }
{
    after_datagram(
        plain(),
        b"\x80\0\0\0\0\x01\xcc\x02\xaa\xbb\0\0\0\x0a\0\0\0\x0d\0\0\0\x0e",
    )
}

// `paired` after a packet that lists 4, 3: it attempts 3.
pub(crate) fn acted_with_3() -> Attempt
    ensures { Reachable result }
{
    after_4_and_3(paired())
}

// The record after a packet that lists 4, 3.
pub(crate) fn after_4_and_3(attempt: Attempt) -> Attempt
    requires { Reachable attempt }
    ensures { Reachable result }
{
    after_datagram(
        attempt,
        b"\x80\0\0\0\0\x01\xcc\x02\xaa\xbb\0\0\0\x04\0\0\0\x03",
    )
}

// `paired` after a packet that lists 4: it attempts 4.
pub(crate) fn acted_with_4() -> Attempt
    ensures { Reachable result }
{
    after_datagram(paired(), b"\x80\0\0\0\0\x01\xcc\x02\xaa\xbb\0\0\0\x04")
}

// `down_to_one` after a packet that lists 1: it attempts 1.
pub(crate) fn acted_with_1() -> Attempt
    ensures { Reachable result }
{
    after_datagram(down_to_one(), b"\x80\0\0\0\0\x01\xcc\x02\xaa\xbb\0\0\0\x01")
}
