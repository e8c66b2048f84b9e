// A datagram at an attempt, judged (RFC 9000 section 6.2, RFC 9368 section 2.1): 61 to 65, or the attempt acts on it.
#![tactic(auto)]

ghost use Rattle.std.specs.Prelude.{◌≡◌};
ghost use Rattle.choosing.specs.Choice.{preferred};
ghost use Rattle.lists.specs.Wire.{entries};
ghost use Rattle.attempt.specs.Attempt.{table_of};
ghost use Rattle.attempt.specs.Step.{act_on, is_late, on_datagram, step_of_any};
ghost use Rattle.attempt.specs.Event.{Event.Datagram};
ghost use Rattle.client_verdict.specs.Verdicts.{applied};

mod connection; // whether the packet is of the attempt's connection
mod packet; // the packet, and its parts

use crate::connection::is_other_connection;
use crate::packet::Packet;
use attempt::{Attempt, End, NOT_A_RECORD};
use choosing::prefer;
use client_verdict::{Fitting, Verdict};
use invariants::Header;
use invariants::reader::read_header;
use lists::{OnWire, contains_in_bytes};
use refusals::Refusal;

// What a datagram does to any record value. Refusals, in order: NOT_A_RECORD for one that could not be an attempt's, and
// 61, 62, 63, 64, which leave the record unchanged; 65, which ends the attempt.
#[tactic(auto, unfolding(attempt::specs::Step::step_of, attempt::specs::Step::step_of_any))]
pub fn judge_datagram(attempt: Attempt, datagram: &[u8]) -> Verdict
    ensures { applied attempt result ≡ step_of_any attempt Datagram datagram.now }
{
    let Some(fitting) = Fitting::of(attempt) else {
        return Verdict::Unchanged(NOT_A_RECORD);
    };
    on_datagram(fitting, datagram)
}

// A datagram: 61 if it is not a readable Version Negotiation packet.
fn on_datagram(fitting: Fitting, datagram: &[u8]) -> Verdict
    ensures { applied fitting.attempt result ≡ on_datagram fitting.attempt datagram.now }
{
    let Ok(header) = read_header(datagram, 0) else {
        return Verdict::Unchanged(Refusal::NOT_VERSION_NEGOTIATION);
    };
    match header {
        Header::VersionNegotiation {
            destination,
            source,
            list,
        } => {
            let packet = Packet {
                datagram,
                destination,
                source,
                list,
            };
            on_negotiation(fitting, packet)
        }
        _ => Verdict::Unchanged(Refusal::NOT_VERSION_NEGOTIATION),
    }
}

// 62 to 65 for a readable Version Negotiation packet, else the attempt acts on it.
#[tactic(auto, unfolding(attempt::specs::Step::on_datagram))]
fn on_negotiation(fitting: Fitting, packet: Packet) -> Verdict
    ensures { applied fitting.attempt result ≡ on_datagram fitting.attempt packet.entry.datagram.now }
{
    if is_late(fitting.attempt) {
        return Verdict::Unchanged(Refusal::TOO_LATE);
    }
    if is_other_connection(fitting, packet) {
        return Verdict::Unchanged(Refusal::OTHER_CONNECTION);
    }
    let versions = packet.versions();
    if contains_in_bytes(versions, fitting.attempt.original) {
        return Verdict::Unchanged(Refusal::LISTS_ORIGINAL);
    }
    act_on(fitting, versions)
}

// The choice from the packet's list, 65 where there is none. It stands apart from the tests: the compiler then sees that
// nothing on their way is written, and copies the record nowhere.
fn act_on(fitting: Fitting, list: &[u8]) -> Verdict
    ensures { applied fitting.attempt result ≡ act_on fitting.attempt (preferred (table_of fitting.attempt) (entries list.now)) }
{
    let table = fitting.attempt.table;
    match prefer(&table[..fitting.attempt.table_len], OnWire(list)) {
        Some(version) => Verdict::Acted(version),
        None => Verdict::Closed(Refusal::NO_VERSION_LEFT),
    }
}

// Whether it is too late for Version Negotiation: the attempt has ended, acted or heard before.
fn is_late(attempt: Attempt) -> bool
    ensures { result ≡ is_late attempt }
{
    let end = attempt.end;
    match end {
        End::Open => attempt.acted || attempt.heard,
        _ => true,
    }
}
