// One event on the record without enums: the verdict on its attempt, and the fields that it changes.
ghost use Rattle.std.specs.Prelude.{◌≡◌};
ghost use Rattle.c_record.specs.Records.{event_of, step_record, shown_left};
ghost use Rattle.c_record.specs.Handing.{handed_in, handed_by};
ghost use Rattle.c_record.specs.Verdicts.{acted_number, heard_number, mark_after, value_after, applied_record};

use crate::coding::{decode, marks_fit};
use crate::{Record, RecordAndRefusal};
use attempt::{Event, NOT_A_RECORD};
use client_step::judge;
use client_verdict::Verdict;
use client_verdict::record::{attempted_after, journal_after, number_of};

// One event: the record that it leaves, and the number of its refusal, 0 for none. `kind` is 0 for a datagram, 1 for a
// processed packet, 2 for an outcome with information given, 3 for one with it missing; `value` is an outcome's version
// in use. Each answer is noted in the journal, but for 255; "unchanged" leaves the journal out. Refusals, in order: 255 for
// a record that could not be an attempt's or another kind, which leaves it as found, its journal too;
// a datagram: 61, 62, 63, 64, unchanged, and 65, which ends the attempt; a processed packet: 62, unchanged;
// an outcome: 62, unchanged, and 31 to 35, 71 to 75, which end the attempt.
pub fn step_record(held: Record, kind: u32, value: u32, bytes: &[u8]) -> RecordAndRefusal
    ensures { shown_left result ≡ step_record held kind value bytes.now }
{
    let verdict = judge_record(held, kind, value, bytes);
    let journal = journal_after(held.journal, verdict);
    let attempted = attempted_after(held.attempted, verdict);
    let acted = acted_after(held.acted, verdict);
    let heard = heard_after(held.heard, verdict);
    let mark = mark_after(held.end_mark, verdict);
    let number = value_after(held.end_value, verdict);
    let refusal = u32::from(number_of(verdict));
    // From here on no test: the compiler then stores the fields that changed, and copies the record nowhere.
    let mut left = held;
    left.attempted = attempted;
    left.acted = acted;
    left.heard = heard;
    left.end_mark = mark;
    left.end_value = number;
    left.journal = journal;
    RecordAndRefusal {
        attempt: left,
        refusal,
    }
}

// What one event does to any record: 255 for one that could not be an attempt's, and for another kind. What `judge`
// judges of a record value is not tested twice.
fn judge_record(held: Record, kind: u32, value: u32, bytes: &[u8]) -> Verdict
    ensures { applied_record held result ≡ step_record held kind value bytes.now }
{
    if !marks_fit(held) {
        return Verdict::Unchanged(NOT_A_RECORD);
    }
    match event_of(kind, value, bytes) {
        Some(event) => judge(decode(held), event),
        None => Verdict::Unchanged(NOT_A_RECORD),
    }
}

// The event of a kind, which is a number for C; none for another number. A processed packet and an outcome without information
// have no bytes, whatever is handed over.
#[tactic(auto, unfolding(crate::specs::Records::event_of))]
fn event_of(kind: u32, value: u32, bytes: &[u8]) -> Option<Event>
    ensures { handed_in result ≡ handed_by (event_of kind value) bytes.now }
{
    match kind {
        0 => Some(Event::Datagram(bytes)),
        1 => Some(Event::PacketProcessed),
        2 => Some(Event::Outcome {
            in_use: value,
            information: Some(bytes),
        }),
        3 => Some(Event::Outcome {
            in_use: value,
            information: None,
        }),
        _ => None,
    }
}

// (Here and in `heard_after` a flag is a number and no bool: one of any value, which C's record may hold, stays as found.)
fn acted_after(acted: u32, verdict: Verdict) -> u32
    ensures { result ≡ acted_number acted verdict }
{
    match verdict {
        Verdict::Acted(_) => 1,
        _ => acted,
    }
}

fn heard_after(heard: u32, verdict: Verdict) -> u32
    ensures { result ≡ heard_number heard verdict }
{
    match verdict {
        Verdict::Noted => 1,
        _ => heard,
    }
}

fn mark_after(mark: u32, verdict: Verdict) -> u32
    ensures { result ≡ mark_after mark verdict }
{
    match verdict {
        Verdict::Closed(_) => 2,
        Verdict::Completed(_) => 1,
        _ => mark,
    }
}

fn value_after(number: u32, verdict: Verdict) -> u32
    ensures { result ≡ value_after number verdict }
{
    match verdict {
        Verdict::Closed(refusal) => u32::from(refusal),
        Verdict::Completed(version) => version,
        _ => number,
    }
}
