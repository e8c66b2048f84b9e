// The client's step (RFC 9368 sections 2.1 and 4): what an event does to an attempt. An event is judged first, then
// applied in one place.
#![tactic(auto)]

ghost use Rattle.std.specs.Prelude.{[], ◌≡◌};
ghost use Rattle.attempt.specs.Events.{Reachable};
ghost use Rattle.attempt.specs.Journaled.{journaled_step, journaled_step_of_any};
ghost use Rattle.attempt.specs.Step.{shown, step_of_any};
ghost use Rattle.attempt.specs.Event.{Event.PacketProcessed, event_in, bytes_in};
ghost use Rattle.client_verdict.specs.Verdicts.{applied};

use attempt::{Attempt, End, Event, NOT_A_RECORD, Stepped};
use client_datagram::judge_datagram;
use client_outcome::judge_outcome;
use client_verdict::record::apply;
use client_verdict::{Verdict, could_be_attempt};
use refusals::Refusal;

// One event, on a record that a start handed back, changed since by events alone. Refusals, in order:
// a datagram: 61, 62, 63, 64, which leave the record unchanged; 65, which ends the attempt;
// a processed packet: 62, unchanged;
// an outcome: 62, unchanged; 31 to 35 and 71 to 75, which end the attempt. An ending changes the end mark alone.
// "Unchanged" and "alone" leave the journal out: the answer of every event is noted there.
pub fn step(attempt: Attempt, event: Event) -> Stepped
    requires { Reachable attempt }
    ensures shown { shown result ≡ journaled_step attempt (event_in event.entry) (bytes_in event.entry) }
    ensures reachable { Reachable result.attempt }
{
    step_any(attempt, event)
}

// The step for any record value. One that could not be an attempt's is refused with NOT_A_RECORD and left as found, its
// journal too.
// Refusals else as `step`'s.
pub fn step_any(attempt: Attempt, event: Event) -> Stepped
    ensures { shown result ≡ journaled_step_of_any attempt (event_in event.entry) (bytes_in event.entry) }
{
    let verdict = judge(attempt, event);
    apply(attempt, verdict)
}

// What an event does to any record value, before it is applied and noted. Refusals as `step_any`'s.
#[tactic(auto, unfolding(attempt::specs::Step::step_of, attempt::specs::Step::step_of_any))]
pub fn judge(attempt: Attempt, event: Event) -> Verdict
    ensures { applied attempt result ≡ step_of_any attempt (event_in event.entry) (bytes_in event.entry) }
{
    match event {
        Event::Datagram(datagram) => judge_datagram(attempt, datagram),
        Event::PacketProcessed => judge_processed(attempt),
        Event::Outcome {
            in_use,
            information,
        } => judge_outcome(attempt, in_use, information),
    }
}

// A genuine packet other than Version Negotiation was processed: NOT_A_RECORD for a record that could not be an
// attempt's; 62 if the attempt has ended.
#[tactic(auto, unfolding(attempt::specs::Step::on_processed, attempt::specs::Step::step_of, attempt::specs::Step::step_of_any))]
fn judge_processed(attempt: Attempt) -> Verdict
    ensures { applied attempt result ≡ step_of_any attempt PacketProcessed [] }
{
    if !could_be_attempt(attempt) {
        return Verdict::Unchanged(NOT_A_RECORD);
    }
    let end = attempt.end;
    match end {
        End::Open => Verdict::Noted,
        _ => Verdict::Unchanged(Refusal::TOO_LATE),
    }
}
