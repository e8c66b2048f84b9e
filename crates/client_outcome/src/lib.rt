// An outcome of an attempt, judged (RFC 9368 sections 4 and 8): 62, 31 to 35, 71 to 75, or the attempt completes.
#![tactic(auto)]

ghost use Rattle.std.specs.Prelude.{◌≡◌};
ghost use Rattle.attempt.specs.Step.{on_outcome, step_of_any};
ghost use Rattle.attempt.specs.Event.{Event.Outcome};
ghost use Rattle.information.specs.Presence.{presence_of, bytes_given};
ghost use Rattle.client_verdict.specs.Verdicts.{applied};

mod judging; // 72 to 75, for what was read
mod reading; // what the outcome tells, judged with no look at the table

use crate::judging::judge_read;
use crate::reading::read_outcome;
use attempt::{Attempt, End, NOT_A_RECORD};
use client_verdict::{Fitting, Verdict};
use refusals::Refusal;

// What an outcome on an open attempt leaves to be judged by the table, 72 to 75: this Chosen Version, and these Available
// Versions on the wire. They lie in the information, or stand in for it.
#[derive(Clone, Copy)]
struct ByTable<'a> {
    chosen: u32,
    available: &'a [u8],
}

// What an outcome does to any record value. Refusals, in order: NOT_A_RECORD for one that could not be an attempt's, and
// 62, which leave the record unchanged; 31 to 35 and 71 to 75, which end the attempt.
#[tactic(auto, unfolding(attempt::specs::Step::step_of, attempt::specs::Step::step_of_any))]
pub fn judge_outcome(attempt: Attempt, in_use: u32, information: Option<&[u8]>) -> Verdict
    ensures { applied attempt result ≡ step_of_any attempt (Outcome in_use (presence_of information.entry)) (bytes_given information.entry) }
{
    let Some(fitting) = Fitting::of(attempt) else {
        return Verdict::Unchanged(NOT_A_RECORD);
    };
    on_outcome(fitting, in_use, information)
}

// An outcome: 62 if the attempt has ended.
#[tactic(auto, unfolding(attempt::specs::Step::on_outcome))]
fn on_outcome(fitting: Fitting, in_use: u32, information: Option<&[u8]>) -> Verdict
    ensures { applied fitting.attempt result ≡ on_outcome fitting.attempt in_use (presence_of information.entry) (bytes_given information.entry) }
{
    let end = fitting.attempt.end;
    match end {
        End::Open => match read_outcome(fitting.attempt, in_use, information) {
            Ok(read) => judge_read(fitting, in_use, read),
            Err(verdict) => verdict,
        },
        _ => Verdict::Unchanged(Refusal::TOO_LATE),
    }
}
