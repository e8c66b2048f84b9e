// What an outcome on an open attempt tells, judged with no look at the table: 71, 73, 31 to 35.
ghost use Rattle.std.specs.Prelude.{◌≡◌};
ghost use Rattle.information.specs.Presence.{Presence.Given, presence_of, bytes_given};
ghost use Rattle.attempt.specs.Step.{missing_rules, information_rules};
ghost use Rattle.client_outcome.specs.Judgements.{ends_by, judgement_after};

use crate::ByTable;
use attempt::Attempt;
use client_verdict::Verdict;
use information::{Sender, read_information};
use refusals::Refusal;

// What stands in for information that is missing: version 1, and no other (RFC 9368 section 8).
static STAND_IN: [u8; 4] = [0, 0, 0, 1];

// An outcome on an open attempt, as far as it is judged with no look at the table: the verdict, or what is left to judge.
pub(crate) fn read_outcome(
    attempt: Attempt,
    in_use: u32,
    information: Option<&[u8]>,
) -> Result<ByTable, Verdict>
    ensures { judgement_after attempt in_use result ≡
        ends_by attempt in_use (information_rules attempt in_use (presence_of information.entry) (bytes_given information.entry)) }
{
    match information {
        None => on_missing(attempt, in_use),
        Some(bytes) => on_given(attempt, in_use, bytes),
    }
}

// The information is missing: 71, or 73 where the client never acted.
#[tactic(auto, unfolding(lists::specs::Wire::entries))]
fn on_missing(attempt: Attempt, in_use: u32) -> Result<ByTable<'static>, Verdict>
    ensures { judgement_after attempt in_use result ≡ ends_by attempt in_use (missing_rules attempt.acted attempt in_use) }
{
    if attempt.acted {
        if attempt.attempted != 1 {
            return Err(Verdict::Closed(Refusal::INFORMATION_MISSING));
        }
        return Ok(ByTable {
            chosen: 1,
            available: &STAND_IN,
        });
    }
    if attempt.attempted != in_use {
        return Err(Verdict::Closed(Refusal::CHOSEN_NOT_IN_USE));
    }
    Err(Verdict::Completed(in_use))
}

// The information is given: 31 to 35.
fn on_given(attempt: Attempt, in_use: u32, information: &[u8]) -> Result<ByTable, Verdict>
    ensures { judgement_after attempt in_use result ≡
        ends_by attempt in_use (information_rules attempt in_use Given information.now) }
{
    match read_information(Sender::Server, information) {
        Ok(read) => Ok(ByTable {
            chosen: read.chosen,
            available: &information[read.available.start..read.available.end],
        }),
        Err(refusal) => Err(Verdict::Closed(refusal)),
    }
}
