// A verdict, applied to the record of an attempt.
ghost use Rattle.std.specs.Prelude.{◌≡◌};
ghost use Rattle.refusals.specs.Reply.{refusal_of};
ghost use Rattle.attempt.specs.Attempt.{put, with_journal};
ghost use Rattle.attempt.specs.Journaled.{journaled_any};
ghost use Rattle.attempt.specs.Step.{shown, answer_reply};
ghost use Rattle.client_verdict.specs.Verdicts.{applied, journal_after, attempted_after, acted_after, heard_after, end_after, reply_of};

use crate::Verdict;
use attempt::{Answer, Attempt, End, NOT_A_RECORD, Stepped};
use journal::{Journal, note};
use refusals::Refusal;

// The record and the answer after a verdict, on any record value. A verdict's refusal is the answer; it leaves the record
// unchanged, or changes its end mark alone, but for the journal, in which each answer is noted. NOT_A_RECORD is not noted.
pub fn apply(attempt: Attempt, verdict: Verdict) -> Stepped
    ensures { shown result ≡ journaled_any (applied attempt verdict) }
{
    let before = attempt.end;
    let attempted = attempted_after(attempt.attempted, verdict);
    let acted = acted_after(attempt.acted, verdict);
    let heard = heard_after(attempt.heard, verdict);
    let end = end_after(before, verdict);
    let journal = journal_after(attempt.journal, verdict);
    let answer = answer_of(verdict);
    // From here on no test.
    let next = put(attempt, attempted, acted, heard, end, journal);
    Stepped {
        attempt: next,
        answer,
    }
}

// The attempted version after a verdict. It refuses nothing.
pub fn attempted_after(attempted: u32, verdict: Verdict) -> u32
    ensures { result ≡ attempted_after attempted verdict }
{
    match verdict {
        Verdict::Acted(version) => version,
        _ => attempted,
    }
}

fn acted_after(acted: bool, verdict: Verdict) -> bool
    ensures { result ≡ acted_after acted verdict }
{
    match verdict {
        Verdict::Acted(_) => true,
        _ => acted,
    }
}

fn heard_after(heard: bool, verdict: Verdict) -> bool
    ensures { result ≡ heard_after heard verdict }
{
    match verdict {
        Verdict::Noted => true,
        _ => heard,
    }
}

fn end_after(end: End, verdict: Verdict) -> End
    ensures { result ≡ end_after end verdict }
{
    match verdict {
        Verdict::Closed(refusal) => End::Closed(refusal),
        Verdict::Completed(version) => End::Completed(version),
        _ => end,
    }
}

// The journal after a verdict: its answer is noted. NOT_A_RECORD is no answer of an event, and is not.
pub fn journal_after(journal: Journal, verdict: Verdict) -> Journal
    ensures { result ≡ journal_after journal verdict }
{
    let number = number_of(verdict);
    if number == NOT_A_RECORD.0 {
        return journal;
    }
    note(journal, number)
}

// The number of a verdict's answer: that of its refusal, 0 for none. It refuses nothing.
pub fn number_of(verdict: Verdict) -> u8
    ensures { result ≡ refusal_of (reply_of verdict) }
{
    match verdict {
        Verdict::Unchanged(refusal) | Verdict::Closed(refusal) => refusal.0,
        _ => 0,
    }
}

fn answer_of(verdict: Verdict) -> Result<Answer, Refusal>
    ensures { answer_reply result ≡ reply_of verdict }
{
    match verdict {
        Verdict::Unchanged(refusal) | Verdict::Closed(refusal) => Err(refusal),
        Verdict::Acted(version) => Ok(Answer::Acted(version)),
        Verdict::Noted => Ok(Answer::Noted),
        Verdict::Completed(version) => Ok(Answer::Completed(version)),
    }
}

// The record with the fields that an event changes; every other field stays.
fn put(
    attempt: Attempt,
    attempted: u32,
    acted: bool,
    heard: bool,
    end: End,
    journal: Journal,
) -> Attempt
    ensures { result ≡ with_journal (put attempt attempted acted heard end) journal }
{
    Attempt {
        attempted,
        acted,
        heard,
        end,
        journal,
        ..attempt
    }
}
