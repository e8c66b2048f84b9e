// What an event does to an attempt: the verdict on it. Judging an event ends with a verdict, and one function applies
// it to the record; every test comes before the record is touched, so that the compiler copies it nowhere.
#![tactic(auto)]

ghost use Rattle.std.specs.Prelude.{true, false, ◌≡◌};
ghost use Rattle.std.specs.Option.{MatchOption};
ghost use Rattle.attempt.specs.Step.{counts_fit, could_be_attempt};

pub mod record; // a verdict, applied

use attempt::{Attempt, MAX_ID};
use refusals::Refusal;
use versions::MAX_TABLE;
use versions::table::contains;

// What an event does to an attempt, its journal left out: there the answer is noted, which follows from the verdict
// (`record::journal_after`).
#[derive(Clone, Copy)]
pub enum Verdict {
    // A refusal that leaves the attempt unchanged.
    Unchanged(Refusal),
    // A refusal that ends the attempt.
    Closed(Refusal),
    // The attempted version becomes the choice from the packet's list.
    Acted(u32),
    // A genuine packet other than Version Negotiation was processed.
    Noted,
    // The attempt ends with this version in use.
    Completed(u32),
}

// Whether a record value could be an attempt's: its counts are within its arrays, and its attempted version is in its
// table. Only such a record is judged. It refuses nothing.
pub fn could_be_attempt(attempt: Attempt) -> bool
    ensures { result ≡ could_be_attempt attempt }
{
    // The table is copied out: lent from a record that came by value, it would have the whole record copied.
    let table = attempt.table;
    attempt.table_len <= MAX_TABLE
        && attempt.destination_len <= MAX_ID
        && attempt.source_len <= MAX_ID
        && contains(&table[..attempt.table_len], attempt.attempted)
}

// A record whose counts are within its arrays.
#[derive(Clone, Copy)]
pub struct Fitting {
    pub attempt: Attempt,
    pub ghost fits: { counts_fit attempt ≡ true },
}

impl Fitting {
    // A record value that could be an attempt's; none for another.
    pub fn of(attempt: Attempt) -> Option<Fitting>
        ensures { MatchOption result (could_be_attempt attempt ≡ false) (λ f. (could_be_attempt attempt ≡ true) × (f.attempt ≡ attempt)) }
    {
        if !could_be_attempt(attempt) {
            return None;
        }
        Some(Fitting { attempt })
    }
}
