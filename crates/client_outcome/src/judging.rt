// 72 to 75 on an open attempt, for the Chosen Version and the Available Versions that were read.
ghost use Rattle.std.specs.Prelude.{[], ◌∷◌, ◌++◌, ◌≡◌};
ghost use Rattle.choosing.specs.Choice.{preferred};
ghost use Rattle.lists.specs.Wire.{entries};
ghost use Rattle.versions.specs.Table.{elem};
ghost use Rattle.attempt.specs.Step.{picks, outcome_rules};
ghost use Rattle.client_outcome.specs.Judgements.{ends_by};
ghost use Rattle.client_verdict.specs.Verdicts.{applied};

use crate::ByTable;
use attempt::own::is_own;
use client_verdict::{Fitting, Verdict};
use lists::{VERSION_BYTES, contains_in_bytes};
use refusals::Refusal;

// 72 to 75 on an open attempt, for what was read, else it completes.
#[tactic(auto, using(crate::proofs::Outcomes::no_entries, crate::proofs::Outcomes::some_entries), unfolding(attempt::specs::Attempt::own_of))]
pub(crate) fn judge_read(fitting: Fitting, in_use: u32, read: ByTable) -> Verdict
    ensures { applied fitting.attempt result ≡
        ends_by fitting.attempt in_use (outcome_rules fitting.attempt in_use read.entry.chosen (entries read.entry.available.now)) }
{
    let chosen = read.chosen;
    let available = read.available;
    // Copied out: lent from a record that came by value, they would have the whole record copied.
    let table = fitting.attempt.table;
    let rows = fitting.attempt.rows;
    let count = fitting.attempt.table_len;
    let attempted = fitting.attempt.attempted;
    if !is_own(&table[..count], &rows, attempted, chosen) {
        return Verdict::Closed(Refusal::CHOSEN_NOT_OURS);
    }
    if chosen != in_use {
        return Verdict::Closed(Refusal::CHOSEN_NOT_IN_USE);
    }
    if !fitting.attempt.acted {
        return Verdict::Completed(in_use);
    }
    if available.len() < VERSION_BYTES {
        return Verdict::Closed(Refusal::AVAILABLE_EMPTY);
    }
    if !chooses_again(&table[..count], available, in_use, attempted) {
        return Verdict::Closed(Refusal::DOWNGRADED);
    }
    Verdict::Completed(in_use)
}

// Whether the choice from Available and the version in use is the attempted version. Available has at most 255 entries:
// each table entry is sought in them by itself, up to the first that is found.
fn chooses_again(table: &[u32], available: &[u8], in_use: u32, attempted: u32) -> bool
    ensures { result ≡ picks (preferred table.now (entries available.now ++ (in_use ∷ []))) attempted }
{
    for version in table {
        if is_listed(available, in_use, *version) {
            return *version == attempted;
        }
    }
    false
}

// Whether the version is among Available or the one in use.
#[tactic(auto, using(crate::proofs::Outcomes::listed_either))]
fn is_listed(available: &[u8], in_use: u32, version: u32) -> bool
    ensures { result ≡ elem version (entries available.now ++ (in_use ∷ [])) }
{
    version == in_use || contains_in_bytes(available, version)
}
