// Both ends together: the test of a server's configuration, and theorems over the definitions that the contracts of client
// and server cite. What a safe configuration is good for: proofs/Honest.antt, proofs/Forged.antt. Reserved numbers on the wire
// change nothing: proofs/Reserved.antt.
#![tactic(auto)]

ghost use Rattle.std.specs.Prelude.{[], ◌≡◌};
ghost use Rattle.both_ends.specs.Configuration.{configuration_of, first_outside, is_safe, judged_configuration, verdict_on, verdict_in, finding_reply, says_safe};

use information::MAX_AVAILABLE;
use refusals::Refusal;
use versions::pairs::are_pairs;
use versions::table::{contains, is_table};

// What the test of a configuration finds: it is safe, or a part of the safe rule is broken by a version.
#[derive(Clone, Copy)]
pub enum Finding {
    Safe,
    AcceptedNotOffered(u32),
    OfferedNotAccepted(u32),
    OfferedNotReadable(u32),
    AvailableNotOffered(u32),
    OfferedNotAvailable(u32),
}

// Tests the lists that a server is configured with: the versions whose first flights it can read, those that it accepts,
// those that it offers in Version Negotiation packets, those that it lists as Available Versions, and its pairs. Refusals,
// lowest first: 23 (the offered table breaks its rule), 33 (over MAX_AVAILABLE Available Versions), 41 (the table of readable
// or of accepted versions breaks its rule), 43 (the pairs break their rule). The safe rule: accepted, offered and Available
// hold the same versions, and each of them is readable. Where it is broken, the first part that is, in the order of
// `Finding`, with the first version of the list named first that breaks it.
// The lists come one by one, not in a struct: a public function keeps its parameters (docs/PROMISES.md names it).
#[tactic(auto, using(crate::proofs::Findings::safe_found), unfolding(crate::specs::Configuration::judged_configuration, crate::specs::Configuration::is_safe))]
pub fn judge_configuration(
    readable: &[u32],
    accepted: &[u32],
    offered: &[u32],
    available: &[u32],
    pairs: &[[u32; 2]],
) -> Result<Finding, Refusal>
    ensures answer { finding_reply result ≡ judged_configuration (configuration_of readable.now accepted.now offered.now available.now pairs.now) }
    ensures safe { says_safe result ≡ is_safe (configuration_of readable.now accepted.now offered.now available.now pairs.now) }
{
    if !is_table(offered) {
        return Err(Refusal::BAD_OFFERED_TABLE);
    }
    if MAX_AVAILABLE < available.len() {
        return Err(Refusal::INFORMATION_TOO_LONG);
    }
    if !is_table(readable) || !is_table(accepted) {
        return Err(Refusal::BAD_TABLE);
    }
    if !are_pairs(pairs) {
        return Err(Refusal::BAD_PAIRS);
    }
    Ok(judge_lists(readable, accepted, offered, available))
}

// The first part of the safe rule that is broken.
fn judge_lists(readable: &[u32], accepted: &[u32], offered: &[u32], available: &[u32]) -> Finding
    ensures { verdict_in result ≡ verdict_on (configuration_of readable.now accepted.now offered.now available.now []) }
{
    if let Some(version) = first_outside(accepted, offered) {
        return Finding::AcceptedNotOffered(version);
    }
    if let Some(version) = first_outside(offered, accepted) {
        return Finding::OfferedNotAccepted(version);
    }
    if let Some(version) = first_outside(offered, readable) {
        return Finding::OfferedNotReadable(version);
    }
    if let Some(version) = first_outside(available, offered) {
        return Finding::AvailableNotOffered(version);
    }
    if let Some(version) = first_outside(offered, available) {
        return Finding::OfferedNotAvailable(version);
    }
    Finding::Safe
}

// The first version of a list that the other does not hold.
fn first_outside(list: &[u32], other: &[u32]) -> Option<u32>
    ensures { result ≡ first_outside list.now other.now }
{
    list.iter()
        .copied()
        .find(|version| !contains(other, *version))
}
