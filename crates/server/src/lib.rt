// The server's choice after a first flight (RFC 9368 sections 2.3 and 4). It answers for every input.
#![tactic(auto)]

ghost use Rattle.std.specs.Prelude.{true, cond, not, ◌&&◌, ◌≡◌, eqb};
ghost use Rattle.versions.specs.Table.{elem, table_keeps_rule};
ghost use Rattle.versions.specs.Words.{bit_at, word_from};
ghost use Rattle.lists.specs.Wire.{entries};
ghost use Rattle.information.specs.Presence.{Presence.Given, presence_of, bytes_given};
ghost use Rattle.server.specs.FirstFlight.{Act.negotiate, Act.use-version, decision_reply, shown_decision, first_accepted, with_information, decide};

use information::{Sender, read_information};
use lists::{Span, contains_in_bytes};
use refusals::Refusal;
use versions::pairs::are_pairs;
use versions::table::{contains, is_table};
use versions::words::mark;

// What the server does where it refuses nothing: it sends a Version Negotiation packet, or it uses a version.
#[derive(Clone, Copy)]
pub enum Decision {
    Negotiate,
    Use(u32),
}

// The most versions that are barred for one first flight.
pub const MAX_BARRED: usize = 64;

// Decides after a first flight of a version, from the tables of versions whose first flights the server can read
// and of those it accepts, from its pairs, from the versions that are barred for this flight, and from the client's
// Version Information. Refusals, in order: 41 (a table breaks its rule), 43 (the pairs break their rule, or over
// MAX_BARRED versions are barred); then, for a readable version with information given: 31 to 36 (the information is
// malformed), 51 (the Chosen Version is not the first flight's). Answers: a version that is not readable is negotiated;
// with information missing, the version itself if accepted, else negotiate; with information given, the first accepted
// version that is among the Available Versions and is the Chosen Version, or is paired from it and not barred; else
// negotiate.
#[tactic(auto, unfolding(crate::specs::FirstFlight::decide))]
pub fn choose_after_first_flight(
    readable: &[u32],
    accepted: &[u32],
    pairs: &[[u32; 2]],
    barred: &[u32],
    version: u32,
    information: Option<&[u8]>,
) -> Result<Decision, Refusal>
    ensures { decision_reply result ≡ decide readable.now accepted.now pairs.now barred.now version (presence_of information.entry) (bytes_given information.entry) }
{
    if !is_table(readable) || !is_table(accepted) {
        return Err(Refusal::BAD_TABLE);
    }
    if !are_pairs(pairs) || MAX_BARRED < barred.len() {
        return Err(Refusal::BAD_PAIRS);
    }
    if !contains(readable, version) {
        return Ok(Decision::Negotiate);
    }
    let Some(information) = information else {
        return Ok(choose_without_information(accepted, version));
    };
    let choice = FlightChoice {
        accepted,
        pairs,
        barred,
    };
    choice.with_information(version, information)
}

// The decision for a readable version where Version Information is missing.
fn choose_without_information(accepted: &[u32], version: u32) -> Decision
    ensures { shown_decision result ≡ cond (elem version accepted.now) (use-version version) negotiate }
{
    if contains(accepted, version) {
        return Decision::Use(version);
    }
    Decision::Negotiate
}

// What a server chooses by where Version Information is given: the versions that it accepts, its pairs, and the versions
// that are barred for the flight.
#[derive(Drop)]
struct FlightChoice<'a> {
    accepted: &'a [u32],
    pairs: &'a [[u32; 2]],
    barred: &'a [u32],
    ghost rule: { table_keeps_rule accepted.now ≡ true },
}

impl<'a> FlightChoice<'a> {
    // The decision for a readable version: 31 to 36, then 51, then the choice.
    #[tactic(auto, using(crate::proofs::Flights::given_rules))]
    fn with_information(&self, version: u32, information: &[u8]) -> Result<Decision, Refusal>
        ensures { decision_reply result ≡ with_information self.now.accepted.now self.now.pairs.now self.now.barred.now version Given information.now }
    {
        let read = read_information(Sender::Client, information)?;
        if read.chosen != version {
            return Err(Refusal::CHOSEN_NOT_RECEIVED);
        }
        let Span { start, end } = read.available;
        Ok(self.first_accepted(read.chosen, &information[start..end]))
    }

    // The first accepted version that the server may use, in the order of the server's table.
    #[tactic(auto, using(crate::proofs::Flights::walk_rules))]
    fn first_accepted(&self, chosen: u32, available: &[u8]) -> Decision
        ensures { shown_decision result ≡ first_accepted self.now.accepted.now self.now.pairs.now self.now.barred.now chosen (entries available.now) }
    {
        let mut word = self.word_from(chosen);
        for version in self.accepted {
            if may_use(word, self.barred, chosen, available, *version) {
                return Decision::Use(*version);
            }
            word /= 2;
        }
        Decision::Negotiate
    }

    // The accepted versions that are the Chosen Version or are paired from it, as a word: bit j for entry j. It goes over
    // the pairs once.
    fn word_from(&self, chosen: u32) -> u64
        ensures { result ≡ word_from self.now.accepted.now self.now.pairs.now chosen }
    {
        let mut word = mark(self.accepted, chosen, 0);
        for pair in self.pairs.iter().rev() {
            if pair[0] == chosen {
                word = mark(self.accepted, pair[1], word);
            }
        }
        word
    }
}

// Whether the version's bit, the lowest of the word, is set, the version is not barred, and it is among the Available
// Versions.
fn may_use(word: u64, barred: &[u32], chosen: u32, available: &[u8], version: u32) -> bool
    ensures { result ≡ (elem version (entries available.now) &&
        (bit_at word 0 && not (not (eqb version chosen) && elem version barred.now))) }
{
    word % 2 == 1 && !is_barred(barred, chosen, version) && contains_in_bytes(available, version)
}

// Whether the version is barred, and is not the Chosen Version.
fn is_barred(barred: &[u32], chosen: u32, version: u32) -> bool
    ensures { result ≡ (not (eqb version chosen) && elem version barred.now) }
{
    version != chosen && contains(barred, version)
}
