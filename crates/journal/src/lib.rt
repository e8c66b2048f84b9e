// The journal of an attempt (document 02, C-20): the last eight event answers, oldest first, and the count of all events.
// It is a part of the attempt's record that every event changes and none reads.
#![tactic(auto)]

ghost use Rattle.std.specs.Prelude.{cond, [], ◌∷◌, ◌++◌, ◌≡◌, min, drop, set};
ghost use Rattle.journal.specs.Journals.{places, journal_of, note_of, told_of};

// How many answers a journal holds.
pub const PLACES: usize = 8;

// Where the count of events stops.
pub const MAX_EVENTS: u32 = 4294967295;

// The journal. An answer is the number of a refusal, 0 for none; unused places are 0 and last. (An array beside a count, and
// numbers: it is a part of C's record, and there is no heap.)
#[repr(C)]
#[derive(Clone, Copy)]
pub struct Journal {
    pub answers: [u8; PLACES],
    pub count: u32,
}

// What a journal tells: its answers in order, how many of the places are used, the count of all events. The answers keep the
// shape that the journal has, an array beside its count: a slice would borrow from a journal that comes by value.
#[derive(Drop)]
pub struct Told {
    pub answers: [u8; PLACES],
    pub used: usize,
    pub count: u32,
}

// The journal of no events, which a start's record has. It refuses nothing.
#[tactic(auto, unfolding(crate::specs::Journals::journal_of, crate::specs::Journals::last_answers))]
pub fn empty() -> Journal
    ensures { result ≡ journal_of [] }
{
    Journal {
        answers: [0u8; PLACES],
        count: 0,
    }
}

// The journal with one more answer, for any journal value. It refuses nothing: the oldest of eight answers goes, and the
// count stops at MAX_EVENTS, while the answers go on.
#[tactic(auto, unfolding(crate::specs::Journals::note_of))]
pub fn note(journal: Journal, answer: u8) -> Journal
    ensures { result ≡ note_of journal answer }
{
    let count = journal.count;
    let old = journal.answers;
    // (`as`: Rust has no From between these widths; that the value fits is proved.)
    let place = count as usize;
    if place < PLACES {
        let answers = with_answer(old, place, answer);
        let next = count + 1;
        return Journal {
            answers,
            count: next,
        };
    }
    let answers = without_oldest(old, answer);
    if count < MAX_EVENTS {
        let next = count + 1;
        return Journal {
            answers,
            count: next,
        };
    }
    Journal { answers, count }
}

// The answers with one at a place. It is written out place by place: a write to a place that is known only when it runs
// goes through memory, and an event has little of that to spare (docs/PROVING.md, "Traps").
fn with_answer(old: [u8; PLACES], place: usize, answer: u8) -> [u8; PLACES]
    ensures { result ≡ set old place answer }
{
    let first = one_of(place == 0, answer, old[0]);
    let second = one_of(place == 1, answer, old[1]);
    let third = one_of(place == 2, answer, old[2]);
    let fourth = one_of(place == 3, answer, old[3]);
    let fifth = one_of(place == 4, answer, old[4]);
    let sixth = one_of(place == 5, answer, old[5]);
    let seventh = one_of(place == 6, answer, old[6]);
    let eighth = one_of(place == 7, answer, old[7]);
    [first, second, third, fourth, fifth, sixth, seventh, eighth]
}

// An answer where it is new, else what is held.
fn one_of(new: bool, answer: u8, held: u8) -> u8
    ensures { result ≡ cond new answer held }
{
    if new { answer } else { held }
}

// The answers without the oldest, and one behind them.
fn without_oldest(old: [u8; PLACES], answer: u8) -> [u8; PLACES]
    ensures { result ≡ drop 1 old ++ (answer ∷ []) }
{
    let [_, second, third, fourth, fifth, sixth, seventh, eighth] = old;
    [second, third, fourth, fifth, sixth, seventh, eighth, answer]
}

// What a journal tells, for any journal value. It refuses nothing.
#[tactic(auto, unfolding(crate::specs::Journals::told_of))]
pub fn tell(journal: Journal) -> Told
    ensures { result ≡ told_of journal }
{
    let answers = journal.answers;
    let count = journal.count;
    // (`as`: Rust has no From between these widths; that the value fits is proved.)
    let used = PLACES.min(count as usize);
    Told {
        answers,
        used,
        count,
    }
}
