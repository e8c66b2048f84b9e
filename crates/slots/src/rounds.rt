// The search by slots. Each round puts the entries that are not judged yet into slots and looks the whole list up. An
// entry that lost its slot to another is judged in a later round or by a pass.
ghost use Rattle.std.specs.Prelude.{false, ◌≡◌, ◌≢◌, ◌≤◌, length, get_or};
ghost use Rattle.lists.specs.Wire.{entries};
ghost use Rattle.versions.specs.Limits.{max_table};
ghost use Rattle.versions.specs.Table.{elem};
ghost use Rattle.slots.specs.First.{first_place, place_found};
ghost use Rattle.slots.specs.Slots.{AbsentNotHeld, Marked, MarkedTold, Stands, Told};
ghost use Rattle.slots.specs.declared.rounds.Mark.TheVariants.{Absent, Standing};

use crate::FEW;
use crate::factors::best_factor;
use crate::scan::scan;
use crate::slot::{Factor, Slots};
use lists::{contains_in_bytes, turned};
use versions::MAX_TABLE;

// What is known of an entry of the table: the list does not hold it; nothing; nothing, and it stands in its slot.
#[derive(Clone, Copy, PartialEq, Eq)]
pub(crate) enum Mark {
    Absent,
    Waiting,
    Standing,
}

// So many rounds at the most. No table that was built on purpose would take more than three (docs/BENCHMARKS.md).
const ROUNDS: usize = 8;

// The search of a table in a list on the wire. Once an entry is found, it is left out with all behind it: its place is the
// answer where the list holds none before it. (That the answer stays is an `ensures` of each step: a ghost field does not
// speak of two states.)
#[derive(Drop)]
struct Search<'a> {
    table: &'a [u32],
    bytes: &'a [u8],
    // What is known of each entry.
    marks: [Mark; MAX_TABLE],
    ghost room: { length table.now ≤ max_table },
    ghost size: { length marks ≡ max_table },
    ghost absent: { AbsentNotHeld table.now (entries bytes.now) marks },
}

// The place of the first entry of the table that occurs in the list, where the table is no longer than the marks and its
// first entry does not. (Never inlined: short lists then have nothing of its stack.)
#[tactic(auto, using(crate::proofs::Laws::absent_start), unfolding(crate::specs::First::place_found))]
#[inline(never)]
pub(crate) fn by_slots(table: &[u32], bytes: &[u8]) -> Option<usize>
    requires { (length table.now ≤ max_table) × (elem (get_or table.now 0 0) (entries bytes.now) ≡ false) }
    ensures { result ≡ place_found table.now (entries bytes.now) }
{
    let mut marks = [Mark::Waiting; MAX_TABLE];
    marks[0] = Mark::Absent;
    let mut search = Search {
        table,
        bytes,
        marks,
    };
    for _ in 0..ROUNDS {
        search.one_round();
        if search.are_few() {
            break;
        }
    }
    let place = search.judge_by_passes();
    (place < table.len()).then_some(place)
}

impl<'a> Search<'a> {
    // One round. What it leaves has the same answer.
    fn one_round(&mut self)
        ensures { first_place self.new.table.now (entries self.new.bytes.now) ≡ first_place self.old.table.now (entries self.old.bytes.now) }
    {
        let factor = best_factor(self.table, &self.marks);
        self.round_by(factor);
    }

    // The same with the factor. (Apart from its choice, since the compiler filled the slots twice where both were one.)
    fn round_by(&mut self, factor: Factor)
        ensures { first_place self.new.table.now (entries self.new.bytes.now) ≡ first_place self.old.table.now (entries self.old.bytes.now) }
    {
        let mut slots = Slots::new(factor);
        self.put(&mut slots);
        self.mark_standing(&slots);
        let rest = scan(&mut slots, self.table, self.bytes);
        self.judge(&slots, rest);
    }

    // Puts the words of the entries that are not judged yet into their slots, from the last one down: of two in one slot
    // the preferred one stands. (By place: with a `zip` that goes backwards the search of 64 entries in a list of 33 took
    // 1,016 ns, and takes 859.)
    fn put(&self, slots: &mut Slots) {
        let Search { table, marks, .. } = self;
        for k in (0..table.len()).rev() {
            if marks[k] != Mark::Absent {
                slots.put(turned(table[k]));
            }
        }
    }

    // Marks the entries that stand in their slots.
    fn mark_standing(&mut self, slots: &Slots)
        ensures standing { Marked self.new.table.now slots.now.words self.new.marks slots.now.factor.value }
        ensures kept { first_place self.new.table.now (entries self.new.bytes.now) ≡ first_place self.old.table.now (entries self.old.bytes.now) }
    {
        for k in 0..self.table.len() {
            if self.marks[k] != Mark::Absent {
                self.marks[k] = mark_of(slots, self.table[k]);
            }
        }
    }

    // Judges the entries that are due, in table order up to the first that the list holds: no entry from there on is
    // left.
    #[tactic(auto, using(crate::proofs::Laws::first_before))]
    fn judge(&mut self, slots: &Slots, rest: &[u8])
        requires { MarkedTold self.old.table.now (entries self.old.bytes.now) (entries rest.now) slots.now.words self.old.marks slots.now.factor.value }
        ensures { first_place self.new.table.now (entries self.new.bytes.now) ≡ first_place self.old.table.now (entries self.old.bytes.now) }
    {
        for k in 0..self.table.len() {
            let mark = self.marks[k];
            if is_due(mark, k) {
                if is_held(slots, self.bytes, rest, mark, self.table[k]) {
                    self.table = &self.table[..k];
                    return;
                }
                self.marks[k] = Mark::Absent;
            }
        }
    }

    // Whether so few entries are not judged yet that a pass for each is quicker than another round. No answer rests on
    // it.
    fn are_few(&self) -> bool {
        self.table
            .iter()
            .zip(&self.marks)
            .filter(|(_, mark)| **mark != Mark::Absent)
            .count()
            <= FEW
    }

    // The place of the first entry that occurs in the list, or their count: a pass over the list for each that is not
    // judged yet.
    #[tactic(auto, using(crate::proofs::Laws::first_is))]
    fn judge_by_passes(&self) -> usize
        ensures { result ≡ first_place self.now.table.now (entries self.now.bytes.now) }
    {
        let Search {
            table,
            bytes,
            marks,
        } = self;
        for place in 0..table.len() {
            if marks[place] != Mark::Absent && contains_in_bytes(bytes, table[place]) {
                return place;
            }
        }
        table.len()
    }
}

// The mark of an entry that is not judged yet.
fn mark_of(slots: &Slots, version: u32) -> Mark
    ensures { (result ≢ Absent) × (result ≡ Standing → Stands slots.now.words slots.now.factor.value version) }
{
    if !slots.stands(turned(version)) {
        return Mark::Waiting;
    }
    Mark::Standing
}

// Whether an entry is judged in this round: it stood in its slot; or it is one of the table's first, for which a pass is
// quicker than another round. No answer rests on it.
fn is_due(mark: Mark, place: usize) -> bool {
    match mark {
        Mark::Absent => false,
        Mark::Waiting => place < FEW,
        Mark::Standing => true,
    }
}

// Whether the list holds a version: by what the slots tell where it stood in its slot, else by a pass.
fn is_held(slots: &Slots, bytes: &[u8], rest: &[u8], mark: Mark, version: u32) -> bool
    requires { mark ≡ Standing → Told slots.now.words (entries bytes.now) (entries rest.now) slots.now.factor.value version }
    ensures { result ≡ elem version (entries bytes.now) }
{
    match mark {
        Mark::Standing => !slots.stands(turned(version)) || contains_in_bytes(rest, version),
        Mark::Absent | Mark::Waiting => contains_in_bytes(bytes, version),
    }
}
