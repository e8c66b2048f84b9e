// What is printed, and one choice and one line with its answer.
use choosing::choose_from;
use refusals::{Call, Refusal, close_code};
use server::{Decision, choose_after_first_flight};
use sets::{choose_by_word, choose_from_word, count_held, list_word};
use std::{fmt, io};

// The number of a refusal, and its close code if it has one. Each program has its own: a crate for these lines is no plainer.
#[derive(Drop)]
struct Refused(Refusal);

impl fmt::Display for Refused {
    fn fmt<W: fmt::Write>(&self, f: &mut fmt::Formatter<W>) -> fmt::Result {
        write!(f, "refused {}", u32::from(self.0))?;
        match close_code(self.0, Call::Reading) {
            Some(code) => write!(f, ", close code {code}"),
            None => Ok(()),
        }
    }
}

// What was found, behind its name, or the refusal.
#[derive(Drop)]
struct Found<'a, T> {
    name: &'a str,
    answer: Result<T, Refusal>,
}

impl<'a, T: fmt::Display> fmt::Display for Found<'a, T> {
    fn fmt<W: fmt::Write>(&self, f: &mut fmt::Formatter<W>) -> fmt::Result {
        match &self.answer {
            Ok(found) => write!(f, "{} {found}", self.name),
            Err(refusal) => write!(f, "{}", Refused(*refusal)),
        }
    }
}

// The choice of a server that reads 3, from what it accepts, its pairs, and what is barred for the first flight.
pub(crate) fn decision(
    rt: &impl Print,
    label: &str,
    accepted: &[u32],
    pairs: &[[u32; 2]],
    barred: &[u32],
    flight: u32,
    information: Option<&[u8]>,
) -> io::Result<()> {
    match choose_after_first_flight(&[3], accepted, pairs, barred, flight, information) {
        Ok(Decision::Negotiate) => println!(rt; "{label}negotiate"),
        Ok(Decision::Use(chosen)) => println!(rt; "{label}use {chosen}"),
        Err(refusal) => println!(rt; "{label}{}", Refused(refusal)),
    }
}

// The same after a first flight in 3 with Chosen 3, Available 3, 4.
pub(crate) fn flight(
    rt: &impl Print,
    label: &str,
    accepted: &[u32],
    pairs: &[[u32; 2]],
    barred: &[u32],
) -> io::Result<()> {
    decision(
        rt,
        label,
        accepted,
        pairs,
        barred,
        3,
        Some(b"\0\0\0\x03\0\0\0\x03\0\0\0\x04"),
    )
}

// A line with a choice.
fn chosen(rt: &impl Print, label: &str, answer: Result<u32, Refusal>) -> io::Result<()> {
    let choice = Found {
        name: "choose",
        answer,
    };
    println!(rt; "{label}{choice}")
}

// The choice from a list.
pub(crate) fn choice(rt: &impl Print, label: &str, table: &[u32], list: &[u32]) -> io::Result<()> {
    chosen(rt, label, choose_from(table, list))
}

// The choice from a list by its word: the word, how many table entries the list holds, and the choice.
pub(crate) fn by_word(rt: &impl Print, label: &str, table: &[u32], list: &[u32]) -> io::Result<()> {
    let word = Found {
        name: "word",
        answer: list_word(table, list),
    };
    let held = Found {
        name: "holds",
        answer: count_held(table, list),
    };
    print!(rt; "{label}{word}; {held}")?;
    chosen(rt, "; ", choose_by_word(table, list))
}

// The choice from a word.
pub(crate) fn from_word(rt: &impl Print, label: &str, table: &[u32], word: u64) -> io::Result<()> {
    chosen(rt, label, choose_from_word(table, word))
}

// The choice from the words of two lists, joined. A word that is refused has no bits.
pub(crate) fn joined(
    rt: &impl Print,
    label: &str,
    table: &[u32],
    a: &[u32],
    b: &[u32],
) -> io::Result<()> {
    let first = list_word(table, a).unwrap_or(0);
    let second = list_word(table, b).unwrap_or(0);
    from_word(rt, label, table, first | second)
}
