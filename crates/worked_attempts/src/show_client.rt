// What is printed, and one start, own list, Version Information, event or journal of a client and one line with its answer.
ghost use Rattle.attempt.specs.Events.{Reachable};

use crate::records;
use attempt::own::own_list;
use attempt::{Answer, Attempt, End, Event};
use client_information::write_client_information;
use client_start::start;
use client_step::step;
use journal::{Journal, tell};
use lists::{VERSION_BYTES, entry_at};
use refusals::{Call, Refusal, close_code};
use std::{fmt, io};

// The number of a refusal, and its close code if it has one. Each program has its own: a crate for these lines is no plainer.
#[derive(Drop)]
struct Refused(Refusal);

impl fmt::Display for Refused {
    fn fmt<W: fmt::Write>(&self, f: &mut fmt::Formatter<W>) -> fmt::Result {
        write!(f, "refused {}", u32::from(self.0))?;
        match close_code(self.0, Call::Reading) {
            Some(code) => write!(f, ", close code {code}"),
            None => Ok(()),
        }
    }
}

// The answer of an event.
#[derive(Drop)]
struct Answered(Result<Answer, Refusal>);

impl fmt::Display for Answered {
    fn fmt<W: fmt::Write>(&self, f: &mut fmt::Formatter<W>) -> fmt::Result {
        match self.0 {
            Ok(Answer::Acted(attempted)) => write!(f, "attempt {attempted}"),
            Ok(Answer::Noted) => write!(f, "noted"),
            Ok(Answer::Completed(in_use)) => write!(f, "complete with {in_use}"),
            Err(refusal) => write!(f, "{}", Refused(refusal)),
        }
    }
}

// How an attempt stands.
#[derive(Drop)]
struct Standing(End);

impl fmt::Display for Standing {
    fn fmt<W: fmt::Write>(&self, f: &mut fmt::Formatter<W>) -> fmt::Result {
        match self.0 {
            End::Open => write!(f, "open"),
            End::Completed(in_use) => write!(f, "completed with {in_use}"),
            End::Closed(refusal) => write!(f, "closed with {}", u32::from(refusal)),
        }
    }
}

// The rest of a line: the first numbers, as many as `count`, each behind a space. A count, since the own list and what a
// journal tells have one beside their array.
fn spaced<T: fmt::Display>(rt: &impl Print, numbers: &[T], count: usize) -> io::Result<()> {
    for number in numbers.iter().take(count) {
        print!(rt; " {number}")?;
    }
    println!(rt)
}

// A start with table 14, 12, 10, which may be refused.
pub(crate) fn begin(
    rt: &impl Print,
    label: &str,
    pairs: &[[u32; 2]],
    barred: &[[u32; 2]],
    original: u32,
    destination: &[u8],
    source: &[u8],
) -> io::Result<()> {
    match start(&[14, 12, 10], pairs, barred, original, destination, source) {
        Ok(_) => println!(rt; "{label}opened"),
        Err(refusal) => println!(rt; "{label}{}", Refused(refusal)),
    }
}

// The own list of an attempt.
pub(crate) fn own(rt: &impl Print, label: &str, attempt: Attempt) -> io::Result<()> {
    print!(rt; "{label}")?;
    let own = own_list(attempt);
    spaced(rt, &own.versions, own.count)
}

// The Version Information of an attempt's client, with reserved numbers and their places: its numbers in their order.
pub(crate) fn sent(
    rt: &impl Print,
    label: &str,
    attempt: Attempt,
    reserved: &[[u32; 2]],
    buffer: &mut [u8],
) -> io::Result<()> {
    print!(rt; "{label}")?;
    match write_client_information(attempt, reserved, buffer) {
        Ok(count) => numbers(rt, buffer, count),
        Err(refusal) => println!(rt; " {}", Refused(refusal)),
    }
}

// The rest of a line: the numbers that lie in the first bytes, as many as `count`, each behind a space.
fn numbers(rt: &impl Print, bytes: &[u8], count: usize) -> io::Result<()> {
    for place in 0..count / VERSION_BYTES {
        if let Some(number) = entry_at(bytes, place) {
            print!(rt; " {number}")?;
        }
    }
    println!(rt)
}

// One event: the answer, and how the attempt stands then.
fn event(rt: &impl Print, label: &str, attempt: Attempt, event: Event) -> io::Result<()>
    requires { Reachable attempt }
{
    let stepped = step(attempt, event);
    let answer = Answered(stepped.answer);
    let standing = Standing(stepped.attempt.end);
    println!(rt; "{label}{answer}; record {standing}")
}

// A datagram came.
pub(crate) fn datagram(
    rt: &impl Print,
    label: &str,
    attempt: Attempt,
    bytes: &[u8],
) -> io::Result<()>
    requires { Reachable attempt }
{
    event(rt, label, attempt, Event::Datagram(bytes))
}

// A genuine packet other than Version Negotiation was processed (document 01's "heard").
pub(crate) fn processed(rt: &impl Print, label: &str, attempt: Attempt) -> io::Result<()>
    requires { Reachable attempt }
{
    event(rt, label, attempt, Event::PacketProcessed)
}

// The handshake ended, with Version Information.
pub(crate) fn outcome(
    rt: &impl Print,
    label: &str,
    attempt: Attempt,
    in_use: u32,
    bytes: &[u8],
) -> io::Result<()>
    requires { Reachable attempt }
{
    event(rt, label, attempt, records::given(in_use, bytes))
}

// The handshake ended, and Version Information is missing.
pub(crate) fn missing(rt: &impl Print, label: &str, attempt: Attempt, in_use: u32) -> io::Result<()>
    requires { Reachable attempt }
{
    event(rt, label, attempt, records::missing(in_use))
}

// What a journal tells: the count of all events, and the answers in the places that are used.
pub(crate) fn told(rt: &impl Print, label: &str, journal: Journal) -> io::Result<()> {
    let told = tell(journal);
    print!(rt; "{label}{} events, answers", told.count)?;
    spaced(rt, &told.answers, told.used)
}
