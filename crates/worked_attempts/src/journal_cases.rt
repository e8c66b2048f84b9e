// Document 02's journal: the last event answers, oldest first, and the count of all events. P4 with refused events around it;
// a journal near the stop of its count, which no list of events here reaches.
ghost use Rattle.attempt.specs.Events.{Reachable};

use crate::records;
use crate::show_client::told;
use attempt::{Attempt, Event};
use client_step::step_any;
use journal::{Journal, note};
use std::io;

pub(crate) fn all(rt: &impl Print) -> io::Result<()> {
    told(rt, "journal of a start: ", records::plain().journal)?;
    around_the_packet(rt)?;
    the_eight_run_over(rt)?;
    started_again(rt)?;
    no_record(rt)?;
    near_the_stop(rt)
}

// A datagram that is no Version Negotiation packet (61), one for another connection (63), one that lists the Original
// Version (64), the packet of P4 (0), a second one (62), the outcome of P4 (0).
fn through_the_packet() -> Attempt
    ensures { Reachable result }
{
    let first = records::after_datagram(records::plain(), b"\x40");
    let second = records::after_datagram(first, b"\x80\0\0\0\0\x02\xaa\xbb\x01\xcc\0\0\0\x0a");
    let third = records::after_datagram(
        second,
        b"\x80\0\0\0\0\x01\xcc\x02\xaa\xbb\0\0\0\x0c\0\0\0\x0e",
    );
    let acted = records::after_datagram(
        third,
        b"\x80\0\0\0\0\x01\xcc\x02\xaa\xbb\0\0\0\x0a\0\0\0\x0d\0\0\0\x0e",
    );
    let fifth = records::after_datagram(acted, b"\x80\0\0\0\0\x01\xcc\x02\xaa\xbb\0\0\0\x0a");
    records::after_outcome(fifth, 14, b"\0\0\0\x0e\0\0\0\x0d\0\0\0\x0e")
}

fn around_the_packet(rt: &impl Print) -> io::Result<()> {
    told(
        rt,
        "journal of P4 with refused events around it: ",
        through_the_packet().journal,
    )
}

// Events after the end are noted too, and the oldest answers go.
fn the_eight_run_over(rt: &impl Print) -> io::Result<()> {
    let seventh = records::after_packet(through_the_packet());
    let eighth = records::after_datagram(seventh, b"\x40");
    told(rt, "and two events after the end: ", eighth.journal)?;
    let ninth = records::after_missing(eighth, 14);
    told(rt, "and a third: ", ninth.journal)
}

// A start hands back an empty journal, whatever was in the place before.
fn started_again(rt: &impl Print) -> io::Result<()> {
    told(
        rt,
        "journal of a start after it: ",
        records::paired().journal,
    )
}

// 255 is no answer of an event: on the record of a refused start nothing is noted.
fn no_record(rt: &impl Print) -> io::Result<()> {
    let stepped = step_any(records::no_attempt(), Event::PacketProcessed);
    told(
        rt,
        "journal of a refused start's record after an event: ",
        stepped.attempt.journal,
    )
}

// "stopping at 4,294,967,295 while the answers go on"
fn near_the_stop(rt: &impl Print) -> io::Result<()> {
    let before = Journal {
        answers: [1, 2, 3, 4, 5, 6, 7, 8],
        count: 4294967294,
    };
    let at_the_stop = note(before, 61);
    told(
        rt,
        "journal one answer before the stop of its count, and 61: ",
        at_the_stop,
    )?;
    let past_it = note(at_the_stop, 64);
    told(rt, "and 64: ", past_it)
}
