// Document 01's worked calls of the client's attempt beside P1 to P12, run through the public functions: one line for
// each case, in the order of document 01's sections. "When the desk says no" has one line for each number of a start
// or an event. Last are document 02's barred pairs, the client's Version Information with reserved numbers, and the journal.
#![tactic(auto)]

mod attempt_cases; // "How a version is chosen": by the client
mod barred_cases; // pairs barred for an attempt's flights
mod event_refusals; // "When the desk says no": 61 to 75
mod journal_cases; // what happened to an attempt
mod records; // the attempts that the cases go through
mod reserved_cases; // the client's Version Information with reserved numbers
mod show_client; // what is printed, and one start, own list, Version Information or event and one line
mod slip_cases; // "Slips the old code made, or nearly": the client's
mod start_refusals; // "When the desk says no": 43 to 45

use std::io;

fn main(rt: HostRuntime) -> io::Result<()> {
    attempt_cases::all(&rt)?;
    start_refusals::all(&rt)?;
    event_refusals::all(&rt)?;
    slip_cases::all(&rt)?;
    barred_cases::all(&rt)?;
    reserved_cases::all(&rt)?;
    journal_cases::all(&rt)
}
