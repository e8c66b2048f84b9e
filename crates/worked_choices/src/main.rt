// Document 01's worked choices beside P1 to P12, from a list and by the server, run through the public functions: one
// line for each case. "When the desk says no" has one line for each of 40, 41, 42 and 51; then 41 and 43 at the limits,
// document 02's lists as words, and its barred versions.
#![tactic(auto)]

mod barred_cases; // versions barred for the flight at hand
mod limit_cases; // tables and pairs at their limits
mod list_cases; // "How a version is chosen": from a list
mod list_refusals; // "When the desk says no": 40 to 42
mod server_cases; // by the server
mod show; // what is printed, and one choice and one line
mod word_cases; // lists as words, and the choice by a word

use std::io;

fn main(rt: HostRuntime) -> io::Result<()> {
    list_cases::all(&rt)?;
    list_refusals::all(&rt)?;
    server_cases::all(&rt)?;
    limit_cases::all(&rt)?;
    word_cases::all(&rt)?;
    barred_cases::all(&rt)
}
