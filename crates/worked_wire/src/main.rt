// Document 01's worked calls and byte strings of what is on the wire, run through the public functions: one line for
// each case, in the order of document 01's sections. "When the desk says no" has one line for each number up to 37; those
// from 40 to 75 are in the programs worked_choices and worked_attempts. Document 02's transport parameters, with 80 to 85,
// and the packet's reserved numbers, with 28, come last.
#![tactic(auto)]

mod call_cases; // "Calls from both sides of the line": Version Information
mod datagram_cases; // "What a datagram may hold"
mod information_cases; // "Version Information"
mod integer_cases; // document 02, C-11: variable-length integers
mod packet_cases; // "The packet the box sends back"
mod parameter_cases; // document 02, C-11: transport parameters
mod reserved_cases; // document 02, C-18: reserved numbers at the packet's end
mod show; // what is printed, and one call of the library and one line
mod slip_cases; // "Slips the old code made, or nearly": the packet
mod wire_refusals; // "When the desk says no": 11 to 37

use std::io;

fn main(rt: HostRuntime) -> io::Result<()> {
    datagram_cases::all(&rt)?;
    packet_cases::all(&rt)?;
    information_cases::all(&rt)?;
    wire_refusals::all(&rt)?;
    call_cases::all(&rt)?;
    slip_cases::all(&rt)?;
    integer_cases::all(&rt)?;
    parameter_cases::all(&rt)?;
    reserved_cases::all(&rt)
}
