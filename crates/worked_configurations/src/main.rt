// The test of a server's configuration, run through the public function: one line for each case.
#![tactic(auto)]

mod configuration_cases; // a server's lists, tested

use std::io;

fn main(rt: HostRuntime) -> io::Result<()> {
    configuration_cases::all(&rt)
}
