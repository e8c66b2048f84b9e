// The library as C sees it: numbers, slices and one enum-free record. A refusal crosses as its number, 0 is
// none; other results go through lent numbers and buffers, which a refusal leaves as found. No function
// requires anything: an unknown kind, or a record that could not be an attempt's, gets 255 and leaves all as found.
#![tactic(auto)]

ghost use Rattle.std.specs.Prelude.{◌≡◌};
ghost use Rattle.c_interface.specs.Layout.{interface_version};
ghost use Rattle.c_interface.specs.Numbers.{call_of, code_for};

pub mod attempts; // the attempt: start, events, own list, Version Information, journal
pub mod choices; // tables, pairs and choices
mod handing; // a result handed over to C
pub mod transport; // variable-length integers, transport parameters
pub mod wire; // headers, packets, Version Information
pub mod words; // lists as words, the second way to choose

use crate::handing::named;
use attempt::MAX_ID;
use journal::PLACES;
use refusals::{Call, Refusal};
use versions::MAX_TABLE;

// The version of this interface; it changes with every function, record or answer that changes.
pub const INTERFACE_VERSION: u32 = 9;
// The size of the record in bytes.
pub const RECORD_SIZE: usize = 12 * MAX_TABLE + 2 * MAX_ID + 40 + PLACES;
// The close code that is none, for an unknown kind of call.
pub const UNKNOWN_CALL: u64 = 0xffffffffffffffff;

#[unsafe(no_mangle)]
pub extern "C" fn qv_interface_version() -> u32
    ensures { result ≡ interface_version }
{
    INTERFACE_VERSION
}

// The same under a name that has the number: a program that was compiled for another interface does not link. The name
// changes with INTERFACE_VERSION.
#[unsafe(no_mangle)]
pub extern "C" fn qv_interface_9() -> u32
    ensures { result ≡ interface_version }
{
    INTERFACE_VERSION
}

// The close code of a refusal, 0 where there is none: `call` is 0 for what a reader, the server's choice or an
// event refused, 1 for what a writer refused, which closes nothing; another kind of call gets UNKNOWN_CALL.
#[unsafe(no_mangle)]
pub extern "C" fn qv_close_code(refusal: u32, call: u32) -> u64
    ensures { result ≡ code_for refusal (call_of call) }
{
    let Some(kind) = named(Call::Reading, Call::Writing, call) else {
        return UNKNOWN_CALL;
    };
    if 255 < refusal {
        return 0;
    }
    // (`as`: Rust has no From between these widths; that the value fits is proved.)
    refusals::close_code(Refusal(refusal as u8), kind).unwrap_or(0)
}
