// Tables, pairs and choices as numbers.
ghost use Rattle.std.specs.Prelude.{◌≡◌};
ghost use Rattle.choosing.specs.Choice.{choose};
ghost use Rattle.versions.specs.Pairs.{pairs_keep_rule};
ghost use Rattle.versions.specs.Table.{table_keeps_rule};
ghost use Rattle.versions.specs.Version.{reserved};
ghost use Rattle.lists.specs.Wire.{entries, entry_at};
ghost use Rattle.c_record.specs.Numbers.{flag};
ghost use Rattle.both_ends.specs.Configuration.{configuration_of, judged_configuration};
ghost use Rattle.c_interface.specs.Numbers.{returned, leaving, itself, is_there, value_or, decide_on, act_number};
ghost use Rattle.c_interface.specs.Numbers.{part_in, version_in};

use crate::handing::{hand_over, named};
use both_ends::{Finding, judge_configuration};
use c_record::NOT_VALID;
use choosing::choose_from;
use lists::{OnWire, entry_at};
use server::{Decision, choose_after_first_flight};
use versions::pairs::are_pairs;
use versions::table::{is_reserved, is_table};

// 1 if the version is reserved (0x?a?a?a?a), else 0.
#[unsafe(no_mangle)]
pub extern "C" fn qv_is_reserved(version: u32) -> u32
    ensures { result ≡ flag (reserved version) }
{
    u32::from(is_reserved(version))
}

// 1 if the table of versions keeps its rule, else 0.
#[unsafe(no_mangle)]
pub extern "C" fn qv_is_table(table: &[u32]) -> u32
    ensures { result ≡ flag (table_keeps_rule table.now) }
{
    u32::from(is_table(table))
}

// 1 if the table of pairs keeps its rule, else 0.
#[unsafe(no_mangle)]
pub extern "C" fn qv_are_pairs(pairs: &[[u32; 2]]) -> u32
    ensures { result ≡ flag (pairs_keep_rule pairs.now) }
{
    u32::from(are_pairs(pairs))
}

// The entry at a place of a list on the wire: 1 and the version, or 0 where the list ends before it, which leaves
// `version` as found.
#[unsafe(no_mangle)]
pub extern "C" fn qv_entry(list: &[u8], place: usize, version: &mut u32) -> u32
    ensures answer { result ≡ is_there (entry_at (entries list.now) place) }
    ensures left { version.new ≡ value_or (entry_at (entries list.now) place) version.old }
{
    match entry_at(list, place) {
        Some(found) => {
            *version = found;
            1
        }
        None => 0,
    }
}

// The choice from a list: 40, 41, 42, which leave `version` as found; else 0 and the chosen version.
#[unsafe(no_mangle)]
pub extern "C" fn qv_choose(table: &[u32], list: &[u32], version: &mut u32) -> u32
    ensures answer { result ≡ returned (choose table.now list.now) }
    ensures left { version.new ≡ leaving itself (choose table.now list.now) version.old }
{
    hand_over(choose_from(table, list), version)
}

// The choice from a list as it lies on the wire. Refusals as `qv_choose`'s.
#[unsafe(no_mangle)]
pub extern "C" fn qv_choose_from_bytes(table: &[u32], bytes: &[u8], version: &mut u32) -> u32
    ensures answer { result ≡ returned (choose table.now (entries bytes.now)) }
    ensures left { version.new ≡ leaving itself (choose table.now (entries bytes.now)) version.old }
{
    hand_over(choose_from(table, OnWire(bytes)), version)
}

// The server's choice after a first flight in `version`, with versions that are barred for it; `presence` is 0 for missing
// information, 1 for given. Refusals: 255 (another presence), 41, 43, 31 to 36, 51, which leave `decision` as found; else
// 0, and `decision` is the version to use, or 0 to send a Version Negotiation packet.
#[unsafe(no_mangle)]
pub extern "C" fn qv_server_choice(
    readable: &[u32],
    accepted: &[u32],
    pairs: &[[u32; 2]],
    barred: &[u32],
    version: u32,
    presence: u32,
    information: &[u8],
    decision: &mut u32,
) -> u32
    ensures answer { result ≡ returned
        (decide_on readable.now accepted.now pairs.now barred.now version presence information.now) }
    ensures left { decision.new ≡ leaving act_number
        (decide_on readable.now accepted.now pairs.now barred.now version presence information.now)
        decision.old }
{
    let Some(given) = named(None, Some(information), presence) else {
        return NOT_VALID;
    };
    match choose_after_first_flight(readable, accepted, pairs, barred, version, given) {
        Err(refusal) => u32::from(refusal),
        Ok(Decision::Negotiate) => {
            *decision = 0;
            0
        }
        Ok(Decision::Use(chosen)) => {
            *decision = chosen;
            0
        }
    }
}

// The test of a server's configuration. Refusals: 23, 33, 41, 43, which leave `part` and `version` as found; else 0, and
// `part` is the part of the safe rule that is broken, `version` the version that breaks it; both are 0 where it is safe.
#[unsafe(no_mangle)]
pub extern "C" fn qv_judge_configuration(
    readable: &[u32],
    accepted: &[u32],
    offered: &[u32],
    available: &[u32],
    pairs: &[[u32; 2]],
    part: &mut u32,
    version: &mut u32,
) -> u32
    ensures answer { result ≡ returned
        (judged_configuration (configuration_of readable.now accepted.now offered.now available.now pairs.now)) }
    ensures part { part.new ≡ leaving part_in
        (judged_configuration (configuration_of readable.now accepted.now offered.now available.now pairs.now))
        part.old }
    ensures version { version.new ≡ leaving version_in
        (judged_configuration (configuration_of readable.now accepted.now offered.now available.now pairs.now))
        version.old }
{
    match judge_configuration(readable, accepted, offered, available, pairs) {
        Err(refusal) => u32::from(refusal),
        Ok(Finding::Safe) => put_finding(0, 0, part, version),
        Ok(Finding::AcceptedNotOffered(found)) => put_finding(1, found, part, version),
        Ok(Finding::OfferedNotAccepted(found)) => put_finding(2, found, part, version),
        Ok(Finding::OfferedNotReadable(found)) => put_finding(3, found, part, version),
        Ok(Finding::AvailableNotOffered(found)) => put_finding(4, found, part, version),
        Ok(Finding::OfferedNotAvailable(found)) => put_finding(5, found, part, version),
    }
}

// Puts what the test of a configuration found into the lent places; that is no refusal.
fn put_finding(number: u32, found: u32, part: &mut u32, version: &mut u32) -> u32
    ensures answer { result ≡ 0 }
    ensures part { part.new ≡ number }
    ensures version { version.new ≡ found }
{
    *part = number;
    *version = found;
    0
}
