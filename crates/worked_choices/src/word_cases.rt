// Lists as words, and the choice by a word (document 02, C-15): P1 to P3, tables with as many entries as a word has bits,
// the limit of a list, words joined, and words from elsewhere.
use crate::limit_cases::{counted, most};
use crate::show::{by_word, from_word, joined};
use std::io;
use versions::MAX_TABLE;

pub(crate) fn all(rt: &impl Print) -> io::Result<()> {
    lists(rt)?;
    full_tables(rt)?;
    words(rt)
}

fn lists(rt: &impl Print) -> io::Result<()> {
    let table = [14u32, 12, 10];
    by_word(
        rt,
        "P1, table 14, 12, 10, list 10, 13, 14: ",
        &table,
        &[10, 13, 14],
    )?;
    by_word(rt, "P2, empty list: ", &table, &[])?;
    by_word(rt, "P3, list 13, 0x1a2a3a4a: ", &table, &[13, 0x1a2a3a4a])?;
    by_word(rt, "list 12, 12, 12: ", &table, &[12, 12, 12])?;
    by_word(rt, "table 14, 14, list 14: ", &[14, 14], &[14])?;
    let long = [14u32; 16383];
    by_word(
        rt,
        "table 14, 14, list of 16383 entries: ",
        &[14, 14],
        &long,
    )
}

fn full_tables(rt: &impl Print) -> io::Result<()> {
    let versions = counted();
    let last = versions[MAX_TABLE - 1];
    by_word(
        rt,
        "full table, list its last entry: ",
        most(&versions),
        &[last],
    )?;
    by_word(
        rt,
        "full table, list all of it and one more: ",
        most(&versions),
        &versions,
    )
}

fn words(rt: &impl Print) -> io::Result<()> {
    let table = [14u32, 12, 10];
    joined(
        rt,
        "table 14, 12, 10, lists 10 and 12, joined: ",
        &table,
        &[10],
        &[12],
    )?;
    from_word(rt, "table 14, 12, 10, word 8, past the table: ", &table, 8)?;
    from_word(rt, "table 14, 12, 10, word 12: ", &table, 12)?;
    from_word(rt, "table 14, 14, word 1: ", &[14, 14], 1)
}
