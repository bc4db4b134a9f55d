//! Worked rows: calls of the program as data.
//!
//! Standard input is a table, which `docs/ROWS.md` describes: each row is the words of one call, what the call is given and what
//! it has to write. Each row is run over a source, a sink and a wire in memory, and a line `ok NAME` is written for it, or what
//! differs. A row is no code, so it costs no proof.
#![tactic(auto)]

mod calling;
mod lines;
mod order;
mod pieces;
mod row;
mod table;

use std::io::{self, BufRead, BufReader};
use std::process::ExitCode;
use table::Table;

/// Takes all lines of the table, and tries each row where it ends.
fn try_all(rt: &HostRuntime, table: &mut Table) -> io::Result<()> {
    let alloc = rt.alloc();
    for line in BufReader::new(alloc, rt.reader())?.lines(alloc) {
        let line = line?;
        table.take(rt, &line)?;
    }
    table.end(rt)
}

/// Fails where a row does.
fn main(rt: HostRuntime) -> io::Result<ExitCode> {
    let mut table = Table::new(rt.alloc());
    try_all(&rt, &mut table)?;
    Ok(table.code())
}
