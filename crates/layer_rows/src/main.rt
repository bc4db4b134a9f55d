//! Rows of inner calls: the layers below a site, called as data says.
//!
//! Standard input is a table, which `docs/LAYER_ROWS.md` describes: each row is a list of calls over registers (sets of
//! members, a book, a pool, cells, a cache, a trace and the like), and the answer that each has to give. A line `ok NAME`
//! is written for a row that answers so, or what differs. A row is no code, so it costs no proof.
#![tactic(auto)]

mod answers;
mod bases;
mod book;
mod cache;
mod cells;
mod flags;
mod forms;
mod letters;
mod long;
mod making;
mod names;
mod ops;
mod pool;
mod registers;
mod row;
mod sets;
mod trace;
mod words;

use registers::Registers;
use row::{Row, begin_row, end_row, try_call};
use std::io::{self, BufRead, BufReader};

/// Takes a line of the table in.
fn step(rt: &HostRuntime, line: &str, row: &mut Row, all: &mut Registers) -> io::Result<()> {
    if line.is_empty() || line.starts_with('#') {
        return Ok(());
    }
    if let Some(name) = line.strip_prefix("row ") {
        end_row(rt, row)?;
        all.empty(rt.alloc());
        return begin_row(rt, row, name);
    }
    try_call(rt, line, row, all)
}

fn try_all(rt: &HostRuntime, row: &mut Row, all: &mut Registers) -> io::Result<()> {
    let alloc = rt.alloc();
    for line in BufReader::new(alloc, rt.reader())?.lines(alloc) {
        let line = line?;
        step(rt, &line, row, all)?;
    }
    end_row(rt, row)
}

fn main(rt: HostRuntime) -> io::Result<()> {
    let mut row = Row::new(rt.alloc());
    let mut all = Registers::new(rt.alloc());
    try_all(&rt, &mut row, &mut all)
}
