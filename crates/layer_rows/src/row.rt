//! The row that is being tried, and what is told of it.

use crate::making::answer_of;
use crate::registers::Registers;
use std::alloc::{AllocError, Global};
use std::io;

/// A row of the table, as far as it was tried.
#[derive(Drop)]
pub(crate) struct Row {
    /// The names of the rows so far; the last one is that of this row.
    names: Vec<String>,
    /// How many calls of this row have an answer to give.
    expected: u64,
    /// Whether nothing was told of this row.
    is_good: bool,
    /// What the last call answered.
    answer: String,
}

impl Row {
    pub(crate) fn new(alloc: Global) -> Row {
        Row {
            names: Vec::new(alloc),
            expected: 0,
            is_good: true,
            answer: String::new(alloc),
        }
    }

    /// The name of the row; `?` before the first row.
    fn name(&self) -> &str {
        match self.names.last() {
            Some(name) => name.as_str(),
            None => "?",
        }
    }

    fn has_name(&self, name: &str) -> bool {
        for known in &self.names {
            if known.as_str() == name {
                return true;
            }
        }
        false
    }

    /// Makes this the row of the name, none of whose calls was made.
    fn begin(&mut self, name: String) -> Result<(), AllocError> {
        self.expected = 0;
        self.is_good = true;
        self.names.push(name)?;
        Ok(())
    }
}

/// Begins a row; a second one of a name is told.
pub(crate) fn begin_row(rt: &HostRuntime, row: &mut Row, name: &str) -> io::Result<()> {
    let is_second = row.has_name(name);
    row.begin(name.to_string(rt.alloc())?)?;
    if is_second {
        row.is_good = false;
        println!(rt; "TWICE {name}")?;
    }
    Ok(())
}

/// Says that the row before is good, or that it expects nothing.
pub(crate) fn end_row(rt: &HostRuntime, row: &Row) -> io::Result<()> {
    if row.names.is_empty() || !row.is_good {
        return Ok(());
    }
    let name = row.name();
    if row.expected == 0 {
        println!(rt; "EXPECTS NOTHING {name}")
    } else {
        println!(rt; "ok {name}")
    }
}

/// Makes the call of a line, `CALL` or `CALL -> ANSWER`, and tells another answer; a call without an answer has to give
/// none.
pub(crate) fn try_call(
    rt: &HostRuntime,
    line: &str,
    row: &mut Row,
    all: &mut Registers,
) -> io::Result<()> {
    let (call, wanted) = line.split_once(" -> ").unwrap_or((line, ""));
    if !wanted.is_empty() {
        row.expected = row.expected.saturating_add(1);
    }
    if row.names.is_empty() || !answer_of(rt.alloc(), call, all, &mut row.answer) {
        row.is_good = false;
        return println!(rt; "NOT READ in {}: {line}", row.name());
    }
    if row.answer.as_str() != wanted {
        row.is_good = false;
        println!(rt; "DIFFERS {}: {call} answers {:?}", row.name(), row.answer)?;
    }
    Ok(())
}
