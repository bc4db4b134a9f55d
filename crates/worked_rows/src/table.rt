//! The table: what its lines have told so far.

use crate::calling::first_difference;
use crate::lines::{define, take_in};
use crate::pieces::Pieces;
use crate::row::Row;
use std::alloc::{AllocError, Global};
use std::io;
use std::process::ExitCode;

/// The pieces that have names, the row that is open, and the names of the rows before it.
#[derive(Drop)]
pub(crate) struct Table {
    pieces: Pieces,
    row: Row,
    names: Vec<String>,
    /// What the call of the newest row wrote.
    written: Vec<u8>,
    has_failed: bool,
}

impl Table {
    pub(crate) fn new(alloc: Global) -> Table {
        Table {
            pieces: Pieces::new(alloc),
            row: Row::new(alloc),
            names: Vec::new(alloc),
            written: Vec::new(alloc),
            has_failed: false,
        }
    }

    /// Takes a line in, and tries the row that it ends.
    pub(crate) fn take(&mut self, rt: &HostRuntime, line: &str) -> io::Result<()> {
        if line.is_empty() {
            self.end_row(rt)
        } else if line.starts_with('#') {
            Ok(())
        } else {
            let (word, rest) = line.split_once(' ').unwrap_or((line, ""));
            self.take_words(rt, word, rest)
        }
    }

    // Takes in a line that isn't empty and no comment, in its first word and the rest.
    fn take_words(&mut self, rt: &HostRuntime, word: &str, rest: &str) -> io::Result<()> {
        match word {
            "row" => self.begin_row(rt, rest),
            "def" | "line" => self.take_definition(rt, word, rest),
            _ => self.take_row_line(rt, word, rest),
        }
    }

    fn take_definition(&mut self, rt: &HostRuntime, word: &str, rest: &str) -> io::Result<()> {
        if define(rt.alloc(), &mut self.pieces, word, rest)? {
            Ok(())
        } else {
            self.fail_line(rt, word, rest)
        }
    }

    fn take_row_line(&mut self, rt: &HostRuntime, word: &str, rest: &str) -> io::Result<()> {
        if !self.row.is_open {
            return self.fail_line(rt, word, rest);
        }
        if take_in(rt.alloc(), &mut self.row, &self.pieces, word, rest)? {
            Ok(())
        } else {
            self.row.is_unread = true;
            self.fail_line(rt, word, rest)
        }
    }

    /// Tells that a line is none.
    fn fail_line(&mut self, rt: &HostRuntime, word: &str, rest: &str) -> io::Result<()> {
        self.has_failed = true;
        println!(rt; "not read: {word} {rest}")
    }

    fn begin_row(&mut self, rt: &HostRuntime, name: &str) -> io::Result<()> {
        self.end(rt)?;
        self.row.begin();
        self.row.name.push_str(name)?;
        Ok(())
    }

    /// Ends the table, or what stands before a new row: a row that is still open was cut.
    pub(crate) fn end(&mut self, rt: &HostRuntime) -> io::Result<()> {
        if self.row.is_open {
            self.row.is_open = false;
            self.fail_row(rt, "no empty line ends it")
        } else {
            Ok(())
        }
    }

    /// Tries the row that is open, if there is one.
    fn end_row(&mut self, rt: &HostRuntime) -> io::Result<()> {
        if !self.row.is_open {
            return Ok(());
        }
        self.row.is_open = false;
        if self.is_second()? {
            return self.fail_row(rt, "an earlier row has this name");
        }
        match self.row.fault() {
            Some(fault) => self.fail_row(rt, fault),
            None => self.try_row(rt),
        }
    }

    /// Whether a row before this one has its name; if not, it has it from now on.
    fn is_second(&mut self) -> Result<bool, AllocError> {
        for name in self.names.iter() {
            if name.as_str() == self.row.name.as_str() {
                return Ok(true);
            }
        }
        let name = self.row.name.clone()?;
        self.names.push(name)?;
        Ok(false)
    }

    /// Runs a row that is whole.
    fn try_row(&mut self, rt: &HostRuntime) -> io::Result<()> {
        match first_difference(rt.alloc(), &self.row, &mut self.written)? {
            Some(what) => self.fail_row(rt, &what),
            None => {
                self.keep()?;
                println!(rt; "ok {}", self.row.name)
            }
        }
    }

    /// Names what the row wrote, if it says so.
    fn keep(&mut self) -> Result<(), AllocError> {
        if self.row.kept.is_empty() {
            return Ok(());
        }
        let name = self.row.kept.clone()?;
        let bytes = self.written.clone()?;
        self.pieces.name(name, bytes)
    }

    fn fail_row(&mut self, rt: &HostRuntime, why: &str) -> io::Result<()> {
        self.has_failed = true;
        println!(rt; "DIFFERS {}: {why}", self.row.name)
    }

    /// The status of the process.
    pub(crate) fn code(&self) -> ExitCode {
        if self.has_failed {
            ExitCode::FAILURE
        } else {
            ExitCode::SUCCESS
        }
    }
}
