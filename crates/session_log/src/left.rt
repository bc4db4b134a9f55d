//! What is left of a log.

ghost use Rattle.std.specs.Prelude.{◌≡◌, ◌≢◌, ◌+◌, ◌≤◌, ◌++◌, ℕ, List, Err, Option, IfOk, IfErr, IfSome, IsNone, length, option_map, drop};
ghost use Rattle.std.specs.Option.{is_some};
ghost use Rattle.context_diff.specs.Operations.{OpData};
ghost use Rattle.context_diff.specs.Ops.{data_of};
ghost use Rattle.wire_codec.specs.declared.version.Version as declared;
ghost use Rattle.session_log.specs.Logs.{header};
ghost use Rattle.session_log.specs.Code.Passing.{LeftData, Steps, HasNoStep};

use crate::headers::{HEADER_LEN, header};
use crate::log_bad::LogBad;
use crate::placed::Placed;
use crate::reading::MAX_LOG;
use std::alloc::Global;
use std::marker::Model;
use wire_codec::{Cause, Decoded, Scan, Version, decode_in, scan_in};

/// The version of a log, the bytes that are left of it, and the offset of the first of them, at which a frame begins.
#[derive(Drop)]
pub(crate) struct Left<'a> {
    version: Version,
    offset: u32,
    bytes: &'a [u8],
}

impl<'a> Model for Left<'a> {
    ghost use Rattle.std.specs.Prelude.{◌+◌, ◌≤◌, length};
    ghost use Rattle.session_log.specs.Code.Passing.{LeftData};
    ghost use Rattle.session_log.specs.declared.reading.TheConstants.{MAX_LOG};

    ghost Value = { LeftData };

    ghost view = { λ l. record { version = l.version; offset = l.offset; bytes = l.bytes.now } };

    ghost invariant = { λ l. l.offset + length l.bytes.now ≤ MAX_LOG };
}

impl<'a> Left<'a> {
    /// What follows the header, if one of either version is there.
    pub(crate) fn after_header(bytes: &'a [u8]) -> Result<Left<'a>, LogBad>
        requires { length bytes.now ≤ MAX_LOG }
        ensures begins { IfOk result (λ l. bytes.now ≡ header l.version ++ l.bytes) }
        ensures offset { IfOk result (λ l. l.offset ≡ HEADER_LEN) }
        ensures header { IfErr result (λ why.
            (why ≡ LogBad.Header) × ((v : declared.Version) (rest : List ℕ) → bytes.now ≢ header v ++ rest)) }
    {
        match Left::after_header_of(Version::Two, bytes) {
            Some(left) => Ok(left),
            None => match Left::after_header_of(Version::One, bytes) {
                Some(left) => Ok(left),
                None => Err(LogBad::Header),
            },
        }
    }

    // What follows the header of this version, if it is there.
    fn after_header_of(version: Version, bytes: &'a [u8]) -> Option<Left<'a>>
        requires { length bytes.now ≤ MAX_LOG }
        ensures begins { IfSome result (λ l. bytes.now ≡ header l.version ++ l.bytes) }
        ensures offset { IfSome result (λ l. l.offset ≡ HEADER_LEN) }
        ensures none { IsNone result → (rest : List ℕ) → bytes.now ≢ header version ++ rest }
    {
        let rest = bytes.strip_prefix(header(version))?;
        Some(Left {
            version,
            offset: HEADER_LEN as u32,
            bytes: rest,
        })
    }

    /// Passes over the next frame, and tells whether there was one. It takes no memory.
    pub(crate) fn pass(&mut self) -> Result<bool, LogBad>
        ensures step { IfOk result (λ more. (o : Option OpData) × Steps self.old o self.new × (is_some o ≡ more)) }
        ensures none { IfErr result (HasNoStep self.old) }
        ensures memory { result ≢ Err LogBad.Memory }
    {
        if self.bytes.is_empty() {
            return Ok(false);
        }
        match scan_in(self.version, self.bytes) {
            Scan::Frame { used } => {
                self.advance(used);
                Ok(true)
            }
            Scan::More { .. } => Err(self.cut()),
            Scan::Bad { cause, offset } => Err(self.bad(cause, offset)),
        }
    }

    /// Passes over the next frame, and answers its operation; None at the end.
    pub(crate) fn next(&mut self, alloc: Global) -> Result<Option<Placed>, LogBad>
        ensures step { IfOk result (λ p. Steps self.old (option_map (λ q. data_of q.op) p) self.new) }
        ensures place { IfOk result (λ p. IfSome p (λ q. q.offset ≡ self.old.offset)) }
        ensures none { IfErr result (HasNoStep self.old) }
    {
        if self.bytes.is_empty() {
            return Ok(None);
        }
        match decode_in(self.version, alloc, self.bytes) {
            Ok(Decoded::Got { op, used }) => {
                let offset = self.offset;
                self.advance(used);
                Ok(Some(Placed { offset, op }))
            }
            Ok(Decoded::More { .. }) => Err(self.cut()),
            Ok(Decoded::Bad { cause, offset }) => Err(self.bad(cause, offset)),
            Err(_) => Err(LogBad::Memory),
        }
    }

    // The bytes end within the next frame.
    fn cut(&self) -> LogBad
        ensures { result ≡ LogBad.Cut self.now.offset }
    {
        LogBad::Cut {
            offset: self.offset,
        }
    }

    // There is no next frame: its first fault is so many bytes on.
    fn bad(&self, cause: Cause, within: u32) -> LogBad
        requires { within ≤ length self.now.bytes }
        ensures { result ≡ LogBad.Bad (self.now.offset + within) cause }
    {
        LogBad::Bad {
            offset: self.offset + within,
            cause,
        }
    }

    // Passes over so many bytes.
    fn advance(&mut self, used: u32)
        requires { used ≤ length self.old.bytes }
        ensures { self.new ≡ record { version = self.old.version; offset = self.old.offset + used; bytes = drop used self.old.bytes } }
    {
        let parts = self.bytes.split_at(used as usize);
        self.offset += used;
        self.bytes = parts.1;
    }
}
