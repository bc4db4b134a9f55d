//! A message that comes in piece by piece.

ghost use Rattle.std.specs.Prelude.{◌≡◌, ℕ, [], ◌++◌, ◌≤◌, ◌<◌, length, take, OnOk, OnErr};
ghost use Rattle.peer_exchange.specs.declared.messages.TheConstants.{MAX_MESSAGE};
ghost use Rattle.peer_exchange.specs.Measuring.{measure_of, NotPast};

use crate::measuring::{go_on, start};
use crate::messages::{Measure, Which};
use crate::stages::Place;
use op_name::Memory;
use std::alloc::Global;
use std::marker::Model;

/// The bytes of a message so far. How far they were judged is kept, so that reading a message costs by its bytes, in
/// however many pieces they come.
#[derive(Drop)]
pub struct MessageReader {
    which: Which,
    place: Place,
    bytes: Vec<u8>,
}

impl Model for MessageReader {
    ghost use Rattle.peer_exchange.specs.Measuring.{MessageData};
    ghost use Rattle.peer_exchange.specs.Code.Places.{Stands};

    ghost Value = { MessageData };

    ghost view = { λ r. record { which = r.which; bytes = r.bytes.items } };

    ghost invariant = { λ r. Stands r.which r.bytes.items r.place };
}

impl MessageReader {
    /// No byte came so far.
    pub fn new(alloc: Global, which: Which) -> MessageReader
        ensures { result ≡ record { which = which; bytes = [] } }
    {
        MessageReader {
            which,
            place: start(which),
            bytes: Vec::new(alloc),
        }
    }

    /// The bytes so far.
    pub fn bytes(&self) -> &[u8]
        ensures { result.now ≡ self.now.bytes }
    {
        &self.bytes
    }

    /// How many bytes came so far.
    pub fn len(&self) -> usize
        ensures { result ≡ length self.now.bytes }
    {
        self.bytes.len()
    }

    /// Appends what came. Where the bytes before asked for more, and no more than that came, the message doesn't end
    /// before the bytes do.
    pub fn feed(&mut self, piece: &[u8]) -> Result<(), Memory>
        ensures ok { OnOk result (self.new ≡ record self.old { bytes = self.old.bytes ++ piece.now }) }
        ensures err { OnErr result (self.new ≡ self.old) }
        ensures not_past { OnOk result ((k : ℕ) → measure_of self.old.which self.old.bytes ≡ Measure.More k
            → length self.new.bytes ≤ k → NotPast self.new.which self.new.bytes) }
    {
        let before = self.bytes.len();
        self.bytes.extend_from_slice(piece)?;
        ends_here(self.which, &self.bytes, before);
        Ok(())
    }

    /// The bytes.
    pub fn into_bytes(self) -> Vec<u8>
        ensures { result.items ≡ self.bytes }
    {
        self.bytes
    }

    /// What the bytes so far say of the message, as `measure` of all of them; only those are looked at that no earlier
    /// call judged.
    pub fn measure(&mut self) -> Measure
        requires { length self.old.bytes ≤ MAX_MESSAGE }
        ensures value { result ≡ measure_of self.old.which self.old.bytes }
        ensures same { self.new ≡ self.old }
        ensures asks { (k : ℕ) → result ≡ Measure.More k → length self.old.bytes < k }
    {
        let (place, measure) = go_on(self.which, self.place, &self.bytes);
        self.place = place;
        asks(self.which, &self.bytes);
        measure
    }
}

// The message doesn't end before the bytes do, where the first of them asked for as many.
fn ends_here(which: Which, all: &[u8], before: usize)
    ensures { (k : ℕ) → measure_of which (take before all.now) ≡ Measure.More k → length all.now ≤ k → NotPast which all.now }
{
    let _ = which;
    let _ = before <= all.len();
}

// More bytes are asked for than there are.
fn asks(which: Which, bytes: &[u8])
    ensures { (k : ℕ) → measure_of which bytes.now ≡ Measure.More k → length bytes.now < k }
{
    let _ = which;
    let _ = bytes.len();
}
