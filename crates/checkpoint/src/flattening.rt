//! The checkpoint of a site.

ghost use Rattle.std.specs.Prelude.{◌≡◌, ◌++◌, ◌≤◌, length, IfOk, IfErr, IfSome, IsNone, OnOk, OnErr};
ghost use Rattle.flat_history.specs.Flat.{checkpoint_of};
ghost use Rattle.checkpoint_codec.specs.Spelling.{checkpoint_bytes};
ghost use Rattle.checkpoint_codec.specs.Spelled.{sum_of};
ghost use Rattle.checkpoint.specs.Flattening.{CanBeFlat, IsRefusal};

use crate::flat_bad::FlatBad;
use crate::originals::originals;
use checkpoint_codec::{Checkpoint, GROUPS, write_checkpoint};
use context_diff::UNDO_ENTRIES;
use context_vector::Vector;
use cot_site::Site;
use flat_history::histories_have_checkpoints;
use op_name::Memory;
use std::alloc::Global;

// The generations of all undone names added up.
fn generations(members: &Vector) -> u64
    requires { length members.now.set.entries ≤ UNDO_ENTRIES }
    ensures { result ≡ sum_of members.now.set.entries }
{
    members.known();
    let mut sum = 0;
    let mut left = members.names_read();
    while let Some((_, generation)) = left.next() {
        sum += u64::from(generation);
    }
    sum
}

// Why the site has no checkpoint, and None where it has one.
fn refusal(site: &Site) -> Option<FlatBad>
    ensures some { IfSome result (IsRefusal site.now) }
    ensures none { IsNone result → CanBeFlat site.now }
{
    let count = site.pool().len();
    if count > 0 {
        return Some(FlatBad::Waiting { count });
    }
    let names = site.vector().entries();
    if names > UNDO_ENTRIES {
        return Some(FlatBad::NamesFull { names });
    }
    let sum = generations(site.vector());
    if sum > u64::from(GROUPS) {
        return Some(FlatBad::GroupsFull { sum });
    }
    None
}

// The checkpoint of a site that has one.
fn checkpoint_of(alloc: Global, site: &Site) -> Result<Checkpoint, Memory>
    ensures { IfOk result (λ p. p ≡ checkpoint_of site.now.history site.now.forms) }
{
    let originals = originals(alloc, site)?;
    let undone = site.vector().named()?;
    Ok(Checkpoint::new(originals, undone))
}

// Writes the checkpoint of a site that has one.
fn write(alloc: Global, site: &Site, out: &mut Vec<u8>) -> Result<(), Memory>
    requires { CanBeFlat site.now }
    ensures ok { OnOk result (out.new.items ≡ out.old.items ++ checkpoint_bytes (checkpoint_of site.now.history site.now.forms)) }
    ensures err { OnErr result (out.new.items ≡ out.old.items) }
{
    let checkpoint = checkpoint_of(alloc, site)?;
    site.known();
    site.book().known();
    histories_have_checkpoints();
    write_checkpoint(alloc, &checkpoint, out)
}

/// Appends the checkpoint of the site: the originals of its history, each at the place at which it was executed, and the undone names
/// with their greatest generations.
///
/// Refused by the first of Waiting, NamesFull and GroupsFull that holds; or by Memory, which comes only where the site has a
/// checkpoint. Then nothing is appended.
pub fn flatten(alloc: Global, site: &Site, out: &mut Vec<u8>) -> Result<(), FlatBad>
    ensures written { OnOk result (out.new.items ≡ out.old.items ++ checkpoint_bytes (checkpoint_of site.now.history site.now.forms)) }
    ensures only { OnOk result (CanBeFlat site.now) }
    ensures refused { IfErr result (IsRefusal site.now) }
    ensures kept { OnErr result (out.new.items ≡ out.old.items) }
{
    if let Some(why) = refusal(site) {
        return Err(why);
    }
    write(alloc, site, out)?;
    Ok(())
}
