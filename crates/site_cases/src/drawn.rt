//! Sessions that are made from a number: sites hear of some of one another's operations in between, undo and redo what
//! was sent, and hold what comes too early. The forms in which each executed its history are those that inclusion gives
//! by plain recursion.

ghost use Rattle.std.specs.Prelude.{◌<◌};
ghost use Rattle.op_name.specs.declared.name.TheConstants.{SITES};

use crate::derived::is_form;
use crate::edits::{Edit, edited, take_in};
use crate::made::raise;
use context_diff::Op;
use context_vector::Vector;
use cot_site::Site;
use op_name::{Name, SITES};
use std::alloc::Global;
use std::test::Fail;

/// The greatest number of messages in a session: plain recursion doubles its work with each.
const MESSAGES: u32 = 9;

/// Numbers that look random, each made from the one before.
#[derive(Drop)]
struct Numbers {
    last: u32,
}

impl Numbers {
    fn below(&mut self, most: u32) -> u32
        requires { 0 < most }
        ensures { result < most }
    {
        let next = self
            .last
            .wrapping_mul(1_664_525)
            .wrapping_add(1_013_904_223);
        self.last = next;
        (next / 256) % most
    }
}

/// The original that some message is, or undoes.
fn some_name(numbers: &mut Numbers, messages: &[Op]) -> Name {
    let number = numbers.below(MESSAGES) as usize;
    match messages.get(number) {
        Some(Op::Insert { name, .. }) => *name,
        Some(Op::Delete { name, .. }) => *name,
        Some(Op::Undo { target, .. }) => *target,
        None => Name { site: 0, number: 1 },
    }
}

/// The length of a text: mostly one of the shortest, else any.
fn some_length(numbers: &mut Numbers) -> u16 {
    if numbers.below(4) == 0 {
        1 + numbers.below(256) as u16
    } else {
        1 + numbers.below(4) as u16
    }
}

/// A command at a site that shows so many characters.
fn some_edit(numbers: &mut Numbers, visible: u32, messages: &[Op]) -> Edit {
    let name = some_name(numbers, messages);
    let place = numbers.below(visible.saturating_add(1));
    match numbers.below(8) {
        0 => Edit::Undo(name),
        1 => Edit::Undo(name),
        2 => Edit::Redo(name),
        3 => Edit::Delete(place),
        _ => Edit::Run(place, some_length(numbers)),
    }
}

/// A site makes an operation, which becomes a message, unless it refuses the command.
fn writes(numbers: &mut Numbers, site: &mut Site, messages: &mut Vec<Op>) -> Result<(), Fail> {
    let edit = some_edit(numbers, site.visible_len(), messages.as_slice());
    if messages.len() < MESSAGES as usize {
        if let Some(op) = edited(site, &edit) {
            messages.push(op)?;
        }
    }
    Ok(())
}

/// A site takes two messages in, of any number.
fn reads(numbers: &mut Numbers, site: &mut Site, messages: &[Op]) -> Result<(), Fail> {
    for _ in 0..2 {
        let number = numbers.below(MESSAGES) as usize;
        if let Some(op) = messages.get(number) {
            take_in(site, op)?;
        }
    }
    Ok(())
}

/// New sites with the numbers below `count`.
fn new_sites(alloc: Global, count: u16) -> Result<Vec<Site>, Fail>
    requires { count < SITES }
{
    let mut sites = Vec::new(alloc);
    for number in 0..count {
        sites.push(Site::new(alloc, number)?)?;
    }
    Ok(sites)
}

/// Sites write and read in turn.
fn talk(numbers: &mut Numbers, sites: &mut Vec<Site>, messages: &mut Vec<Op>) -> Result<(), Fail> {
    let count = sites.len().clamp(1, SITES as usize) as u32;
    for _ in 0..32 {
        let place = numbers.below(count) as usize;
        if let Some(site) = sites.get_mut(place) {
            if numbers.below(2) == 0 {
                writes(numbers, site, messages)?;
            } else {
                reads(numbers, site, messages.as_slice())?;
            }
        }
    }
    Ok(())
}

/// Each site takes all messages in, the last one first.
fn take_in_all(sites: &mut Vec<Site>, messages: &[Op]) -> Result<(), Fail> {
    for site in sites.iter_mut() {
        for op in messages.iter().rev() {
            take_in(site, op)?;
        }
    }
    Ok(())
}

fn talk_to_the_end(
    numbers: &mut Numbers,
    sites: &mut Vec<Site>,
    messages: &mut Vec<Op>,
) -> Result<(), Fail> {
    talk(numbers, sites, messages)?;
    take_in_all(sites, messages.as_slice())
}

/// A session, in which each site has all messages in the end, in an order of its own.
fn session(alloc: Global, numbers: &mut Numbers, sites: &mut Vec<Site>) -> Result<(), Fail> {
    let mut messages = Vec::new(alloc);
    talk_to_the_end(numbers, sites, &mut messages)
}

/// An operation at a context.
fn at_context(before: &Vector) -> Result<Op, Fail> {
    let name = Name::new(SITES - 1, 1)?;
    Ok(Op::Delete {
        name,
        place: 0,
        context: before.try_clone()?,
    })
}

/// Whether the site executed its i-th operation in the form of its member at these members.
fn is_executed_at(alloc: Global, site: &Site, i: u32, before: &Vector) -> Result<bool, Fail> {
    let (Some(member), Some(form)) = (site.book().member(i), site.executed(i)) else {
        return Ok(false);
    };
    let at = at_context(before)?;
    Ok(is_form(alloc, site.book(), &member, &at, form)?)
}

/// Whether the site executed each operation in its form at the members before it.
fn all_derived(alloc: Global, site: &Site) -> Result<bool, Fail> {
    let mut before = Vector::new(alloc);
    for i in 0..site.book().len() {
        if !is_executed_at(alloc, site, i, &before)? {
            return Ok(false);
        }
        if let Some(member) = site.book().member(i) {
            raise(&mut before, &member)?;
        }
    }
    Ok(true)
}

fn derive_all(alloc: Global, sites: &[Site]) -> Result<bool, Fail> {
    for site in sites {
        if !all_derived(alloc, site)? {
            return Ok(false);
        }
    }
    Ok(true)
}

fn play(alloc: Global, numbers: &mut Numbers, sites: &mut Vec<Site>) -> Result<bool, Fail> {
    session(alloc, numbers, sites)?;
    derive_all(alloc, sites.as_slice())
}

/// Whether all sites of a session of three to five executed each operation in its form.
fn plays(alloc: Global, seed: u32) -> Result<bool, Fail> {
    let mut numbers = Numbers { last: seed };
    let count = 3 + numbers.below(3);
    let mut sites = new_sites(alloc, count as u16)?;
    play(alloc, &mut numbers, &mut sites)
}

#[test]
fn forms_of_made_sessions(rt: HostRuntime) -> Result<(), Fail> {
    for seed in 0..300 {
        assert!(rt; plays(rt.alloc(), seed)?, "session {seed}");
    }
    Ok(())
}
