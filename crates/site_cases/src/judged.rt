//! What a site says of an operation before it is delivered, and what the delivery answers then.

ghost use Rattle.context_diff.specs.Operations.{IsWellFormed};
ghost use Rattle.context_diff.specs.Ops.{data_of};

use crate::edits::settle;
use crate::made::op_of;
use context_diff::Op;
use cot_site::Site;
use op_name::{Member, Memory};
use site_answers::{Verdict, put_verdict};
use std::alloc::Global;
use std::test::Fail;

/// Operations that are delivered to one site, one after the other, each with its verdict.
const DELIVERED: [(&str, &str); 16] = [
    ("0.2 1 b | 0.1", "waits 0.2 0.1"),
    ("0.2 1 b | 0.1", "waits 0.2 0.1"),
    ("0.2 0 x | 0.1", "forged 0.2"),
    ("0.1/1 0 | 0.1", "waits 0.1/1 0.1"),
    ("0.1 1 a |", "placeout 0.1 1 0"),
    ("0.1 0 a |", "integrated 0.1"),
    ("0.1 0 a |", "repeat 0.1"),
    ("0.1 0 b |", "forged 0.1"),
    ("0.1/1 3 | 0.1", "repeat 0.1/1"),
    ("1.1 1 c | 0.2", "integrated 1.1"),
    ("2.1 0 d | 1.1", "notclosed 2.1 1"),
    ("3.1 4 xyz | 0.2 1.1", "placeout 3.1 4 3"),
    ("3.1 3 xyz | 0.2 1.1", "integrated 3.1"),
    ("3.1 3 xyw | 0.2 1.1", "forged 3.1"),
    ("3.1 3 xyz | 0.2 1.1", "repeat 3.1"),
    ("3.2 7 | 0.2 1.1 3.1", "placeout 3.2 7 6"),
];

/// The verdict that is given before the delivery, and that of the delivery; then what is ready is released.
fn judged(site: &mut Site, op: &Op) -> Result<(Verdict, Verdict), Fail>
    requires { IsWellFormed (data_of op.now) }
{
    let before = site.check(op);
    let given = site.deliver(op)?;
    settle(site)?;
    Ok((before, given))
}

fn is_told(alloc: Global, member: Member, verdict: Verdict, wanted: &str) -> Result<bool, Memory> {
    let mut out = Vec::new(alloc);
    put_verdict(member, verdict, &mut out)?;
    Ok(out.as_slice() == wanted.as_bytes())
}

/// Whether both verdicts on the operation are the one that is wanted.
fn answers(alloc: Global, site: &mut Site, words: &str, wanted: &str) -> Result<bool, Fail> {
    let op = op_of(alloc, words)?;
    if op.fault().is_some() {
        return Err(Fail::new("the operation isn't well formed"));
    }
    let member = op.member();
    let (before, given) = judged(site, &op)?;
    Ok(is_told(alloc, member, before, wanted)? && is_told(alloc, member, given, wanted)?)
}

/// The first operation on which the site answers otherwise.
fn first_other(alloc: Global, site: &mut Site) -> Result<&'static str, Fail> {
    for (words, wanted) in DELIVERED {
        if !answers(alloc, site, words, wanted)? {
            return Ok(words);
        }
    }
    Ok("")
}

#[test]
fn a_delivery_answers_what_was_said_before_it(rt: HostRuntime) -> Result<(), Fail> {
    let mut site = Site::new(rt.alloc(), 5)?;
    let other = first_other(rt.alloc(), &mut site)?;
    assert!(rt; other.len() == 0, "{other}");
    Ok(())
}
