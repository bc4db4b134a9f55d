//! Rows of operations of one site, each after the one before.

ghost use Rattle.std.specs.Prelude.{◌≡◌, ◌+◌, ◌≤◌, IfSome};
ghost use Rattle.op_name.specs.declared.member.Member.TheVariants.{Original};
ghost use Rattle.context_vector.specs.Contexts.{count_of, has};
ghost use Rattle.context_diff.specs.Ops.{data_of};
ghost use Rattle.causal_gate.specs.Hints.{IsBefore, IsRightBefore};

use context_diff::Op;
use context_vector::Vector;
use op_name::{Member, Name};

/// The original of its site right before an insert or delete, if the context of that has it.
pub(crate) fn before_in(op: &Op) -> Option<Name>
    ensures { IsBefore (data_of op.now) result }
{
    match right_before(op) {
        Some(before) if op.context().contains(&Member::Original(before)) => Some(before),
        _ => None,
    }
}

/// The name right before that of an insert or delete.
fn right_before(op: &Op) -> Option<Name>
    ensures { IfSome result (λ b. IsRightBefore b (data_of op.now)) }
{
    match op {
        Op::Insert { name, .. } | Op::Delete { name, .. } => before(name),
        Op::Undo { .. } => None,
    }
}

/// The name one below.
fn before(name: &Name) -> Option<Name>
    ensures site { IfSome result (λ b. b.site ≡ name.now.site) }
    ensures number { IfSome result (λ b. b.number + 1 ≡ name.now.number) }
    ensures least { IfSome result (λ b. 1 ≤ b.number) }
{
    name.known();
    match Name::new(name.site, name.number - 1) {
        Ok(before) => {
            before.known();
            Some(before)
        }
        Err(_) => None,
    }
}

/// How many originals of one site a set has. Operations that wait come in rows of one site, so a walk over them
/// asks the set for a number only where the site changes.
#[derive(Drop)]
pub(crate) struct Seen {
    pub(crate) site: u16,
    pub(crate) count: u32,
}

impl Seen {
    /// Those of site 0.
    pub(crate) fn at_first(have: &Vector) -> Seen
        ensures { result.count ≡ count_of have.now.set result.site }
    {
        Seen {
            site: 0,
            count: have.count(0),
        }
    }

    /// Whether the set has the original of this name.
    pub(crate) fn has(&mut self, have: &Vector, name: &Name) -> bool
        requires { self.old.count ≡ count_of have.now.set self.old.site }
        ensures has { result ≡ has have.now.set (Original name.now) }
        ensures seen { self.new.count ≡ count_of have.now.set self.new.site }
    {
        name.known();
        if name.site != self.site {
            self.site = name.site;
            self.count = have.count(name.site);
        }
        name.number <= self.count
    }
}
