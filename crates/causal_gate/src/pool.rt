//! The pool: operations in the order of their arrival, and the calls that look for one of them.

ghost use Rattle.std.specs.Prelude.{◌≡◌, ◌↔◌, ◌<◌, ◌++◌, ◌∷◌, [], Some, true, false, Contains, IsNone, IsTrue, IfOk, IfSome, OnOk, OnErr, if◌then◌else◌, length, map, option_map, remove, slice_get, vec_len, vec_capacity};
ghost use Rattle.indexmap.specs.IndexMap.{spare};
ghost use Rattle.op_name.specs.declared.member.Member.TheVariants.{Original};
ghost use Rattle.op_name.specs.Members.{IsMember, member_eq};
ghost use Rattle.context_vector.specs.Contexts.{Within, count_of, has};
ghost use Rattle.context_diff.specs.Operations.{OpData, is_original, member_of};
ghost use Rattle.context_diff.specs.Histories.{is_known};
ghost use Rattle.context_vector.specs.Vectors.{IsFirstMissing};
ghost use Rattle.context_diff.specs.Ops.{data_of};
ghost use Rattle.causal_gate.specs.Waiting.{IsReady, IsFirstReady, NoneReady, IsPool, NamesAgree, context_at};
ghost use Rattle.causal_gate.specs.Hints.{IsHint};
ghost use Rattle.causal_gate.specs.Names.{op_in};

use crate::names::{forget, note};
use crate::rows::{Seen, before_in};
use crate::undos::{forget_undo, note_undo};
use context_diff::Op;
use context_vector::Vector;
use indexmap::{IndexMap, IndexSet};
use op_name::{Member, Memory, Name};
use std::alloc::Global;
use std::marker::Model;

/// The greatest number of operations that a pool holds.
const OPS: usize = 4_294_967_295;

/// Operations that wait for members of their contexts, in the order of their arrival.
///
/// No two of them are equal, no two inserts or deletes among them have one name, and there are at most
/// 4,294,967,295.
///
/// Beside each stand the original of its site right before it, if its context has that, and a hint: a member of
/// its context that was missing when the hint was set, or nothing. An operation isn't ready while the one before
/// it is missing, nor while its hint is, unless it is there itself. So a search goes through a column of names,
/// and looks at an operation only after its turn in the row of its site has come.
///
/// Arrivals are numbered. An index has the number of each insert and delete by its name, and the place of a number
/// is found by bisection among those of the operations that wait. Several undos may be one member, so the index of
/// undos has them whole.
#[derive(Drop)]
pub struct Pool {
    ops: Vec<Box<Op>>,
    names: IndexMap<Name, u64>,
    undos: IndexSet<Op>,
    numbers: Vec<u64>,
    next: u64,
    befores: Vec<Option<Name>>,
    hints: Vec<Option<Member>>,
}

impl Model for Pool {
    ghost use Rattle.std.specs.Prelude.{◌≡◌, List, length, map};
    ghost use Rattle.context_diff.specs.Operations.{OpData};
    ghost use Rattle.causal_gate.specs.Waiting.{IsPool};
    ghost use Rattle.causal_gate.specs.Hints.{AreHints, AreBefore};
    ghost use Rattle.causal_gate.specs.Names.{op_in, AreNamed};
    ghost use Rattle.causal_gate.specs.Undos.{AreUndos};

    ghost Value = { List OpData };

    ghost view = { λ p. map op_in p.ops.items };

    ghost invariant = { λ p. IsPool (map op_in p.ops.items) × AreHints (map op_in p.ops.items) p.hints.items
        × AreBefore (map op_in p.ops.items) p.befores.items × AreNamed p.names.entries (map op_in p.ops.items)
        × (length p.numbers.items ≡ length p.ops.items) × AreUndos p.undos.keys (map op_in p.ops.items) };
}

impl Pool {
    /// The pool in which nothing waits. It takes no memory.
    pub fn new(alloc: Global) -> Pool
        ensures { result ≡ [] }
    {
        Pool {
            ops: Vec::new(alloc),
            names: IndexMap::new(alloc),
            undos: IndexSet::new(alloc),
            numbers: Vec::new(alloc),
            next: 0,
            befores: Vec::new(alloc),
            hints: Vec::new(alloc),
        }
    }

    /// Nothing but what the type keeps: no two operations are equal, no two originals have one name, and
    /// there are at most 4,294,967,295.
    pub fn known(&self)
        ensures { IsPool self.now }
    {
        let _ = &self.ops;
    }

    /// The number of operations that wait.
    pub fn len(&self) -> u32
        ensures { result ≡ length self.now }
    {
        self.ops.len() as u32
    }

    /// The i-th operation, from 0, in the order of arrival; None exactly past the end.
    pub fn get(&self, i: u32) -> Option<&Op>
        ensures { option_map (λ o. data_of o.now) result ≡ slice_get self.now i }
    {
        self.op_at(i as usize)
    }

    // The operation at this place.
    fn op_at(&self, i: usize) -> Option<&Op>
        ensures { option_map (λ o. data_of o.now) result ≡ slice_get self.now i }
    {
        op_at(self.ops.as_slice(), i)
    }

    /// The waiting insert or delete of this name; None exactly where none has it. It is found by the index, and
    /// by a walk only where numbers were given twice, after 2^64 arrivals.
    pub fn named(&self, name: &Name) -> Option<&Op>
        ensures none { IsNone result ↔ (is_known self.now (Original name.now) ≡ false) }
        ensures there { IfSome result (λ o. Contains self.now (data_of o.now)) }
        ensures named { IfSome result (λ o. member_of (data_of o.now) ≡ Original name.now) }
    {
        match self.number_of(name) {
            Some(number) => match self.numbered(number, name) {
                Some(op) => Some(op),
                None => self.first_named(name),
            },
            None => None,
        }
    }

    // The number that the index has for the name.
    fn number_of(&self, name: &Name) -> Option<u64>
        ensures { IsNone result ↔ (is_known self.now (Original name.now) ≡ false) }
    {
        match self.names.get(name) {
            Some(number) => Some(*number),
            None => None,
        }
    }

    // The operation of this number of arrival, if it has the name.
    fn numbered(&self, number: u64, name: &Name) -> Option<&Op>
        ensures there { IfSome result (λ o. Contains self.now (data_of o.now)) }
        ensures named { IfSome result (λ o. member_of (data_of o.now) ≡ Original name.now) }
    {
        match self.numbers.binary_search(&number) {
            Ok(i) => match self.op_at(i) {
                Some(op) if is_named(op, name) => Some(op),
                _ => None,
            },
            Err(_) => None,
        }
    }

    // The first operation of this name, found by a walk.
    fn first_named(&self, name: &Name) -> Option<&Op>
        ensures none { IsNone result ↔ (is_known self.now (Original name.now) ≡ false) }
        ensures there { IfSome result (λ o. Contains self.now (data_of o.now)) }
        ensures named { IfSome result (λ o. member_of (data_of o.now) ≡ Original name.now) }
    {
        for i in 0..self.len() {
            if let Some(op) = self.get(i) {
                if is_named(op, name) {
                    return Some(op);
                }
            }
        }
        None
    }

    /// Puts a copy of the operation last, and answers true. `Ok(false)` exactly where an equal operation waits
    /// already; then, and out of memory, nothing changes. Memory is answered only where no equal operation
    /// waits. A waiting insert or delete of the operation's name is the operation itself.
    pub fn hold(&mut self, op: &Op) -> Result<bool, Memory>
        requires { NamesAgree self.old (data_of op.now) }
        ensures new { IfOk result (λ added. (added ≡ false) ↔ Contains self.old (data_of op.now)) }
        ensures ops { IfOk result (λ added. self.new ≡ (if added then self.old ++ data_of op.now ∷ [] else self.old)) }
        ensures err { OnErr result (self.new ≡ self.old) }
        ensures memory { OnErr result (¬ Contains self.old (data_of op.now)) }
    {
        if self.has(op) {
            return Ok(false);
        }
        if self.ops.len() >= OPS {
            return Err(Memory);
        }
        make_room(
            &mut self.ops,
            &mut self.names,
            &mut self.numbers,
            &mut self.hints,
            &mut self.befores,
        )?;
        let boxed = boxed(*self.ops.allocator(), op)?;
        note_undo(&mut self.undos, op)?;
        note(&mut self.names, op, self.next);
        self.ops.push_reserved(boxed);
        self.numbers.push_reserved(self.next);
        self.hints.push_reserved(None);
        self.befores.push_reserved(before_in(op));
        self.next = self.next.wrapping_add(1);
        Ok(true)
    }

    // Whether an equal operation waits: of an insert or a delete the name tells it.
    fn has(&self, op: &Op) -> bool
        requires { NamesAgree self.now (data_of op.now) }
        ensures { IsTrue result ↔ Contains self.now (data_of op.now) }
    {
        match op {
            Op::Insert { name, .. } | Op::Delete { name, .. } => self.has_name(name),
            Op::Undo { .. } => self.has_undo(op),
        }
    }

    // Whether an insert or a delete of this name waits.
    fn has_name(&self, name: &Name) -> bool
        ensures { result ≡ is_known self.now (Original name.now) }
    {
        self.names.contains_key(name)
    }

    // Whether an undo waits.
    fn has_undo(&self, op: &Op) -> bool
        requires { is_original (data_of op.now) ≡ false }
        ensures { IsTrue result ↔ Contains self.now (data_of op.now) }
    {
        self.undos.contains(op)
    }

    /// Sets the hint of each operation that has none, or whose hint is in `have`, to the first member of its
    /// context that `have` lacks, and to nothing where it lacks none; but while the original right before an
    /// operation is missing, that serves as its hint. What waits stays. It takes no memory.
    pub fn renew(&mut self, have: &Vector)
        ensures { self.new ≡ self.old }
    {
        let mut seen = Seen::at_first(have);
        for i in 0..self.len() {
            if !self.is_behind(i, have, &mut seen) {
                self.renew_at(i, have);
            }
        }
    }

    /// The least place whose operation is ready: it is in `have`, or `have` covers its context. None exactly
    /// where none is ready. It goes through the list, and looks at an operation only where the one right
    /// before it isn't missing, and at its context only where its hint isn't.
    pub fn first_ready(&self, have: &Vector) -> Option<u32>
        ensures first { IfSome result (IsFirstReady have.now.set self.now) }
        ensures none { IsNone result ↔ NoneReady have.now.set self.now }
    {
        let mut seen = Seen::at_first(have);
        for i in 0..self.len() {
            if !self.is_behind(i, have, &mut seen) {
                if let Some(op) = self.get(i) {
                    if is_ready(op, self.hint_at(i), have) {
                        return Some(i);
                    }
                }
            }
        }
        None
    }

    /// Takes the i-th operation out; the others stay in their order. It takes no memory.
    pub fn take(&mut self, i: u32) -> Op
        requires { i < length self.old }
        ensures taken { slice_get self.old i ≡ Some (data_of result) }
        ensures others { self.new ≡ remove self.old i }
    {
        self.hints.remove(i as usize);
        self.befores.remove(i as usize);
        self.numbers.remove(i as usize);
        let boxed = self.ops.remove(i as usize);
        let taken = Box::into_inner(boxed);
        forget(&mut self.names, &taken);
        forget_undo(&mut self.undos, &taken);
        taken
    }

    /// The first member of the i-th operation's context that `have` lacks, in the order of members; None
    /// exactly where `have` covers the context.
    pub fn waiting(&self, have: &Vector, i: u32) -> Option<Member>
        requires { i < length self.now }
        ensures first { IfSome result (IsFirstMissing have.now.set (context_at self.now i)) }
        ensures none { IsNone result ↔ Within (context_at self.now i) have.now.set }
        ensures range { IfSome result IsMember }
    {
        match self.get(i) {
            Some(op) => have.first_missing(op.context()),
            None => unreachable!(),
        }
    }

    // Whether the original right before the i-th operation is missing, so that the operation isn't ready.
    fn is_behind(&self, i: u32, have: &Vector, seen: &mut Seen) -> bool
        requires { seen.old.count ≡ count_of have.now.set seen.old.site }
        ensures seen { seen.new.count ≡ count_of have.now.set seen.new.site }
        ensures waits { IsTrue result → (o : OpData) → slice_get self.now i ≡ Some o → ¬ IsReady have.now.set o }
    {
        let _ = &self.ops;
        match name_in(self.befores.as_slice(), i as usize) {
            Some(Some(before)) => !seen.has(have, &before),
            _ => false,
        }
    }

    // The hint of the i-th operation.
    fn hint_at(&self, i: u32) -> Option<Member>
        ensures { IfSome result (λ m. has (context_at self.now i) m ≡ true) }
    {
        match hint_in(self.hints.as_slice(), i as usize) {
            Some(hint) => hint,
            None => None,
        }
    }

    // The hint that the i-th operation gets: its own, where that is still missing.
    fn fresh_hint(&self, i: u32, have: &Vector) -> Option<Member>
        ensures { IfSome result (λ m. has (context_at self.now i) m ≡ true) }
    {
        match self.get(i) {
            Some(op) => renewed(op, self.hint_at(i), have),
            None => None,
        }
    }

    // Renews the hint of the i-th operation.
    fn renew_at(&mut self, i: u32, have: &Vector)
        requires { i < length self.old }
        ensures { self.new ≡ self.old }
    {
        let hint = self.fresh_hint(i, have);
        self.hints[i as usize] = hint;
    }
}

// Makes room for one more in each column; what they have stays.
fn make_room(
    ops: &mut Vec<Box<Op>>,
    names: &mut IndexMap<Name, u64>,
    numbers: &mut Vec<u64>,
    hints: &mut Vec<Option<Member>>,
    befores: &mut Vec<Option<Name>>,
) -> Result<(), Memory>
    ensures ops { (ops.new.items ≡ ops.old.items) × (vec_len ops.new ≡ vec_len ops.old) }
    ensures names { names.new.entries ≡ names.old.entries }
    ensures numbers { (numbers.new.items ≡ numbers.old.items) × (vec_len numbers.new ≡ vec_len numbers.old) }
    ensures hints { hints.new.items ≡ hints.old.items }
    ensures befores { befores.new.items ≡ befores.old.items }
    ensures ops_room { OnOk result (vec_len ops.new < vec_capacity ops.new) }
    ensures names_room { OnOk result (0 < spare names.new) }
    ensures numbers_room { OnOk result (vec_len numbers.new < vec_capacity numbers.new) }
    ensures hints_room { OnOk result (vec_len hints.new < vec_capacity hints.new) }
    ensures befores_room { OnOk result (vec_len befores.new < vec_capacity befores.new) }
{
    ops.reserve(1)?;
    names.reserve(1)?;
    numbers.reserve(1)?;
    hints.reserve(1)?;
    befores.reserve(1)?;
    Ok(())
}

// A copy of the operation on the heap.
fn boxed(alloc: Global, op: &Op) -> Result<Box<Op>, Memory>
    ensures { IfOk result (λ b. op_in b ≡ data_of op.now) }
{
    let copy = op.try_clone()?;
    Ok(Box::new(alloc, copy)?)
}

// The operation at this place of the list.
fn op_at(ops: &[Box<Op>], i: usize) -> Option<&Op>
    ensures { option_map (λ o. data_of o.now) result ≡ slice_get (map op_in ops.now) i }
{
    match ops.get(i) {
        Some(op) => Some(&**op),
        None => None,
    }
}

// The name at this place of a column.
fn name_in(names: &[Option<Name>], i: usize) -> Option<Option<Name>>
    ensures { result ≡ slice_get names.now i }
{
    names.get(i).copied()
}

// The hint at this place of a column.
fn hint_in(hints: &[Option<Member>], i: usize) -> Option<Option<Member>>
    ensures { result ≡ slice_get hints.now i }
{
    hints.get(i).copied()
}

// The hint that is still missing, or the first member of the context that `have` lacks.
fn renewed(op: &Op, hint: Option<Member>, have: &Vector) -> Option<Member>
    requires { IsHint (data_of op.now) hint }
    ensures { IsHint (data_of op.now) result }
{
    if let Some(m) = hint {
        if !have.contains(&m) {
            return Some(m);
        }
    }
    have.first_missing(op.context())
}

// Whether the operation is the insert or delete of this name.
fn is_named(op: &Op, name: &Name) -> bool
    ensures { result ≡ member_eq (member_of (data_of op.now)) (Original name.now) }
{
    match op {
        Op::Insert { name: own, .. } | Op::Delete { name: own, .. } => own == name,
        Op::Undo { .. } => false,
    }
}

// Whether the operation, which has this hint, is in `have`, or `have` covers its context.
fn is_ready(op: &Op, hint: Option<Member>, have: &Vector) -> bool
    requires { IsHint (data_of op.now) hint }
    ensures { IsTrue result ↔ IsReady have.now.set (data_of op.now) }
{
    if is_there(op, have) {
        return true;
    }
    match hint {
        Some(m) if !have.contains(&m) => false,
        _ => have.covers(op.context()),
    }
}

// Whether the member that the operation is is in `have`.
fn is_there(op: &Op, have: &Vector) -> bool
    ensures { result ≡ has have.now.set (member_of (data_of op.now)) }
{
    match op {
        Op::Insert { name, .. } | Op::Delete { name, .. } => have.contains(&Member::Original(
            *name,
        )),
        Op::Undo {
            target,
            generation,
            ..
        } => have.contains(&Member::Group(*target, *generation)),
    }
}
