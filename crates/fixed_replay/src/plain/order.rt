//! The inserts of a list of operations, in their fixed order.

ghost use Rattle.std.specs.Prelude.{◌≡◌, ◌≤◌, ◌∷◌, List, IfOk, OnOk, length, map, nat_lt};
ghost use Rattle.std.specs.List.{insert};
ghost use Rattle.context_diff.specs.Operations.{OpData};
ghost use Rattle.context_diff.specs.Ops.{data_of};
ghost use Rattle.context_diff.specs.Replays.{is_earlier, put_by, fixed_order, first_of, last_of};
ghost use Rattle.context_diff.specs.Code.GapEnds.{before_first};
ghost use Rattle.fixed_replay.specs.Code.PlainCells.{insertion_of, comes_before, knows, sees};

use super::cells::CellName;
use context_diff::Op;
use context_vector::Vector;
use op_name::{Member, Memory, Name};
use std::alloc::Global;
use std::marker::Model;

/// What the replay reads of an insert: its name, its place, the number of its characters, and what it was made after.
#[derive(Drop)]
pub struct Inserted {
    name: Name,
    place: u32,
    len: u16,
    context: Vector,
}

impl Model for Inserted {
    ghost use Rattle.fixed_replay.specs.Code.PlainCells.{InsertData};

    ghost Value = { InsertData };

    ghost view = { λ o. record { name = o.name; place = o.place; len = o.len; context = o.context.set } };
}

impl Inserted {
    /// The name of the insert.
    pub fn name(&self) -> Name
        ensures { result ≡ self.now.name }
    {
        self.name
    }

    /// How many of the cells that the insert knows stand before its own.
    pub fn place(&self) -> u32
        ensures { result ≡ self.now.place }
    {
        self.place
    }

    /// How many cells the insert puts: one for each of its characters.
    pub fn len(&self) -> u16
        ensures { result ≡ self.now.len }
    {
        self.len
    }

    /// Whether the insert was made after the other.
    pub fn knows(&self, other: &Inserted) -> bool
        ensures { result ≡ knows self.now other.now.name }
    {
        self.context.contains(&Member::Original(other.name))
    }

    /// Whether the insert was made after the one that put the cell.
    pub fn sees(&self, cell: &CellName) -> bool
        ensures { result ≡ sees self.now cell.now }
    {
        cell.is_in(&self.context)
    }

    /// Whether the cell is the first that the insert put.
    pub fn is_first(&self, cell: &CellName) -> bool
        ensures { result ≡ first_of self.now.name cell.now }
    {
        cell.is_first_of(&self.name)
    }

    /// Whether the cell is the last that the insert put.
    pub fn is_last(&self, cell: &CellName) -> bool
        ensures { result ≡ last_of (insertion_of self.now) cell.now }
    {
        cell.is_of(&self.name) && u32::from(cell.offset()) + 1 == u32::from(self.len)
    }

    /// Whether the other is of a smaller site: of two that go to one place, that of the smaller site stands in front.
    pub fn goes_after(&self, other: &Inserted) -> bool
        ensures { result ≡ nat_lt other.now.name.site self.now.name.site }
    {
        other.name.site < self.name.site
    }

    // Whether the insert comes before the other: by rank, then by site.
    fn comes_before(&self, other: &Inserted) -> bool
        ensures { result ≡ comes_before self.now other.now }
    {
        let rank = self.context.rank();
        let other_rank = other.context.rank();
        rank < other_rank || (rank == other_rank && self.name.site < other.name.site)
    }
}

/// The inserts of the operations, by rank and then by site.
pub fn fixed_order(alloc: Global, ops: &[Op]) -> Result<Vec<Inserted>, Memory>
    ensures { IfOk result (λ order. map insertion_of order.items ≡ fixed_order (map data_of ops.now)) }
{
    let mut order = Vec::new(alloc);
    for i in (0..ops.len()).rev() {
        put_op(&mut order, &ops[i])?;
    }
    Ok(order)
}

// Makes the order of a list of operations that of the list with this one in front.
fn put_op(order: &mut Vec<Inserted>, op: &Op) -> Result<(), Memory>
    ensures { OnOk result ((h : List OpData) → map insertion_of order.old.items ≡ fixed_order h
        → map insertion_of order.new.items ≡ fixed_order (data_of op.now ∷ h)) }
{
    match op {
        Op::Insert {
            name,
            place,
            text,
            context,
        } => {
            let inserted = Inserted {
                name: *name,
                place: *place,
                len: text.len(),
                context: context.try_clone()?,
            };
            put(order, inserted)
        }
        Op::Delete { .. } | Op::Undo { .. } => Ok(()),
    }
}

// Puts the insert before the first that it is earlier than.
#[tactic(auto, using(crate::proofs::Stepwise::put_at))]
fn put(order: &mut Vec<Inserted>, inserted: Inserted) -> Result<(), Memory>
    ensures { OnOk result (map insertion_of order.new.items
        ≡ put_by is_earlier (insertion_of inserted) (map insertion_of order.old.items)) }
{
    let place = place_in(order.as_slice(), &inserted);
    put_at(order, place, inserted)
}

fn put_at(order: &mut Vec<Inserted>, place: usize, inserted: Inserted) -> Result<(), Memory>
    requires { place ≤ length order.old.items }
    ensures { OnOk result (order.new.items ≡ insert order.old.items place inserted) }
{
    match order.insert(place, inserted) {
        Ok(()) => Ok(()),
        Err(_) => Err(Memory),
    }
}

// How many stand before the first that the insert is earlier than; all where it is earlier than none.
fn place_in(order: &[Inserted], inserted: &Inserted) -> usize
    ensures place { result ≡ before_first (comes_before inserted.now) order.now }
    ensures within { result ≤ length order.now }
{
    for i in 0..order.len() {
        if inserted.comes_before(&order[i]) {
            return i;
        }
    }
    order.len()
}
