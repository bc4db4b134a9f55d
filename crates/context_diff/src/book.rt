//! The book: a valid history, with its members and an index of them.

ghost use Rattle.std.specs.Prelude.{◌≡◌, ◌↔◌, ◌+◌, ◌<◌, ◌≤◌, ◌++◌, ◌∷◌, [], List, true, false, Contains, IsNone, OnOk, IfSome, if◌then◌else◌, length, map, option_map, slice_get};
ghost use Rattle.std.specs.Option.{option_to_list};
ghost use Rattle.op_name.specs.declared.member.Member.{Member};
ghost use Rattle.op_name.specs.declared.member.Member.TheVariants.{Original};
ghost use Rattle.context_vector.specs.Contexts.{Within};
ghost use Rattle.context_diff.specs.Operations.{OpData, member_of, context_of, cells_put, is_original};
ghost use Rattle.context_diff.specs.Histories.{is_known, members_in, all_cells, cells_in, context_of_all, IsNext, IsValid};
ghost use Rattle.context_diff.specs.Ops.{data_of};
ghost use Rattle.context_diff.specs.Books.{HasRoom, IsJudged};
ghost use Rattle.context_diff.specs.Code.Judged.{IsLately};
ghost use Rattle.context_diff.specs.Code.Kept.{IsPlaceOf};

use crate::groups;
use crate::growth::reserve_one;
use crate::judged::{Lately, cells_by, kept_of};
use crate::op::Op;
use crate::tally::Tallies;
use context_vector::Vector;
use indexmap::IndexMap;
use op_name::{Member, Memory, Name};
use std::alloc::Global;
use std::marker::Model;

/// The greatest number of operations that a book holds.
const OPS: usize = 4_294_967_295;

/// The greatest number of cells that they put.
const CELLS: u32 = 4_294_967_295;

/// A valid history: operations in the order in which a site integrated them, each well formed, and next
/// after those before it.
///
/// Beside the operations it keeps, for each site, where each of its originals stands, and how many cells the site had put with
/// it: so an original is found at once, and the cells of a context are counted by one look at each of its sites. Undo groups,
/// of which there are fewer, are found by their members. And of the last two operations, as far as they are
/// inserts or deletes and none was taken out since, it keeps how many cells their contexts have: so what comes with such a context,
/// or with that context and its own operation, is judged at a look. It has at most 4,294,967,295 operations, and they put at most as
/// many cells.
#[derive(Drop)]
pub struct Book {
    ops: Vec<Op>,
    have: Vector,
    cells: u32,
    tallies: Tallies,
    groups: IndexMap<Member, u32>,
    last: Option<Lately>,
    earlier: Option<Lately>,
}

impl Model for Book {
    ghost use Rattle.std.specs.Prelude.{◌-◌, map, min, vec_len, vec_capacity};
    ghost use Rattle.indexmap.specs.IndexMap.{spare};
    ghost use Rattle.context_diff.specs.Books.{BookData};
    ghost use Rattle.context_diff.specs.Ops.{data_of};
    ghost use Rattle.context_diff.specs.Code.Kept.{IsBook};
    ghost use Rattle.context_diff.specs.Code.Tallies.{counts_of, places_of, spares_of};

    ghost Value = { BookData };

    ghost view = { λ b. record {
      ops = map data_of b.ops.items;
      have = b.have;
      spare = min (vec_capacity b.ops - vec_len b.ops) (spare b.groups);
      site_spares = spares_of b.tallies;
    } };

    ghost invariant = { λ b. IsBook (map data_of b.ops.items) b.have.set b.have.room.own b.cells (counts_of b.tallies)
        (places_of b.tallies) b.groups.entries b.last b.earlier };
}

impl Book {
    /// The book without operations. It takes no memory.
    pub fn new(alloc: Global) -> Book
        ensures { result.ops ≡ [] }
    {
        Book {
            ops: Vec::new(alloc),
            have: Vector::new(alloc),
            cells: 0,
            tallies: Tallies::new(alloc),
            groups: IndexMap::new(alloc),
            last: None,
            earlier: None,
        }
    }

    /// Nothing but what the type keeps: the operations are a valid history, and `have` is its members.
    pub fn known(&self)
        ensures valid { IsValid self.now.ops }
        ensures have { self.now.have.set ≡ context_of_all self.now.ops }
        ensures short { length self.now.ops < 4294967296 }
        ensures cells { all_cells self.now.ops < 4294967296 }
    {
        let _ = &self.ops;
    }

    /// The number of operations.
    #[tactic(auto, using(crate::proofs::Kept::seen_length))]
    pub fn len(&self) -> u32
        ensures { result ≡ length self.now.ops }
    {
        self.ops.len() as u32
    }

    /// The i-th operation, from 0, in the order of integration; None exactly past the end.
    pub fn op(&self, i: u32) -> Option<&Op>
        ensures { option_map (λ o. data_of o.now) result ≡ slice_get self.now.ops i }
    {
        op_at(self.ops.as_slice(), i as usize)
    }

    /// The member that the i-th operation is, from 0, in the order of integration; None exactly past the end.
    pub fn member(&self, i: u32) -> Option<Member>
        ensures { result ≡ slice_get (members_in self.now.ops) i }
    {
        self.member_at(i as usize)
    }

    /// The insert or delete of this name; None exactly where the book has none.
    pub fn original(&self, name: &Name) -> Option<&Op>
        ensures none { IsNone result ↔ (is_known self.now.ops (Original name.now) ≡ false) }
        ensures there { IfSome result (λ o. Contains self.now.ops (data_of o.now)) }
        ensures named { IfSome result (λ o. member_of (data_of o.now) ≡ Original name.now) }
    {
        self.find(&Member::Original(*name))
    }

    /// The members of the book.
    pub fn have(&self) -> &Vector
        ensures { result.now ≡ self.now.have }
    {
        &self.have
    }

    /// Lets the next copies of the members be made like the context of the last operation, so that what they have in common is kept
    /// once; no operation comes or goes, and no memory is taken.
    pub fn share(&mut self)
        ensures ops { self.new.ops ≡ self.old.ops }
        ensures have { self.new.have.set ≡ self.old.have.set }
        ensures room { self.new.have.room ≡ self.old.have.room }
    {
        if let Some(op) = self.ops.last() {
            self.have.remember(op.context());
        }
    }

    /// Makes room for the operation; no operation comes or goes. Where there would be more than 4,294,967,295 operations, or more than
    /// as many cells, it answers Memory.
    pub fn reserve(&mut self, op: &Op) -> Result<(), Memory>
        ensures ops { self.new.ops ≡ self.old.ops }
        ensures have { self.new.have.set ≡ self.old.have.set }
        ensures room { OnOk result (HasRoom self.new (data_of op.now)) }
    {
        if self.ops.len() >= OPS || op.cells() > CELLS - self.cells {
            return Err(Memory);
        }
        let member = op.as_member();
        reserve_one(&mut self.ops)?;
        self.groups.reserve(1)?;
        self.tallies.reserve(&member)?;
        self.have.reserve(&member)
    }

    /// Appends the operation, which is next after those of the book, in the room that was made for it. It
    /// takes no memory.
    pub fn push(&mut self, op: Op)
        requires room { HasRoom self.old (data_of op) }
        requires next { IsNext self.old.ops (data_of op) }
        ensures { self.new.ops ≡ self.old.ops ++ data_of op ∷ [] }
    {
        let cells = self.cells_of(&op);
        self.push_counted(op, cells);
    }

    /// The same, of an operation that is known to be next, where it is known too how many cells its context has, if it is an insert
    /// or a delete: nothing is compared.
    pub fn push_counted(&mut self, op: Op, cells: u32)
        requires room { HasRoom self.old (data_of op) }
        requires next { IsNext self.old.ops (data_of op) }
        requires counted { is_original (data_of op) ≡ true → cells ≡ cells_in self.old.ops (context_of (data_of op)) }
        ensures { self.new.ops ≡ self.old.ops ++ data_of op ∷ [] }
    {
        let member = op.member();
        let place = self.len();
        let more = op.cells();
        self.tallies.push(&member, more, place);
        groups::note(&mut self.groups, &member, place);
        self.have.add_reserved(&member);
        self.cells += more;
        self.earlier = self.last;
        self.last = kept_of(&op, place, cells);
        self.ops.push_reserved(op);
    }

    // How many cells the context of the operation, which is next, has, if it is an insert or delete.
    fn cells_of(&self, op: &Op) -> u32
        requires { IsNext self.now.ops (data_of op.now) }
        ensures { is_original (data_of op.now) ≡ true → result ≡ cells_in self.now.ops (context_of (data_of op.now)) }
    {
        self.known();
        match op {
            Op::Insert { context, .. } | Op::Delete { context, .. } => self.cells_in(context),
            Op::Undo { .. } => 0,
        }
    }

    /// Takes the last operation out. None exactly where the book is empty. It takes no memory.
    pub fn pop(&mut self) -> Option<Op>
        ensures none { IsNone result ↔ (length self.old.ops ≡ 0) }
        ensures ops { self.old.ops ≡ self.new.ops ++ option_to_list (option_map data_of result) }
    {
        let op = self.ops.pop()?;
        self.last = None;
        self.earlier = None;
        let member = op.as_member();
        self.tallies.pop(&member);
        groups::forget(&mut self.groups, &member);
        self.have.drop_last(&member);
        self.cells -= op.cells();
        self.have.known();
        Some(op)
    }

    /// The number of cells of the book.
    pub fn cells(&self) -> u32
        ensures { result ≡ cells_in self.now.ops self.now.have.set }
    {
        self.cells
    }

    /// The number of cells of a context that was judged lately: the book has its members, and it is closed. It is that of one of
    /// the last two operations, an insert or delete, or that with the operation itself. None says nothing.
    pub fn judged(&self, v: &Vector) -> Option<u32>
        ensures { IfSome result (IsJudged self.now.ops v.now.set) }
    {
        match self.judged_by(v, self.last) {
            Some(cells) => Some(cells),
            None => self.judged_by(v, self.earlier),
        }
    }

    /// How many cells the context of the last operation has, if that is an insert or a delete and none was taken out since it came.
    /// None says nothing.
    pub fn last_cells(&self) -> Option<u32>
        ensures { IfSome result (λ n. (o : OpData) (before : List Member) → Contains self.now.ops o
            → members_in self.now.ops ≡ before ++ member_of o ∷ [] → n ≡ cells_in self.now.ops (context_of o)) }
    {
        self.known();
        let known = self.last?;
        if known.place + 1 == self.len() {
            Some(known.cells)
        } else {
            None
        }
    }

    // The same by one of these.
    fn judged_by(&self, v: &Vector, lately: Option<Lately>) -> Option<u32>
        requires { IfSome lately (IsLately self.now.ops) }
        ensures { IfSome result (IsJudged self.now.ops v.now.set) }
    {
        self.known();
        match lately {
            Some(known) => self.judged_at(v, known),
            None => None,
        }
    }

    // The same by this one.
    fn judged_at(&self, v: &Vector, lately: Lately) -> Option<u32>
        requires { IsLately self.now.ops lately }
        ensures { IfSome result (IsJudged self.now.ops v.now.set) }
    {
        self.known();
        match self.op(lately.place) {
            Some(op) => cells_by(op, v, lately.cells),
            None => None,
        }
    }

    /// The number of cells of `v`, whose members the book has: the sum of the lengths of its inserts.
    pub fn cells_in(&self, v: &Vector) -> u32
        requires { Within v.now.set self.now.have.set }
        ensures { result ≡ cells_in self.now.ops v.now.set }
    {
        match self.judged(v) {
            Some(cells) => cells,
            None => self.counted(v),
        }
    }

    // The same, counted site by site.
    fn counted(&self, v: &Vector) -> u32
        requires { Within v.now.set self.now.have.set }
        ensures { result ≡ cells_in self.now.ops v.now.set }
    {
        v.known();
        self.known();
        let mut total = 0;
        let mut left = v.sites_read();
        while let Some((site, number)) = left.next() {
            total += self.tallies.cells(site, number);
        }
        total
    }

    /// The place of the member in the order of integration, from 0; None exactly where the book lacks it.
    pub fn place_of(&self, m: &Member) -> Option<usize>
        ensures none { IsNone result ↔ (is_known self.now.ops m.now ≡ false) }
        ensures place { IfSome result (λ i. slice_get (members_in self.now.ops) i ≡ Some m.now) }
    {
        match self.seat(m) {
            Some(place) => Some(place as usize),
            None => None,
        }
    }

    // The place of the member, or none where the book lacks it.
    fn seat(&self, m: &Member) -> Option<u32>
        ensures { IsPlaceOf self.now.ops m.now result }
    {
        match m {
            Member::Original(name) => self.tallies.place(name.site, name.number),
            Member::Group(_, _) => groups::place_of(&self.groups, m),
        }
    }

    // The member at this place.
    pub(crate) fn member_at(&self, place: usize) -> Option<Member>
        ensures { result ≡ slice_get (members_in self.now.ops) place }
    {
        match op_at(self.ops.as_slice(), place) {
            Some(op) => Some(op.as_member()),
            None => None,
        }
    }

    // The operation that is the member.
    fn find(&self, m: &Member) -> Option<&Op>
        ensures none { IsNone result ↔ (is_known self.now.ops m.now ≡ false) }
        ensures there { IfSome result (λ o. Contains self.now.ops (data_of o.now)) }
        ensures is { IfSome result (λ o. member_of (data_of o.now) ≡ m.now) }
    {
        match self.seat(m) {
            Some(place) => self.op(place),
            None => None,
        }
    }
}

// The operation at this place of a list.
fn op_at(ops: &[Op], i: usize) -> Option<&Op>
    ensures { option_map (λ o. data_of o.now) result ≡ slice_get (map data_of ops.now) i }
{
    match ops.get(i) {
        Some(op) => Some(op),
        None => None,
    }
}
