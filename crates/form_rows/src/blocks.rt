//! The forms of a row, in blocks.

ghost use Rattle.std.specs.Prelude.{◌≡◌, ◌<◌, ◌≤◌, ◌++◌, ◌∷◌, [], false, List, IfOk, IsTrue, OnOk, OnErr, length, slice_get};
ghost use Rattle.ttf_form.specs.Families.{IsIn};
ghost use Rattle.form_rows.specs.Names.{had_by};
ghost use Rattle.form_rows.specs.RowSets.{form_after, row_after, PassFits};
ghost use Rattle.form_rows.specs.Code.Blocks.{joined, AreCounted};

use crate::block::{Block, cells_of};
use crate::had::has_none;
use crate::named::Named;
use crate::passes::pass;
use context_vector::Vector;
use op_name::Memory;
use std::alloc::Global;
use std::marker::Model;

/// The greatest number of forms in a block.
const SIZE: usize = 32;

/// How often forms are passed before blocks are made of them, which takes as long as one or two passes.
const WORTH: usize = 2;

/// A list of forms: most of them in blocks, and then the last ones, which aren't enough for a block yet, or weren't passed so often
/// that blocks would have been worth it, or for which there was no memory to make them. With them goes the number of cells that they
/// add (`CELLS` where that isn't known).
#[derive(Drop)]
pub(crate) struct Blocks<F: Named> {
    blocks: Vec<Block<F>>,
    rest: Vec<F>,
    // How often forms were passed since blocks were made last.
    passes: usize,
    len: usize,
    cells: u32,
}

impl<F: Named> Model for Blocks<F> {
    ghost use Rattle.std.specs.Prelude.{◌≡◌, List, ◌++◌, length};
    ghost use Rattle.form_rows.specs.Code.Blocks.{joined, AreCounted};

    ghost Value = { List F };

    ghost view = { λ b. joined b.blocks.items ++ b.rest.items };

    ghost invariant = { λ b. (b.len ≡ length (joined b.blocks.items ++ b.rest.items))
        × AreCounted F.extent b.cells (joined b.blocks.items ++ b.rest.items) };
}

impl<F: Named + Copy> Blocks<F> {
    /// No forms. It takes no memory.
    pub(crate) fn new(alloc: Global) -> Blocks<F>
        ensures { result ≡ [] }
    {
        Blocks {
            blocks: Vec::new(alloc),
            rest: Vec::new(alloc),
            passes: 0,
            len: 0,
            cells: 0,
        }
    }

    /// These forms.
    pub(crate) fn of(forms: Vec<F>) -> Blocks<F>
        ensures { result ≡ forms.items }
    {
        let len = forms.len();
        let cells = cells_of(forms.as_slice());
        let mut rest = forms;
        rest.shrink_to_fit();
        Blocks {
            blocks: Vec::new(*rest.allocator()),
            rest,
            passes: 0,
            len,
            cells,
        }
    }

    /// The number of forms.
    pub(crate) fn len(&self) -> usize
        ensures { result ≡ length self.now }
    {
        self.len
    }

    /// The number of cells that the forms add, or `CELLS` if that is too great.
    pub(crate) fn cells(&self) -> u32
        ensures { AreCounted F.extent result self.now }
    {
        self.cells
    }

    /// A list without forms, which takes its memory where this one does.
    pub(crate) fn no_forms(&self) -> Vec<F>
        ensures { result.items ≡ [] }
    {
        Vec::new(*self.rest.allocator())
    }

    /// The first form.
    pub(crate) fn first(&self) -> Option<F>
        ensures { result ≡ slice_get self.now 0 }
    {
        match self.blocks.get(0) {
            Some(block) => Some(block.first()),
            None => self.rest.get(0).copied(),
        }
    }

    /// All forms as one list.
    pub(crate) fn flat(&self) -> Result<Vec<F>, Memory>
        ensures { IfOk result (λ v. v.items ≡ self.now) }
    {
        let mut all = copied(*self.rest.allocator(), self.blocks.as_slice())?;
        match all.extend_from_slice(self.rest.as_slice()) {
            Ok(()) => Ok(all),
            Err(_) => Err(Memory),
        }
    }

    /// Appends forms. After out of memory the list is as it was.
    pub(crate) fn append(&mut self, more: &[F]) -> Result<(), Memory>
        ensures ok { OnOk result (self.new ≡ self.old ++ more.now) }
        ensures err { OnErr result (self.new ≡ self.old) }
    {
        let len = match self.len.checked_add(more.len()) {
            Some(len) => len,
            None => return Err(Memory),
        };
        add_all(&mut self.rest, more)?;
        settle(&mut self.blocks, &mut self.rest, &mut self.passes);
        self.len = len;
        self.cells = self.cells.saturating_add(cells_of(more));
        Ok(())
    }

    /// Whether the context has no member of the list.
    pub(crate) fn has_none(&self, context: &Vector) -> bool
        ensures { IsTrue result → (f : F) → IsIn f self.now → had_by F.named context.now.set f ≡ false }
    {
        none_in(self.blocks.as_slice(), context) && has_none(context, self.rest.as_slice())
    }

    /// Brings the form over the forms of the list, and these over it.
    pub(crate) fn pass(&mut self, form: F) -> F
        requires { PassFits F.over F.place F.extent form self.old }
        ensures form { result ≡ form_after F.over form self.old }
        ensures row { self.new ≡ row_after F.over form self.old }
    {
        self.passes = self.passes.saturating_add(1);
        let form = pass_all(form, &mut self.blocks);
        pass_rest(form, &mut self.rest)
    }
}

// The forms of the blocks as one list.
fn copied<F: Named + Copy>(alloc: Global, blocks: &[Block<F>]) -> Result<Vec<F>, Memory>
    ensures { IfOk result (λ v. v.items ≡ joined blocks.now) }
{
    let mut all = Vec::new(alloc);
    for i in 0..blocks.len() {
        blocks[i].copy_to(&mut all)?;
    }
    Ok(all)
}

// Appends forms to a list. After out of memory that is as it was.
fn add_all<F: Copy + Drop>(out: &mut Vec<F>, more: &[F]) -> Result<(), Memory>
    ensures ok { OnOk result (out.new.items ≡ out.old.items ++ more.now) }
    ensures err { OnErr result (out.new.items ≡ out.old.items) }
{
    match out.extend_from_slice(more) {
        Ok(()) => Ok(()),
        Err(_) => Err(Memory),
    }
}

// Whether the context has no member of the blocks.
fn none_in<F: Named + Copy>(blocks: &[Block<F>], context: &Vector) -> bool
    ensures { IsTrue result → (f : F) → IsIn f (joined blocks.now) → had_by F.named context.now.set f ≡ false }
{
    for i in 0..blocks.len() {
        if !blocks[i].has_none(context) {
            return false;
        }
    }
    true
}

// Brings the form over the forms of the blocks, and these over it.
fn pass_blocks<F: Named + Copy>(form: F, blocks: &mut [Block<F>]) -> F
    requires { PassFits F.over F.place F.extent form (joined blocks.old) }
    ensures form { result ≡ form_after F.over form (joined blocks.old) }
    ensures row { joined blocks.new ≡ row_after F.over form (joined blocks.old) }
{
    let mut f = form;
    for x in blocks.iter_mut() {
        f = x.pass(f);
    }
    f
}

// The same of a list of blocks.
fn pass_all<F: Named + Copy>(form: F, blocks: &mut Vec<Block<F>>) -> F
    requires { PassFits F.over F.place F.extent form (joined blocks.old.items) }
    ensures form { result ≡ form_after F.over form (joined blocks.old.items) }
    ensures row { joined blocks.new.items ≡ row_after F.over form (joined blocks.old.items) }
{
    pass_blocks(form, blocks)
}

// Brings the form over the last forms, and these over it.
fn pass_rest<F: Named + Copy>(form: F, rest: &mut Vec<F>) -> F
    requires { PassFits F.over F.place F.extent form rest.old.items }
    ensures form { result ≡ form_after F.over form rest.old.items }
    ensures row { rest.new.items ≡ row_after F.over form rest.old.items }
{
    pass(form, rest)
}

// Makes blocks of the last forms, if these are enough for one, there were so many passes that it is worth it, and memory suffices.
// The list stays.
fn settle<F: Named + Copy>(blocks: &mut Vec<Block<F>>, rest: &mut Vec<F>, passes: &mut usize)
    ensures { joined blocks.new.items ++ rest.new.items ≡ joined blocks.old.items ++ rest.old.items }
{
    if rest.len() < SIZE || *passes < WORTH {
        return;
    }
    *passes = 0;
    match cut(*rest.allocator(), rest.as_slice()) {
        Ok(more) => move_blocks(blocks, more, rest),
        Err(_) => {}
    }
}

// Puts the blocks of the last forms after the others, if memory suffices. The list of the last forms then gives its memory back: a site
// has a row for each author, and most of them wait long for the next forms.
fn move_blocks<F: Named + Copy>(blocks: &mut Vec<Block<F>>, more: Vec<Block<F>>, rest: &mut Vec<F>)
    requires { joined more.items ≡ rest.old.items }
    ensures { joined blocks.new.items ++ rest.new.items ≡ joined blocks.old.items ++ rest.old.items }
{
    let mut more = more;
    match blocks.append(&mut more) {
        Ok(()) => {
            rest.clear();
            rest.shrink_to_fit();
        }
        Err(_) => {}
    }
}

// Blocks of the forms.
fn cut<F: Named + Copy>(alloc: Global, forms: &[F]) -> Result<Vec<Block<F>>, Memory>
    ensures { IfOk result (λ v. joined v.items ≡ forms.now) }
{
    let mut blocks = Vec::new(alloc);
    let mut i = 0;
    while i < forms.len() {
        let size = at_most(SIZE, forms.len() - i);
        let block = Block::of(alloc, &forms[i..i + size])?;
        push(&mut blocks, block)?;
        i += size;
    }
    Ok(blocks)
}

// Appends a block.
fn push<F: Named>(blocks: &mut Vec<Block<F>>, block: Block<F>) -> Result<(), Memory>
    ensures { OnOk result (blocks.new.items ≡ blocks.old.items ++ block ∷ []) }
{
    match blocks.push(block) {
        Ok(()) => Ok(()),
        Err(_) => Err(Memory),
    }
}

// The lesser of a number from 1 on and another one from 1 on.
fn at_most(number: usize, most: usize) -> usize
    requires number { 0 < number }
    requires most { 0 < most }
    ensures some { 0 < result }
    ensures low { result ≤ number }
    ensures bound { result ≤ most }
{
    if number < most { number } else { most }
}
