//! Marks: which value a character gets of those that several sites made, before and after an undo, and what is refused.

ghost use Rattle.std.specs.Prelude.{◌<◌, IfOk};
ghost use Rattle.op_name.specs.declared.name.TheConstants.{SITES};
ghost use Rattle.char_marks.specs.Covered.{AreFit};

use crate::edits::take_in;
use crate::made::op_of;
use char_marks::{Mark, MarkBad, MarkVerdict, Marks, Value, Values, no_marks_fit};
use cot_site::Site;
use op_name::{Member, Name};
use std::alloc::Global;
use std::test::Fail;

/// The first mark of site 1.
const PLAIN: Name = Name { site: 1, number: 1 };

/// A site that has 0.1 of `a`, and 0.2 of `b` behind it.
fn site_of_two(alloc: Global, number: u16) -> Result<Site, Fail>
    requires { number < SITES }
{
    let mut site = Site::new(alloc, number)?;
    take_in(&mut site, &op_of(alloc, "0.1 0 a |")?)?;
    take_in(&mut site, &op_of(alloc, "0.2 1 b | 0.1")?)?;
    Ok(site)
}

/// What site 1 makes of the second character: it isn't bold.
fn plain_of_another(alloc: Global) -> Result<Mark, Fail> {
    let site = site_of_two(alloc, 1)?;
    let mut marks = Marks::new(alloc);
    match marks.make(&site, 1, 1, Value::Bold(false)) {
        Ok(mark) => Ok(mark),
        Err(_) => Err(Fail::new("a mark is refused")),
    }
}

/// The values of a character that is bold or not, and nothing else.
fn weight(bold: bool) -> Values {
    Values {
        bold,
        italic: false,
        colour: None,
    }
}

/// Whether these are the values of the two characters, one by one and all at once.
fn are_bold(
    alloc: Global,
    marks: &Marks,
    site: &Site,
    first: bool,
    second: bool,
) -> Result<bool, Fail>
    requires { AreFit site.now.history marks.now.kept }
{
    let all = marks.all_values(alloc, site)?;
    let wanted = [weight(first), weight(second)];
    Ok(
        all.as_slice() == wanted.as_slice()
            && marks.cell_values(site, 0) == Some(weight(first))
            && marks.cell_values(site, 1) == Some(weight(second))
            && marks.cell_values(site, 2).is_none(),
    )
}

/// The marks of a site that made both characters bold.
fn both_bold(alloc: Global, site: &Site) -> Result<Marks, Fail>
    ensures { IfOk result (λ m. AreFit site.now.history m.kept) }
{
    no_marks_fit();
    let mut marks = Marks::new(alloc);
    let made = marks.make(site, 0, 2, Value::Bold(true)).is_ok();
    if made {
        Ok(marks)
    } else {
        Err(Fail::new("a mark is refused"))
    }
}

/// Whether a mark that another made gets this verdict.
fn gets(marks: &mut Marks, site: &Site, mark: &Mark, verdict: MarkVerdict) -> bool
    requires { AreFit site.now.history marks.old.kept }
    ensures { AreFit site.now.history marks.new.kept }
{
    mark.well_formed() && marks.take(site, mark) == Ok(verdict)
}

/// Whether an undo of the other's mark leads to this generation.
fn undoes(marks: &mut Marks, site: &Site, generation: u16) -> bool
    requires { AreFit site.now.history marks.old.kept }
    ensures { AreFit site.now.history marks.new.kept }
{
    match marks.undo(&PLAIN) {
        Ok(reached) => reached == generation,
        Err(_) => false,
    }
}

/// Whether a redo of it does.
fn redoes(marks: &mut Marks, site: &Site, generation: u16) -> bool
    requires { AreFit site.now.history marks.old.kept }
    ensures { AreFit site.now.history marks.new.kept }
{
    match marks.redo(&PLAIN) {
        Ok(reached) => reached == generation,
        Err(_) => false,
    }
}

/// Whether a site that made both characters bold shows the second one as another made it, and bold while that is undone.
fn the_last_mark_counts(alloc: Global) -> Result<bool, Fail> {
    let site = site_of_two(alloc, 0)?;
    let plain = plain_of_another(alloc)?;
    let mut marks = both_bold(alloc, &site)?;
    let taken = gets(&mut marks, &site, &plain, MarkVerdict::Kept);
    let before = are_bold(alloc, &marks, &site, true, false)?;
    let undone = undoes(&mut marks, &site, 1);
    let between = are_bold(alloc, &marks, &site, true, true)?;
    let redone = redoes(&mut marks, &site, 2);
    let after = are_bold(alloc, &marks, &site, true, false)?;
    Ok(taken && before && undone && between && redone && after)
}

#[test]
fn the_last_mark_of_a_kind_counts(rt: HostRuntime) -> Result<(), Fail> {
    assert!(rt; the_last_mark_counts(rt.alloc())?);
    Ok(())
}

/// Whether a mark was refused since only two characters are shown.
fn goes_past(made: &Result<Mark, MarkBad>) -> bool {
    matches!(made, Err(MarkBad::SpanOut { visible: 2 }))
}

/// Whether a mark past the text, an undo of a mark that isn't kept, and a mark of what the site lacks are told.
fn are_refused(alloc: Global) -> Result<bool, Fail> {
    let site = site_of_two(alloc, 0)?;
    let empty = Site::new(alloc, 2)?;
    let plain = plain_of_another(alloc)?;
    let mut marks = Marks::new(alloc);
    let past = goes_past(&marks.make(&site, 1, 2, Value::Italic(true)));
    let unknown = marks.undo(&PLAIN) == Err(MarkBad::Unknown { name: PLAIN });
    let missing = Member::Original(Name { site: 0, number: 1 });
    let waits = plain.well_formed()
        && marks.take(&empty, &plain) == Ok(MarkVerdict::Waits { missing });
    Ok(past && unknown && waits && marks.kept() == 0 && marks.raised() == 0)
}

#[test]
fn marks_are_refused(rt: HostRuntime) -> Result<(), Fail> {
    assert!(rt; are_refused(rt.alloc())?);
    Ok(())
}

/// Whether a generation that is lent before its mark hides the mark when that comes, and a repeat changes nothing.
fn generations_come_first(alloc: Global) -> Result<bool, Fail> {
    let site = site_of_two(alloc, 0)?;
    let plain = plain_of_another(alloc)?;
    let mut marks = Marks::new(alloc);
    let rose = marks.flip(&PLAIN, 1)?;
    let fell = marks.flip(&PLAIN, 1)?;
    no_marks_fit();
    let kept = gets(&mut marks, &site, &plain, MarkVerdict::Kept);
    let repeat = gets(&mut marks, &site, &plain, MarkVerdict::Repeat);
    Ok(rose && !fell && kept && repeat && marks.generation(&PLAIN) == 1 && marks.kept() == 1)
}

#[test]
fn marks_and_generations_in_any_order(rt: HostRuntime) -> Result<(), Fail> {
    assert!(rt; generations_come_first(rt.alloc())?);
    Ok(())
}
