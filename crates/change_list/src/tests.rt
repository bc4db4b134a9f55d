//! Changes that are told of a whole list, as a caller tells them.

ghost use Rattle.std.specs.Prelude.{◌≡◌, ◌≤◌, IfOk, length};
ghost use Rattle.ttf_form.specs.declared.include.TheConstants.{CELLS};
ghost use Rattle.change_list.specs.Told.{told};
ghost use Rattle.change_list.specs.Code.Rows.{marks_of};

use crate::{Change, tell};
use op_name::Memory;
use std::alloc::Global;

// What is told of elements of which each was shown or not, and is shown or not.
fn told_of(alloc: Global, marks: &[(bool, bool)]) -> Result<Vec<Change>, Memory>
    requires { length marks.now ≤ CELLS }
    ensures { IfOk result (λ cs. cs.items ≡ told (marks_of marks.now)) }
{
    let mut changes = Vec::new(alloc);
    let mut place = 0;
    for (was, is) in marks {
        if *was != *is {
            tell(&mut changes, place, *is)?;
        }
        if *is {
            place += 1;
        }
    }
    Ok(changes)
}

// Two that were shown are taken away, and one between them stays; behind them three come in, of which the first two stand side by side.
#[test]
fn an_undone_run_round_one_that_stays(rt: HostRuntime) -> Result<(), Memory> {
    let marks = [
        (true, false),
        (true, true),
        (true, false),
        (false, true),
        (false, true),
        (false, false),
        (true, true),
        (false, true),
    ];
    let told = told_of(rt.alloc(), &marks)?;
    let want = [
        Change {
            place: 0,
            removed: 1,
            inserted: 0,
        },
        Change {
            place: 1,
            removed: 1,
            inserted: 2,
        },
        Change {
            place: 4,
            removed: 0,
            inserted: 1,
        },
    ];
    assert!(rt; told[..] == want[..]);
    Ok(())
}
