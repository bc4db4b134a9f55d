//! Two people write one text: how a program in Rattle calls `cot_site` and `wire_codec`.
//!
//! Ann is site 0 and Bob is site 1. Each edits a copy of their own and sends frames (`mail`), bytes that may come in any
//! order and more than once; either may undo what the other did. What is proved: what becomes of a site that is sent all
//! that the other has (`send_all`), and that `report` gives its two lines only for sites with the same operations, both
//! with the text of the definition; if the operations are the same, it fails only for lack of memory.
#![tactic(auto)]

mod alike;
mod mail;
mod stop;

use alike::report;
use cot_site::Site;
use mail::send_all;
use op_name::Name;
use std::io::Write;
use stop::Stop;

// The expected output was worked out by hand: a character is shown if its insert is in force and no delete in force hits
// it; of two inserts at one place made without knowing of each other, the one from the site with the smaller number comes
// first. Names are written site.number; an undo takes no number.
fn main(rt: HostRuntime) -> Result<(), Stop> {
    let alloc = rt.alloc();
    let mut out = rt.stdout();
    let Ok(mut ann) = Site::new(alloc, 0) else {
        return Err(Stop::Memory);
    };
    let Ok(mut bob) = Site::new(alloc, 1) else {
        return Err(Stop::Memory);
    };
    ann.insert(0, 't')?; // 0.1
    ann.insert(1, 'e')?; // 0.2
    ann.insert(2, 'a')?; // 0.3
    send_all(alloc, &ann, &mut bob)?; // 0.3 and 0.2 come first and wait for 0.1, which releases them

    // Neither knows what the other does: Ann turns `tea` into `tam`, Bob into `eas`.
    ann.delete(1)?; // 0.4 hides the e
    ann.insert(2, 'm')?; // 0.5
    bob.delete(0)?; // 1.1 hides the t
    bob.insert(2, 's')?; // 1.2, at the same place as Ann's m
    send_all(alloc, &ann, &mut bob)?;
    send_all(alloc, &bob, &mut ann)?;
    out.write_all(&report(alloc, &ann, &bob)?)?; // t and e are hidden, and m stands in front of s: ams

    // Each undoes the other's delete; again neither knows what the other does.
    ann.undo(Name { site: 1, number: 1 })?; // the t is shown again
    bob.undo(Name { site: 0, number: 4 })?; // the e is shown again
    send_all(alloc, &ann, &mut bob)?;
    send_all(alloc, &bob, &mut ann)?;
    out.write_all(&report(alloc, &ann, &bob)?)?; // no delete is in force: teams

    // A text is one operation, and others may write among its characters.
    ann.insert_run(5, &[' ', 'w', 'n'])?; // 0.6
    send_all(alloc, &ann, &mut bob)?;
    bob.insert(7, 'i')?; // 1.3, behind the w
    send_all(alloc, &bob, &mut ann)?;
    out.write_all(&report(alloc, &ann, &bob)?)?; // teams win
    Ok(())
}
