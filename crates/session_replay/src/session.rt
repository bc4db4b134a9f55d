//! Sessions: what a script did so far, changed line by line.

ghost use Rattle.std.specs.Prelude.{◌≡◌, ◌≤◌, ◌↔◌, ◌++◌, true, false, IsNone, OnOk, OnErr, length, option_map, slice_get};
ghost use Rattle.cot_site.specs.Sites.{state_of};
ghost use Rattle.session_replay.specs.Answers.{IsDone, HasStep, lines_of_steps};
ghost use Rattle.session_replay.specs.Code.Doing.{cut_after};
ghost use Rattle.session_replay.specs.LineSteps.{line_steps};
ghost use Rattle.session_replay.specs.Sessions.{unstarted};
ghost use Rattle.session_replay.specs.Soundness.{IsSound, AreSettled};

use crate::sites::Sites;
use cot_site::Site;
use op_name::Memory;
use script_text::Line;
use std::alloc::Global;
use std::marker::Model;

/// Why a line wasn't done. All but Memory leave the session as it was.
#[derive(Clone, Copy, Debug, PartialEq, Eq, Drop)]
pub enum StepBad {
    /// The line needs sites, and none are made yet.
    NoSites,
    /// Sites were made already.
    Twice,
    /// The site isn't below the number of sites, or more than `SITES` sites are asked for.
    NoSite,
    /// The message wasn't made yet.
    NoMessage,
    /// Out of memory.
    Memory,
}

impl From<Memory> for StepBad {
    ghost use Rattle.session_replay.specs.declared.session.StepBad.TheVariants as refusals;

    ghost from_gives = { λ _ bad. bad ≡ refusals.Memory };

    fn from(_: Memory) -> StepBad {
        StepBad::Memory
    }
}

/// What a script did so far: the states of its sites, of which there are none before it makes them, and the
/// messages, numbered from 0, that their local operations became.
///
/// Its sites and messages are sound. Between its lines no site has an operation that is ready, unless a line was
/// cut short, out of memory.
#[derive(Drop)]
pub struct Session {
    sites: Sites,
    cut: bool,
}

impl Model for Session {
    ghost use Rattle.std.specs.Prelude.{◌≡◌, false};
    ghost use Rattle.session_replay.specs.Sessions.{Running};
    ghost use Rattle.session_replay.specs.Soundness.{IsSound, AreSettled};

    ghost Value = { Running };

    ghost view = { λ s. record { session = s.sites; cut = s.cut } };

    ghost invariant = { λ s. IsSound s.sites × (s.cut ≡ false → AreSettled s.sites) };
}

impl Session {
    /// No sites and no messages; takes no memory.
    pub fn new(alloc: Global) -> Session
        ensures { result ≡ record { session = unstarted; cut = false } }
    {
        Session {
            sites: Sites::new(alloc),
            cut: false,
        }
    }

    /// Nothing but what the type keeps: each history is valid, all that waits and all messages are well formed,
    /// and no site has an operation that is ready, unless a line was cut short.
    pub fn known(&self)
        ensures sound { IsSound self.now.session }
        ensures settled { self.now.cut ≡ false → AreSettled self.now.session }
    {
        let _ = &self.sites;
    }

    /// The site of this number, from 0; None exactly where it isn't below the number of sites, of which there are none before a line
    /// makes them.
    pub fn site(&self, site: u16) -> Option<&Site>
        ensures site { option_map (λ s. state_of s.now) result ≡ slice_get self.now.session.sites site }
        ensures none { IsNone result ↔ (length self.now.session.sites ≤ site) }
    {
        self.sites.site(site)
    }

    /// Does one line of a script, and appends its report lines. Sites are numbered from 0, messages too; places
    /// count shown characters.
    ///
    /// A line is refused by the first of the causes of `StepBad` that holds, and nothing is changed then. Out of
    /// memory, which comes only where the line has a step, the first few steps are done, and the session counts as
    /// cut short from then on. On any refusal `out` is as it was.
    pub fn step(&mut self, line: &Line, out: &mut Vec<u8>) -> Result<(), StepBad>
        ensures session { IsDone (line_steps line.now self.old.session) result self.old.session self.new.session }
        ensures written { OnOk result (out.new.items ≡ out.old.items ++ lines_of_steps (line_steps line.now self.old.session)) }
        ensures err { OnErr result (out.new.items ≡ out.old.items) }
        ensures needed { result ≡ Err StepBad.Memory → HasStep (line_steps line.now self.old.session) }
        ensures cut { result ≡ Err StepBad.Memory → self.new.cut ≡ true }
        ensures uncut { (result ≡ Err StepBad.Memory → ⊥) → self.new.cut ≡ self.old.cut }
    {
        let start = out.len();
        match self.sites.do_line(line, out) {
            Ok(()) => Ok(()),
            Err(why) => {
                out.truncate(start);
                self.cut = cut_after(self.cut, why);
                Err(why)
            }
        }
    }
}

// Whether a session counts as cut short after a line that wasn't done for this cause.
fn cut_after(cut: bool, why: StepBad) -> bool
    ensures { result ≡ cut_after cut why }
{
    match why {
        StepBad::Memory => true,
        _ => cut,
    }
}
