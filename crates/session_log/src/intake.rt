//! The intake of a log: a site that takes in its operations as they come.

ghost use Rattle.std.specs.Prelude.{◌≡◌, ◌≢◌, ◌⊎◌, ◌<◌, Some, None, Err, OnOk, OnErr, IfOk, IfErr};
ghost use Rattle.std.specs.Result.{result_err};
ghost use Rattle.context_diff.specs.Operations.{IsWellFormed};
ghost use Rattle.context_diff.specs.Ops.{data_of};
ghost use Rattle.cot_site.specs.Sites.{state_of};
ghost use Rattle.session_log.specs.Loadings.{new_state};
ghost use Rattle.session_log.specs.Code.Steps.{TakesIn};

use crate::loading::take_in;
use crate::log_bad::LogBad;
use crate::placed::Placed;
use context_diff::Op;
use cot_site::{Release, Site};
use op_name::{Memory, SITES};
use std::alloc::Global;

/// The site so far, and the first refusal among the operations that it was given. The list is only room for releases.
#[derive(Drop)]
pub(crate) struct Intake {
    pub(crate) site: Site,
    pub(crate) refused: Option<LogBad>,
    released: Vec<Release>,
}

impl Intake {
    /// A site that has done nothing.
    pub(crate) fn new(alloc: Global, site: u16) -> Result<Intake, Memory>
        requires { site < SITES }
        ensures state { IfOk result (λ t. state_of t.site ≡ new_state site) }
        ensures refused { IfOk result (λ t. t.refused ≡ None) }
    {
        Ok(Intake {
            site: Site::new(alloc, site)?,
            refused: None,
            released: Vec::new(alloc),
        })
    }

    /// Takes in the operation, unless one was refused before, which takes no memory; the first refusal is kept.
    pub(crate) fn take(&mut self, placed: Placed) -> Result<(), Memory>
        requires { IsWellFormed (data_of placed.op) }
        ensures takes { OnOk result (TakesIn (state_of self.old.site) self.old.refused placed.offset (data_of placed.op)
            (state_of self.new.site) self.new.refused) }
        ensures needed { OnErr result (self.old.refused ≡ None) }
    {
        if self.refused.is_some() {
            Ok(())
        } else {
            self.take_next(placed)
        }
    }

    // Takes in the operation, where none was refused before.
    fn take_next(&mut self, placed: Placed) -> Result<(), Memory>
        requires formed { IsWellFormed (data_of placed.op) }
        requires first { self.old.refused ≡ None }
        ensures { OnOk result (TakesIn (state_of self.old.site) None placed.offset (data_of placed.op) (state_of self.new.site)
            self.new.refused) }
    {
        let Placed { offset, op } = placed;
        let taken = take_in(&mut self.site, offset, op, &mut self.released);
        keep(&mut self.refused, taken)
    }

    /// The site, unless the log has this fault, or an operation was refused.
    pub(crate) fn finish(self, fault: Option<LogBad>) -> Result<Site, LogBad>
        ensures refused { IfErr result (λ why. (fault ≡ Some why) ⊎ ((fault ≡ None) × (self.refused ≡ Some why))) }
        ensures accepted { IfOk result (λ s. (fault ≡ None) × (self.refused ≡ None) × (s ≡ self.site)) }
    {
        let Intake { site, refused, .. } = self;
        match fault.or(refused) {
            Some(why) => Err(why),
            None => Ok(site),
        }
    }
}

// Keeps the refusal, if there is one; out of memory there is none.
fn keep(refused: &mut Option<LogBad>, taken: Result<(), LogBad>) -> Result<(), Memory>
    requires { refused.old ≡ None }
    ensures { OnOk result ((refused.new ≡ result_err taken) × (taken ≢ Err LogBad.Memory)) }
{
    match taken {
        Ok(()) => Ok(()),
        Err(LogBad::Memory) => Err(Memory),
        Err(why) => {
            *refused = Some(why);
            Ok(())
        }
    }
}
