//! Deliveries.

ghost use Rattle.std.specs.Prelude.{◌≡◌, ◌≢◌, IfOk, OnOk, OnErr};
ghost use Rattle.context_diff.specs.Operations.{IsWellFormed};
ghost use Rattle.context_diff.specs.Histories.{IsNext};
ghost use Rattle.context_diff.specs.Ops.{data_of};
ghost use Rattle.causal_gate.specs.Waiting.{NamesAgree};
ghost use Rattle.site_answers.specs.declared.verdict.Verdict.TheVariants.{Integrated};
ghost use Rattle.cot_site.specs.States.{delivered, judged, with_last, with_held};
ghost use Rattle.cot_site.specs.Sites.{KeepsForms, IsAsBefore, state_of};
ghost use Rattle.cot_site.specs.Code.Judging.{HasCells};

use crate::judging::Judgement;
use crate::site::Site;
use context_diff::Op;
use op_name::Memory;
use site_answers::Verdict;

impl Site {
    /// Delivers an operation, which is well formed: answers its verdict, and does what the verdict says. An
    /// integrated operation is the last of the history, and its form is executed; one that waits is held,
    /// unless an equal one waits already; any other changes nothing. Out of memory comes only where the state is to
    /// change; then the state and the forms are as before, and the cache may be empty.
    pub fn deliver(&mut self, op: &Op) -> Result<Verdict, Memory>
        requires { IsWellFormed (data_of op.now) }
        ensures verdict { IfOk result (λ v. v ≡ judged (state_of self.old) (data_of op.now)) }
        ensures effect { OnOk result (state_of self.new ≡ delivered (state_of self.old) (data_of op.now)) }
        ensures forms { OnOk result (KeepsForms self.old.forms self.new.forms) }
        ensures entries { IfOk result (λ v. v ≢ Integrated → self.new.entries ≡ self.old.entries) }
        ensures needed { OnErr result (delivered (state_of self.old) (data_of op.now) ≢ state_of self.old) }
        ensures err { OnErr result (IsAsBefore self.old self.new) }
    {
        self.known();
        let Judgement { verdict, cells } = self.judge(op);
        match verdict {
            Verdict::Integrated => {
                let copy = op.try_clone()?;
                self.integrate(copy, cells)?;
                Ok(Verdict::Integrated)
            }
            Verdict::Waits { missing } => {
                self.hold(op)?;
                Ok(Verdict::Waits { missing })
            }
            Verdict::Repeat => Ok(Verdict::Repeat),
            Verdict::Forged { name } => Ok(Verdict::Forged { name }),
            Verdict::NotClosed { site } => Ok(Verdict::NotClosed { site }),
            Verdict::PlaceOut { place, cells } => Ok(Verdict::PlaceOut { place, cells }),
        }
    }

    // Integrates the operation, which is next, and whose context, if it is an insert or delete, has so many cells.
    pub(super) fn integrate(&mut self, op: Op, cells: u32) -> Result<(), Memory>
        requires next { IsNext self.old.history (data_of op) }
        requires cells { HasCells self.old.history (data_of op) cells }
        ensures state { OnOk result (state_of self.new ≡ with_last (state_of self.old) (data_of op)) }
        ensures forms { OnOk result (KeepsForms self.old.forms self.new.forms) }
        ensures err { OnErr result (IsAsBefore self.old self.new) }
    {
        self.replica.integrate(op, cells)?;
        self.pool.renew(self.replica.vector());
        Ok(())
    }

    // Holds a copy of the operation, which is well formed and has the name of no other that waits, unless an equal
    // one waits already.
    fn hold(&mut self, op: &Op) -> Result<(), Memory>
        requires formed { IsWellFormed (data_of op.now) }
        requires names { NamesAgree self.old.waiting (data_of op.now) }
        ensures state { OnOk result (state_of self.new ≡ with_held (state_of self.old) (data_of op.now)) }
        ensures forms { OnOk result (self.new.forms ≡ self.old.forms) }
        ensures entries { OnOk result (self.new.entries ≡ self.old.entries) }
        ensures needed { OnErr result (with_held (state_of self.old) (data_of op.now) ≢ state_of self.old) }
        ensures err { OnErr result (IsAsBefore self.old self.new) }
    {
        self.pool.hold(op)?;
        Ok(())
    }
}
