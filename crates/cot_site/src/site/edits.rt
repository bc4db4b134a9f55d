//! Local commands: what the user of a site does.

ghost use Rattle.std.specs.Prelude.{◌≡◌, ◌≢◌, ◌<◌, ◌≤◌, ℕ, true, Err, IfOk, IfErr, List, OnOk, OnErr, length};
ghost use Rattle.context_diff.specs.Operations.{context_of};
ghost use Rattle.context_diff.specs.Histories.{IsNext, context_of_all, is_known, generation_in};
ghost use Rattle.context_diff.specs.Replays.{characters_of};
ghost use Rattle.op_name.specs.declared.member.Member.TheVariants.{Original};
ghost use Rattle.op_name.specs.declared.member.TheConstants.{GENERATIONS};
ghost use Rattle.op_name.specs.declared.limits.TheConstants.{LETTERS};
ghost use Rattle.context_diff.specs.Ops.{data_of};
ghost use Rattle.cot_site.specs.States.{with_last};
ghost use Rattle.cot_site.specs.Commands.{place_behind, place_of_shown, local_run, local_insert, local_delete, local_undo, local_redo, turned, IsAnswer};
ghost use Rattle.cot_site.specs.Code.Making.{IsNumber, IsContextAnswer, IsGeneration, IsHead};
ghost use Rattle.cot_site.specs.Sites.{KeepsForms, IsAsBefore, state_of};

use crate::site::Site;
use context_diff::{Letters, Op, UNDO_ENTRIES};
use context_vector::Vector;
use op_name::{GENERATIONS, LETTERS, Memory, NUMBERS, Name};
use site_answers::Local;
use undo_group::generation;

/// What an insert has beside its text.
#[derive(Drop)]
struct Head {
    name: Name,
    place: u32,
    context: Vector,
}

impl Site {
    /// Inserts a character after `v` shown ones: the insert of a text of one character. Refused, and what stays then, as
    /// `insert_letters`.
    pub fn insert(&mut self, v: u32, ch: char) -> Result<Op, Local>
        ensures answer { IsAnswer (local_insert (state_of self.old) v ch) result }
        ensures made { IfOk result (λ o. state_of self.new ≡ with_last (state_of self.old) (data_of o)) }
        ensures forms { OnOk result (KeepsForms self.old.forms self.new.forms) }
        ensures err { OnErr result (IsAsBefore self.old self.new) }
        ensures refused { OnErr result (result ≢ Err Local.Memory → self.new ≡ self.old) }
    {
        self.insert_letters(v, Letters::one(ch))
    }

    /// Inserts a text after `v` shown characters: makes one operation, with the site's next number and all
    /// members of the history as context, integrates it, and answers a copy. Refused by PlaceOut, NumberFull,
    /// ContextFull or Memory; then nothing is changed, but that after Memory the cache may be empty.
    pub fn insert_letters(&mut self, v: u32, text: Letters) -> Result<Op, Local>
        ensures answer { IsAnswer (local_run (state_of self.old) v text) result }
        ensures made { IfOk result (λ o. state_of self.new ≡ with_last (state_of self.old) (data_of o)) }
        ensures forms { OnOk result (KeepsForms self.old.forms self.new.forms) }
        ensures err { OnErr result (IsAsBefore self.old self.new) }
        ensures refused { OnErr result (result ≢ Err Local.Memory → self.new ≡ self.old) }
    {
        match self.head(v) {
            Ok(head) => self.put(v, head, text),
            Err(why) => Err(why),
        }
    }

    /// The same of these characters, of which there are 1 to `LETTERS`. Refused, and what stays then, as `insert_letters`; out of
    /// memory also where a list of them finds no room.
    pub fn insert_run(&mut self, v: u32, text: &[char]) -> Result<Op, Local>
        requires some { 1 ≤ length text.now }
        requires most { length text.now ≤ LETTERS }
        ensures answer { IsAnswer (local_run (state_of self.old) v text.now) result }
        ensures made { IfOk result (λ o. state_of self.new ≡ with_last (state_of self.old) (data_of o)) }
        ensures forms { OnOk result (KeepsForms self.old.forms self.new.forms) }
        ensures err { OnErr result (IsAsBefore self.old self.new) }
        ensures refused { OnErr result (result ≢ Err Local.Memory → self.new ≡ self.old) }
    {
        let head = match self.head(v) {
            Ok(head) => head,
            Err(why) => return Err(why),
        };
        match self.replica.letters(text) {
            Ok(text) => self.put(v, head, text),
            Err(_) => Err(Local::Memory),
        }
    }

    /// Deletes the `v`-th shown character, from 0: makes the operation with the site's next number and all
    /// members of the history as context, integrates it, and answers a copy. Refused by PlaceOut, NumberFull,
    /// ContextFull or Memory; then nothing is changed, but that after Memory the cache may be empty.
    pub fn delete(&mut self, v: u32) -> Result<Op, Local>
        ensures answer { IsAnswer (local_delete (state_of self.old) v) result }
        ensures made { IfOk result (λ o. state_of self.new ≡ with_last (state_of self.old) (data_of o)) }
        ensures forms { OnOk result (KeepsForms self.old.forms self.new.forms) }
        ensures err { OnErr result (IsAsBefore self.old self.new) }
        ensures refused { OnErr result (result ≢ Err Local.Memory → self.new ≡ self.old) }
    {
        self.known();
        let Some(place) = self.place_of_shown(v) else {
            return Err(self.place_out(v));
        };
        let name = self.next_name()?;
        let context = self.context()?;
        self.make(Op::Delete {
            name,
            place,
            context,
        })
    }

    /// Undoes the insert or delete of this name, whoever made it: makes the undo at the generation after the
    /// original's, integrates it, and answers a copy. Refused by Unknown, NotInForce, ContextFull or Memory;
    /// then nothing is changed, but that after Memory the cache may be empty.
    pub fn undo(&mut self, name: Name) -> Result<Op, Local>
        ensures answer { IsAnswer (local_undo (state_of self.old) name) result }
        ensures made { IfOk result (λ o. state_of self.new ≡ with_last (state_of self.old) (data_of o)) }
        ensures forms { OnOk result (KeepsForms self.old.forms self.new.forms) }
        ensures err { OnErr result (IsAsBefore self.old self.new) }
        ensures refused { OnErr result (result ≢ Err Local.Memory → self.new ≡ self.old) }
    {
        let generation = self.generation_of(name)?;
        if generation % 2 == 1 {
            return Err(Local::NotInForce { generation });
        }
        self.turn(name, generation)
    }

    /// Redoes the insert or delete of this name, whoever undid it: makes the redo at the generation after the
    /// original's, integrates it, and answers a copy. Refused by Unknown, InForce, GenerationFull, ContextFull
    /// or Memory; then nothing is changed, but that after Memory the cache may be empty.
    pub fn redo(&mut self, name: Name) -> Result<Op, Local>
        ensures answer { IsAnswer (local_redo (state_of self.old) name) result }
        ensures made { IfOk result (λ o. state_of self.new ≡ with_last (state_of self.old) (data_of o)) }
        ensures forms { OnOk result (KeepsForms self.old.forms self.new.forms) }
        ensures err { OnErr result (IsAsBefore self.old self.new) }
        ensures refused { OnErr result (result ≢ Err Local.Memory → self.new ≡ self.old) }
    {
        let generation = self.generation_of(name)?;
        if generation % 2 == 0 {
            return Err(Local::InForce { generation });
        }
        if generation == GENERATIONS {
            return Err(Local::GenerationFull);
        }
        self.turn(name, generation)
    }

    // What an insert after `v` shown characters has beside its text, or why there is none.
    fn head(&self, v: u32) -> Result<Head, Local>
        ensures head { IfOk result (λ h. IsHead (state_of self.now) v h.name h.place h.context.set) }
        ensures refused { IfErr result (λ e. (text : List ℕ) → IsAnswer (local_run (state_of self.now) v text) (Err e)) }
    {
        let Some(place) = self.place_behind(v) else {
            return Err(self.place_out(v));
        };
        let name = self.next_name()?;
        let context = self.context()?;
        Ok(Head {
            name,
            place,
            context,
        })
    }

    // The insert of the text with this head.
    fn put(&mut self, v: u32, head: Head, text: Letters) -> Result<Op, Local>
        requires { IsHead (state_of self.old) v head.name head.place head.context.set }
        ensures answer { IsAnswer (local_run (state_of self.old) v text) result }
        ensures made { IfOk result (λ o. state_of self.new ≡ with_last (state_of self.old) (data_of o)) }
        ensures forms { OnOk result (KeepsForms self.old.forms self.new.forms) }
        ensures err { OnErr result (IsAsBefore self.old self.new) }
        ensures refused { OnErr result (result ≢ Err Local.Memory → self.new ≡ self.old) }
    {
        self.known();
        text.known();
        let Head {
            name,
            place,
            context,
        } = head;
        self.make(Op::Insert {
            name,
            place,
            text,
            context,
        })
    }

    // The place for a text after `v` shown characters, if there are so many.
    fn place_behind(&self, v: u32) -> Option<u32>
        ensures { result ≡ place_behind self.now.history v }
    {
        self.replica.place_behind(v)
    }

    // The place of the `v`-th shown character, if there is one.
    fn place_of_shown(&self, v: u32) -> Option<u32>
        ensures { result ≡ place_of_shown self.now.history v }
    {
        self.replica.place_of_shown(v)
    }

    // The refusal of a place that no shown character has.
    fn place_out(&self, v: u32) -> Local
        ensures { result ≡ Local.PlaceOut v (length (characters_of self.now.history)) }
    {
        Local::PlaceOut {
            place: v,
            visible: self.visible_len(),
        }
    }

    // The name of the site's next original.
    fn next_name(&self) -> Result<Name, Local>
        ensures { IsNumber (state_of self.now) result }
    {
        let count = self.vector().count(self.number);
        if count < NUMBERS {
            Ok(Name {
                site: self.number,
                number: count + 1,
            })
        } else {
            Err(Local::NumberFull)
        }
    }

    // The members of the history, as the context of an operation.
    fn context(&self) -> Result<Vector, Local>
        ensures { IsContextAnswer (context_of_all self.now.history) result }
    {
        let have = self.vector();
        let entries = have.entries();
        if entries > UNDO_ENTRIES {
            return Err(Local::ContextFull { entries });
        }
        match have.kept() {
            Ok(context) => Ok(context),
            Err(_) => Err(Local::Memory),
        }
    }

    // The generation that the original of this name has reached.
    fn generation_of(&self, name: Name) -> Result<u16, Local>
        ensures { IsGeneration (state_of self.now) name result }
    {
        self.known();
        match self.book().original(&name) {
            Some(_) => Ok(generation(self.vector(), &name)),
            None => Err(Local::Unknown { name }),
        }
    }

    // The undo or redo of the original at the generation after its own, which is below the greatest one.
    fn turn(&mut self, name: Name, generation: u16) -> Result<Op, Local>
        requires known { is_known self.old.history (Original name) ≡ true }
        requires generation { generation ≡ generation_in self.old.history name }
        requires below { generation < GENERATIONS }
        ensures answer { IsAnswer (turned (state_of self.old) name) result }
        ensures made { IfOk result (λ o. state_of self.new ≡ with_last (state_of self.old) (data_of o)) }
        ensures forms { OnOk result (KeepsForms self.old.forms self.new.forms) }
        ensures err { OnErr result (IsAsBefore self.old self.new) }
        ensures refused { OnErr result (result ≢ Err Local.Memory → self.new ≡ self.old) }
    {
        self.known();
        let context = self.context()?;
        self.make(Op::Undo {
            author: self.number(),
            target: name,
            generation: generation + 1,
            context,
        })
    }

    // Integrates an operation of the site's own, which is next and has all members of the history as context, and answers
    // a copy.
    fn make(&mut self, op: Op) -> Result<Op, Local>
        requires next { IsNext self.old.history (data_of op) }
        requires own { context_of (data_of op) ≡ context_of_all self.old.history }
        ensures op { IfOk result (λ o. data_of o ≡ data_of op) }
        ensures memory { OnErr result (result ≡ Err Local.Memory) }
        ensures made { OnOk result (state_of self.new ≡ with_last (state_of self.old) (data_of op)) }
        ensures forms { OnOk result (KeepsForms self.old.forms self.new.forms) }
        ensures err { OnErr result (IsAsBefore self.old self.new) }
    {
        let copy = match op.try_clone() {
            Ok(copy) => copy,
            Err(_) => return Err(Local::Memory),
        };
        match self.integrate_own(op) {
            Ok(()) => Ok(copy),
            Err(_) => Err(Local::Memory),
        }
    }

    /// Integrates an operation that comes next and has all members of the history as context, as one has that is made here. It isn't
    /// judged, nor is its context compared with what the history has, so it costs less than a delivery. Out of memory the state and the
    /// forms are as before, and the cache may be empty.
    pub fn integrate_own(&mut self, op: Op) -> Result<(), Memory>
        requires next { IsNext self.old.history (data_of op) }
        requires own { context_of (data_of op) ≡ context_of_all self.old.history }
        ensures state { OnOk result (state_of self.new ≡ with_last (state_of self.old) (data_of op)) }
        ensures forms { OnOk result (KeepsForms self.old.forms self.new.forms) }
        ensures err { OnErr result (IsAsBefore self.old self.new) }
    {
        self.replica.integrate_own(op)?;
        self.pool.renew(self.replica.vector());
        Ok(())
    }
}
