//! What is left to be listed.

ghost use Rattle.std.specs.Prelude.{◌≡◌, ◌≤◌, ◌∷◌, [], length, MatchOption, OnOk};

use crate::listing::Listed;
use form_cache::Key;
use op_name::{Member, Memory};
use std::alloc::Global;
use std::marker::Model;
use ttf_form::Form;

/// Something to be done, once the tasks before it are.
#[derive(Drop)]
pub enum Task {
    /// The member at the context is to be listed.
    List(Key),
    /// Two lines were listed for the key without this last member of its context: that of the key's member, and that of
    /// the last one. The step of the two is to be listed.
    Join { key: Key, over: Member },
}

/// The tasks that are left, and the lines that were listed for them. Both are stacks: contracts see the first task first
/// and the last line first.
#[derive(Drop)]
pub struct Work {
    tasks: Vec<Task>,
    done: Vec<Listed>,
}

impl Model for Work {
    ghost use Rattle.std.specs.Prelude.{reverse};
    ghost use Rattle.trace_explain.specs.Code.Tasks.{WorkData};

    ghost Value = { WorkData };

    ghost view = { λ w. record { tasks = reverse w.tasks.items; done = reverse w.done.items } };
}

impl Work {
    /// No tasks and no lines. It takes no memory.
    pub fn new(alloc: Global) -> Work
        ensures { result ≡ record { tasks = []; done = [] } }
    {
        Work {
            tasks: Vec::new(alloc),
            done: Vec::new(alloc),
        }
    }

    /// Puts a task before the others.
    pub fn add(&mut self, task: Task) -> Result<(), Memory>
        ensures { OnOk result (self.new ≡ record { tasks = task ∷ self.old.tasks; done = self.old.done }) }
    {
        self.tasks.reserve(1)?;
        self.tasks.push_reserved(task);
        Ok(())
    }

    /// Takes the first task; None exactly where none is left.
    pub fn next(&mut self) -> Option<Task>
        ensures tasks { MatchOption result (self.old.tasks ≡ []) (λ t. self.old.tasks ≡ t ∷ self.new.tasks) }
        ensures done { self.new.done ≡ self.old.done }
    {
        self.tasks.pop()
    }

    /// Puts a line, with its number and its form, before the others.
    pub fn put(&mut self, number: u64, form: &Form) -> Result<(), Memory>
        ensures { OnOk result (self.new ≡ record {
          tasks = self.old.tasks;
          done = record { number = number; form = form.now } ∷ self.old.done;
        }) }
    {
        self.done.reserve(1)?;
        self.done.push_reserved(Listed {
            number,
            form: *form,
        });
        Ok(())
    }

    /// Takes the two lines that were put last, the earlier one first.
    pub fn take_two(&mut self) -> (Listed, Listed)
        requires { 2 ≤ length self.old.done }
        ensures done { self.old.done ≡ result.1 ∷ result.0 ∷ self.new.done }
        ensures tasks { self.new.tasks ≡ self.old.tasks }
    {
        let over = self.take();
        let left = self.take();
        (left, over)
    }

    // Takes the line that was put last.
    fn take(&mut self) -> Listed
        requires { 1 ≤ length self.old.done }
        ensures done { self.old.done ≡ result ∷ self.new.done }
        ensures tasks { self.new.tasks ≡ self.old.tasks }
    {
        match self.done.pop() {
            Some(line) => line,
            None => unreachable!(),
        }
    }
}
