//! The rule by which tasks that run at once send.

ghost use Rattle.std.specs.Prelude.{◌≡◌, ◌<◌, ℕ, Bool, false, IfOk, replicate, length};
ghost use Rattle.dl_gather.specs.Gathering.{GoesOn, IsSettled, OnlyThis, SameTasks, arrive, batch_ended, ended, enter, gathering, leave, running, sending, sent, stop, wait_for};
ghost use Rattle.dl_gather.specs.Tasks.{is_inside, next_of, task_at};

use crate::task::{Next, Policy, Task};
use crate::tasks::Tasks;
use std::alloc::{AllocError, Global};
use std::marker::Model;

/// Tasks that load keys at the same time, and what each of them does. It decides when those that have arrived send what
/// they collected: once nobody runs.
///
/// A task has a number; one that a gathering has no place for is outside. Each call says what a task did, and answers
/// whether it let other tasks go on. If so, wake those that sleep and whose [`next`](Gathering::next) isn't
/// [`Sleep`](Next::Sleep). Then do what `next` says for your own. No call allocates, and but for those that let others
/// go on, each takes a few dozen instructions.
///
/// # Examples
/// What a caller of a loader does once it has made its loads, in `crates/dl_loader/src/loader/part.rt`:
///
/// ```rust
/// let mut rule = self.turns.lock(rt);
/// let lets_go = rule.arrive(pass.caller());
/// self.turns.note(&rule, &self.waiters, lets_go);
/// self.sleep(rt, pass, rule)
/// ```
#[derive(Drop)]
pub struct Gathering {
    tasks: Tasks,
}

impl Model for Gathering {
    ghost use Rattle.dl_gather.specs.Gathering.{Gathering, IsSettled};

    ghost Value = { Gathering };

    ghost view = { λ g. g.tasks };

    ghost invariant = { λ g. IsSettled g.tasks };
}

impl Gathering {
    /// A gathering with places for tasks of the numbers below `tasks`, all of them outside.
    ///
    /// # Errors
    /// `AllocError` if memory runs out.
    pub fn new(alloc: Global, policy: Policy, tasks: u32) -> Result<Gathering, AllocError>
        ensures { IfOk result (λ g. g ≡ gathering policy (replicate tasks Task.Outside) 0) }
    {
        let tasks = Tasks::new(alloc, policy, tasks)?;
        Ok(Gathering { tasks })
    }

    /// What the task does next. If it sleeps, somebody runs or sends, or a batch that went out has not ended. If it
    /// sends, nobody runs.
    pub fn next(&self, task: u32) -> Next
        ensures next { result ≡ next_of (task_at self.now.tasks task) }
        ensures nothing_stalls { result ≡ Next.Sleep → GoesOn self.now }
        ensures nobody_is_early { result ≡ Next.Send → running self.now ≡ 0 }
        ensures settled { IsSettled self.now }
    {
        self.tasks.task(task).next()
    }

    /// Whether the task takes part.
    pub fn is_inside(&self, task: u32) -> bool
        ensures { result ≡ is_inside (task_at self.now.tasks task) }
    {
        !matches!(self.tasks.task(task), Task::Outside)
    }

    /// How many tasks send.
    pub fn sends(&self) -> usize
        ensures { result ≡ sending self.now }
    {
        self.tasks.sends()
    }

    /// The task takes part from now on. It runs, unless others send: then it runs once they have.
    pub fn enter(&mut self, task: u32) -> bool
        ensures entered { self.new ≡ enter task self.old }
        ensures others { result ≡ false → OnlyThis task self.old self.new }
    {
        match self.tasks.task(task) {
            Task::Outside => self.tasks.change(task, Task::Ready),
            _ => false,
        }
    }

    /// The task has made its loads, and wants its keys sent. If it takes no part, or sends, nothing changes.
    pub fn arrive(&mut self, task: u32) -> bool
        ensures arrived { self.new ≡ arrive task self.old }
        ensures others { result ≡ false → OnlyThis task self.old self.new }
    {
        match self.tasks.task(task) {
            Task::Outside | Task::Sends => false,
            _ => self.tasks.change(task, Task::Arrived),
        }
    }

    /// The task has dispatched, and this many batches went out: none if the dispatch was rejected. Say so also for a task
    /// that takes no part.
    pub fn sent(&mut self, task: u32, batches: u32) -> bool
        ensures sent { self.new ≡ sent task batches self.old }
        ensures others { result ≡ false → OnlyThis task self.old self.new }
    {
        let out = self.tasks.out().saturating_add(u64::from(batches));
        self.tasks.set_out(out);
        match self.tasks.task(task) {
            Task::Sends => self.tasks.change(task, Task::Ready),
            _ => false,
        }
    }

    /// The task waits for a cell that has not ended. If no batch is out, nobody has sent its key: the task is outside
    /// from then on, until it enters again.
    pub fn wait_for(&mut self, task: u32) -> bool
        ensures waits { self.new ≡ wait_for task self.old }
        ensures others { result ≡ false → OnlyThis task self.old self.new }
    {
        match self.tasks.task(task) {
            Task::Outside => false,
            _ => {
                let to = self.tasks.waiting();
                self.tasks.change(task, to)
            }
        }
    }

    /// The cell for which the task waits has ended.
    pub fn ended(&mut self, task: u32) -> bool
        ensures ended { self.new ≡ ended task self.old }
        ensures others { result ≡ false → OnlyThis task self.old self.new }
    {
        match self.tasks.task(task) {
            Task::Waits => self.tasks.change(task, Task::Ready),
            _ => false,
        }
    }

    /// A batch has ended. If it was the last that was out, nobody waits any more.
    pub fn batch_ended(&mut self) -> bool
        ensures ended { self.new ≡ batch_ended self.old }
        ensures others { result ≡ false → SameTasks self.old self.new }
    {
        let out = self.tasks.out().saturating_sub(1);
        self.tasks.set_out(out);
        if out == 0 {
            return self.tasks.wake();
        }
        self.tasks.settle()
    }

    /// The task takes no part any more, and holds nobody up.
    pub fn leave(&mut self, task: u32) -> bool
        ensures left { self.new ≡ leave task self.old }
        ensures others { result ≡ false → OnlyThis task self.old self.new }
    {
        self.tasks.change(task, Task::Outside)
    }

    /// All tasks leave, and nobody sleeps.
    pub fn stop(&mut self)
        ensures { self.new ≡ stop self.old }
    {
        self.tasks.stop();
    }
}
