//! What the tasks of a gathering do.

ghost use Rattle.std.specs.Prelude.{◌≡◌, ℕ, ◌+◌, ◌<◌, ◌^◌, Bool, false, IfOk, List, map, length, replicate, vec_len, nat_lt};
ghost use Rattle.dl_gather.specs.Gathering.{change, each, gathering, is_held, put, ready, arrived, running, sending, settled, stop, waiting, waits_as, with_out};
ghost use Rattle.dl_gather.specs.Tasks.{task_at, turned};

use crate::numbers::Numbers;
use crate::task::{Policy, Task, Turn};
use std::alloc::{AllocError, Global};
use std::marker::Model;

/// What each task does, how many do what, and how many batches are out.
#[derive(Drop)]
pub(crate) struct Tasks {
    policy: Policy,
    all: Vec<Task>,
    numbers: Numbers,
    out: u64,
}

impl Model for Tasks {
    ghost use Rattle.std.specs.Prelude.{◌≡◌};
    ghost use Rattle.dl_gather.specs.Gathering.{Gathering, gathering};
    ghost use Rattle.dl_gather.specs.Tasks.{numbers_of};

    ghost Value = { Gathering };

    ghost view = { λ t. gathering t.policy t.all.items t.out };

    ghost invariant = { λ t. t.numbers ≡ numbers_of t.all.items };
}

impl Tasks {
    /// This many tasks, all of them outside.
    ///
    /// # Errors
    /// `AllocError` if memory runs out.
    pub(crate) fn new(alloc: Global, policy: Policy, tasks: u32) -> Result<Tasks, AllocError>
        ensures { IfOk result (λ t. t ≡ gathering policy (replicate tasks Task.Outside) 0) }
    {
        let mut all = Vec::new(alloc);
        all.resize(tasks as usize, Task::Outside)?;
        Ok(Tasks {
            policy,
            all,
            numbers: Numbers::none(),
            out: 0,
        })
    }

    /// What a task does.
    pub(crate) fn task(&self, number: u32) -> Task
        ensures { result ≡ task_at self.now.tasks number }
    {
        match self.all.get(number as usize) {
            Some(task) => *task,
            None => Task::Outside,
        }
    }

    /// How many tasks send.
    pub(crate) fn sends(&self) -> usize
        ensures { result ≡ sending self.now }
    {
        self.numbers.sends
    }

    /// How many batches are out.
    pub(crate) fn out(&self) -> u64
        ensures { result ≡ self.now.out }
    {
        self.out
    }

    /// What a task does that waits: if no batch is out, nobody has sent its key, and it is outside.
    pub(crate) fn waiting(&self) -> Task
        ensures { result ≡ waits_as self.now }
    {
        if self.out > 0 {
            Task::Waits
        } else {
            Task::Outside
        }
    }

    /// This many batches are out.
    pub(crate) fn set_out(&mut self, out: u64)
        ensures { self.new ≡ with_out out self.old }
    {
        self.out = out;
    }

    /// A task does this from now on, and then whoever's turn it is goes on. Answers whether it let somebody go on.
    pub(crate) fn change(&mut self, number: u32, to: Task) -> bool
        ensures changed { self.new ≡ change number to self.old }
        ensures nobody { result ≡ false → self.new ≡ put number to self.old }
    {
        self.put(number, to);
        self.settle()
    }

    /// A task does this from now on.
    pub(crate) fn put(&mut self, number: u32, to: Task)
        ensures { self.new ≡ put number to self.old }
    {
        let from = self.task(number);
        if let Some(task) = self.all.get_mut(number as usize) {
            *task = to;
            self.numbers = self.numbers.without(from).with(to);
        }
    }

    /// Whoever's turn it is goes on. Answers whether it let somebody go on.
    pub(crate) fn settle(&mut self) -> bool
        ensures settled { self.new ≡ settled self.old }
        ensures nobody { result ≡ false → self.new ≡ self.old }
    {
        let Numbers {
            runs,
            ready,
            arrived,
            sends,
            ..
        } = self.numbers;
        if sends > 0 {
            return false;
        }
        if ready > 0 {
            self.turn(Turn::Run);
            return true;
        }
        if runs > 0 {
            return false;
        }
        if self.is_held() {
            return false;
        }
        if arrived == 0 {
            return false;
        }
        self.turn(Turn::Send);
        true
    }

    /// Whether those that have arrived must wait for batches that are out.
    fn is_held(&self) -> bool
        ensures { result ≡ is_held self.now }
    {
        match self.policy {
            Policy::Eager => false,
            Policy::Rounds => self.out > 0,
        }
    }

    /// All tasks that the turn is for go on.
    fn turn(&mut self, turn: Turn)
        ensures { self.new ≡ each turn self.old }
    {
        turn_each(self.all.as_mut_slice(), turn);
        self.numbers = self.numbers.turned(turn);
    }

    /// Those that wait are ready, and whoever's turn it is goes on. Answers whether it let somebody go on.
    pub(crate) fn wake(&mut self) -> bool
        ensures woken { self.new ≡ settled (each Turn.Wake self.old) }
        ensures nobody { result ≡ false → self.new ≡ self.old }
    {
        if self.numbers.waits == 0 {
            return self.settle();
        }
        self.turn(Turn::Wake);
        let _ = self.settle();
        true
    }

    /// All tasks are outside.
    pub(crate) fn stop(&mut self)
        ensures { self.new ≡ stop self.old }
    {
        self.turn(Turn::Leave);
    }
}

/// All of these tasks that the turn is for go on.
fn turn_each(tasks: &mut [Task], turn: Turn)
    ensures { tasks.new ≡ map (turned turn) tasks.old }
{
    for task in tasks.iter_mut() {
        *task = task.turned(turn);
    }
}
