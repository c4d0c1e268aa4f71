//! A run of a term that a test polls by hand.

ghost use Rattle.dl_desk.specs.Service.{Answers};

use crate::player::{Scene, Turn};
use crate::stage::Stage;
use crate::{answer_text, assert_is, ids_text, made};
use dl_desk::FetchKey;
use dl_haxl::{PollFault, TermRun};
use dl_loader::{LoaderName, Pass, end_jobs};
use dl_source::Source;
use dl_terms::Answer;
use futures::task::Poll;
use futures::test::MockTask;
use std::alloc::AllocGlobal;
use std::io::Eprint;
use std::process::Abort;
use std::random::RandomSource;
use std::sync::Wait;

impl<'l, L: LoaderName, S: Source, R: Abort + AllocGlobal + Eprint + RandomSource + Wait> Scene<
    'l,
    L,
    S,
    R,
> {
    /// Polls a run of a turn's term, until its answer or until a poll runs out of memory.
    pub(crate) fn poll_run(&self, passes: &mut Vec<Pass<L>>, turn: &Turn<'_>)
        requires { Answers (S.answer self.now.source.now) L.service }
    {
        let stage = self.stage;
        let task = MockTask::new(stage.rt).expect(stage.rt, "no task");
        let mut run = self.run_of(turn.term);
        let pass = passes.last_mut().expect(stage.rt, "no pass");
        let _ = self.poll_to_the_end(pass, &task, &mut run, turn.answer);
    }
}

impl<'l, L: LoaderName, S: Source, R: Abort + Eprint + Wait> Scene<'l, L, S, R> {
    /// A run of the term of a text.
    fn run_of(&self, text: &str) -> TermRun<'l, L> {
        let stage = self.stage;
        let (alloc, hashing) = (stage.alloc, stage.hashing);
        let term = stage.term(text);
        let run = made!(
            stage,
            "TermRun::new",
            Err(_),
            TermRun::new(alloc, hashing, term),
            TermRun::new(alloc, hashing, stage.term(text))
        );
        run.expect(stage.rt, "no run")
    }

    /// Polls a run that loads the first two users, and then gives this answer. `None` if a poll runs out of memory.
    fn poll_to_the_end(
        &self,
        pass: &mut Pass<L>,
        task: &MockTask,
        run: &mut TermRun<'l, L>,
        answer: &str,
    ) -> Option<()>
        requires { Answers (S.answer self.now.source.now) L.service }
    {
        let (rt, alloc) = (self.stage.rt, self.stage.alloc);
        self.poll(task, run, "pending")?;
        self.stage.assert_ids(run.wanted(), "u1 u2");
        let tickets = self.loader.load_many(rt, alloc, pass, run.wanted());
        run.supply(tickets.expect(rt, "no tickets"));
        self.poll(task, run, "pending")?;
        self.stage.assert_ids(run.wanted(), "");
        self.end_all(pass);
        self.poll(task, run, answer)?;
        self.poll(task, run, "Finished")
    }

    /// Sends what has not gone out, and ends it.
    fn end_all(&self, pass: &mut Pass<L>)
        requires { Answers (S.answer self.now.source.now) L.service }
    {
        let (rt, alloc, loader) = (self.stage.rt, self.stage.alloc, self.loader);
        let jobs = loader.dispatch(rt, alloc, pass).expect(rt, "no jobs");
        end_jobs(rt, alloc, loader, self.source, pass, jobs).expect(rt, "no ends");
    }

    /// A poll of a run gives this text. `None` if it runs out of memory, and then so does the next one.
    fn poll(&self, task: &MockTask, run: &mut TermRun<'l, L>, want: &str) -> Option<()> {
        let rt = self.stage.rt;
        self.stage.refusal.begin();
        let polled = task.poll(run);
        let was_refused = self.stage.refusal.end(rt, "TermRun::poll");
        let text = self.stage.polled(polled);
        if was_refused && text.as_str() == OUT_OF_MEMORY {
            let next = self.stage.polled(task.poll(run));
            assert_is!(rt, &next.as_str(), &OUT_OF_MEMORY, "the next poll");
            self.stage.assert_ids(run.wanted(), "");
            return None;
        }
        assert_is!(rt, &text.as_str(), &want, "a poll");
        Some(())
    }
}

/// The text of a poll that ran out of memory.
const OUT_OF_MEMORY: &str = "OutOfMemory";

impl<R: Abort + Eprint> Stage<'_, R> {
    /// The keys have these ids.
    fn assert_ids(&self, keys: &[FetchKey], want: &str) {
        let ids = ids_text(self.alloc, keys).expect(self.rt, "no memory");
        assert_is!(self.rt, &ids.as_str(), &want, "ids");
    }

    /// The text of what a poll of a run gave.
    fn polled(&self, polled: Poll<Result<Answer, PollFault>>) -> String {
        let text = match polled {
            Poll::Pending => String::from_str(self.alloc, "pending"),
            Poll::Ready(Ok(answer)) => answer_text(self.alloc, &answer),
            Poll::Ready(Err(fault)) => format!(in self.alloc; "{fault:?}"),
        };
        text.expect(self.rt, "no memory")
    }
}
