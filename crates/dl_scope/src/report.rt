//! What serving plans leaves.

ghost use Rattle.std.specs.Prelude.{◌≡◌, map};
ghost use Rattle.dl_scope.specs.Report.{report};

use dl_haxl::StepAnswer;
use dl_loader::History;
use dl_workers::Tally;
use std::marker::Model;

/// What [`serve`](crate::serve) leaves: the answers of the plans' terms, how many rounds of loads they took, the
/// history, which has every load, every end of a batch and every read, and the tally of the queue. The loader is closed
/// by then, and the type of a report doesn't name it.
///
/// # Examples
/// Prints what each request answers, from `crates/example_two_requests`:
///
/// ```rust
/// for (request, answers) in report.answers().iter().enumerate() {
///     for given in answers {
///         println!(rt; "{request} {:?}", given.answer)?;
///     }
/// }
/// ```
pub struct Report {
    answers: Vec<Vec<StepAnswer>>,
    rounds: Vec<u64>,
    history: History,
    tally: Tally,
}

impl Drop for Report {
    fn drop(self) {
        let Report {
            answers,
            rounds,
            history,
            tally: _,
        } = self;
        drop(answers);
        drop(rounds);
        drop(history);
    }
}

impl Model for Report {
    ghost use Rattle.std.specs.Prelude.{map};
    ghost use Rattle.dl_scope.specs.Report.{Report, report};
    ghost use Rattle.std.specs.Coded.{codes};
    ghost use Rattle.dl_history.specs.contracts.history.History as closed;
    ghost use Rattle.dl_haxl.specs.contracts.step_answers.StepAnswer as answer;

    ghost Value = { Report };

    ghost coded = { Prim.hlevel (codes, answer.the_row.coded, closed.the_row.coded) };

    ghost view = { λ r. report (map (λ a. a.items) r.answers.items) r.rounds.items r.history r.tally };
}

impl Report {
    pub(crate) fn of(
        answers: Vec<Vec<StepAnswer>>,
        rounds: Vec<u64>,
        history: History,
        tally: Tally,
    ) -> Report
        ensures { result ≡ report (map (λ a. a.items) answers.items) rounds.items history tally }
    {
        Report {
            answers,
            rounds,
            history,
            tally,
        }
    }

    /// For each plan, in order, the answers of its terms, each with its step.
    pub fn answers(&self) -> &[Vec<StepAnswer>]
        ensures { map (λ a. a.items) result.now ≡ self.now.answers }
    {
        self.answers.as_slice()
    }

    /// For each plan, in order, how many rounds of loads its terms took.
    pub fn rounds(&self) -> &[u64]
        ensures { result.now ≡ self.now.rounds }
    {
        self.rounds.as_slice()
    }

    /// The history of the loader. Plan n is its caller n, and the workers are the callers after the plans. The call
    /// takes no memory.
    pub fn history(&self) -> &History
        ensures { result.now ≡ self.now.history }
    {
        &self.history
    }

    /// How many jobs the plans sent, how many the workers took, and how many nobody took.
    pub fn tally(&self) -> Tally
        ensures { result ≡ self.now.tally }
    {
        self.tally
    }
}
