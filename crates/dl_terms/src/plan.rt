//! Plans: what a request does, step by step.

ghost use Rattle.std.specs.Prelude.{◌≡◌};

use crate::term::Term;
use dl_values::{FetchKey, Outcome};

/// The most plans that you can serve at once.
pub const MOST_PLANS: usize = 16;

/// One step of a plan.
#[derive(Debug, Drop)]
pub enum Step {
    /// Gives a key that isn't held a cell with this outcome (DataLoader: `prime`).
    Prime(FetchKey, Outcome),
    /// Forgets a key (DataLoader: `clear`).
    Clear(FetchKey),
    /// Forgets all keys (DataLoader: `clearAll`).
    ClearAll,
    /// Evaluates a term (Haxl), which gives an answer.
    Eval(Term),
}

/// What one request does: its steps, in order.
#[derive(Debug)]
pub struct Plan {
    /// The steps.
    pub steps: Vec<Step>,
}

impl Drop for Plan {
    fn drop(self) {
        let Plan { steps } = self;
        drop(steps);
    }
}

impl Plan {
    /// The steps, moved out of the plan.
    pub fn into_steps(self) -> Vec<Step>
        ensures { result ≡ self.steps }
    {
        let Plan { steps } = self;
        steps
    }
}
