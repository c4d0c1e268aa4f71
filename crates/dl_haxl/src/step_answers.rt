//! What the steps of a plan answer.

use dl_terms::Answer;

/// What one step answers, if it evaluates a term.
#[derive(Drop)]
pub struct StepAnswer {
    /// The step's place in its plan, from 0.
    pub step: usize,
    /// What its term gives.
    pub answer: Answer,
}

/// What the steps of a plan answer.
#[derive(Drop)]
pub struct StepAnswers {
    /// The answers of its terms, in the order of its steps.
    pub answers: Vec<StepAnswer>,
    /// How many rounds of loads its terms took, in all.
    pub rounds: u64,
}
