//! Calls of a gathering, as a script makes them.

use anyhow::{Result, bail};
use dl_gather::{Gathering, Next, Policy};
use std::alloc::Global;

/// A line of text for each case, which is a line too: a policy, the number of tasks, and calls, each a letter with its
/// numbers after it. For each call you get whether it lets others go on, what each task does next, and how many send.
pub(crate) fn gathered(alloc: Global, cases: &str) -> Result<String> {
    let mut text = String::new(alloc);
    for case in cases.lines() {
        push_case(&mut text, alloc, case)?;
        text.push('\n')?;
    }
    Ok(text)
}

/// Appends what each call of a case answers.
fn push_case(text: &mut String, alloc: Global, case: &str) -> Result<()> {
    let words = case.split(' ').collect::<Vec<_>>(alloc)?;
    let [policy, tasks, calls @ ..] = words.as_slice() else {
        bail!("POLICY TASKS CALL..");
    };
    let tasks = tasks.parse::<u32>()?;
    let mut gathering = Gathering::new(alloc, policy_of(policy)?, tasks)?;
    for (place, call) in calls.iter().enumerate() {
        let wakes = called(&mut gathering, call.as_bytes())?;
        text.push_str(if place > 0 { " " } else { "" })?;
        text.push(if wakes { '+' } else { '-' })?;
        for task in 0..tasks {
            text.push(letter_of(gathering.next(task)))?;
        }
        text.push_str(format!(in alloc; "{}", gathering.sends())?.as_str())?;
    }
    Ok(())
}

fn policy_of(word: &str) -> Result<Policy> {
    match word {
        "eager" => Ok(Policy::Eager),
        "rounds" => Ok(Policy::Rounds),
        _ => bail!("no policy"),
    }
}

/// Makes a call, and answers whether it lets others go on.
fn called(gathering: &mut Gathering, call: &[u8]) -> Result<bool> {
    Ok(match call {
        [b'e', task] => gathering.enter(number(*task)),
        [b'a', task] => gathering.arrive(number(*task)),
        [b's', task, batches] => gathering.sent(number(*task), number(*batches)),
        [b'w', task] => gathering.wait_for(number(*task)),
        [b'd', task] => gathering.ended(number(*task)),
        [b'b'] => gathering.batch_ended(),
        [b'l', task] => gathering.leave(number(*task)),
        [b'x'] => {
            gathering.stop();
            true
        }
        _ => bail!("no call"),
    })
}

/// The number of a digit.
fn number(digit: u8) -> u32 {
    u32::from(digit.saturating_sub(b'0'))
}

/// The letter of what a task does next.
fn letter_of(next: Next) -> char {
    match next {
        Next::GoOn => 'g',
        Next::Sleep => 'z',
        Next::Send => 's',
    }
}
