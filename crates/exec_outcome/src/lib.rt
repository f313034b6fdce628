// How a start or a continuation answers: the answer and the outcome (an answer with the place in the lent state), a refusal, a run's end
// as an outcome, and the budget that a run is given.
// Promised: each is what crate exec says of it. Nothing is asked.
// rk and rn are the registers' kinds and numbers.
#![tactic(auto)]

ghost use Rattle.std.specs.Prelude.{◌≡◌, List, ℕ};
ghost use Rattle.exec.specs.Machine.{at};
ghost use Rattle.exec.specs.Run.{stopped, answer_of, outcome, budget};
ghost use Rattle.faults.specs.Numbers.{number};
ghost use Rattle.exec_words.specs.memory.Lent.{lent};
ghost use Rattle.exec_machine.specs.Step.{stop_is};
ghost use Rattle.exec_run.specs.Runs.{ran_is};
ghost use Rattle.exec_outcome.specs.Answers.{answer_is, outcome_is, refused_at};

use exec_machine::{Place, Stop};
use exec_run::Ran;
use faults::Fault;

// Kept: one enum with a refusal's number, since a caller in C hands back any number as an answer (`answer_of` of stal_lines).
// A refusal with its number and line; or how a run stopped, with the steps made, a halt with r1's kind and number too.
#[derive(Clone, Copy)]
pub enum Answer {
    Refused(usize, usize),
    Halted(usize, u8, u32),
    Paused(usize),
    StackFull(usize),
    HeapFull(usize),
    Stuck(usize),
}

// An answer, and how much of the lent state is in use then.
#[derive(Clone, Copy)]
pub struct Outcome {
    pub answer: Answer,
    pub place: Place,
}

// A refusal: the place is kept.
pub fn refuse(number: usize, line: usize, kept: Place) -> Outcome
    ensures { result ≡ refused_at number line kept }
{
    Outcome {
        answer: Answer::Refused(number, line),
        place: kept,
    }
}

// A refusal for a fault.
pub fn refuse_for(fault: Fault, line: usize, kept: Place) -> Outcome
    ensures { result ≡ refused_at (number fault) line kept }
{
    refuse(fault.number(), line, kept)
}

fn answer_at(s: Stop, steps: usize, rk: &[u8], rn: &[u32]) -> Answer
    ensures { answer_is result ≡ answer_of (stopped (stop_is s)) steps (at (lent rk.now rn.now) 0) }
{
    match s {
        Stop::Halted => {
            let w = exec_words::memory::at(rk, rn, 0);
            Answer::Halted(steps, w.kind, w.number)
        }
        Stop::StackFull => Answer::StackFull(steps),
        Stop::HeapFull => Answer::HeapFull(steps),
        Stop::Stuck => Answer::Stuck(steps),
    }
}

// A run's end as an outcome.
pub fn finish(ran: Ran, rk: &[u8], rn: &[u32]) -> Outcome
    ensures { (sk sn hk hn : List ℕ) → outcome_is result rk.now rn.now sk sn hk hn ≡ outcome (ran_is ran rk.now rn.now sk sn hk hn) }
{
    let answer = match ran.stop {
        None => Answer::Paused(ran.steps),
        Some(s) => answer_at(s, ran.steps, rk, rn),
    };
    Outcome {
        answer,
        place: ran.place,
    }
}

// "A budget above 1,000,000 is taken as 1,000,000"
#[tactic(auto, unfolding(exec::specs::Run::budget))]
pub fn capped(m: usize) -> usize
    ensures { result ≡ budget m }
{
    m.min(1000000)
}
