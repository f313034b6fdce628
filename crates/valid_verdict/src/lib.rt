// What check answers, and the answer by what pass three found.
// Promised: where passes one and two refuse nothing, an answer that is the verdict of crate valid (specs/Answers.antt: `verdict_is`), given
// a finding that is pass three's refusal and the counts of blocks and instructions. Nothing is asked.
#![tactic(auto)]

pub mod finding;

ghost use Rattle.std.specs.Prelude.{◌≡◌, List, ℕ, length};
ghost use Rattle.std.proofs.Math.Option.{none};
ghost use Rattle.valid.specs.Program.{program_of};
ghost use Rattle.valid.specs.Verdict.{instr_count, check};
ghost use Rattle.valid_verdict.specs.finding.Found.{refusal_said, refusal_numbered};
ghost use Rattle.valid_verdict.specs.Answers.{verdict_is, low, third};

use crate::finding::{Finding, NumberedFinding};

// Kept: one enum with a refusal's number, since a caller in C hands back any number as an answer (`verdict_by` of stal_lines).
// Accepted with the counts of blocks and instructions; refused with number and line; refused with 10 at a jump or branch, with the line
// and the first item that does not fit (0 for sp, 1 to 8 for a register, 99 for the resulting row).
#[derive(Clone, Copy)]
pub enum Answer {
    Accepted(usize, usize),
    Refused(usize, usize),
    Unfit(usize, usize),
}

// The answer by what pass three found, said in numbers. Kept beside `answer_for`, which the checker calls: it takes any numbers.
pub fn answer_by(f: NumberedFinding, nb: usize, ni: usize) -> Answer
    ensures { (text : List ℕ) → none ≡ low text → refusal_numbered f ≡ third text → (f.number ≡ 0 → (nb ≡ length (program_of text).blocks) × (ni ≡ instr_count (program_of text).blocks)) → verdict_is result ≡ check text }
{
    if f.number == 0 {
        return Answer::Accepted(nb, ni);
    }
    if f.item == 100 {
        return Answer::Refused(f.number, f.line);
    }
    Answer::Unfit(f.line, f.item)
}

// The answer by what pass three found, as it is found.
pub fn answer_for(found: Result<(), Finding>, nb: usize, ni: usize) -> Answer
    ensures { (text : List ℕ) → none ≡ low text → refusal_said found ≡ third text → (refusal_said found ≡ none → (nb ≡ length (program_of text).blocks) × (ni ≡ instr_count (program_of text).blocks)) → verdict_is result ≡ check text }
{
    match found {
        Ok(_) => Answer::Accepted(nb, ni),
        Err(f) => match f.item {
            Some(item) => Answer::Unfit(f.line, item),
            None => Answer::Refused(f.fault.number(), f.line),
        },
    }
}
