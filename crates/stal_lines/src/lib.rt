// What the library tells of a day's report and of written lines, as numbers, and the answers that its numbers stand for; for crate stal.
// Promised: a report's code, line and seven figures (specs/Day.antt), a written line's code and length (specs/Line.antt), and the answer
// that crate stal_numbers reads off the numbers of a call. Nothing is asked.
#![tactic(auto)]

ghost use Rattle.std.specs.Prelude.{◌≡◌, List, ℕ};
ghost use Rattle.exec_outcome.specs.Answers.{answer_is};
ghost use Rattle.valid_verdict.specs.Answers.{verdict_is};
ghost use Rattle.print_write.specs.Answers.{written_is};
ghost use Rattle.report_day.specs.Answers.{figures_is, report_is};
ghost use Rattle.stal_numbers.specs.Numbers.{verdict, reply};
ghost use Rattle.stal_numbers.specs.Back.{verdict_back, answer_back};
ghost use Rattle.stal_lines.specs.Day.{seven, bits_of, figures_read, TellsDay};
ghost use Rattle.stal_lines.specs.Line.{told, told_of};

use exec_outcome::Answer;
use report_day::{Day, Figures, Refused};

// The answer to start or continue that has these numbers.
#[tactic(auto, unfolding(stal_numbers::specs::Back::answer_back))]
pub fn answer_of(code: usize, first: usize, kind: u8, number: u32) -> Answer
    ensures { answer_is result ≡ answer_back (reply code first kind number) }
{
    match code {
        0 => Answer::Halted(first, kind, number),
        17 => Answer::Paused(first),
        18 => Answer::StackFull(first),
        19 => Answer::HeapFull(first),
        20 => Answer::Stuck(first),
        _ => Answer::Refused(code, first),
    }
}

// The answer to check that has these numbers.
#[tactic(auto, unfolding(stal_numbers::specs::Back::verdict_back, valid_verdict::specs::Answers::verdict_is, valid_context::specs::premises::Answers::item_said))]
pub fn verdict_by(code: usize, first: usize, second: usize) -> valid_verdict::Answer
    ensures { verdict_is result ≡ verdict_back (verdict code first second) }
{
    match code {
        0 => valid_verdict::Answer::Accepted(first, second),
        10 if second != 100 => valid_verdict::Answer::Unfit(first, second),
        _ => valid_verdict::Answer::Refused(code, first),
    }
}

// The seven numbers of a day's figures.
fn numbers_of(f: Figures) -> [u64; 7]
    ensures { (result ≡ seven (bits_of f)) × (figures_read (bits_of f) ≡ figures_is f) }
{
    [
        f.count,
        f.others,
        f.total.cast_unsigned(),
        f.smallest.cast_unsigned(),
        f.largest.cast_unsigned(),
        f.quotient.cast_unsigned(),
        f.remainder,
    ]
}

// A day's report: 0 and the seven figures, 17 and the line of a refusal, or 16 where fewer than seven entries are lent.
pub fn put_figures(a: Result<Day, Refused>, figures: &mut [u64], line: &mut usize) -> usize
    ensures { TellsDay figures.old (report_is a) result line.new figures.new }
{
    *line = 0;
    if figures.len() < 7 {
        return 16;
    }
    match a {
        Err(refused) => {
            *line = refused.line;
            17
        }
        Ok(Day::NoInteger(others)) => {
            figures[..7].copy_from_slice(&[0, others, 0, 0, 0, 0, 0]);
            0
        }
        Ok(Day::Tallied(f)) => {
            figures[..7].copy_from_slice(&numbers_of(f));
            0
        }
    }
}

// A written line: 0 and its length, or 16 and 0 where the memory was too short.
#[tactic(auto, unfolding(crate::specs::Line::count_of))]
pub fn put_written(w: Option<usize>, n: &mut usize) -> usize
    ensures { (m : List ℕ) → told result n.new m ≡ told_of (written_is w m) }
{
    match w {
        Some(count) => {
            *n = count;
            0
        }
        None => {
            *n = 0;
            16
        }
    }
}
