// The answers of check, start and continue as numbers, for crate stal: a code, and the values that document 01 gives for it.
// Promised: the numbers that specs/Numbers.antt has for each case, also where they are put at places of the caller's; the answer can be
// read off them (specs/Back.antt). Nothing is asked.
#![tactic(auto)]

ghost use Rattle.std.specs.Prelude.{◌≡◌};
ghost use Rattle.valid_verdict.specs.Answers.{verdict_is};
ghost use Rattle.exec_outcome.specs.Answers.{answer_is};
ghost use Rattle.stal_numbers.specs.Numbers.{verdict, verdict_of, reply, reply_of};

use exec_machine::Place;
use exec_outcome::Answer;

// Check's answer in numbers: 0, blocks and instructions, or a fault's number, its line and the first item that does not fit, 100 for none.
#[derive(Clone, Copy)]
pub struct Verdict {
    pub code: usize,
    pub first: usize,
    pub second: usize,
}

// A run's answer in numbers: a fault's number and line, or a stop and the steps, a halt with r1's kind and number.
#[derive(Clone, Copy)]
pub struct Reply {
    pub code: usize,
    pub first: usize,
    pub kind: u8,
    pub number: u32,
}

// No halt: no word.
fn stopped(code: usize, first: usize) -> Reply
    ensures { result ≡ reply code first 0 0 }
{
    Reply {
        code,
        first,
        kind: 0,
        number: 0,
    }
}

// The numbers of an answer to start or continue.
impl From<Answer> for Reply {
    ghost from_gives = { λ a r. r ≡ reply_of (answer_is a) };

    #[tactic(auto, unfolding(crate::specs::Numbers::reply_of))]
    fn from(a: Answer) -> Reply {
        match a {
            Answer::Refused(number, line) => stopped(number, line),
            Answer::Halted(steps, kind, number) => Reply {
                code: 0,
                first: steps,
                kind,
                number,
            },
            Answer::Paused(steps) => stopped(17, steps),
            Answer::StackFull(steps) => stopped(18, steps),
            Answer::HeapFull(steps) => stopped(19, steps),
            Answer::Stuck(steps) => stopped(20, steps),
        }
    }
}

// The numbers of an answer to check.
impl From<valid_verdict::Answer> for Verdict {
    ghost from_gives = { λ a v. v ≡ verdict_of (verdict_is a) };

    #[tactic(auto, unfolding(crate::specs::Numbers::verdict_of, crate::specs::Numbers::item_number, valid_verdict::specs::Answers::verdict_is))]
    fn from(a: valid_verdict::Answer) -> Verdict {
        match a {
            valid_verdict::Answer::Accepted(blocks, instrs) => Verdict {
                code: 0,
                first: blocks,
                second: instrs,
            },
            valid_verdict::Answer::Refused(number, line) => Verdict {
                code: number,
                first: line,
                second: 100,
            },
            valid_verdict::Answer::Unfit(line, item) => Verdict {
                code: 10,
                first: line,
                second: item,
            },
        }
    }
}

// ---- at places of the caller's
// Check's answer: its code is returned.
pub fn put_verdict(a: valid_verdict::Answer, first: &mut usize, second: &mut usize) -> usize
    ensures { verdict result first.new second.new ≡ verdict_of (verdict_is a) }
{
    let v = Verdict::from(a);
    *first = v.first;
    *second = v.second;
    v.code
}

// The answer to start or continue: its code is returned.
pub fn put_reply(a: Answer, first: &mut usize, kind: &mut u8, number: &mut u32) -> usize
    ensures { reply result first.new kind.new number.new ≡ reply_of (answer_is a) }
{
    let r = Reply::from(a);
    *first = r.first;
    *kind = r.kind;
    *number = r.number;
    r.code
}

// Where the run is.
pub fn put_place(at: Place, depth: &mut u32, used: &mut usize, position: &mut usize)
    ensures { (depth.new ≡ at.depth) × (used.new ≡ at.used) × (position.new ≡ at.position) }
{
    *depth = at.depth;
    *used = at.used;
    *position = at.position;
}
