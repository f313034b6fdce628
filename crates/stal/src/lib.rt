// The library that firmware links (out/libstal.a, by `rt lib`): check, start and continue over numbers and lent bytes and words, under C names;
// module day has a day's report, and the lines that the programs print.
// Promised, on every input: the numbers and the whole lent state are those of check, `starting` and `continuing`; crate stal_numbers has
// the number and the values of each case. Nothing is asked. They put their working memory on the stack; module lent has the same three with
// working memory from the caller. rk and rn are the registers' kinds and numbers, sk and sn the stack's, hk and hn the heap's.
#![tactic(auto)]

pub mod day;
pub mod lent;

ghost use Rattle.std.specs.Prelude.{◌≡◌};
ghost use Rattle.valid.specs.Verdict.{check};
ghost use Rattle.exec.specs.Run.{starting, continuing};
ghost use Rattle.stal_numbers.specs.Numbers.{verdict, verdict_of, reply, call, call_of, state_in};

use exec_machine::Place;

// Check: 0, and the counts of blocks and instructions; or a fault's number, its line and the first item that does not fit (100: none).
#[unsafe(no_mangle)]
pub extern "C" fn stal_check(text: &[u8], first: &mut usize, second: &mut usize) -> usize
    ensures { verdict result first.new second.new ≡ verdict_of (check text.now) }
{
    stal_numbers::put_verdict(checker::check(text), first, second)
}

// Start a program on samples, with at most `budget` steps.
#[unsafe(no_mangle)]
pub extern "C" fn stal_start(
    text: &[u8],
    samples: &[u8],
    budget: usize,
    rk: &mut [u8],
    rn: &mut [u32],
    sk: &mut [u8],
    sn: &mut [u32],
    hk: &mut [u8],
    hn: &mut [u32],
    depth: &mut u32,
    used: &mut usize,
    position: &mut usize,
    first: &mut usize,
    kind: &mut u8,
    number: &mut u32,
) -> usize
    ensures { call (reply result first.new kind.new number.new) (state_in rk.new rn.new sk.new sn.new hk.new hn.new depth.new used.new position.new) ≡ call_of (starting text.now samples.now budget (state_in rk.old rn.old sk.old sn.old hk.old hn.old depth.old used.old position.old)) }
{
    let from = Place {
        depth: *depth,
        used: *used,
        position: *position,
    };
    let out = execute::start(text, samples, budget, rk, rn, sk, sn, hk, hn, from);
    stal_numbers::put_place(out.place, depth, used, position);
    let answer = out.answer;
    stal_numbers::put_reply(answer, first, kind, number)
}

// Continue a program from the lent state, with at most `budget` steps.
#[unsafe(no_mangle)]
pub extern "C" fn stal_continue(
    text: &[u8],
    budget: usize,
    rk: &mut [u8],
    rn: &mut [u32],
    sk: &mut [u8],
    sn: &mut [u32],
    hk: &mut [u8],
    hn: &mut [u32],
    depth: &mut u32,
    used: &mut usize,
    position: &mut usize,
    first: &mut usize,
    kind: &mut u8,
    number: &mut u32,
) -> usize
    ensures { call (reply result first.new kind.new number.new) (state_in rk.new rn.new sk.new sn.new hk.new hn.new depth.new used.new position.new) ≡ call_of (continuing text.now budget (state_in rk.old rn.old sk.old sn.old hk.old hn.old depth.old used.old position.old)) }
{
    let from = Place {
        depth: *depth,
        used: *used,
        position: *position,
    };
    let out = execute::resume(text, budget, rk, rn, sk, sn, hk, hn, from);
    stal_numbers::put_place(out.place, depth, used, position);
    let answer = out.answer;
    stal_numbers::put_reply(answer, first, kind, number)
}
