// Starting and continuing a run, from a program's text, its samples' text and lent memory. Promised, on every input: the answer and the
// whole lent state, one equation with `starting` and one with `continuing` of crate exec. A refusal changes nothing that is lent.
// `start` and `resume` put their working memory on the stack: a text of at most 2,048 bytes is tried in a small image; one that does not
// fit it goes to the large one (module attempt of exec_call). Module lent has the same two with working memory from the caller.
// rk and rn are the registers' kinds and numbers, sk and sn the stack's, hk and hn the heap's; `place` says how much is in use.
#![tactic(auto)]

pub mod lent;

ghost use Rattle.std.specs.Prelude.{◌≡◌};
ghost use Rattle.exec.specs.Run.{starting, continuing};
ghost use Rattle.exec_machine.specs.Step.{state_of};
ghost use Rattle.exec_outcome.specs.Answers.{outcome_is};

use exec_call::Call;
use exec_machine::Place;
use exec_outcome::Outcome;

// Start: the program's faults, then 15, then 16, else at most `budget` steps from the first instruction.
pub fn start(
    text: &[u8],
    samples: &[u8],
    budget: usize,
    rk: &mut [u8],
    rn: &mut [u32],
    sk: &mut [u8],
    sn: &mut [u32],
    hk: &mut [u8],
    hn: &mut [u32],
    place: Place,
) -> Outcome
    ensures { outcome_is result rk.new rn.new sk.new sn.new hk.new hn.new ≡ starting text.now samples.now budget (state_of rk.old rn.old sk.old sn.old hk.old hn.old place) }
{
    exec_call::attempt::call(
        Call::Start(samples),
        text,
        budget,
        rk,
        rn,
        sk,
        sn,
        hk,
        hn,
        place,
    )
}

// Go on from the lent state: the program's faults, then 16, else at most `budget` steps. No samples are read.
pub fn resume(
    text: &[u8],
    budget: usize,
    rk: &mut [u8],
    rn: &mut [u32],
    sk: &mut [u8],
    sn: &mut [u32],
    hk: &mut [u8],
    hn: &mut [u32],
    place: Place,
) -> Outcome
    ensures { outcome_is result rk.new rn.new sk.new sn.new hk.new hn.new ≡ continuing text.now budget (state_of rk.old rn.old sk.old sn.old hk.old hn.old place) }
{
    exec_call::attempt::call(Call::Continue, text, budget, rk, rn, sk, sn, hk, hn, place)
}
