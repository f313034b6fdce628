// Starting and continuing a run with working memory from the caller, whatever it holds: an image of 161,694 entries, 16,400 numbers and a
// plan of 8,208 are enough for every text. Promised, on every input: the answer and the whole lent state, one equation with `starting` and
// one with `continuing` of crate exec, if the working memory is long enough, and what it holds afterwards is free; else 16, line 0, before
// anything else is looked at, and nothing is changed. rk and rn are the registers' kinds and numbers, sk and sn the stack's,
// hk and hn the heap's; `place` says how much is in use.
ghost use Rattle.std.specs.Prelude.{◌≡◌, ℕ, List, length};
ghost use Rattle.exec_machine.specs.Step.{state_of};
ghost use Rattle.exec_outcome.specs.Answers.{outcome_is};
ghost use Rattle.image.specs.Enough.{enough, Left};
ghost use Rattle.exec_call.specs.Tries.{starting_in, continuing_in};

use exec_call::Call;
use exec_machine::Place;
use exec_outcome::Outcome;

// Start: the working memory, then what execute::start answers.
pub fn start(
    text: &[u8],
    samples: &[u8],
    budget: usize,
    image: &mut [u16],
    numbers: &mut [u32],
    plan: &mut [u32],
    rk: &mut [u8],
    rn: &mut [u32],
    sk: &mut [u8],
    sn: &mut [u32],
    hk: &mut [u8],
    hn: &mut [u32],
    place: Place,
) -> Outcome
    ensures { (outcome_is result rk.new rn.new sk.new sn.new hk.new hn.new ≡ starting_in (enough (length image.old) (length numbers.old) (length plan.old)) text.now samples.now budget (state_of rk.old rn.old sk.old sn.old hk.old hn.old place)) × Left {A = List ℕ × List ℕ × List ℕ} (enough (length image.old) (length numbers.old) (length plan.old)) (image.old, numbers.old, plan.old) (image.new, numbers.new, plan.new) }
{
    exec_call::lent::call(
        Call::Start(samples),
        text,
        budget,
        image,
        numbers,
        plan,
        rk,
        rn,
        sk,
        sn,
        hk,
        hn,
        place,
    )
}

// Go on from the lent state: the working memory, then what execute::resume answers.
pub fn resume(
    text: &[u8],
    budget: usize,
    image: &mut [u16],
    numbers: &mut [u32],
    plan: &mut [u32],
    rk: &mut [u8],
    rn: &mut [u32],
    sk: &mut [u8],
    sn: &mut [u32],
    hk: &mut [u8],
    hn: &mut [u32],
    place: Place,
) -> Outcome
    ensures { (outcome_is result rk.new rn.new sk.new sn.new hk.new hn.new ≡ continuing_in (enough (length image.old) (length numbers.old) (length plan.old)) text.now budget (state_of rk.old rn.old sk.old sn.old hk.old hn.old place)) × Left {A = List ℕ × List ℕ × List ℕ} (enough (length image.old) (length numbers.old) (length plan.old)) (image.old, numbers.old, plan.old) (image.new, numbers.new, plan.new) }
{
    exec_call::lent::call(
        Call::Continue,
        text,
        budget,
        image,
        numbers,
        plan,
        rk,
        rn,
        sk,
        sn,
        hk,
        hn,
        place,
    )
}
