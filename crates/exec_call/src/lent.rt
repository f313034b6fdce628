// A call, the start of a run or its continuation, with working memory from the caller, whatever it holds. Promised, on every input: the
// answer and the whole lent state, as `starting` and `continuing` of crate exec have them, if the working memory is long enough, and what
// it holds afterwards is free; else 16, line 0, before anything else is looked at, and nothing is changed. Nothing is asked.
// rk and rn are the registers' kinds and numbers, sk and sn the stack's, hk and hn the heap's; `place` says how much is in use.
ghost use Rattle.std.specs.Prelude.{◌≡◌, ℕ, List, length};
ghost use Rattle.exec_machine.specs.Step.{state_of};
ghost use Rattle.exec_outcome.specs.Answers.{outcome_is};
ghost use Rattle.image.specs.Enough.{enough, Left};
ghost use Rattle.exec_call.specs.Tries.{starts, given, CalledIn};

use crate::{Call, call_in};
use exec_machine::Place;
use exec_outcome::Outcome;
use faults::Fault;

// A call with working memory lent.
pub fn call(
    call: Call<'_>,
    text: &[u8],
    budget: usize,
    image: &mut [u16],
    numbers: &mut [u32],
    plan: &mut [u32],
    rk: &mut [u8],
    rn: &mut [u32],
    sk: &mut [u8],
    sn: &mut [u32],
    hk: &mut [u8],
    hn: &mut [u32],
    place: Place,
) -> Outcome
    ensures { CalledIn (enough (length image.old) (length numbers.old) (length plan.old)) (starts call.entry) text.now (given call.entry) budget (state_of rk.old rn.old sk.old sn.old hk.old hn.old place) (outcome_is result rk.new rn.new sk.new sn.new hk.new hn.new) × Left {A = List ℕ × List ℕ × List ℕ} (enough (length image.old) (length numbers.old) (length plan.old)) (image.old, numbers.old, plan.old) (image.new, numbers.new, plan.new) }
{
    if !image::lent::is_enough(image.len(), numbers.len(), plan.len()) {
        return exec_outcome::refuse_for(Fault::BadState, 0, place);
    }
    call_in(
        call, text, budget, image, numbers, plan, rk, rn, sk, sn, hk, hn, place,
    )
    .unwrap()
}
