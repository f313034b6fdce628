// A call, the start of a run or its continuation, with working memory on the stack: small for a text of at most 2,048 bytes that fits it,
// for any other large (some 400 KB). Promised: the answer and the whole lent state, as `starting` and `continuing` of crate exec have them.
// Nothing is asked. rk and rn are the registers' kinds and numbers, sk and sn the stack's, hk and hn the heap's; `place` says how much is
// in use.
ghost use Rattle.std.specs.Prelude.{◌≤◌, IsSome};
ghost use Rattle.exec_machine.specs.Step.{state_of};
ghost use Rattle.exec_outcome.specs.Answers.{outcome_is};
ghost use Rattle.exec_call.specs.Tries.{starts, given, PlanFits, Called, Tries};

use crate::{Call, call_in};
use exec_machine::Place;
use exec_outcome::Outcome;

// With an image, numbers and a plan of these lengths on the stack. No outcome if the text does not fit the image; the lent state is then as
// it was. It is not to become a part of `call`, so that a call for a small text does not take the stack of the large image.
#[inline(never)]
fn call_sized<const IMAGE: usize, const NUMBERS: usize, const PLAN: usize>(
    call: Call<'_>,
    text: &[u8],
    budget: usize,
    rk: &mut [u8],
    rn: &mut [u32],
    sk: &mut [u8],
    sn: &mut [u32],
    hk: &mut [u8],
    hn: &mut [u32],
    place: Place,
) -> Option<Outcome>
    requires small { (IMAGE ≤ 150900) × (NUMBERS ≤ 16400) × (PLAN ≤ 8208) }
    requires plan_fits { PlanFits IMAGE PLAN }
    ensures fits { 150900 ≤ IMAGE → 16400 ≤ NUMBERS → IsSome result }
    ensures answers { Tries (starts call.entry) text.now (given call.entry) budget result (λ o. outcome_is o rk.new rn.new sk.new sn.new hk.new hn.new) (state_of rk.new rn.new sk.new sn.new hk.new hn.new place) (state_of rk.old rn.old sk.old sn.old hk.old hn.old place) }
{
    let mut image = [0u16; IMAGE];
    let mut numbers = [0u32; NUMBERS];
    let mut plan = [0u32; PLAN];
    call_in(
        call,
        text,
        budget,
        &mut image,
        &mut numbers,
        &mut plan,
        rk,
        rn,
        sk,
        sn,
        hk,
        hn,
        place,
    )
}

// A call with the working memory that its text fits.
pub fn call(
    call: Call<'_>,
    text: &[u8],
    budget: usize,
    rk: &mut [u8],
    rn: &mut [u32],
    sk: &mut [u8],
    sn: &mut [u32],
    hk: &mut [u8],
    hn: &mut [u32],
    place: Place,
) -> Outcome
    ensures { Called (starts call.entry) text.now (given call.entry) budget (state_of rk.old rn.old sk.old sn.old hk.old hn.old place) (outcome_is result rk.new rn.new sk.new sn.new hk.new hn.new) }
{
    if text.len() <= 2048
        && let Some(out) = call_sized::<4423, 96, 712>(
            call, text, budget, rk, rn, sk, sn, hk, hn, place,
        )
    {
        return out;
    }
    call_sized::<150900, 16400, 8208>(call, text, budget, rk, rn, sk, sn, hk, hn, place).unwrap()
}
