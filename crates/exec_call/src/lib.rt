// A call, the start of a run or its continuation, with working memory lent, whatever it holds: `call_in` reads the text into the image
// and, where nothing bars the program, runs it. Promised: whether the text fits the image, which every text does where it has room
// (`SpaceIn`); where it fits, the answer and the whole lent state, as `starting` and `continuing` of crate exec have them; where it does
// not, the lent state is as it was. Asked: `plan`, which is to hold the machine's own rows, eight entries longer than the instructions'
// section. Module attempt puts working memory on the stack, module lent takes it from the caller. rk and rn are the registers' kinds and
// numbers, sk and sn the stack's, hk and hn the heap's; `place` says how much is in use.
#![tactic(auto)]

pub mod attempt;
pub mod lent;

ghost use Rattle.std.specs.Prelude.{◌≡◌, List, ℕ, ◌≤◌, length, IsSome};
ghost use Rattle.text.specs.Samples.{samples_of};
ghost use Rattle.valid.specs.Program.{Program};
ghost use Rattle.exec.specs.Run.{bodies, wanted};
ghost use Rattle.image.specs.Sections.{Ordered};
ghost use Rattle.exec_machine.specs.Step.{state_of};
ghost use Rattle.exec_machine.specs.Represents.{Represents};
ghost use Rattle.load.specs.Loaded.{SpaceIn};
ghost use Rattle.exec_outcome.specs.Answers.{outcome_is};
ghost use Rattle.exec_launch.specs.Startable.{Launchable};
ghost use Rattle.exec_call.specs.Tries.{starts, given, tables_in, PlanFits, RanOn, Tries};

use exec_machine::Place;
use exec_outcome::Outcome;
use exec_ready::Ready;
use image::Places;
use text_decode::state::Unread;

// What is called for: a run's start, with its samples' text, or that it goes on.
#[derive(Clone, Copy)]
pub enum Call<'a> {
    Start(&'a [u8]),
    Continue,
}

// A run of the program that stands in the image.
fn run_in(
    call: Call<'_>,
    budget: usize,
    image: &[u16],
    numbers: &[u32],
    p: Places,
    r: Ready,
    plan: &mut [u32],
    rk: &mut [u8],
    rn: &mut [u32],
    sk: &mut [u8],
    sn: &mut [u32],
    hk: &mut [u8],
    hn: &mut [u32],
    place: Place,
) -> Outcome
    requires { Ordered p (length image.now) × (r.samples ≤ 16) × Launchable (tables_in p image.now numbers.now r) plan.old }
    ensures { (args : List ℕ) (P : Program) → Represents (tables_in p image.now numbers.now r) args (bodies P) → r.samples ≡ wanted P.blocks → RanOn (starts call.entry) P (samples_of (given call.entry)) budget (state_of rk.old rn.old sk.old sn.old hk.old hn.old place) (outcome_is result rk.new rn.new sk.new sn.new hk.new hn.new) }
{
    let blocks = p.blocks;
    let instrs = p.instrs;
    let parts = p.parts;
    let operands = p.operands;
    let args = p.args;
    match call {
        Call::Start(samples) => exec_launch::start_ready(
            samples,
            r.samples,
            &image[instrs..parts],
            &image[operands..args],
            numbers,
            &image[blocks..instrs],
            r.instrs,
            r.blocks,
            plan,
            rk,
            rn,
            sk,
            sn,
            hk,
            hn,
            place,
            budget,
        ),
        Call::Continue => exec_launch::resume_ready(
            &image[instrs..parts],
            &image[operands..args],
            numbers,
            &image[blocks..instrs],
            r.instrs,
            r.blocks,
            plan,
            rk,
            rn,
            sk,
            sn,
            hk,
            hn,
            place,
            budget,
        ),
    }
}

// A call, with working memory lent. No outcome if the text does not fit the image; the lent state is then as it was.
pub(crate) fn call_in(
    call: Call<'_>,
    text: &[u8],
    budget: usize,
    image: &mut [u16],
    numbers: &mut [u32],
    plan: &mut [u32],
    rk: &mut [u8],
    rn: &mut [u32],
    sk: &mut [u8],
    sn: &mut [u32],
    hk: &mut [u8],
    hn: &mut [u32],
    place: Place,
) -> Option<Outcome>
    requires { PlanFits (length image.old) (length plan.old) }
    ensures fits { SpaceIn image.old numbers.old → IsSome result }
    ensures answers { Tries (starts call.entry) text.now (given call.entry) budget result (λ o. outcome_is o rk.new rn.new sk.new sn.new hk.new hn.new) (state_of rk.new rn.new sk.new sn.new hk.new hn.new place) (state_of rk.old rn.old sk.old sn.old hk.old hn.old place) }
{
    let r = match exec_ready::make_ready(text, image, numbers) {
        Ok(r) => r,
        Err(Unread::Unfit) => return None,
        Err(Unread::Faulty(f)) => {
            return Some(exec_outcome::refuse_for(f.fault, f.line, place));
        }
    };
    let p = image::lay_out(image.len());
    Some(run_in(
        call, budget, image, numbers, p, r, plan, rk, rn, sk, sn, hk, hn, place,
    ))
}
