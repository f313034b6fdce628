// Runs of a program that stands in the tables: `start_ready` reads the samples and starts, `resume_ready` looks at the lent state and
// goes on. Promised: the answer and the whole lent state, as `start_on` and `continue_unless` of crate exec have them, for each program
// that the tables represent. A refusal changes nothing of the state that is lent. Asked: tables that fit the machine, of a text that
// nothing bars from starting (`Unbarred`), and `plan`, which is to hold the machine's own rows, long enough for one more than there are
// instructions.
// rk and rn are the registers' kinds and numbers, sk and sn the stack's, hk and hn the heap's.
#![tactic(auto)]

ghost use Rattle.std.specs.Prelude.{◌≡◌, List, ℕ, ◌≤◌};
ghost use Rattle.std.proofs.Math.Option.{none};
ghost use Rattle.text.specs.Samples.{samples_of};
ghost use Rattle.valid.specs.Program.{Program};
ghost use Rattle.exec.specs.Machine.{Bodies};
ghost use Rattle.exec.specs.Run.{outcome, run, budget, bodies, wanted, start_on, continue_unless};
ghost use Rattle.exec_machine.specs.Step.{tables, state_of};
ghost use Rattle.exec_machine.specs.Represents.{Represents};
ghost use Rattle.exec_step.specs.moved.Stepped.{Words};
ghost use Rattle.exec_run.specs.Runs.{Safe, Roomy, PlaceIn};
ghost use Rattle.exec_outcome.specs.Answers.{outcome_is};
ghost use Rattle.exec_launch.specs.Startable.{Launchable};

use exec_machine::Place;
use exec_outcome::{Outcome, capped, finish, refuse_for};
use faults::Fault;

// Run from the place p.
fn run_from(
    instrs: &[u16],
    operands: &[u16],
    bases: &[u32],
    blocks: &[u16],
    count: usize,
    labels: usize,
    plan: &mut [u32],
    rk: &mut [u8],
    rn: &mut [u32],
    sk: &mut [u8],
    sn: &mut [u32],
    hk: &mut [u8],
    hn: &mut [u32],
    p: Place,
    m: usize,
) -> Outcome
    requires { Roomy (tables instrs.now operands.now bases.now blocks.now count labels) plan.old × Words rk.old rn.old sk.old sn.old hk.old hn.old × PlaceIn p count × Safe (tables instrs.now operands.now bases.now blocks.now count labels) (state_of rk.old rn.old sk.old sn.old hk.old hn.old p) }
    ensures { (args : List ℕ) (P : Bodies) → Represents (tables instrs.now operands.now bases.now blocks.now count labels) args P → outcome_is result rk.new rn.new sk.new sn.new hk.new hn.new ≡ outcome (run P (budget m) (state_of rk.old rn.old sk.old sn.old hk.old hn.old p)) }
{
    let ran = exec_run::run(
        instrs,
        operands,
        bases,
        blocks,
        count,
        labels,
        plan,
        rk,
        rn,
        sk,
        sn,
        hk,
        hn,
        p,
        capped(m),
    );
    finish(ran, rk, rn)
}

// Start, with as many samples as are wanted: 15, then 16, then the run.
pub fn start_ready(
    samples: &[u8],
    want: usize,
    instrs: &[u16],
    operands: &[u16],
    bases: &[u32],
    blocks: &[u16],
    count: usize,
    labels: usize,
    plan: &mut [u32],
    rk: &mut [u8],
    rn: &mut [u32],
    sk: &mut [u8],
    sn: &mut [u32],
    hk: &mut [u8],
    hn: &mut [u32],
    place: Place,
    m: usize,
) -> Outcome
    requires { (want ≤ 16) × Launchable (tables instrs.now operands.now bases.now blocks.now count labels) plan.old }
    ensures { (args : List ℕ) (P : Program) → Represents (tables instrs.now operands.now bases.now blocks.now count labels) args (bodies P) → want ≡ wanted P.blocks → outcome_is result rk.new rn.new sk.new sn.new hk.new hn.new ≡ start_on P (samples_of samples.now) m (state_of rk.old rn.old sk.old sn.old hk.old hn.old place) }
{
    let mut xs = [0u32; 16];
    if !exec_state::samples::read_samples(samples, want, &mut xs) {
        return refuse_for(Fault::BadSamples, 0, place);
    }
    if !exec_state::good_form::long_enough(rk, rn, sk, sn, hk, hn, place) {
        return refuse_for(Fault::BadState, 0, place);
    }
    let p = exec_state::start::set_start(&xs[..want], rk, rn, hk, hn);
    run_from(
        instrs, operands, bases, blocks, count, labels, plan, rk, rn, sk, sn, hk, hn, p, m,
    )
}

// Go on from the lent state: 16, then the run.
pub fn resume_ready(
    instrs: &[u16],
    operands: &[u16],
    bases: &[u32],
    blocks: &[u16],
    count: usize,
    labels: usize,
    plan: &mut [u32],
    rk: &mut [u8],
    rn: &mut [u32],
    sk: &mut [u8],
    sn: &mut [u32],
    hk: &mut [u8],
    hn: &mut [u32],
    place: Place,
    m: usize,
) -> Outcome
    requires { Launchable (tables instrs.now operands.now bases.now blocks.now count labels) plan.old }
    ensures { (args : List ℕ) (P : Program) → Represents (tables instrs.now operands.now bases.now blocks.now count labels) args (bodies P) → outcome_is result rk.new rn.new sk.new sn.new hk.new hn.new ≡ continue_unless none P m (state_of rk.old rn.old sk.old sn.old hk.old hn.old place) }
{
    if !exec_state::good_form::good_form(count, rk, rn, sk, sn, hk, hn, place) {
        return refuse_for(Fault::BadState, 0, place);
    }
    run_from(
        instrs, operands, bases, blocks, count, labels, plan, rk, rn, sk, sn, hk, hn, place, m,
    )
}
