// Runs with a budget: `run` makes the machine's own table of the program once (crate exec_plan), then one step after another by its
// rows (crate exec_step). Promised: the run of crate exec, its end, its steps and every lent word, for each program that the tables
// represent. Asked: registers, stack and heap as long as the limits, tables that decoding has seen to (`Fit`), and a run that only comes
// to states with each handle in a register at a tuple's start (`Safe`).
// rk and rn are the registers' kinds and numbers, sk and sn the stack's, hk and hn the heap's.
#![tactic(auto)]

ghost use Rattle.std.specs.Prelude.{◌≡◌, List, ℕ, ◌-◌, ◌*◌, ◌≤◌, ltb};
ghost use Rattle.exec.specs.Machine.{Bodies};
ghost use Rattle.exec.specs.Run.{run};
ghost use Rattle.exec_machine.specs.Step.{tables, state_of};
ghost use Rattle.exec_machine.specs.Represents.{Represents};
ghost use Rattle.exec_step.specs.moved.Stepped.{Words};
ghost use Rattle.exec_run.specs.Runs.{ran_is, Safe, Roomy, Planned, PlaceIn};

use exec_machine::{Place, Stop};
use exec_step::moved::{Moved, Turn};

// Why a run stops, or none if it pauses, with the steps made and the place reached.
#[derive(Clone, Copy)]
pub struct Ran {
    pub stop: Option<Stop>,
    pub steps: usize,
    pub place: Place,
}

// The place whose row stands at `at` in the table.
fn place(at: usize, depth: u32, used: usize) -> Place
    ensures { (j : ℕ) → at ≡ 8 * j → result ≡ record { depth = depth; used = used; position = j } }
{
    Place {
        depth,
        used,
        position: at / 8,
    }
}

// Whether the budget has a step left.
fn any_left(left: usize) -> bool
    ensures { result ≡ ltb 0 left }
{
    0 < left
}

// The steps made.
fn made(budget: usize, left: usize) -> usize
    requires { left ≤ budget }
    ensures { result ≡ budget - left }
{
    budget - left
}

// The run by the table's rows. A stop comes first, whatever is left of the budget.
// Kept: a `loop`, not a `for` over the budget, since the last turn is made with none left.
fn run_rows(
    instrs: &[u16],
    operands: &[u16],
    bases: &[u32],
    blocks: &[u16],
    count: usize,
    labels: usize,
    plan: &[u32],
    rk: &mut [u8],
    rn: &mut [u32],
    sk: &mut [u8],
    sn: &mut [u32],
    hk: &mut [u8],
    hn: &mut [u32],
    p: Place,
    budget: usize,
) -> Ran
    requires { Planned (tables instrs.now operands.now bases.now blocks.now count labels) plan.now × Words rk.old rn.old sk.old sn.old hk.old hn.old × PlaceIn p count × Safe (tables instrs.now operands.now bases.now blocks.now count labels) (state_of rk.old rn.old sk.old sn.old hk.old hn.old p) }
    ensures { (args : List ℕ) (P : Bodies) → Represents (tables instrs.now operands.now bases.now blocks.now count labels) args P → ran_is result rk.new rn.new sk.new sn.new hk.new hn.new ≡ run P budget (state_of rk.old rn.old sk.old sn.old hk.old hn.old p) }
{
    let mut left = budget;
    let mut at = 8 * p.position;
    let mut depth = p.depth;
    let mut used = p.used;
    loop {
        let turn = Turn {
            at,
            depth,
            used,
            more: any_left(left),
        };
        match exec_step::step(
            plan, blocks, operands, bases, labels, rk, rn, sk, sn, hk, hn, turn,
        ) {
            Moved::To(to, h, u) => {
                at = to;
                depth = h;
                used = u;
                left -= 1;
            }
            Moved::Paused => {
                return Ran {
                    stop: None,
                    steps: made(budget, left),
                    place: place(at, depth, used),
                };
            }
            Moved::Ended(s) => {
                return Ran {
                    stop: Some(s),
                    steps: made(budget, left),
                    place: place(at, depth, used),
                };
            }
        }
    }
}

// At most `budget` steps from the place p; `plan` is where the table is made.
pub fn run(
    instrs: &[u16],
    operands: &[u16],
    bases: &[u32],
    blocks: &[u16],
    count: usize,
    labels: usize,
    plan: &mut [u32],
    rk: &mut [u8],
    rn: &mut [u32],
    sk: &mut [u8],
    sn: &mut [u32],
    hk: &mut [u8],
    hn: &mut [u32],
    p: Place,
    budget: usize,
) -> Ran
    requires { Roomy (tables instrs.now operands.now bases.now blocks.now count labels) plan.old × Words rk.old rn.old sk.old sn.old hk.old hn.old × PlaceIn p count × Safe (tables instrs.now operands.now bases.now blocks.now count labels) (state_of rk.old rn.old sk.old sn.old hk.old hn.old p) }
    ensures { (args : List ℕ) (P : Bodies) → Represents (tables instrs.now operands.now bases.now blocks.now count labels) args P → ran_is result rk.new rn.new sk.new sn.new hk.new hn.new ≡ run P budget (state_of rk.old rn.old sk.old sn.old hk.old hn.old p) }
{
    exec_plan::predecode(instrs, operands, bases, blocks, count, labels, plan);
    run_rows(
        instrs, operands, bases, blocks, count, labels, plan, rk, rn, sk, sn, hk, hn, p, budget,
    )
}
