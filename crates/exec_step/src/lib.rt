// One step by the machine's own table (crate exec_plan), made at once on the lent state. What a row does is a function for each form
// (modules registers, heap, stack; moved has what they share): `step` reads the row at a place of the table and does what it says, if the
// budget has a step left; a stop comes first, and then, as without budget, no word changes. Promised: the step of the tables that the rows
// are made from, budget or none. Asked: registers, stack and heap as long as the limits, a row that names registers, and operands that
// stand in the tables, and that a handle in a register is at a tuple's start. rk and rn are the registers' kinds and numbers, sk and sn the
// stack's, hk and hn the heap's.
// Kept: each memory is a slice of kinds and a slice of numbers, as the C interface lends them. In a struct of the two each function takes them
// apart before it writes and puts them together for the next call, and the ways out of a function meet where the struct is let go.
// Kept: classes and forms are numbers, since a row stands in lent memory, and a match on the class modulo 16 makes no test of it.
#![tactic(auto)]

pub mod heap;
pub mod moved;
pub mod registers;
pub mod stack;

ghost use Rattle.std.specs.Prelude.{◌≡◌, ℕ, ◌*◌, ◌≤◌, get_or};
ghost use Rattle.exec_words.specs.memory.Lent.{lent, operand_table};
ghost use Rattle.exec_machine.specs.Step.{Tables};
ghost use Rattle.exec_machine.specs.Represents.{Fit};
ghost use Rattle.exec_plan.specs.Plan.{Plan};
ghost use Rattle.exec_step.specs.Rows.{Done, FitRow};
ghost use Rattle.exec_step.specs.moved.Stepped.{held, Stepped, RowAt, Words, Inside};

use crate::heap::{load, store, tuple};
use crate::moved::{Moved, Turn, assign, height, stuck};
use crate::registers::{
    branch, branch_nowhere, branch_register, constant, jump, literal, reckon, register,
};
use crate::stack::{cut, peek, peek_through, poke, poke_through, pop, push};
use exec_machine::Stop;
use exec_words::arith::Arith;

// A row of class 15: column 5 has its form. Past the forms a row is stuck.
fn other(
    plan: &[u32],
    blocks: &[u16],
    operands: &[u16],
    bases: &[u32],
    labels: usize,
    rk: &mut [u8],
    rn: &mut [u32],
    sk: &mut [u8],
    sn: &mut [u32],
    hk: &mut [u8],
    hn: &mut [u32],
    turn: Turn,
) -> Moved
    requires { RowAt plan.now turn.at turn.depth turn.used × FitRow plan.now operands.now bases.now turn.at × Words rk.old rn.old sk.old sn.old hk.old hn.old × (get_or plan.now turn.at 0 ≡ 15) }
    ensures { Done (operand_table operands.now bases.now) blocks.now labels plan.now turn.at turn.depth turn.used turn.more (lent rk.old rn.old) (lent sk.old sn.old) (lent hk.old hn.old) result (lent rk.new rn.new) (lent sk.new sn.new) (lent hk.new hn.new) }
{
    let f = turn.read(plan, 5);
    match f {
        15 => reckon(plan, rk, rn, Arith::Mul, literal(plan, turn), turn),
        16 => assign(plan, rk, rn, height(turn.depth), turn),
        17 => cut(plan, rk, rn, turn),
        18 => push(plan, sk, sn, turn),
        19 => pop(plan, turn),
        20 => reckon(plan, rk, rn, Arith::Sub, register(plan, rk, rn, turn), turn),
        21 => branch_register(plan, blocks, labels, rk, rn, turn),
        22 => branch_nowhere(plan, rk, rn, turn),
        23 => Moved::Ended(Stop::Halted),
        _ => stuck(),
    }
}

// What the row says, by its class. Sixteen arms and no test of the range: the jump to the next row's arm is made at each arm's end.
fn row(
    plan: &[u32],
    blocks: &[u16],
    operands: &[u16],
    bases: &[u32],
    labels: usize,
    rk: &mut [u8],
    rn: &mut [u32],
    sk: &mut [u8],
    sn: &mut [u32],
    hk: &mut [u8],
    hn: &mut [u32],
    turn: Turn,
) -> Moved
    requires { RowAt plan.now turn.at turn.depth turn.used × FitRow plan.now operands.now bases.now turn.at × Words rk.old rn.old sk.old sn.old hk.old hn.old × Inside (lent rk.old rn.old) (lent hk.old hn.old) }
    ensures { Done (operand_table operands.now bases.now) blocks.now labels plan.now turn.at turn.depth turn.used turn.more (lent rk.old rn.old) (lent sk.old sn.old) (lent hk.old hn.old) result (lent rk.new rn.new) (lent sk.new sn.new) (lent hk.new hn.new) }
{
    let class = turn.read(plan, 0) % 16;
    match class {
        0 => reckon(plan, rk, rn, Arith::Add, register(plan, rk, rn, turn), turn),
        1 => reckon(plan, rk, rn, Arith::Add, literal(plan, turn), turn),
        2 => tuple(plan, operands, bases, rk, rn, hk, hn, turn),
        3 => reckon(plan, rk, rn, Arith::Mul, register(plan, rk, rn, turn), turn),
        4 => branch(plan, rk, rn, turn),
        5 => assign(plan, rk, rn, register(plan, rk, rn, turn), turn),
        6 => assign(plan, rk, rn, constant(plan, turn), turn),
        7 => turn.goes(turn.index(plan, 3), turn.depth),
        8 => jump(blocks, labels, register(plan, rk, rn, turn), turn),
        9 => load(plan, rk, rn, hk, hn, turn),
        10 => store(plan, rk, rn, hk, hn, turn),
        11 => peek(plan, rk, rn, sk, sn, turn),
        12 => poke(plan, rk, rn, sk, sn, turn),
        13 => peek_through(plan, rk, rn, sk, sn, turn),
        14 => poke_through(plan, rk, rn, sk, sn, turn),
        _ => other(
            plan, blocks, operands, bases, labels, rk, rn, sk, sn, hk, hn, turn,
        ),
    }
}

// One step from the row at its place, if the budget has a step left.
pub fn step(
    plan: &[u32],
    blocks: &[u16],
    operands: &[u16],
    bases: &[u32],
    labels: usize,
    rk: &mut [u8],
    rn: &mut [u32],
    sk: &mut [u8],
    sn: &mut [u32],
    hk: &mut [u8],
    hn: &mut [u32],
    turn: Turn,
) -> Moved
    requires { RowAt plan.now turn.at turn.depth turn.used × FitRow plan.now operands.now bases.now turn.at × Words rk.old rn.old sk.old sn.old hk.old hn.old × Inside (lent rk.old rn.old) (lent hk.old hn.old) }
    ensures { (T : Tables) (j : ℕ) → Plan T plan.now → Fit T → turn.at ≡ 8 * j → j ≤ T.count → T.labels ≡ labels → T.blocks ≡ blocks.now → T.operands ≡ operands.now → T.bases ≡ bases.now → Stepped T turn.more (held (lent rk.old rn.old) (lent sk.old sn.old) (lent hk.old hn.old) turn.depth turn.used j) result (lent rk.new rn.new) (lent sk.new sn.new) (lent hk.new hn.new) }
{
    row(
        plan, blocks, operands, bases, labels, rk, rn, sk, sn, hk, hn, turn,
    )
}
