// What a row of the machine's own table does to registers: add, sub and mul, branches and jumps; and the words of its operand. Promised of
// each function: the step that crate exec_machine says, budget or none; a stop comes first. Asked: a row that names registers, and a
// register file as long as the limits. rk and rn are the registers' kinds and numbers, sk and sn the stack's, hk and hn the heap's.
ghost use Rattle.std.specs.Prelude.{◌≡◌, cond, ℕ, ◌+◌, ◌*◌, ◌<◌, ◌≤◌, length, get_or};
ghost use Rattle.syntax.specs.Syntax.{Operand, reg, lit, plain};
ghost use Rattle.exec.specs.Machine.{Memory, at as word_at, sign_of, taken, word_of, int_kind};
ghost use Rattle.tables.specs.Tables.{OperandTable};
ghost use Rattle.exec_words.specs.arith.Codes.{arith_is, branch_of, column};
ghost use Rattle.exec_words.specs.memory.Lent.{word_is, lent, Long};
ghost use Rattle.exec_machine.specs.declared.Stop.TheVariants.{Stuck};
ghost use Rattle.exec_machine.specs.Step.{result_of, given, next_arith, next_jump, Go, End};
ghost use Rattle.exec_step.specs.moved.Stepped.{held, Turned, Does, Starts, LowRow, Leads};

use crate::moved::{Moved, Turn, assign, stuck};
use exec_words::arith::{Arith, branches};
use exec_words::memory::{CODE, INT, Word, get};

// The operand, if it is a register.
pub(crate) fn register(plan: &[u32], rk: &[u8], rn: &[u32], turn: Turn) -> Word
    requires { (turn.at + 8 ≤ length plan.now) × Long 8 rk.now rn.now × (get_or plan.now (turn.at + 4) 0 < 8) }
    ensures { word_is result ≡ word_of (lent rk.now rn.now) (plain (reg (get_or plan.now (turn.at + 4) 0))) }
{
    get(rk, rn, turn.index(plan, 4))
}

// The operand, if it is an integer.
pub(crate) fn literal(plan: &[u32], turn: Turn) -> Word
    requires { turn.at + 8 ≤ length plan.now }
    ensures { (R : Memory) → word_is result ≡ word_of R (plain (lit (get_or plan.now (turn.at + 4) 0))) }
{
    Word {
        kind: INT,
        number: turn.read(plan, 4),
    }
}

// The operand, if it is an integer or a label: column 2 has its kind.
pub(crate) fn constant(plan: &[u32], turn: Turn) -> Word
    requires { (turn.at + 8 ≤ length plan.now) × (get_or plan.now (turn.at + 2) 0 < 8) }
    ensures { result ≡ record { kind = get_or plan.now (turn.at + 2) 0; number = get_or plan.now (turn.at + 4) 0 } }
{
    let kind = turn.read(plan, 2);
    Word {
        kind: kind as u8,
        number: turn.read(plan, 4),
    }
}

// add, sub, mul: w is the operand's word.
pub(crate) fn reckon(
    plan: &[u32],
    rk: &mut [u8],
    rn: &mut [u32],
    op: Arith,
    w: Word,
    turn: Turn,
) -> Moved
    requires { LowRow plan.now turn.at turn.depth turn.used × Long 8 rk.old rn.old }
    ensures { (ω : OperandTable) (b : Operand) (S H : Memory) → word_is w ≡ word_of (lent rk.old rn.old) b → Does ω turn.at turn.depth turn.used turn.more (lent rk.old rn.old) S H (λ p. next_arith (lent rk.old rn.old) p (arith_is op) (get_or plan.now (turn.at + 1) 0) (get_or plan.now (turn.at + 2) 0) b) result (lent rk.new rn.new) S H }
{
    let x = get(rk, rn, turn.index(plan, 2));
    if x.kind != INT {
        return stuck();
    }
    if w.kind != INT {
        return stuck();
    }
    let y = Word {
        kind: INT,
        number: op.compute(x.number, w.number),
    };
    assign(plan, rk, rn, y, turn)
}

// A branch to a label.
pub(crate) fn branch(plan: &[u32], rk: &[u8], rn: &[u32], turn: Turn) -> Moved
    requires { LowRow plan.now turn.at turn.depth turn.used × Long 8 rk.now rn.now }
    ensures { (ω : OperandTable) (S H : Memory) (m j : ℕ) (g : ℕ → ℕ) → Leads plan.now turn.at m g → Turned m (result_of ω (held (lent rk.now rn.now) S H turn.depth turn.used j) (given int_kind (word_at (lent rk.now rn.now) (get_or plan.now (turn.at + 1) 0)) (λ v. Go (g (column (sign_of v)))))) turn.more (held (lent rk.now rn.now) S H turn.depth turn.used j) result (lent rk.now rn.now) S H }
{
    let w = get(rk, rn, turn.index(plan, 1));
    if w.kind != INT {
        return stuck();
    }
    if !turn.more {
        return Moved::Paused;
    }
    if w.number == 0 {
        return Moved::To(turn.index(plan, 6), turn.depth, turn.used);
    }
    if w.number < 2147483648 {
        return Moved::To(turn.index(plan, 7), turn.depth, turn.used);
    }
    Moved::To(turn.index(plan, 5), turn.depth, turn.used)
}

// A jump through the word w.
pub(crate) fn jump(blocks: &[u16], labels: usize, w: Word, turn: Turn) -> Moved
    requires { (turn.depth ≤ 256) × (turn.used ≤ 2048) }
    ensures { (ω : OperandTable) (R S H : Memory) (m j : ℕ) → Starts blocks.now labels m → Turned m (result_of ω (held R S H turn.depth turn.used j) (next_jump blocks.now labels (word_is w))) turn.more (held R S H turn.depth turn.used j) result R S H }
{
    if w.kind != CODE {
        return stuck();
    }
    let l = w.number as usize;
    if labels <= l {
        return stuck();
    }
    turn.goes(8 * tables::cell::<2>(blocks, l, 1), turn.depth)
}

// A branch to where its register leads.
pub(crate) fn branch_register(
    plan: &[u32],
    blocks: &[u16],
    labels: usize,
    rk: &[u8],
    rn: &[u32],
    turn: Turn,
) -> Moved
    requires { LowRow plan.now turn.at turn.depth turn.used × Long 8 rk.now rn.now × (get_or plan.now (turn.at + 4) 0 < 8) }
    ensures { (ω : OperandTable) (S H : Memory) (m j p : ℕ) → Starts blocks.now labels m → turn.at + 8 ≡ 8 * p → p ≤ m → Turned m (result_of ω (held (lent rk.now rn.now) S H turn.depth turn.used j) (given int_kind (word_at (lent rk.now rn.now) (get_or plan.now (turn.at + 1) 0)) (λ x. cond (taken (branch_of (get_or plan.now (turn.at + 2) 0)) (sign_of x)) (next_jump blocks.now labels (word_of (lent rk.now rn.now) (plain (reg (get_or plan.now (turn.at + 4) 0))))) (Go p)))) turn.more (held (lent rk.now rn.now) S H turn.depth turn.used j) result (lent rk.now rn.now) S H }
{
    let w = get(rk, rn, turn.index(plan, 1));
    if w.kind != INT {
        return stuck();
    }
    if branches(turn.index(plan, 2), w.number) {
        let v = register(plan, rk, rn, turn);
        return jump(blocks, labels, v, turn);
    }
    turn.goes(turn.at + 8, turn.depth)
}

// A branch that leads nowhere: stuck if it is taken.
pub(crate) fn branch_nowhere(plan: &[u32], rk: &[u8], rn: &[u32], turn: Turn) -> Moved
    requires { LowRow plan.now turn.at turn.depth turn.used × Long 8 rk.now rn.now }
    ensures { (ω : OperandTable) (S H : Memory) → Does ω turn.at turn.depth turn.used turn.more (lent rk.now rn.now) S H (λ p. given int_kind (word_at (lent rk.now rn.now) (get_or plan.now (turn.at + 1) 0)) (λ x. cond (taken (branch_of (get_or plan.now (turn.at + 2) 0)) (sign_of x)) (End Stuck) (Go p))) result (lent rk.now rn.now) S H }
{
    let w = get(rk, rn, turn.index(plan, 1));
    if w.kind != INT {
        return stuck();
    }
    if branches(turn.index(plan, 2), w.number) {
        return stuck();
    }
    turn.goes(turn.at + 8, turn.depth)
}
