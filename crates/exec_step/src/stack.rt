// What a row of the machine's own table does with the stack: its depth (setsp, salloc, sfree), its words (sld, sst), and its words through
// a stack pointer (slp, ssp). Promised of each function: the step that crate exec_machine says, budget or none; a stop comes first. Asked:
// a row that names registers, and registers and stack as long as the limits. rk and rn are the registers' kinds and numbers, sk and sn the
// stack's.
ghost use Rattle.std.specs.Prelude.{◌+◌, get_or};
ghost use Rattle.exec.specs.Machine.{Memory};
ghost use Rattle.tables.specs.Tables.{OperandTable};
ghost use Rattle.exec_words.specs.memory.Lent.{lent, Long};
ghost use Rattle.exec_machine.specs.Step.{next_cut, next_push, next_pop, next_read, next_write, next_read_through, next_write_through};
ghost use Rattle.exec_step.specs.moved.Stepped.{Does, RowAt, LowRow};

use crate::moved::{Moved, Turn, assign, stuck, write};
use exec_machine::Stop;
use exec_words::memory::{HEIGHT, get, put_junk};

// setsp
pub(crate) fn cut(plan: &[u32], rk: &[u8], rn: &[u32], turn: Turn) -> Moved
    requires { LowRow plan.now turn.at turn.depth turn.used × Long 8 rk.now rn.now }
    ensures { (ω : OperandTable) (S H : Memory) → Does ω turn.at turn.depth turn.used turn.more (lent rk.now rn.now) S H (λ p. next_cut (lent rk.now rn.now) turn.depth p (get_or plan.now (turn.at + 1) 0)) result (lent rk.now rn.now) S H }
{
    let w = get(rk, rn, turn.index(plan, 1));
    if w.kind != HEIGHT {
        return stuck();
    }
    if turn.depth < w.number {
        return stuck();
    }
    turn.goes(turn.at + 8, w.number)
}

// salloc
pub(crate) fn push(plan: &[u32], sk: &mut [u8], sn: &mut [u32], turn: Turn) -> Moved
    requires { RowAt plan.now turn.at turn.depth turn.used × Long 256 sk.old sn.old }
    ensures { (ω : OperandTable) (R H : Memory) → Does ω turn.at turn.depth turn.used turn.more R (lent sk.old sn.old) H (λ p. next_push turn.depth p (get_or plan.now (turn.at + 3) 0)) result R (lent sk.new sn.new) H }
{
    let n = turn.read(plan, 3);
    if 256 - turn.depth < n {
        return Moved::Ended(Stop::StackFull);
    }
    if !turn.more {
        return Moved::Paused;
    }
    put_junk(sk, sn, turn.depth, n);
    Moved::To(turn.at + 8, turn.depth + n, turn.used)
}

// sfree
pub(crate) fn pop(plan: &[u32], turn: Turn) -> Moved
    requires { RowAt plan.now turn.at turn.depth turn.used }
    ensures { (ω : OperandTable) (R S H : Memory) → Does ω turn.at turn.depth turn.used turn.more R S H (λ p. next_pop turn.depth p (get_or plan.now (turn.at + 3) 0)) result R S H }
{
    let n = turn.read(plan, 3);
    if turn.depth < n {
        return stuck();
    }
    turn.goes(turn.at + 8, turn.depth - n)
}

// sld
pub(crate) fn peek(
    plan: &[u32],
    rk: &mut [u8],
    rn: &mut [u32],
    sk: &[u8],
    sn: &[u32],
    turn: Turn,
) -> Moved
    requires { LowRow plan.now turn.at turn.depth turn.used × Long 8 rk.old rn.old × Long 256 sk.now sn.now }
    ensures { (ω : OperandTable) (H : Memory) → Does ω turn.at turn.depth turn.used turn.more (lent rk.old rn.old) (lent sk.now sn.now) H (λ p. next_read (lent sk.now sn.now) turn.depth p (get_or plan.now (turn.at + 1) 0) (get_or plan.now (turn.at + 3) 0)) result (lent rk.new rn.new) (lent sk.now sn.now) H }
{
    let top = turn.depth as usize;
    let i = turn.index(plan, 3);
    if top <= i {
        return stuck();
    }
    let x = get(sk, sn, top - i - 1);
    assign(plan, rk, rn, x, turn)
}

// sst
pub(crate) fn poke(
    plan: &[u32],
    rk: &[u8],
    rn: &[u32],
    sk: &mut [u8],
    sn: &mut [u32],
    turn: Turn,
) -> Moved
    requires { LowRow plan.now turn.at turn.depth turn.used × Long 8 rk.now rn.now × Long 256 sk.old sn.old }
    ensures { (ω : OperandTable) (H : Memory) → Does ω turn.at turn.depth turn.used turn.more (lent rk.now rn.now) (lent sk.old sn.old) H (λ p. next_write (lent rk.now rn.now) turn.depth p (get_or plan.now (turn.at + 3) 0) (get_or plan.now (turn.at + 2) 0)) result (lent rk.now rn.now) (lent sk.new sn.new) H }
{
    let top = turn.depth as usize;
    let i = turn.index(plan, 3);
    if top <= i {
        return stuck();
    }
    let x = get(rk, rn, turn.index(plan, 2));
    write(sk, sn, top - i - 1, x, turn.at + 8, turn)
}

// slp
pub(crate) fn peek_through(
    plan: &[u32],
    rk: &mut [u8],
    rn: &mut [u32],
    sk: &[u8],
    sn: &[u32],
    turn: Turn,
) -> Moved
    requires { LowRow plan.now turn.at turn.depth turn.used × Long 8 rk.old rn.old × Long 256 sk.now sn.now }
    ensures { (ω : OperandTable) (H : Memory) → Does ω turn.at turn.depth turn.used turn.more (lent rk.old rn.old) (lent sk.now sn.now) H (λ p. next_read_through (lent rk.old rn.old) (lent sk.now sn.now) turn.depth p (get_or plan.now (turn.at + 1) 0) (get_or plan.now (turn.at + 2) 0) (get_or plan.now (turn.at + 3) 0)) result (lent rk.new rn.new) (lent sk.now sn.now) H }
{
    let w = get(rk, rn, turn.index(plan, 2));
    if w.kind != HEIGHT {
        return stuck();
    }
    if turn.depth < w.number {
        return stuck();
    }
    let top = w.number as usize;
    let i = turn.index(plan, 3);
    if top <= i {
        return stuck();
    }
    let x = get(sk, sn, top - i - 1);
    assign(plan, rk, rn, x, turn)
}

// ssp
pub(crate) fn poke_through(
    plan: &[u32],
    rk: &[u8],
    rn: &[u32],
    sk: &mut [u8],
    sn: &mut [u32],
    turn: Turn,
) -> Moved
    requires { LowRow plan.now turn.at turn.depth turn.used × Long 8 rk.now rn.now × Long 256 sk.old sn.old }
    ensures { (ω : OperandTable) (H : Memory) → Does ω turn.at turn.depth turn.used turn.more (lent rk.now rn.now) (lent sk.old sn.old) H (λ p. next_write_through (lent rk.now rn.now) turn.depth p (get_or plan.now (turn.at + 1) 0) (get_or plan.now (turn.at + 3) 0) (get_or plan.now (turn.at + 2) 0)) result (lent rk.now rn.now) (lent sk.new sn.new) H }
{
    let w = get(rk, rn, turn.index(plan, 1));
    if w.kind != HEIGHT {
        return stuck();
    }
    if turn.depth < w.number {
        return stuck();
    }
    let top = w.number as usize;
    let i = turn.index(plan, 3);
    if top <= i {
        return stuck();
    }
    let x = get(rk, rn, turn.index(plan, 2));
    write(sk, sn, top - i - 1, x, turn.at + 8, turn)
}
