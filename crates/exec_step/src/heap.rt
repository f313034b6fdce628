// What a row of the machine's own table does with the heap: ld, st and malloc.
// Promised of each function: the step that crate exec_machine says, budget or none; a stop comes first. Asked: a row that names registers,
// and registers and heap as long as the limits; of ld and st, that a handle in a register is at a tuple's start (`Inside`), so that no
// place in the heap is tested; of malloc, that its operands stand in the table.
// rk and rn are the registers' kinds and numbers, hk and hn the heap's.
ghost use Rattle.std.specs.Prelude.{◌+◌, get_or};
ghost use Rattle.exec.specs.Machine.{Memory};
ghost use Rattle.tables.specs.Tables.{OperandTable};
ghost use Rattle.exec_words.specs.memory.Lent.{lent, operand_table, Sourced, Long};
ghost use Rattle.exec_machine.specs.Step.{next_load, next_store, next_tuple};
ghost use Rattle.exec_step.specs.moved.Stepped.{Does, LowRow, Inside};

use crate::moved::{Moved, Turn, assign, stuck, write};
use exec_machine::Stop;
use exec_words::memory::{TUPLE, Word, get, put_tuple, set};

// ld
pub(crate) fn load(
    plan: &[u32],
    rk: &mut [u8],
    rn: &mut [u32],
    hk: &[u8],
    hn: &[u32],
    turn: Turn,
) -> Moved
    requires { LowRow plan.now turn.at turn.depth turn.used × Long 8 rk.old rn.old × Long 2048 hk.now hn.now × Inside (lent rk.old rn.old) (lent hk.now hn.now) }
    ensures { (ω : OperandTable) (S : Memory) → Does ω turn.at turn.depth turn.used turn.more (lent rk.old rn.old) S (lent hk.now hn.now) (λ p. next_load (lent rk.old rn.old) (lent hk.now hn.now) p (get_or plan.now (turn.at + 1) 0) (get_or plan.now (turn.at + 2) 0) (get_or plan.now (turn.at + 3) 0)) result (lent rk.new rn.new) S (lent hk.now hn.now) }
{
    let w = get(rk, rn, turn.index(plan, 2));
    if w.kind != TUPLE {
        return stuck();
    }
    let a = w.number as usize;
    let i = turn.index(plan, 3);
    let length = get(hk, hn, a);
    if length.number as usize <= i {
        return stuck();
    }
    assign(plan, rk, rn, get(hk, hn, a + i + 1), turn)
}

// st
pub(crate) fn store(
    plan: &[u32],
    rk: &[u8],
    rn: &[u32],
    hk: &mut [u8],
    hn: &mut [u32],
    turn: Turn,
) -> Moved
    requires { LowRow plan.now turn.at turn.depth turn.used × Long 8 rk.now rn.now × Long 2048 hk.old hn.old × Inside (lent rk.now rn.now) (lent hk.old hn.old) }
    ensures { (ω : OperandTable) (S : Memory) → Does ω turn.at turn.depth turn.used turn.more (lent rk.now rn.now) S (lent hk.old hn.old) (λ p. next_store (lent rk.now rn.now) (lent hk.old hn.old) p (get_or plan.now (turn.at + 1) 0) (get_or plan.now (turn.at + 3) 0) (get_or plan.now (turn.at + 2) 0)) result (lent rk.now rn.now) S (lent hk.new hn.new) }
{
    let w = get(rk, rn, turn.index(plan, 1));
    if w.kind != TUPLE {
        return stuck();
    }
    let a = w.number as usize;
    let i = turn.index(plan, 3);
    let length = get(hk, hn, a);
    if length.number as usize <= i {
        return stuck();
    }
    let x = get(rk, rn, turn.index(plan, 2));
    write(hk, hn, a + i + 1, x, turn.at + 8, turn)
}

// malloc: the first operand is in column 3, how many they are in column 4.
pub(crate) fn tuple(
    plan: &[u32],
    operands: &[u16],
    bases: &[u32],
    rk: &mut [u8],
    rn: &mut [u32],
    hk: &mut [u8],
    hn: &mut [u32],
    turn: Turn,
) -> Moved
    requires { LowRow plan.now turn.at turn.depth turn.used × Long 8 rk.old rn.old × Long 2048 hk.old hn.old × Sourced operands.now bases.now (get_or plan.now (turn.at + 3) 0) (get_or plan.now (turn.at + 4) 0) }
    ensures { (S : Memory) → Does (operand_table operands.now bases.now) turn.at turn.depth turn.used turn.more (lent rk.old rn.old) S (lent hk.old hn.old) (λ p. next_tuple turn.used p (get_or plan.now (turn.at + 1) 0) (get_or plan.now (turn.at + 3) 0) (get_or plan.now (turn.at + 4) 0)) result (lent rk.new rn.new) S (lent hk.new hn.new) }
{
    let n = turn.read(plan, 4);
    let count = n as usize;
    if 2047 < turn.used + count {
        return Moved::Ended(Stop::HeapFull);
    }
    if !turn.more {
        return Moved::Paused;
    }
    let a = turn.used as u32;
    put_tuple(hk, hn, a, operands, bases, rk, rn, turn.read(plan, 3), n);
    let w = Word {
        kind: TUPLE,
        number: a,
    };
    set(rk, rn, turn.index(plan, 1), w);
    Moved::To(turn.at + 8, turn.depth, turn.used + count + 1)
}
