// What a step answers, and what every row's function does the same way: reads an entry of its row, reads and writes a word where it is
// known to stand, and goes on if the budget has a step left. Promised: the word of crate exec read or put, and with no budget left no word
// changed. rk and rn are the registers' kinds and numbers, sk and sn the stack's, hk and hn the heap's.

ghost use Rattle.std.specs.Prelude.{◌≡◌, cond, ◌+◌, ◌<◌, ◌≤◌, length, get_or};
ghost use Rattle.exec.specs.Machine.{at, put, height};
ghost use Rattle.exec_words.specs.memory.Lent.{word_is, lent, Long};
ghost use Rattle.exec_step.specs.moved.Stepped.{toward};

use exec_machine::Stop;
use exec_words::memory::{HEIGHT, Word, set};

// Where a step is to be made: the place of its row in the table, the depth, the words of the heap in use, and whether the budget has a step
// left.
#[derive(Clone, Copy)]
pub struct Turn {
    pub at: usize,
    pub depth: u32,
    pub used: usize,
    pub more: bool,
}

// The next row's place, the depth and the words of the heap in use; no step for want of budget; or the instruction stops.
#[derive(Clone, Copy)]
pub enum Moved {
    To(usize, u32, usize),
    Paused,
    Ended(Stop),
}

impl Turn {
    // Entry k of the row.
    pub(crate) fn read(self, plan: &[u32], k: usize) -> u32
        requires { (self.at + 8 ≤ length plan.now) × (k < 8) }
        ensures { result ≡ get_or plan.now (self.at + k) 0 }
    {
        plan[self.at + k]
    }

    // The same, as an index.
    pub(crate) fn index(self, plan: &[u32], k: usize) -> usize
        requires { (self.at + 8 ≤ length plan.now) × (k < 8) }
        ensures { (result ≡ get_or plan.now (self.at + k) 0) × (result < 4294967296) }
    {
        self.read(plan, k) as usize
    }

    // A step that changes no word, but maybe the depth. The pause is a way out of its own: in one expression with the other answer the
    // compiler picks each part of it by the budget, and the jumps of these rows meet in one place.
    pub(crate) fn goes(self, to: usize, depth: u32) -> Moved
        ensures { result ≡ toward self.more to depth self.used }
    {
        if !self.more {
            return Moved::Paused;
        }
        Moved::To(to, depth, self.used)
    }
}

pub(crate) fn stuck() -> Moved
    ensures { result ≡ Moved.Ended Stop.Stuck }
{
    Moved::Ended(Stop::Stuck)
}

pub(crate) fn height(n: u32) -> Word
    ensures { word_is result ≡ height n }
{
    Word {
        kind: HEIGHT,
        number: n,
    }
}

// The word w to the register of column 1.
pub(crate) fn assign(plan: &[u32], rk: &mut [u8], rn: &mut [u32], w: Word, turn: Turn) -> Moved
    requires { (turn.at + 8 ≤ length plan.now) × Long 8 rk.old rn.old × (get_or plan.now (turn.at + 1) 0 < 8) }
    ensures { (result ≡ toward turn.more (turn.at + 8) turn.depth turn.used) × ((lent rk.new rn.new) ≡ cond turn.more (put (lent rk.old rn.old) (get_or plan.now (turn.at + 1) 0) (word_is w)) (lent rk.old rn.old)) }
{
    if turn.more {
        set(rk, rn, turn.index(plan, 1), w);
        Moved::To(turn.at + 8, turn.depth, turn.used)
    } else {
        Moved::Paused
    }
}

// The word w to the stack or the heap, at i, which is lent.
pub(crate) fn write(
    kinds: &mut [u8],
    numbers: &mut [u32],
    i: usize,
    w: Word,
    to: usize,
    turn: Turn,
) -> Moved
    requires { (i < length kinds.old) × (i < length numbers.old) }
    ensures { (result ≡ toward turn.more to turn.depth turn.used) × ((lent kinds.new numbers.new) ≡ cond turn.more (put (lent kinds.old numbers.old) i (word_is w)) (lent kinds.old numbers.old)) }
{
    if turn.more {
        set(kinds, numbers, i, w);
        Moved::To(to, turn.depth, turn.used)
    } else {
        Moved::Paused
    }
}
