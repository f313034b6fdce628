// Good form of a lent state (fault 16): `long_enough` promises `long_enough` of crate exec, and `good_form` that and `good_form`. The
// used heap is walked once, and each tuple's start is marked; a handle is then looked up, not searched for.
// rk and rn are the registers' kinds and numbers, sk and sn the stack's, hk and hn the heap's.
ghost use Rattle.std.specs.Prelude.{◌≡◌, ◌&&◌, cond, List, [], ℕ, ◌≤◌, length, take};
ghost use Rattle.exec.specs.Machine.{Bodies, flat, capacity};
ghost use Rattle.exec.specs.Run.{tuple_length, in_use, end_to_end, long_enough, good_form};
ghost use Rattle.exec_words.specs.memory.Lent.{word_is, lent};
ghost use Rattle.exec_machine.specs.Step.{state_of};
ghost use Rattle.exec_state.specs.good_form.Marks.{in_limits, Few, mark_of, left_after, marks_from, good_by, all_good_by};

use exec_machine::Place;
use exec_words::memory::{CODE, HEIGHT, INT, JUNK, TUPLE, Word, at};
use tables::entry_or;

// How many words are lent.
fn words(kinds: &[u8], numbers: &[u32]) -> usize
    ensures { result ≡ capacity (lent kinds.now numbers.now) }
{
    kinds.len().min(numbers.len())
}

// Not "lent memory shorter than the limits".
#[tactic(auto, unfolding(exec::specs::Run::long_enough))]
pub fn long_enough(
    rk: &[u8],
    rn: &[u32],
    sk: &[u8],
    sn: &[u32],
    hk: &[u8],
    hn: &[u32],
    p: Place,
) -> bool
    ensures { result ≡ long_enough (state_of rk.now rn.now sk.now sn.now hk.now hn.now p) }
{
    8 <= words(rk, rn) && 256 <= words(sk, sn) && 2048 <= words(hk, hn)
}

// The length of the tuple that the word starts, if it starts one.
fn tuple_length(w: Word) -> Option<usize>
    ensures { Few (tuple_length (word_is w)) result }
{
    if w.kind == INT && w.number <= 16 {
        Some(w.number as usize)
    } else {
        None
    }
}

// Components left after the word w, if k are left before it; none if there it is to start a tuple and does not.
fn left_after(k: usize, w: Word) -> Option<usize>
    requires { k ≤ 16 }
    ensures { Few (left_after k (word_is w)) result }
{
    if k == 0 { tuple_length(w) } else { Some(k - 1) }
}

// Whether a word starts a tuple before which k components are left.
fn mark(k: usize) -> bool
    ensures { result ≡ mark_of k }
{
    k == 0
}

// "the used heap tuples end to end"; if they are, their starts are marked.
fn mark_starts(hk: &[u8], hn: &[u32], used: usize, starts: &mut [bool]) -> bool
    requires { used ≤ length starts.old }
    ensures { (result ≡ end_to_end (in_use (lent hk.now hn.now) used) 0) × (cond result (take used starts.new) [] ≡ cond result (marks_from (in_use (lent hk.now hn.now) used) 0) []) }
{
    let mut k = 0;
    for i in 0..used {
        starts[i] = mark(k);
        match left_after(k, at(hk, hn, i)) {
            Some(n) => {
                k = n;
            }
            None => {
                return false;
            }
        }
    }
    k == 0
}

// By the marks of the words in use.
#[tactic(auto, unfolding(crate::specs::good_form::Marks::good_by))]
fn good_word(starts: &[bool], w: Word) -> bool
    ensures { result ≡ good_by starts.now (word_is w) }
{
    match w.kind {
        INT | CODE => true,
        TUPLE => entry_or(starts, w.number as usize, false),
        HEIGHT => w.number <= 256,
        JUNK => w.number == 0,
        _ => false,
    }
}

// Whether the first n words are good.
fn good_words(starts: &[bool], kinds: &[u8], numbers: &[u32], n: usize) -> bool
    ensures { result ≡ all_good_by starts.now (in_use (lent kinds.now numbers.now) n) }
{
    for i in 0..n {
        if !good_word(starts, at(kinds, numbers, i)) {
            return false;
        }
    }
    true
}

#[tactic(auto, unfolding(crate::specs::good_form::Marks::in_limits))]
fn in_limits(count: usize, p: Place) -> bool
    ensures { result ≡ in_limits count p }
{
    p.depth <= 256 && p.used <= 2048 && p.position < count
}

// Whether enough is lent and the state is of good form, for a program of `count` instructions.
pub fn good_form(
    count: usize,
    rk: &[u8],
    rn: &[u32],
    sk: &[u8],
    sn: &[u32],
    hk: &[u8],
    hn: &[u32],
    p: Place,
) -> bool
    ensures { (P : Bodies) → length (flat P) ≡ count → result ≡ (long_enough (state_of rk.now rn.now sk.now sn.now hk.now hn.now p) && good_form P (state_of rk.now rn.now sk.now sn.now hk.now hn.now p)) }
{
    if !long_enough(rk, rn, sk, sn, hk, hn, p) || !in_limits(count, p) {
        return false;
    }
    let mut starts = [false; 2048];
    if !mark_starts(hk, hn, p.used, &mut starts) {
        return false;
    }
    let starts = &starts[..p.used];
    good_words(starts, rk, rn, 8)
        && good_words(starts, sk, sn, p.depth as usize)
        && good_words(starts, hk, hn, p.used)
}
