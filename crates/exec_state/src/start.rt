// The state at the start: `set_start` writes the registers and the first tuple, and promises `initial` of crate exec. Asked: at most
// 16 samples, and eight registers.
// rk and rn are the registers' kinds and numbers, hk and hn the heap's.
ghost use Rattle.std.specs.Prelude.{◌≡◌, List, [], ◌∷◌, map, ℕ, ◌≤◌, length};
ghost use Rattle.exec.specs.Machine.{integer, handle, junk_word, puts};
ghost use Rattle.exec.specs.Run.{initial};
ghost use Rattle.exec_words.specs.memory.Lent.{lent};
ghost use Rattle.exec_machine.specs.Step.{state_of};

use exec_machine::Place;
use exec_words::memory::{INT, TUPLE, Word, put, put_junk};

// "r1 its handle, other registers junk"
fn set_registers(rk: &mut [u8], rn: &mut [u32])
    requires { (8 ≤ length rk.old) × (8 ≤ length rn.old) }
    ensures { lent rk.new rn.new ≡ puts (lent rk.old rn.old) 0 (handle 0 ∷ junk_word ∷ junk_word ∷ junk_word ∷ junk_word ∷ junk_word ∷ junk_word ∷ junk_word ∷ []) }
{
    let w = Word {
        kind: TUPLE,
        number: 0,
    };
    put(rk, rn, 0, w);
    put_junk(rk, rn, 1, 7);
}

// "samples form the first tuple"
fn set_tuple(samples: &[u32], hk: &mut [u8], hn: &mut [u32])
    requires { length samples.now ≤ 16 }
    ensures { lent hk.new hn.new ≡ puts (lent hk.old hn.old) 0 (integer (length samples.now) ∷ map integer samples.now) }
{
    let w = Word {
        kind: INT,
        number: samples.len() as u32,
    };
    put(hk, hn, 0, w);
    for (i, x) in samples.iter().enumerate() {
        let w = Word {
            kind: INT,
            number: *x,
        };
        put(hk, hn, i + 1, w);
    }
}

// Write the state at the start, and give its place. The stack is not in use.
pub fn set_start(
    samples: &[u32],
    rk: &mut [u8],
    rn: &mut [u32],
    hk: &mut [u8],
    hn: &mut [u32],
) -> Place
    requires { (length samples.now ≤ 16) × (8 ≤ length rk.old) × (8 ≤ length rn.old) }
    ensures { (sk sn : List ℕ) (p : Place) → state_of rk.new rn.new sk sn hk.new hn.new result ≡ initial samples.now (state_of rk.old rn.old sk sn hk.old hn.old p) }
{
    set_registers(rk, rn);
    set_tuple(samples, hk, hn);
    Place {
        depth: 0,
        used: samples.len() + 1,
        position: 0,
    }
}
