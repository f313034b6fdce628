// Lent words: a register file, a stack or a heap is a slice of kinds beside a slice of numbers. `at` and `put` are total: past the end
// a read gives junk and a write does nothing; the others ask that the words are lent, and make no test. Operands are read from a decoded
// program's tables, and a tuple is written to the part of the heap that starts at the first unused word.
ghost use Rattle.std.specs.Prelude.{◌≡◌, ◌+◌, ◌<◌, ◌≤◌, length, set as set_at, replicate, slice_index, slice_index_or};
ghost use Rattle.exec.specs.Machine.{at, put, puts, junk_kind, junk_word, word_of};
ghost use Rattle.tables.specs.Tables.{cell, operand_at};
ghost use Rattle.exec_words.specs.memory.Lent.{word_is, lent, operand_table, base_kind, KindOf, tuple_of, Sourced, Long, WordAt, OperandAt};

// The kinds of words: an integer.
// Kept: kinds are numbers, since lent words hold any byte, and `at` says each of them as it stands.
pub const INT: u8 = 0;

// A label.
pub const CODE: u8 = 1;

// A tuple's handle.
pub const TUPLE: u8 = 2;

// A stack height.
pub const HEIGHT: u8 = 3;

// Junk, of number 0.
pub const JUNK: u8 = 4;

// A word: its kind, and its number.
#[derive(Clone, Copy)]
pub struct Word {
    pub kind: u8,
    pub number: u32,
}

// The word at i.
pub fn at(kinds: &[u8], numbers: &[u32], i: usize) -> Word
    ensures { word_is result ≡ at (lent kinds.now numbers.now) i }
{
    Word {
        kind: tables::entry_or(kinds, i, JUNK),
        number: tables::entry_or(numbers, i, 0),
    }
}

// Write the word w at i.
pub fn put(kinds: &mut [u8], numbers: &mut [u32], i: usize, w: Word)
    ensures { lent kinds.new numbers.new ≡ put (lent kinds.old numbers.old) i (word_is w) }
{
    tables::put(kinds, i, w.kind);
    tables::put(numbers, i, w.number);
}

// The word at i, which is lent.
pub fn get(kinds: &[u8], numbers: &[u32], i: usize) -> Word
    requires { (i < length kinds.now) × (i < length numbers.now) }
    ensures { word_is result ≡ at (lent kinds.now numbers.now) i }
{
    Word {
        kind: kinds[i],
        number: numbers[i],
    }
}

// Write the word w at i, which is lent.
pub fn set(kinds: &mut [u8], numbers: &mut [u32], i: usize, w: Word)
    requires { (i < length kinds.old) × (i < length numbers.old) }
    ensures { lent kinds.new numbers.new ≡ put (lent kinds.old numbers.old) i (word_is w) }
{
    kinds[i] = w.kind;
    numbers[i] = w.number;
}

// Write n words of junk from word `from` on.
pub fn put_junk(kinds: &mut [u8], numbers: &mut [u32], from: u32, n: u32)
    requires { (from + n ≤ length kinds.old) × (from + n ≤ length numbers.old) }
    ensures { lent kinds.new numbers.new ≡ puts (lent kinds.old numbers.old) from (replicate n junk_word) }
{
    let start = from as usize;
    let junk = Word {
        kind: JUNK,
        number: 0,
    };
    for i in 0..n as usize {
        set(kinds, numbers, start + i, junk);
    }
}

// The kind of an operand's base, from the operand's: 0 register, 1 integer, past that label. A package has its base's kind and 4, which
// is taken off with no test, since `malloc` reads kinds as it runs.
fn plain_kind(k: usize) -> usize
    ensures { KindOf k result }
{
    k - k / 4 % 2 * 4
}

// The same, 2 for a label.
pub fn base_kind(k: usize) -> usize
    ensures { (result ≡ base_kind k) × (result < 3) }
{
    plain_kind(k).min(2)
}

// The word that operand v stands for: a register's, an integer or a label; a package is its base. Its base's number stands in `bases`.
fn operand_word(operands: &[u16], bases: &[u32], rk: &[u8], rn: &[u32], v: usize) -> Word
    requires { Long 8 rk.now rn.now × OperandAt operands.now bases.now v }
    ensures { word_is result ≡ word_of (lent rk.now rn.now) (operand_at (operand_table operands.now bases.now) v) }
{
    let number = bases[v];
    match plain_kind(usize::from(operands[4 * v])) {
        0 => get(rk, rn, number as usize),
        1 => Word { kind: INT, number },
        _ => Word { kind: CODE, number },
    }
}

// A tuple at the start of the words lent: its length word, then the words of n operands from v on.
fn write_tuple(
    kinds: &mut [u8],
    numbers: &mut [u32],
    operands: &[u16],
    bases: &[u32],
    rk: &[u8],
    rn: &[u32],
    v: u32,
    n: u32,
)
    requires { WordAt n kinds.old numbers.old × Long 8 rk.now rn.now × Sourced operands.now bases.now v n }
    ensures { lent kinds.new numbers.new ≡ puts (lent kinds.old numbers.old) 0 (tuple_of (operand_table operands.now bases.now) (lent rk.now rn.now) v n) }
{
    let first = v as usize;
    let length = Word {
        kind: INT,
        number: n,
    };
    set(kinds, numbers, 0, length);
    for i in 0..n as usize {
        let w = operand_word(operands, bases, rk, rn, first + i);
        set(kinds, numbers, i + 1, w);
    }
}

// "writes only the part of the heap that starts at the first unused word": that part is lent on to the tuple's writer.
pub fn put_tuple(
    hk: &mut [u8],
    hn: &mut [u32],
    used: u32,
    operands: &[u16],
    bases: &[u32],
    rk: &[u8],
    rn: &[u32],
    v: u32,
    n: u32,
)
    requires { WordAt (used + n) hk.old hn.old × Long 8 rk.now rn.now × Sourced operands.now bases.now v n }
    ensures { lent hk.new hn.new ≡ puts (lent hk.old hn.old) used (tuple_of (operand_table operands.now bases.now) (lent rk.now rn.now) v n) }
{
    let a = used as usize;
    write_tuple(&mut hk[a..], &mut hn[a..], operands, bases, rk, rn, v, n);
}
