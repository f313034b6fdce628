// The decoded form of a text: flat columns for rows, blocks, instructions and operands. specs/Tables.antt says which row,
// instruction and block each entry stands for; every pass and the machine read these columns and no text. Here are the reads and writes of
// entries that all of them share. Promised: past the end of a table stands 0, or what is asked for instead, and a write there does
// nothing. Asked: of a record, that its width is at most eight.
#![tactic(auto)]

ghost use Rattle.std.specs.Prelude.{◌≡◌, ◌<◌, ◌≤◌, get_or, set};
ghost use Rattle.tables.specs.Tables.{cell};

// Entry i, or `other` past the end.
pub fn entry_or<T: Copy>(s: &[T], i: usize, other: T) -> T
    ensures { result ≡ get_or s.now i other }
{
    s.get(i).copied().unwrap_or(other)
}

// Writes entry i, if there is one.
pub fn put<T: Copy>(s: &mut [T], i: usize, x: T)
    ensures { s.new ≡ set s.old i x }
{
    if i < s.len() {
        s[i] = x;
    }
}

// Entry i as an index, 0 past the end.
pub fn at(s: &[u16], i: usize) -> usize
    ensures { (result ≡ get_or s.now i 0) × (result ≤ 65535) }
{
    usize::from(entry_or(s, i, 0))
}

// The same of numbers of 32 bits.
pub fn number_at(s: &[u32], i: usize) -> usize
    ensures { (result ≡ get_or s.now i 0) × (result ≤ 4294967295) }
{
    entry_or(s, i, 0) as usize
}

// Entry k of record i, in a table whose records have W entries.
pub fn cell<const W: usize>(table: &[u16], i: usize, k: usize) -> usize
    requires { (k < W) × (W ≤ 8) }
    ensures { (result ≡ cell W table.now i k) × (result ≤ 65535) }
{
    if i <= table.len() / W {
        at(table, W * i + k)
    } else {
        0
    }
}
