// Hashes of rows, made so that rows of one type have one hash where each row that they name has one row for its type in `first`; and the
// rows that stand for themselves, chained by their hashes. They say which rows are worth comparing (this crate). Promised: where hashes and
// links are written, and how rows are chained by their hashes (`chained` of specs/row_hash/Chains.antt); of what a hash is, nothing. Asked:
// at most 514 rows.
ghost use Rattle.std.specs.Prelude.{◌≡◌, ℕ, ◌+◌, ◌*◌, ◌≤◌, ◌<◌, get_or, set, IfSome};
ghost use Rattle.valid_share.specs.row_hash.Chains.{chain_of, chained};

use crate::rename;

// A prime near 2^32.
const PRIME: u64 = 4294967291;

// a * b + c modulo the prime.
fn mul_add(a: u32, b: u32, c: u32) -> u32 {
    ((u64::from(a) * u64::from(b) + u64::from(c)) % PRIME) as u32
}

// The same modulo 2^32: of a row's parts, which are few.
fn mix(a: u32, b: u32, c: u32) -> u32 {
    a.wrapping_mul(b).wrapping_add(c)
}

// The value row t as an item.
fn item_hash(first: &[u16], t: usize) -> u32
    requires { t ≤ 65535 }
{
    mul_add(rename::first_of(first, t) as u32, 2654435761, 1013904223)
}

// `start`, then the c parts of a row of the kind k with the numbers a and b.
fn parts_hash(
    parts: &[u16],
    first: &[u16],
    k: usize,
    a: usize,
    b: usize,
    c: usize,
    start: u32,
) -> u32
    requires { (a ≤ 65535) × (b ≤ 65535) × (c ≤ 65544) }
{
    let mut h = start;
    for j in 0..c {
        let x = rename::new_part(parts, first, k, a, b, j);
        h = mix(h, 2246822519, x as u32);
    }
    h
}

fn value_hash(parts: &[u16], first: &[u16], k: usize, a: usize, b: usize) -> u32
    requires { (k ≤ 65535) × (a ≤ 65535) × (b ≤ 65535) }
{
    match k {
        0 | 1 => k as u32,
        2 => mul_add(a as u32, 3266489917, 2),
        3 => parts_hash(parts, first, k, a, b, b, 3),
        _ => {
            let h = mul_add(k as u32, 374761393, item_hash(first, a));
            if k == 5 {
                let c = 9 + types_rows::letter_count(parts, b);
                parts_hash(parts, first, k, a, b, c, h)
            } else {
                h
            }
        }
    }
}

// What each item of a stack multiplies the hash of the items below it by.
const POWER: u32 = 3141592621;

// A stack row's hash is that of the list of its items, whatever its shape: the sum of item i's hash times POWER to the i.
fn stack_hash(work: &[u32], first: &[u16], k: usize, a: usize, b: usize) -> u32
    requires { (k ≤ 65535) × (a ≤ 65535) × (b ≤ 65535) }
{
    let below = tables::entry_or(work, 2 * b, 0);
    match k {
        7 => 0,
        8 => mul_add(a as u32, 668265263, 7),
        9 => mul_add(POWER, below, item_hash(first, a)),
        _ => {
            let power = tables::entry_or(work, 2 * a + 1, 0);
            mul_add(power, below, tables::entry_or(work, 2 * a, 0))
        }
    }
}

// POWER to the number of items of a stack row.
fn stack_power(work: &[u32], k: usize, a: usize, b: usize) -> u32
    requires { (a ≤ 65535) × (b ≤ 65535) }
{
    let below = tables::entry_or(work, 2 * b + 1, 0);
    match k {
        0..=7 => 1,
        8 => POWER,
        9 => mul_add(POWER, below, 0),
        _ => mul_add(tables::entry_or(work, 2 * a + 1, 0), below, 0),
    }
}

fn row_hash(work: &[u32], parts: &[u16], first: &[u16], k: usize, a: usize, b: usize) -> u32
    requires { (k ≤ 65535) × (a ≤ 65535) × (b ≤ 65535) }
{
    if k < 7 {
        value_hash(parts, first, k, a, b)
    } else {
        stack_hash(work, first, k, a, b)
    }
}

// Row r's hash stands at 2 r; behind it, for a stack row, the power for a row joined below it.
pub(crate) fn put_hash(rows: &[u16], parts: &[u16], first: &[u16], work: &mut [u32], r: usize)
    requires { r ≤ 514 }
    ensures { (h : ℕ) × ((p : ℕ) × (work.new ≡ set (set work.old (2 * r) h) (2 * r + 1) p)) }
{
    let k = tables::cell::<4>(rows, r, 0);
    let a = tables::cell::<4>(rows, r, 1);
    let b = tables::cell::<4>(rows, r, 2);
    let h = row_hash(work, parts, first, k, a, b);
    let p = stack_power(work, k, a, b);
    tables::put(work, 2 * r, h);
    tables::put(work, 2 * r + 1, p);
}

// The rows that stand for themselves, chained by their hashes modulo 256: entry h of `chains` is one more than the last row of chain h, and
// entry 256 + c one more than the row before row c in its chain.
pub(crate) fn chain_of(work: &[u32], r: usize) -> usize
    requires { r ≤ 514 }
    ensures { (result ≡ chain_of work.now r) × (result < 256) }
{
    (tables::entry_or(work, 2 * r, 0) % 256) as usize
}

// The row that entry i names, if it is one below row r.
pub(crate) fn row_below(chains: &[u16], i: usize, r: usize) -> Option<usize>
    ensures { IfSome result (λ c. c < r) }
{
    let c = tables::at(chains, i).checked_sub(1)?;
    (c < r).then_some(c)
}

// Row r becomes the last of its chain if it stands for itself, row c standing for it.
pub(crate) fn chain_row(chains: &mut [u16], work: &[u32], c: usize, r: usize)
    requires { r ≤ 514 }
    ensures { chains.new ≡ chained work.now chains.old c r }
{
    if c == r {
        let h = chain_of(work, r);
        let last = tables::entry_or(chains, h, 0);
        tables::put(chains, 256 + r, last);
        tables::put(chains, h, (r + 1) as u16);
    }
}
