// The variables of one row, read from tables of the rows that it names: how a variable is free in it, and whether each variable that is
// bound inside it is of its letter. `uses` has 64 entries a row, one for each variable: how it is free in the row, 0 not, 1 as a value
// variable, 2 as a stack variable, 3 as both. `tops` has one entry a row, which is 255 if some variable is bound inside the row by a letter
// of the other kind. Promises: each answer is that of specs/variables/Uses.antt for the row, which this crate equates with the type of the
// row.
// Kept: uses and row kinds are numbers, being entries of the image's tables (`use_of` and `both` of specs/variables/Free.antt, `row_from` of
// crate tables say what they stand for).
ghost use Rattle.std.specs.Prelude.{◌≡◌, ℕ, ◌&&◌, cond, map, ◌+◌, ◌*◌, ◌^◌, ◌≤◌, eqb, get_or};
ghost use Rattle.std.proofs.Math.Option.{some};
ghost use Rattle.std.proofs.Math.ListN.{get_elem?};
ghost use Rattle.syntax.specs.Syntax.{value};
ghost use Rattle.tables.specs.Tables.{cell, span, letter_of, known_of, letters_at, code_row_at, row_from};
ghost use Rattle.valid_scope.specs.variables.Free.{both, use_of, fits, fit_to};
ghost use Rattle.valid_scope.specs.variables.Uses.{parts_at, row_named, use_at, part_use, parts_use, code_use, row_use, respected_at, part_respected, parts_respected, row_respected};

// Entry i + k, 0 past the end; the sum may be too large for an index.
fn at_past(s: &[u16], i: usize, k: usize) -> usize
    ensures { result ≡ get_or s.now (i + k) 0 }
{
    match i.checked_add(k) {
        Some(j) => tables::at(s, j),
        None => 0,
    }
}

// ---- free variables

// How variable k is free in row t.
pub(crate) fn use_at(uses: &[u16], k: usize, t: usize) -> u16
    requires { 64 * t + 64 ≤ 2 ^ 64 }
    ensures { result ≡ use_at uses.now k t }
{
    if k < 64 {
        tables::entry_or(uses, 64 * t + k, 0)
    } else {
        0
    }
}

// One use beside another.
fn both(u: u16, w: u16) -> u16
    ensures { result ≡ both u w }
{
    match (u, w) {
        (0, _) => w,
        (_, 0) => u,
        _ => if u == w { u } else { 3 },
    }
}

// How variable k is free in variable a, which is of use u.
fn own(a: usize, k: usize, u: u16) -> u16
    ensures { result ≡ cond (eqb a k) u 0 }
{
    if a == k { u } else { 0 }
}

// The row that part i names, if it names one. A component stands in `parts` as its row, a register as one more than its row, or 0 if
// nothing is known of it: with `off` added, 1 or 0, they read alike.
fn named(parts: &[u16], i: usize, off: usize) -> Option<usize>
    requires { off ≤ 1 }
    ensures { (row_named result ≡ known_of (get_or parts.now i 0 + off)) × ((t : ℕ) → result ≡ Some t → t ≤ 65535) }
{
    (tables::at(parts, i) + off).checked_sub(1)
}

// How variable k is free in part i.
fn part_use(parts: &[u16], uses: &[u16], i: usize, off: usize, k: usize) -> u16
    requires { off ≤ 1 }
    ensures { result ≡ part_use uses.now k (known_of (get_or parts.now i 0 + off)) }
{
    match named(parts, i, off) {
        Some(t) => use_at(uses, k, t),
        None => 0,
    }
}

// How variable k is free in the n parts from p on.
fn parts_use(parts: &[u16], uses: &[u16], p: usize, n: usize, off: usize, k: usize) -> u16
    requires { (p ≤ 65535) × (n ≤ 65535) × (off ≤ 1) }
    ensures { result ≡ parts_use uses.now k (parts_at parts.now p n off) }
{
    let mut u = 0;
    for i in (0..n).rev() {
        u = both(part_use(parts, uses, p + i, off, k), u);
    }
    u
}

// How variable k is free in the stack s and the eight registers at p of a code row, under its letters.
fn code_use(parts: &[u16], uses: &[u16], s: usize, p: usize, k: usize) -> u16
    requires { (s ≤ 65535) × (p ≤ 65535) }
    ensures { result ≡ code_use uses.now s (parts_at parts.now p 8 0) k }
{
    both(use_at(uses, k, s), parts_use(parts, uses, p, 8, 0, k))
}

// How variable k is free in a row of kind c with the numbers a and b.
pub(crate) fn form_use(parts: &[u16], uses: &[u16], c: usize, a: usize, b: usize, k: usize) -> u16
    requires { (a ≤ 65535) × (b ≤ 65535) × (k ≤ 65535) }
    ensures { result ≡ row_use uses.now k (row_from parts.now c a b) }
{
    match c {
        0 | 1 | 7 => 0,
        2 => own(a, k, 1),
        3 => parts_use(parts, uses, a, b, 1, k),
        4 => use_at(uses, k, a),
        5 => code_use(parts, uses, a, b, tables::at(parts, b + 8) + k),
        6 => use_at(uses, k + 1, a),
        8 => own(a, k, 2),
        _ => both(use_at(uses, k, a), use_at(uses, k, b)),
    }
}

// ---- bound variables

// The use of a variable with this letter: 0 is v, all else s.
fn letter(x: usize) -> u16
    ensures { result ≡ use_of (letter_of x) }
{
    if x == 0 { 1 } else { 2 }
}

// A variable of use u may be a value variable.
pub(crate) fn is_value(u: u16) -> bool
    ensures { result ≡ fits u (some value) }
{
    u == 0 || u == 1
}

// Variable k, of use u, is one of the q letters at l and of its letter, or it is not used.
pub(crate) fn is_bound(parts: &[u16], u: u16, k: usize, q: usize, l: usize) -> bool
    ensures { result ≡ fits u (get_elem? (map letter_of (span parts.now l q)) k) }
{
    u == 0 || (k < q && u == letter(at_past(parts, l, k)))
}

// Each variable that is bound inside row t is of its letter.
fn respected_at(tops: &[u16], t: usize) -> bool
    ensures { result ≡ respected_at tops.now t }
{
    tables::at(tops, t) != 255
}

// The same inside part i.
fn part_respected(parts: &[u16], tops: &[u16], i: usize, off: usize) -> bool
    requires { off ≤ 1 }
    ensures { result ≡ part_respected tops.now (known_of (get_or parts.now i 0 + off)) }
{
    match named(parts, i, off) {
        Some(t) => respected_at(tops, t),
        None => true,
    }
}

// The same inside the n parts from p on.
fn parts_respected(parts: &[u16], tops: &[u16], p: usize, n: usize, off: usize) -> bool
    requires { (p ≤ 65535) × (n ≤ 65535) × (off ≤ 1) }
    ensures { result ≡ parts_respected tops.now (parts_at parts.now p n off) }
{
    (0..n).all(|i| part_respected(parts, tops, p + i, off))
}

// Each variable of the stack s and the registers at p that the code row itself binds is of its letter.
fn letters_respected(parts: &[u16], uses: &[u16], s: usize, p: usize) -> bool
    requires { (s ≤ 65535) × (p ≤ 65535) }
    ensures { result ≡ fit_to (letters_at parts.now p) (code_use uses.now s (parts_at parts.now p 8 0)) (get_or parts.now (p + 8) 0) }
{
    let q = tables::at(parts, p + 8);
    (0..q).all(|k| is_bound(parts, code_use(parts, uses, s, p, k), k, q, p + 9))
}

// Each variable that is bound inside the code row with the stack s and the registers at p is of its letter.
fn code_respected(parts: &[u16], uses: &[u16], tops: &[u16], s: usize, p: usize) -> bool
    requires { (s ≤ 65535) × (p ≤ 65535) }
    ensures { result ≡ row_respected uses.now tops.now (code_row_at parts.now s p) }
{
    respected_at(tops, s)
        && parts_respected(parts, tops, p, 8, 0)
        && letters_respected(parts, uses, s, p)
}

// The same inside a package's row: its own variable, which is variable 0 of row t, is a value variable.
fn hidden_respected(uses: &[u16], tops: &[u16], t: usize) -> bool
    requires { t ≤ 65535 }
    ensures { result ≡ (respected_at tops.now t && fits (use_at uses.now 0 t) (some value)) }
{
    respected_at(tops, t) && is_value(use_at(uses, 0, t))
}

// The same inside a row of kind c with the numbers a and b.
pub(crate) fn form_respected(
    parts: &[u16],
    uses: &[u16],
    tops: &[u16],
    c: usize,
    a: usize,
    b: usize,
) -> bool
    requires { (a ≤ 65535) × (b ≤ 65535) }
    ensures { result ≡ row_respected uses.now tops.now (row_from parts.now c a b) }
{
    match c {
        0 | 1 | 2 | 7 | 8 => true,
        3 => parts_respected(parts, tops, a, b, 1),
        4 => respected_at(tops, a),
        5 => code_respected(parts, uses, tops, a, b),
        6 => hidden_respected(uses, tops, a),
        _ => respected_at(tops, a) && respected_at(tops, b),
    }
}
