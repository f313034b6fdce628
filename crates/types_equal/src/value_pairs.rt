// Two value rows side by side (crate types_rows): what is left to compare of their forms, of two parts (components or registers), and
// whether two code rows have the same letters. The crate's own file goes on with what is left. Promised: each answer is that of
// specs/value_pairs/Pairs.antt, and of `same_letters` of crate types. Asked: that the places of registers and letters are small enough to
// be added up.
ghost use Rattle.std.specs.Prelude.{◌≡◌, true, false, cond, [], ◌∷◌, ◌+◌, ◌≤◌, Some, None};
ghost use Rattle.types.specs.Equal.{same_letters};
ghost use Rattle.tables.specs.Tables.{letter_of, letters_at};
ghost use Rattle.types_rows.specs.Read.{tab};
ghost use Rattle.types_equal.specs.declared.value_pairs.Pair.TheVariants.{Codes};
ghost use Rattle.types_equal.specs.value_pairs.Pairs.{pair_fill, pair_of, span_of, Placed, slots_of, letters_from};

use types_rows::Val;

// What is left to compare of two value rows of one form: nothing, they are equal; components; stacks; the stacks and registers of code with
// the same letters; value rows that stand within them.
#[derive(Clone, Copy)]
pub enum Pair {
    Same,
    Tuples(usize, usize, usize),
    Pointers(usize, usize),
    Codes(usize, usize, usize, usize),
    Inside(Within, usize, usize),
}

// Where two value rows stand that two others come to: the left one is an argument that fills the left row, or both are inside packages.
#[derive(Clone, Copy)]
pub enum Within {
    Argument,
    Package,
}

// Two code types: the stack x and where the registers start, p, of the left one, y and q of the right one.
#[derive(Clone, Copy)]
pub struct Bodies {
    pub x: usize,
    pub p: usize,
    pub y: usize,
    pub q: usize,
}

// n parts from p on the left and from q on the right: registers if `file`, else components.
// Kept: `file` is the flag that types_rows::part takes, and that `parts_of` of its specs speaks of.
#[derive(Clone, Copy)]
pub struct Span {
    pub file: bool,
    pub p: u16,
    pub q: u16,
    pub n: u16,
}

// The rows that are left to compare of two parts: no row and no row for two gaps.
#[derive(Clone, Copy)]
pub struct Heads {
    pub left: usize,
    pub right: usize,
}

// Code rows with the stacks x and y, whose registers start at p and at q: none if their letters differ.
fn if_letters(parts: &[u16], x: usize, p: usize, y: usize, q: usize) -> Option<Pair>
    requires { (p ≤ 65535) × (q ≤ 65535) }
    ensures { result ≡ cond (same_letters (letters_at parts.now p) (letters_at parts.now q)) (Some (Codes x p y q)) None }
{
    let a = types_rows::letter_count(parts, p);
    let b = types_rows::letter_count(parts, q);
    same_letters(parts, p + 9, a, q + 9, b).then_some(Pair::Codes(x, p, y, q))
}

// A row that is filled by row a, beside row r.
fn with_fill(rows: &[u16], a: usize, r: usize) -> Option<Pair>
    requires { a ≤ 65535 }
    ensures { result ≡ pair_fill rows.now a r }
{
    if types_rows::is_stack(rows, a) {
        None
    } else {
        Some(Pair::Inside(Within::Argument, a + 1, r))
    }
}

// What is left to compare of the forms n and w, that of row r; none if they differ.
pub(crate) fn pair_up(
    rows: &[u16],
    parts: &[u16],
    args: &[u16],
    n: Val,
    w: Val,
    r: usize,
) -> Option<Pair>
    requires { Placed n × Placed w }
    ensures { result ≡ pair_of (tab rows.now parts.now) args.now r n w }
{
    match (n, w) {
        (Val::ValFill(j), _) => with_fill(rows, tables::at(args, j), r),
        (Val::Int, Val::Int) => Some(Pair::Same),
        (Val::Junk, Val::Junk) => Some(Pair::Same),
        (Val::ValVar(k), Val::ValVar(i)) => (k == i).then_some(Pair::Same),
        (Val::Tuple(p, c), Val::Tuple(q, d)) => (c == d).then_some(Pair::Tuples(p, q, c)),
        (Val::Pointer(x), Val::Pointer(y)) => Some(Pair::Pointers(x, y)),
        (Val::Code(x, p), Val::Code(y, q)) => if_letters(parts, x, p, y, q),
        (Val::Hidden(x), Val::Hidden(y)) => Some(Pair::Inside(Within::Package, x, y)),
        _ => None,
    }
}

// n components from p and from q on.
pub(crate) fn components(p: usize, q: usize, n: usize) -> Span
    requires { (p ≤ 65535) × (q ≤ 65535) × (n ≤ 65535) }
    ensures { result ≡ span_of false p q n }
{
    Span {
        file: false,
        p: p as u16,
        q: q as u16,
        n: n as u16,
    }
}

// The registers from p and from q on.
pub(crate) fn registers(p: usize, q: usize) -> Span
    requires { (p ≤ 65535) × (q ≤ 65535) }
    ensures { result ≡ span_of true p q 8 }
{
    Span {
        file: true,
        p: p as u16,
        q: q as u16,
        n: 8,
    }
}

// What is left to compare of the parts x and y; none if one is a gap and the other is not.
pub(crate) fn two_slots(x: Option<usize>, y: Option<usize>) -> Option<Heads>
    ensures { result ≡ slots_of x y }
{
    match (x, y) {
        (None, None) => Some(Heads { left: 0, right: 0 }),
        (Some(left), Some(right)) => Some(Heads { left, right }),
        _ => None,
    }
}

fn same_letter(x: usize, y: usize) -> bool
    ensures { result ≡ same_letters (letter_of x ∷ []) (letter_of y ∷ []) }
{
    (x == 0) == (y == 0)
}

// The a letters at p and the b letters at q are the same.
pub(crate) fn same_letters(parts: &[u16], p: usize, a: usize, q: usize, b: usize) -> bool
    requires { (p + a ≤ 262144) × (q + b ≤ 262144) }
    ensures { result ≡ same_letters (letters_from parts.now p a) (letters_from parts.now q b) }
{
    if a != b {
        return false;
    }
    for i in 0..a {
        if !same_letter(tables::at(parts, p + i), tables::at(parts, q + i)) {
            return false;
        }
    }
    true
}
