// Equality of the types that rows stand for (crate types_rows). A stack is compared as its list of items, so that two rows of different
// shape can be equal: both lists are read from the top, each row once (modules pending and stack_pairs; value_pairs has what is left of two
// value rows, filling the filled types). The left row stands in a context: some of its variables are filled by argument rows, the others
// are those of an environment (crate types_rows; module names makes tables of environments), raised. The right row has no arguments. Value
// rows and stack rows are compared by rules that call each other; the row number falls. The same row in the same context is seen at once to
// be equal. Promised: the test `same` of crate types of the two types, and that no argument is of the wrong kind where it fills. Asked:
// that there are at most 514 rows, which bounds what is pending, at most 64 environments, and 1,543 words for what is pending, whatever
// they hold. Row numbers are links, as in crate types_rows.
#![tactic(auto)]

pub mod filling;
pub mod names;
pub mod pending;
pub mod stack_pairs;
pub mod value_pairs;

ghost use Rattle.std.specs.Prelude.{◌≡◌, ◌+◌, ◌≤◌, length};
ghost use Rattle.syntax.specs.Syntax.{value, stack};
ghost use Rattle.types.specs.Equal.{same};
ghost use Rattle.types.specs.Rows.{type_at, types_of};
ghost use Rattle.tables.specs.Tables.{rows_in};
ghost use Rattle.types_rows.specs.Read.{tab, lower, args_of};
ghost use Rattle.types_rows.specs.Environments.{read_in, shifted};
ghost use Rattle.types_equal.specs.Bounds.{BothSmall, Rooms, PartRooms, SpanIn, Spare, Tabled};
ghost use Rattle.types_equal.specs.stack_pairs.Fit.{fit_values, fit_parts, same_stacks};

use crate::pending::Side;
use crate::stack_pairs::{Context, Duo};
use crate::value_pairs::{Pair, Span};
use types_rows::Held;

// Value row l in its context equals value row r in its own.
#[cycle(eq_parts_eq_stack_eq_value)]
pub(crate) fn eq_value(
    rows: &[u16],
    parts: &[u16],
    args: &[u16],
    envs: &[u16],
    k: Context,
    l: usize,
    r: usize,
    pending: &mut [u32],
) -> bool
    requires { Tabled (tab rows.now parts.now) args.now k.m l r × Rooms envs.now k l r × Spare k.m l r (length pending.old) }
    ensures { result ≡ fit_values (tab rows.now parts.now) (args_of (tab rows.now parts.now) args.now k.m) (shifted envs.now k.env k.by) k.d l (shifted envs.now k.env2 0) k.d2 r }
{
    if stack_pairs::same_place(k, l, r) {
        return true;
    }
    let v = types_rows::value_in(rows, envs, l, k.m, k.by, k.d, k.env);
    let w = types_rows::value_in(rows, envs, r, 0, 0, k.d2, k.env2);
    let Some(pair) = value_pairs::pair_up(rows, parts, args, v, w, r) else {
        return false;
    };
    // The context of what is left; one, since comparisons nest and each level keeps it.
    let mut t = k;
    match pair {
        Pair::Same => true,
        Pair::Tuples(p, q, n) => {
            let s = value_pairs::components(p, q, n);
            eq_parts(rows, parts, args, envs, t, l, r, s, pending)
        }
        Pair::Pointers(x, y) => eq_stack(rows, parts, args, envs, t, x, y, pending),
        Pair::Codes(x, p, y, q) => {
            t = stack_pairs::under(parts, k, p, q);
            if !eq_stack(rows, parts, args, envs, t, x, y, pending) {
                return false;
            }
            let s = value_pairs::registers(p, q);
            eq_parts(rows, parts, args, envs, t, l, r, s, pending)
        }
        Pair::Inside(within, x, y) => {
            t = stack_pairs::inside(envs, k, within);
            eq_value(rows, parts, args, envs, t, x, y, pending)
        }
    }
}

// The parts of row l equal those of row r, of the given span. Part of eq_value, so that a level of nested rows has one frame, not two.
#[cycle(eq_parts_eq_stack_eq_value)]
#[inline(always)]
pub(crate) fn eq_parts(
    rows: &[u16],
    parts: &[u16],
    args: &[u16],
    envs: &[u16],
    k: Context,
    l: usize,
    r: usize,
    s: Span,
    pending: &mut [u32],
) -> bool
    requires { Tabled (tab rows.now parts.now) args.now k.m l r × PartRooms envs.now k l r × SpanIn s × Spare k.m l r (length pending.old) }
    ensures { result ≡ fit_parts (tab rows.now parts.now) (args_of (tab rows.now parts.now) args.now k.m) (shifted envs.now k.env k.by) k.d s.file l s.p (shifted envs.now k.env2 0) k.d2 r s.q s.n }
{
    // The loop's invariant speaks of locals, and of no parameter that is a struct.
    let file = s.file;
    let p = usize::from(s.p);
    let q = usize::from(s.q);
    let n = usize::from(s.n);
    for i in 0..n {
        let x = types_rows::part(parts, file, l, p + i);
        let y = types_rows::part(parts, file, r, q + i);
        let Some(h) = value_pairs::two_slots(x, y) else {
            return false;
        };
        if !eq_value(rows, parts, args, envs, k, h.left, h.right, pending) {
            return false;
        }
    }
    true
}

// Stack row l in its context equals stack row r. The rows still to be read stand in `pending`; what is compared on the way uses the words
// behind them.
#[cycle(eq_parts_eq_stack_eq_value)]
pub(crate) fn eq_stack(
    rows: &[u16],
    parts: &[u16],
    args: &[u16],
    envs: &[u16],
    k: Context,
    l: usize,
    r: usize,
    pending: &mut [u32],
) -> bool
    requires { Tabled (tab rows.now parts.now) args.now k.m l r × Rooms envs.now k l r × Spare k.m l r (length pending.old) }
    ensures { result ≡ same_stacks (tab rows.now parts.now) (args_of (tab rows.now parts.now) args.now k.m) (shifted envs.now k.env k.by) k.d l (shifted envs.now k.env2 0) k.d2 r }
{
    if stack_pairs::same_stack(rows, args, envs, k, l, r) {
        return true;
    }
    pending::store(pending, Side::Left, 0, l);
    pending::store(pending, Side::Right, 0, r);
    let mut i = 1;
    let mut j = 1;
    while let Some(duo) = stack_pairs::next_pair(rows, args, envs, k, pending, i, j) {
        match duo {
            Duo::Over => return true,
            Duo::Onward(a, b) => {
                i = a;
                j = b;
            }
            Duo::Rows(source, t, a, u, b) => {
                let g = stack_pairs::at_source(envs, k, source);
                let behind = &mut pending[a.max(b)..];
                if !eq_value(rows, parts, args, envs, g, t, u, behind) {
                    return false;
                }
                i = a;
                j = b;
            }
        }
    }
    false
}

// The link to row x of n rows: none if there is no such row.
pub(crate) fn link_of(n: usize, x: usize) -> usize
    requires { n ≤ 514 }
    ensures { result ≡ lower (n + 1) x }
{
    if x < n { x + 1 } else { 0 }
}

// Kept: equal_values and equal_stacks differ in the comparison that they call; passing it to a third function is no plainer.
// The value types of rows l and r, of n rows, are equal. The first 1,543 words of `pending` are used; what they hold does not matter.
pub fn equal_values(
    rows: &[u16],
    parts: &[u16],
    n: usize,
    l: usize,
    r: usize,
    pending: &mut [u32],
) -> bool
    requires { (n ≤ 514) × (1543 ≤ length pending.old) }
    ensures { result ≡ same (type_at value (types_of (rows_in (tab rows.now parts.now) n)) l) (type_at value (types_of (rows_in (tab rows.now parts.now) n)) r) }
{
    let x = link_of(n, l);
    let y = link_of(n, r);
    let room = &mut pending[..1543];
    eq_value(rows, parts, rows, &[], Context::default(), x, y, room)
}

// The value types of rows l and r, of n rows, each read in its environment, are equal. The first 1,543 words of `pending` are used; what
// they hold does not matter.
pub fn equal_held(
    rows: &[u16],
    parts: &[u16],
    envs: &[u16],
    n: usize,
    l: Held,
    r: Held,
    pending: &mut [u32],
) -> bool
    requires { (n ≤ 514) × (length envs.now ≤ 64) × BothSmall l r × (1543 ≤ length pending.old) }
    ensures { result ≡ same (read_in envs.now l.env (type_at value (types_of (rows_in (tab rows.now parts.now) n)) l.row)) (read_in envs.now r.env (type_at value (types_of (rows_in (tab rows.now parts.now) n)) r.row)) }
{
    let x = link_of(n, l.row);
    let y = link_of(n, r.row);
    let k = Context {
        env: l.env as u32,
        env2: r.env as u32,
        ..Context::default()
    };
    names::eq_named(rows, parts, rows, envs, k, x, y, &mut pending[..1543])
}

// The stack types of rows l and r, of n rows, are equal. The first 1,543 words of `pending` are used; what they hold does not matter.
pub fn equal_stacks(
    rows: &[u16],
    parts: &[u16],
    n: usize,
    l: usize,
    r: usize,
    pending: &mut [u32],
) -> bool
    requires { (n ≤ 514) × (1543 ≤ length pending.old) }
    ensures { result ≡ same (type_at stack (types_of (rows_in (tab rows.now parts.now) n)) l) (type_at stack (types_of (rows_in (tab rows.now parts.now) n)) r) }
{
    let x = link_of(n, l);
    let y = link_of(n, r);
    let room = &mut pending[..1543];
    eq_stack(rows, parts, rows, &[], Context::default(), x, y, room)
}
