// The contexts in which two rows are compared. Two stack rows side by side, each read item by item from the top (module pending): what is
// left to compare after their next items, and stacks that are seen at once to be equal, since they are the same row in the same context.
// Promised: each answer says what the comparison of the two stacks comes to (`fit_pending`, `same_stacks`). Asked: room for what is pending,
// and sums that are small enough.
ghost use Rattle.std.specs.Prelude.{◌≡◌, true, List, ℕ, ◌+◌, ◌*◌, ◌≤◌, length};
ghost use Rattle.types_rows.specs.Read.{tab, args_of};
ghost use Rattle.types_rows.specs.Environments.{shifted, EnvironmentIn};
ghost use Rattle.types_equal.specs.Bounds.{left_of, right_of, given_of, source_of, deeper_of, under_of, inside_of, Depths};
ghost use Rattle.types_equal.specs.pending.Pending.{list_of, Lent, PendsBoth};
ghost use Rattle.types_equal.specs.declared.pending.Side.TheVariants.{Left, Right};
ghost use Rattle.types_equal.specs.stack_pairs.Items.{duo_of};
ghost use Rattle.types_equal.specs.stack_pairs.Fit.{AtSame, same_stacks, DuoIs};

use crate::pending::{self, Next, Setting, Side, Source};
use crate::value_pairs::Within;
use types_rows::Stk;

// The context of the two sides: the first m variables of the left row past d are filled by arguments, later ones are variables of the
// environment env, raised by `by`; the variables of the right row past d2 are variables of env2. Of 32 bits each, since comparisons nest
// and each level keeps a copy.
#[derive(Clone, Copy, Default)]
pub struct Context {
    pub m: u32,
    pub by: u32,
    pub d: u32,
    pub env: u32,
    pub d2: u32,
    pub env2: u32,
}

// The setting of the left side.
pub(crate) fn left(k: Context) -> Setting
    ensures { result ≡ left_of k }
{
    Setting {
        m: k.m,
        by: k.by,
        d: k.d,
        env: k.env,
    }
}

// The setting of the right side.
pub(crate) fn right(k: Context) -> Setting
    ensures { result ≡ right_of k }
{
    Setting {
        m: 0,
        by: 0,
        d: k.d2,
        env: k.env2,
    }
}

// The environment of what is read now.
pub(crate) fn current(envs: &[u16]) -> u32
    requires { length envs.now ≤ 65535 }
    ensures { result ≡ 2 * length envs.now }
{
    (2 * envs.len()) as u32
}

// The context k with a row of an argument on the left: read now, raised by the depth.
pub(crate) fn given(envs: &[u16], k: Context) -> Context
    requires { length envs.now ≤ 65535 }
    ensures { result ≡ given_of envs.now k }
{
    Context {
        m: 0,
        by: k.d,
        d: 0,
        env: current(envs),
        ..k
    }
}

// The context k under a more binders on the left and b more on the right.
fn deeper(k: Context, a: usize, b: usize) -> Context
    requires { Depths k × (a ≤ 65535) × (b ≤ 65535) }
    ensures { result ≡ deeper_of k a b }
{
    Context {
        d: k.d + a as u32,
        d2: k.d2 + b as u32,
        ..k
    }
}

// The context k under the letters of two code rows, whose registers start at p and at q.
pub(crate) fn under(parts: &[u16], k: Context, p: usize, q: usize) -> Context
    requires { Depths k × (p ≤ 65535) × (q ≤ 65535) }
    ensures { (result ≡ under_of parts.now k p q) × (result.d ≤ k.d + 65535) × (result.d2 ≤ k.d2 + 65535) }
{
    let a = types_rows::letter_count(parts, p);
    let b = types_rows::letter_count(parts, q);
    deeper(k, a, b)
}

// The context of the two value rows that two value rows come to: of an argument's row, or of the insides of two packages.
pub(crate) fn inside(envs: &[u16], k: Context, within: Within) -> Context
    requires { Depths k × (length envs.now ≤ 65535) }
    ensures { result ≡ inside_of envs.now k within }
{
    match within {
        Within::Argument => given(envs, k),
        Within::Package => deeper(k, 1, 1),
    }
}

// The context of a value row of the left side, and of one of the right side, in the context k.
pub(crate) fn at_source(envs: &[u16], k: Context, source: Source) -> Context
    requires { length envs.now ≤ 65535 }
    ensures { result ≡ source_of envs.now k source }
{
    match source {
        Source::Own => k,
        Source::Given => given(envs, k),
    }
}

// What is left to compare of two stacks: nothing, they are equal; what is pending after an equal variable; two value rows, the left one of
// the given source, each with what is pending behind it.
#[derive(Clone, Copy)]
pub enum Duo {
    Over,
    Onward(usize, usize),
    Rows(Source, usize, usize, usize, usize),
}

// The next items a of the left and b of the right stack; none if they differ.
fn two_items(a: Next, b: Next) -> Option<Duo>
    ensures { result ≡ duo_of a b }
{
    match (a, b) {
        (Next::End, Next::End) => Some(Duo::Over),
        (Next::Row(s, t, n), Next::Row(Source::Own, u, o)) => Some(Duo::Rows(s, t, n, u, o)),
        (Next::Var(k, n), Next::Var(i, o)) => (k == i).then_some(Duo::Onward(n, o)),
        _ => None,
    }
}

// The next items of the i entries pending on the left and the j entries pending on the right; none if the two differ.
pub(crate) fn next_pair(
    rows: &[u16],
    args: &[u16],
    envs: &[u16],
    k: Context,
    pending: &mut [u32],
    i: usize,
    j: usize,
) -> Option<Duo>
    requires { EnvironmentIn envs.now k.env × EnvironmentIn envs.now k.env2 × Lent args.now k.m (length pending.old) × PendsBoth k.m pending.old i j }
    ensures { (ps : List ℕ) → DuoIs (tab rows.now ps) (args_of (tab rows.now ps) args.now k.m) k.m (shifted envs.now k.env k.by) k.d (shifted envs.now k.env2 0) k.d2 (list_of Left pending.old) i (list_of Right pending.old) j (list_of Left pending.new) (list_of Right pending.new) result }
{
    let a = pending::next_item(rows, args, envs, left(k), pending, Side::Left, i)?;
    let b = pending::next_item(rows, args, envs, right(k), pending, Side::Right, j)?;
    two_items(a, b)
}

// The same row in the same context, with no arguments.
pub(crate) fn same_place(k: Context, l: usize, r: usize) -> bool
    ensures { result ≡ true → AtSame k l r }
{
    l == r && left(k) == right(k)
}

// Stack rows l and r are seen at once to be equal: the same row in the same context, also where l is a variable that an argument fills.
pub(crate) fn same_stack(
    rows: &[u16],
    args: &[u16],
    envs: &[u16],
    k: Context,
    l: usize,
    r: usize,
) -> bool
    requires { (l ≤ 65536) × EnvironmentIn envs.now k.env }
    ensures { result ≡ true → (ps : List ℕ) → true ≡ same_stacks (tab rows.now ps) (args_of (tab rows.now ps) args.now k.m) (shifted envs.now k.env k.by) k.d l (shifted envs.now k.env2 0) k.d2 r }
{
    let Stk::StkFill(j) = types_rows::stack_in(rows, envs, l, k.m, k.by, k.d, k.env) else {
        return same_place(k, l, r);
    };
    let a = tables::at(args, j);
    types_rows::is_stack(rows, a) && same_place(given(envs, k), a + 1, r)
}
