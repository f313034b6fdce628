// The environments of a comparison, looked up once. A walk through the environments of packages may be long, and a comparison meets many
// variables; so where an environment is odd, its names are written into a table (crate types_rows), and the rows are compared with the
// tables in the place of the environments. Even environments need no table.
// Promised: the answer of the comparison itself. Asked: what it asks, and few environments.
ghost use Rattle.std.specs.Prelude.{◌≡◌, ℕ, ◌+◌, ◌≤◌, ◌<◌, length, get_or, IfSome};
ghost use Rattle.types_rows.specs.Read.{tab, args_of};
ghost use Rattle.types_rows.specs.Environments.{shifted};
ghost use Rattle.types_equal.specs.Bounds.{Rooms, Spare, Tabled, EnvsIn};
ghost use Rattle.types_equal.specs.stack_pairs.Fit.{fit_values};
ghost use Rattle.types_equal.specs.names.Names.{Stands, Both};

use crate::stack_pairs::Context;

// What stands for the environments of the two sides.
#[derive(Clone, Copy)]
pub struct Sides {
    pub left: usize,
    pub right: usize,
}

// What stands for environment e in `names`, which gets its table from entry f on if it is odd; none if it has no table.
pub(crate) fn number_of(envs: &[u16], e: usize, names: &mut [u16], f: usize) -> Option<usize>
    requires { (length envs.now ≤ 64) × (e ≤ 65535) × (f + 65 ≤ length names.old) × (length names.old ≤ 256) }
    ensures { IfSome result (λ a. (a ≤ 131072) × Stands envs.now e names.new (f + 65) a) × ((i : ℕ) → i < f → get_or names.new i 0 ≡ get_or names.old i 0) }
{
    if e % 2 == 0 {
        Some(2 * (names.len() - types_rows::variables::variable(envs, e, 0)))
    } else {
        types_rows::variables::write_names(envs, e, names, f).then_some(65537 + 2 * f)
    }
}

// What stands for environments e and g in `names`: the same for the same.
fn look_up(envs: &[u16], e: usize, g: usize, names: &mut [u16]) -> Option<Sides>
    requires { EnvsIn envs.now e g × (130 ≤ length names.old) × (length names.old ≤ 256) }
    ensures { IfSome result (λ s. (s.left ≤ 131072) × (s.right ≤ 131072) × Both envs.now e g names.new s.left s.right) }
{
    let left = number_of(envs, e, names, 0)?;
    if e == g {
        return Some(Sides { left, right: left });
    }
    let right = number_of(envs, g, names, 65)?;
    Some(Sides { left, right })
}

// As crate::eq_value, by tables. Apart from eq_named, so that a comparison without tables has none on the stack.
#[inline(never)]
fn eq_tabled(
    rows: &[u16],
    parts: &[u16],
    args: &[u16],
    envs: &[u16],
    k: Context,
    l: usize,
    r: usize,
    pending: &mut [u32],
) -> bool
    requires { Tabled (tab rows.now parts.now) args.now k.m l r × Rooms envs.now k l r × EnvsIn envs.now k.env k.env2 × Spare k.m l r (length pending.old) }
    ensures { result ≡ fit_values (tab rows.now parts.now) (args_of (tab rows.now parts.now) args.now k.m) (shifted envs.now k.env k.by) k.d l (shifted envs.now k.env2 0) k.d2 r }
{
    let mut names = [0u16; 130];
    let Some(s) = look_up(envs, k.env as usize, k.env2 as usize, &mut names) else {
        return crate::eq_value(rows, parts, args, envs, k, l, r, pending);
    };
    let t = Context {
        env: s.left as u32,
        env2: s.right as u32,
        ..k
    };
    crate::eq_value(rows, parts, args, &names, t, l, r, pending)
}

// As crate::eq_value, by tables where an environment is odd.
pub(crate) fn eq_named(
    rows: &[u16],
    parts: &[u16],
    args: &[u16],
    envs: &[u16],
    k: Context,
    l: usize,
    r: usize,
    pending: &mut [u32],
) -> bool
    requires { Tabled (tab rows.now parts.now) args.now k.m l r × Rooms envs.now k l r × EnvsIn envs.now k.env k.env2 × Spare k.m l r (length pending.old) }
    ensures { result ≡ fit_values (tab rows.now parts.now) (args_of (tab rows.now parts.now) args.now k.m) (shifted envs.now k.env k.by) k.d l (shifted envs.now k.env2 0) k.d2 r }
{
    if k.env % 2 == 0 && k.env2 % 2 == 0 {
        crate::eq_value(rows, parts, args, envs, k, l, r, pending)
    } else {
        eq_tabled(rows, parts, args, envs, k, l, r, pending)
    }
}
