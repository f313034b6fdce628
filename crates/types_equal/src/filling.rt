// The code type of a row, its first variables filled by argument rows, compared with the type of a row (this crate), without building
// the filled type. The stack of a closed code type is seen at once to stay as it is where the arguments are the variables that they fill,
// as where a block jumps on with its own variables. The inside of a package is filled by one argument, and compared likewise.
// Promised: that the filled type is the other (`filled`, `fill` and `same` of crate types), and that no argument is of the wrong kind where
// it fills. Asked: that there are at most 514 rows and 64 environments, that a row called closed is, and 1,543 words for what is pending.
ghost use Rattle.std.specs.Prelude.{◌≡◌, true, [], map, ℕ, ◌-◌, ◌*◌, ◌≤◌, ◌<◌, length, get_or};
ghost use Rattle.types.specs.Types.{junk, arg, a_stack, Wf};
ghost use Rattle.syntax.specs.Syntax.{value};
ghost use Rattle.types.specs.Rows.{type_at, types_of, all_below};
ghost use Rattle.tables.specs.Tables.{rows_in};
ghost use Rattle.types_rows.specs.Read.{tab, args_of, lift};
ghost use Rattle.types_rows.specs.Environments.{read_in, shifted};
ghost use Rattle.types_equal.specs.Bounds.{filling_of, BodiesIn, Spare, Tabled, EnvsIn};
ghost use Rattle.types_equal.specs.stack_pairs.Fit.{same_stacks};
ghost use Rattle.types_equal.specs.filling.Filling.{fills_to, fill_codes, packs_to, FillsIn, CodeIn, LettersIn, variable_kind, Itself, LeftCode, Themselves};

use crate::names;
use crate::stack_pairs::{self, Context};
use crate::value_pairs::{self, Bodies};
use types_rows::{Held, Val};

// The kind of a row that is a variable of letter x, as the table of rows has it.
#[tactic(auto, unfolding(crate::specs::filling::Filling::variable_kind))]
fn variable_kind(x: usize) -> usize
    ensures { result ≡ variable_kind x }
{
    if x == 0 { 2 } else { 8 }
}

// Row a is variable j, of letter x.
fn is_itself(rows: &[u16], x: usize, a: usize, j: usize) -> bool
    requires { a ≤ 65535 }
    ensures { result ≡ true → Itself rows.now x a j }
{
    tables::cell::<4>(rows, a, 0) == variable_kind(x) && tables::cell::<4>(rows, a, 1) == j
}

// Each of the rows args is the variable of its place, of its letter at p.
fn all_themselves(rows: &[u16], parts: &[u16], p: usize, args: &[u16]) -> bool
    requires { (p ≤ 262144) × (length args.now ≤ 65535) }
    ensures { result ≡ true → Themselves rows.now parts.now p args.now (length args.now) }
{
    for (j, a) in args.iter().enumerate() {
        if !is_itself(rows, tables::at(parts, p + j), usize::from(*a), j) {
            return false;
        }
    }
    true
}

// Stack x of a closed code type, whose a letters stand behind its registers at p, is stack y, and args leave it as it is.
fn is_kept(
    rows: &[u16],
    parts: &[u16],
    args: &[u16],
    closed: bool,
    a: usize,
    x: usize,
    p: usize,
    y: usize,
) -> bool
    requires { LeftCode (tab rows.now parts.now) closed p a x (length args.now) }
    ensures { result ≡ true → (ρ : ℕ → ℕ) (b : ℕ) → true ≡ same_stacks (tab rows.now parts.now) (args_of (tab rows.now parts.now) args.now (length args.now)) ρ (a - length args.now) x (lift 0) b y }
{
    closed && x == y && all_themselves(rows, parts, p + 9 + (a - args.len()), args)
}

// The context of the left of two code types, with a letters, read in environment e and filled by m arguments, and of the right one, with b
// letters, read now.
fn filling(envs: &[u16], m: usize, e: usize, a: usize, b: usize) -> Context
    requires { (m ≤ a) × (a ≤ 65535) × LettersIn envs.now e b }
    ensures { result ≡ filling_of envs.now m e a b }
{
    Context {
        m: m as u32,
        by: 0,
        d: (a - m) as u32,
        env: e as u32,
        d2: b as u32,
        env2: stack_pairs::current(envs),
    }
}

// The stack of the left of two code types, with a letters, read in environment e and filled by args, is that of the right one, under b
// letters.
fn eq_filled(
    rows: &[u16],
    parts: &[u16],
    args: &[u16],
    envs: &[u16],
    closed: bool,
    e: usize,
    a: usize,
    b: usize,
    c: Bodies,
    pending: &mut [u32],
) -> bool
    requires { Tabled (tab rows.now parts.now) args.now (length args.now) c.x c.y × LeftCode (tab rows.now parts.now) closed c.p a c.x (length args.now) × LettersIn envs.now e b × Spare (length args.now) c.x c.y (length pending.old) }
    ensures { result ≡ same_stacks (tab rows.now parts.now) (args_of (tab rows.now parts.now) args.now (length args.now)) (shifted envs.now e 0) (a - length args.now) c.x (shifted envs.now (2 * length envs.now) 0) b c.y }
{
    let k = filling(envs, args.len(), e, a, b);
    is_kept(rows, parts, args, closed, a, c.x, c.p, c.y)
        || crate::eq_stack(rows, parts, args, envs, k, c.x, c.y, pending)
}

// The code type of row l, read in environment e and filled by args, is that of row r, of the given bodies.
fn fill_code(
    rows: &[u16],
    parts: &[u16],
    args: &[u16],
    envs: &[u16],
    closed: bool,
    l: Held,
    r: usize,
    c: Bodies,
    pending: &mut [u32],
) -> bool
    requires { Tabled (tab rows.now parts.now) args.now (length args.now) l.row r × CodeIn (tab rows.now parts.now) envs.now closed l c.x c.p × BodiesIn c l.row r × Spare (length args.now) l.row r (length pending.old) }
    ensures { result ≡ fill_codes (tab rows.now parts.now) args.now (shifted envs.now l.env 0) l.row c.x c.p r c.y c.q }
{
    let m = args.len();
    let a = types_rows::letter_count(parts, c.p);
    let b = types_rows::letter_count(parts, c.q);
    if a < m || !value_pairs::same_letters(parts, c.p + 9, a - m, c.q + 9, b) {
        return false;
    }
    let k = filling(envs, m, l.env, a, b);
    let s = value_pairs::registers(c.p, c.q);
    eq_filled(rows, parts, args, envs, closed, l.env, a, b, c, pending)
        && crate::eq_parts(rows, parts, args, envs, k, l.row, r, s, pending)
}

// As fill_code, by a table of names where the environment is odd.
fn fill_named(
    rows: &[u16],
    parts: &[u16],
    args: &[u16],
    envs: &[u16],
    closed: bool,
    l: Held,
    r: usize,
    c: Bodies,
    pending: &mut [u32],
) -> bool
    requires { Tabled (tab rows.now parts.now) args.now (length args.now) l.row r × CodeIn (tab rows.now parts.now) envs.now closed l c.x c.p × EnvsIn envs.now l.env 0 × BodiesIn c l.row r × Spare (length args.now) l.row r (length pending.old) }
    ensures { result ≡ fill_codes (tab rows.now parts.now) args.now (shifted envs.now l.env 0) l.row c.x c.p r c.y c.q }
{
    if l.env % 2 == 0 {
        return fill_code(rows, parts, args, envs, closed, l, r, c, pending);
    }
    let mut names = [0u16; 65];
    let Some(env) = names::number_of(envs, l.env, &mut names, 0) else {
        return fill_code(rows, parts, args, envs, closed, l, r, c, pending);
    };
    let h = Held { row: l.row, env };
    fill_code(rows, parts, args, &names, closed, h, r, c, pending)
}

// The code type of row c, of n rows, read in its environment, its first variables filled by the rows args (in the order of their
// variables), is the type of row t; the arguments and t are read now. False if c is no code row, if there are more arguments than letters,
// or if an argument of the wrong kind would fill a variable. `closed`: row c is known to have no free variable. The first 1,543 words of
// `pending` are used; what they hold does not matter.
pub fn filled(
    rows: &[u16],
    parts: &[u16],
    envs: &[u16],
    n: usize,
    c: Held,
    closed: bool,
    args: &[u16],
    t: usize,
    pending: &mut [u32],
) -> bool
    requires { FillsIn envs.now c.env n × (all_below n args.now ≡ true) × (closed ≡ true → Wf [] a_stack (type_at value (types_of (rows_in (tab rows.now parts.now) n)) c.row)) × (1543 ≤ length pending.old) }
    ensures { result ≡ fills_to (map (λ (x : ℕ). get_or (types_of (rows_in (tab rows.now parts.now) n)) x (arg value junk)) args.now) (read_in envs.now c.env (type_at value (types_of (rows_in (tab rows.now parts.now) n)) c.row)) (type_at value (types_of (rows_in (tab rows.now parts.now) n)) t) }
{
    let l = crate::link_of(n, c.row);
    let r = crate::link_of(n, t);
    let Val::Code(x, p) = types_rows::read_value(rows, l, 0, 0, 0) else {
        return false;
    };
    let Val::Code(y, q) = types_rows::read_value(rows, r, 0, 0, 0) else {
        return false;
    };
    let b = Bodies { x, p, y, q };
    let h = Held { row: l, env: c.env };
    let room = &mut pending[..1543];
    fill_named(rows, parts, args, envs, closed, h, r, b, room)
}

// The value type of row t, of n rows, its variable 0 filled by row a, is the type of row x read in its environment; a and t are read now.
// False if a stack row would fill a variable. The first 1,543 words of `pending` are used; what they hold does not matter.
pub fn packs(
    rows: &[u16],
    parts: &[u16],
    envs: &[u16],
    n: usize,
    x: Held,
    a: usize,
    t: usize,
    pending: &mut [u32],
) -> bool
    requires { FillsIn envs.now x.env n × (a < n) × (1543 ≤ length pending.old) }
    ensures { result ≡ packs_to (get_or (types_of (rows_in (tab rows.now parts.now) n)) a (arg value junk)) (type_at value (types_of (rows_in (tab rows.now parts.now) n)) t) (read_in envs.now x.env (type_at value (types_of (rows_in (tab rows.now parts.now) n)) x.row)) }
{
    let l = crate::link_of(n, t);
    let r = crate::link_of(n, x.row);
    let k = Context {
        m: 1,
        env: stack_pairs::current(envs),
        env2: x.env as u32,
        ..Context::default()
    };
    let room = &mut pending[..1543];
    names::eq_named(rows, parts, &[a as u16], envs, k, l, r, room)
}
