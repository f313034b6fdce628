// A stack row read from the top, item by item, each row that it leads to once (crate types_rows says what a row means in its context). The
// rows still to be read stand in a lent array, the next one on top; an argument that fills a variable is read in its place. The array holds
// two such lists, the left one in the low 16 bits of its words, the right one in the high 16 bits. Rows fall, so one entry more than the
// link of the first row is enough, and 514 more if there are arguments. Promised: what is pending is the next item and what is pending then
// (`NextIs`), and the other list stays as it is. Asked: that the array is as long as said.
ghost use Rattle.std.specs.Prelude.{◌≡◌, List, ℕ, suc, ◌+◌, ◌-◌, ◌≤◌, ◌<◌, length, get_or, set, Some};
ghost use Rattle.types_rows.specs.Read.{tab, args_of};
ghost use Rattle.types_rows.specs.Environments.{shifted, EnvironmentIn};
ghost use Rattle.types_equal.specs.pending.Pending.{half, other, list_of, room, Pends, Givens, Lent, arg_form, FormOf, NextIs};

use types_rows::Stk;

// Entries from here on are rows of an argument.
const GIVEN: usize = 32768;

// What the rows of a side are read in: past d binders the first m variables are filled by arguments, later ones are variables of
// environment env, raised by `by`.
#[derive(Clone, Copy, PartialEq, Eq)]
pub struct Setting {
    pub m: u32,
    pub by: u32,
    pub d: u32,
    pub env: u32,
}

// One of the two lists of an array.
#[derive(Clone, Copy)]
pub enum Side {
    Left,
    Right,
}

// What a value row is read in: the setting of its side, or, since it is of an argument, raised only.
#[derive(Clone, Copy)]
pub enum Source {
    Own,
    Given,
}

// What an entry leads to: no items; another entry; two; a value row on top of an entry; a variable.
#[derive(Clone, Copy)]
pub enum Form {
    Skip,
    One(usize),
    Two(usize, usize),
    Top(Source, usize, usize),
    Var(usize),
}

// The next item, a value row or a variable, and how many entries are pending then.
#[derive(Clone, Copy)]
pub enum Next {
    End,
    Row(Source, usize, usize),
    Var(usize, usize),
}

// A stack variable filled by row a; none if it is of the wrong kind.
fn arg_form(rows: &[u16], a: usize) -> Option<Form>
    requires { a ≤ 65535 }
    ensures { result ≡ arg_form rows.now a }
{
    types_rows::is_stack(rows, a).then_some(Form::One(GIVEN + 1 + a))
}

// Stack row h of an argument, raised by d.
fn given_form(rows: &[u16], d: usize, h: usize) -> Form
    requires { (h ≤ 65536) × (d ≤ 1099511627776) }
    ensures { (ps : List ℕ) (args : List ℕ) (m : ℕ) (ρ : ℕ → ℕ) → h ≤ 514 → FormOf (tab rows.now ps) (args_of (tab rows.now ps) args m) ρ d m (32768 + h) (Some result) }
{
    match types_rows::read_stack(rows, h, 0, d, 0) {
        Stk::StkVar(k) => Form::Var(k),
        Stk::Push(t, x) => Form::Top(Source::Given, t, GIVEN + x),
        Stk::Join(x, y) => Form::Two(GIVEN + x, GIVEN + y),
        Stk::Nil | Stk::StkFill(_) => Form::Skip,
    }
}

// Stack row h in its setting; none if an argument of the wrong kind would fill it.
fn own_form(rows: &[u16], args: &[u16], envs: &[u16], c: Setting, h: usize) -> Option<Form>
    requires { (h ≤ 32767) × EnvironmentIn envs.now c.env × Givens args.now c.m }
    ensures { (ps : List ℕ) → FormOf (tab rows.now ps) (args_of (tab rows.now ps) args.now c.m) (shifted envs.now c.env c.by) c.d c.m h result }
{
    match types_rows::stack_in(rows, envs, h, c.m, c.by, c.d, c.env) {
        Stk::Nil => Some(Form::Skip),
        Stk::StkVar(k) => Some(Form::Var(k)),
        Stk::StkFill(j) => arg_form(rows, tables::at(args, j)),
        Stk::Push(t, x) => Some(Form::Top(Source::Own, t, x)),
        Stk::Join(x, y) => Some(Form::Two(x, y)),
    }
}

// Entry e; none if an argument of the wrong kind would fill it.
fn form_of(rows: &[u16], args: &[u16], envs: &[u16], c: Setting, e: usize) -> Option<Form>
    requires { (e ≤ 33282) × EnvironmentIn envs.now c.env × Givens args.now c.m }
    ensures { (ps : List ℕ) → FormOf (tab rows.now ps) (args_of (tab rows.now ps) args.now c.m) (shifted envs.now c.env c.by) c.d c.m e result }
{
    if e < GIVEN {
        own_form(rows, args, envs, c, e)
    } else {
        Some(given_form(rows, c.d as usize, e - GIVEN))
    }
}

// The half of word w that is the side's.
#[tactic(auto, unfolding(crate::specs::pending::Pending::half))]
fn half_of(w: u32, side: Side) -> usize
    ensures { result ≡ half side w }
{
    match side {
        Side::Left => (w % 65536) as usize,
        Side::Right => (w / 65536) as usize,
    }
}

// Entry n of a side.
fn entry(pending: &[u32], side: Side, n: usize) -> usize
    requires { n < length pending.now }
    ensures { result ≡ get_or (list_of side pending.now) n 0 }
{
    half_of(pending[n], side)
}

// Word w with x for the side's half.
#[tactic(auto, unfolding(crate::specs::pending::Pending::half))]
fn with_half(w: u32, side: Side, x: u32) -> u32
    requires { x ≤ 65535 }
    ensures { (half side result ≡ x) × (half (other side) result ≡ half (other side) w) }
{
    match side {
        Side::Left => w / 65536 * 65536 + x,
        Side::Right => w % 65536 + x * 65536,
    }
}

// Stores x as entry n of a side; the other list stays as it is.
pub(crate) fn store(pending: &mut [u32], side: Side, n: usize, x: usize)
    requires { (n < length pending.old) × (x ≤ 65535) }
    ensures { (list_of side pending.new ≡ set (list_of side pending.old) n x) × (list_of (other side) pending.new ≡ list_of (other side) pending.old) }
{
    pending[n] = with_half(pending[n], side, x as u32);
}

// The next item of the first `top` entries pending on a side, none if an argument of the wrong kind would fill a variable; the other list
// stays as it is.
pub(crate) fn next_item(
    rows: &[u16],
    args: &[u16],
    envs: &[u16],
    c: Setting,
    pending: &mut [u32],
    side: Side,
    top: usize,
) -> Option<Next>
    requires { EnvironmentIn envs.now c.env × Lent args.now c.m (length pending.old) × Pends c.m (length pending.old - suc (room c.m)) (list_of side pending.old) top }
    ensures { ((ps : List ℕ) → NextIs (tab rows.now ps) (args_of (tab rows.now ps) args.now c.m) (shifted envs.now c.env c.by) c.d c.m (list_of side pending.old) top (list_of side pending.new) result) × (list_of (other side) pending.new ≡ list_of (other side) pending.old) }
{
    let mut n = top;
    // Kept: a `while`. n goes down by a row, and up by one that has two.
    while n > 0 {
        let form = form_of(rows, args, envs, c, entry(pending, side, n - 1))?;
        match form {
            Form::Skip => n -= 1,
            Form::One(x) => store(pending, side, n - 1, x),
            Form::Two(x, y) => {
                store(pending, side, n - 1, y);
                store(pending, side, n, x);
                n += 1;
            }
            Form::Top(source, t, x) => {
                store(pending, side, n - 1, x);
                return Some(Next::Row(source, t, n));
            }
            Form::Var(k) => return Some(Next::Var(k, n - 1)),
        }
    }
    Some(Next::End)
}
