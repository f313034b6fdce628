// Type rows read from the decoded tables (crate tables): a row's form, its parts and letters, and the items of a stack row by position.
// Sizes are taken in modules size and measure, items counted in item_counts. A row is named by a link: one more than its number, or 0 for
// no row. What a row names that is not a lower row is no row, and no row reads as junk, or as a stack of no items. So every read is total,
// and links fall from a row to what it names. Past d binders of its own a row's first m variables may be filled by arguments; later ones
// come down by m, may be variables of an environment (module variables), and go up by `by`. What a row means is defined in
// specs/Read.antt; proofs/Bridge.antt: that is the type that document 01 gives it.
#![tactic(auto)]

pub mod item_counts;
pub mod measure;
pub mod size;
pub mod variables;

ghost use Rattle.std.specs.Prelude.{◌≡◌, ◌+◌, ◌-◌, ◌*◌, ◌≤◌, ◌<◌, [], length, get_or};
ghost use Rattle.tables.specs.Tables.{cell};
ghost use Rattle.types_rows.specs.Read.{tab, lower, value_with, stack_with, value_at, stack_at, place_v, place_s, OkV, OkS, slot_at, OkSlot, items_at, CountedTo, is_stack_at, ItemOf, lift, stack_under, down_of, Narrowed, head_of};
ghost use Rattle.types_rows.specs.Environments.{var_in, shifted, EnvironmentIn};
ghost use Rattle.types_rows.specs.declared.Stk.TheVariants.{StkVar};

// A value row; a row of another sort is junk. A variable is placed: it stays one, or it is filled by argument j.
#[derive(Clone, Copy)]
pub enum Val {
    Int,
    Junk,
    ValVar(usize),
    ValFill(usize),
    // where its components start, and how many
    Tuple(usize, usize),
    Pointer(usize),
    // its stack, and where its registers start
    Code(usize, usize),
    Hidden(usize),
}

// A stack row; a row of another sort has no items.
#[derive(Clone, Copy)]
pub enum Stk {
    Nil,
    StkVar(usize),
    StkFill(usize),
    Push(usize, usize),
    Join(usize, usize),
}

// An item of a stack: a value row, or a stack variable.
#[derive(Clone, Copy)]
pub enum Item {
    Val(usize),
    Var(usize),
}

// Item `at` of stack row `row`.
#[derive(Clone, Copy)]
pub struct Place {
    pub row: usize,
    pub at: usize,
}

// A row, and the environment that it was read in.
#[derive(Clone, Copy)]
pub struct Held {
    pub row: usize,
    pub env: usize,
}

// Entry k of row r, 0 past the end. `tables::cell` says the same of any record, and tests for that; to read rows is most of the work of a
// comparison, so it is done without.
pub fn entry(rows: &[u16], r: usize, k: usize) -> usize
    requires { (r ≤ 65536) × (k ≤ 3) }
    ensures { (result ≡ cell 4 rows.now r k) × (result ≤ 65535) }
{
    tables::at(rows, 4 * r + k)
}

// The link to row x, which the row h names.
pub fn link(h: usize, x: usize) -> usize
    requires { x ≤ 65535 }
    ensures { result ≡ lower h x }
{
    if x + 1 < h { x + 1 } else { 0 }
}

// How many items the stack row h has, as counted before.
pub fn item_count(rows: &[u16], h: usize) -> usize
    requires { h ≤ 65536 }
    ensures { (result ≡ items_at rows.now h) × (result ≤ 65535) }
{
    if h == 0 { 0 } else { entry(rows, h - 1, 3) }
}

// Row r is a stack row.
pub fn is_stack(rows: &[u16], r: usize) -> bool
    requires { r ≤ 65536 }
    ensures { result ≡ is_stack_at rows.now r }
{
    entry(rows, r, 0) >= 7
}

// Variable k past d binders: one of theirs stays, the first m others are filled by arguments, later ones come down by m and go up by `by`.
fn placed<T, V: Fn(usize) -> T, F: Fn(usize) -> T>(
    k: usize,
    m: usize,
    by: usize,
    d: usize,
    variable: V,
    filled: F,
) -> T
    requires { (k ≤ 65535) × (by + d ≤ 1099511627776) × V.IsAlwaysCallable variable × F.IsAlwaysCallable filled }
    ensures bound { k < d → V.post variable k result }
    ensures filled { d ≤ k → k - d < m → F.post filled (k - d) result }
    ensures free { d ≤ k → m ≤ k - d → V.post variable ((((k - d) - m) + by) + d) result }
{
    if k < d {
        variable(k)
    } else if k - d < m {
        filled(k - d)
    } else {
        variable(k - d - m + by + d)
    }
}

// Kept: read_value and read_stack test the kind in turn. With a `match` reading a row took a sixth longer, and the check of a typical text 2.6
// in a hundred instructions more.
// Row h as a value: past d binders of its own the first m variables are filled by arguments, later ones come down by m and go up by `by`.
#[tactic(auto, using(crate::proofs::Laws::lower_low, crate::proofs::Laws::value_link), unfolding(crate::specs::Read::value_with))]
pub fn read_value(rows: &[u16], h: usize, m: usize, by: usize, d: usize) -> Val
    requires { (h ≤ 65536) × (by + d ≤ 1099511627776) }
    ensures { (result ≡ value_at rows.now (place_v m (lift by) d) h) × OkV m h result }
{
    if h == 0 {
        return Val::Junk;
    }
    let kind = entry(rows, h - 1, 0);
    let a = entry(rows, h - 1, 1);
    let b = entry(rows, h - 1, 2);
    if kind == 0 {
        Val::Int
    } else if kind == 2 {
        placed(a, m, by, d, Val::ValVar, Val::ValFill)
    } else if kind == 3 {
        Val::Tuple(a, b)
    } else if kind == 4 {
        Val::Pointer(link(h, a))
    } else if kind == 5 {
        Val::Code(link(h, a), b)
    } else if kind == 6 {
        Val::Hidden(link(h, a))
    } else {
        Val::Junk
    }
}

// The same of a stack.
#[tactic(auto, using(crate::proofs::Laws::lower_low, crate::proofs::Laws::stack_link), unfolding(crate::specs::Read::stack_with))]
pub fn read_stack(rows: &[u16], h: usize, m: usize, by: usize, d: usize) -> Stk
    requires { (h ≤ 65536) × (by + d ≤ 1099511627776) }
    ensures { (result ≡ stack_at rows.now (place_s m (lift by) d) h) × OkS m h result }
{
    if h == 0 {
        return Stk::Nil;
    }
    let kind = entry(rows, h - 1, 0);
    let a = entry(rows, h - 1, 1);
    let b = entry(rows, h - 1, 2);
    if kind < 8 {
        Stk::Nil
    } else if kind == 8 {
        placed(a, m, by, d, Stk::StkVar, Stk::StkFill)
    } else if kind == 9 {
        Stk::Push(link(h, a), link(h, b))
    } else {
        Stk::Join(link(h, a), link(h, b))
    }
}

// Kept: value_in and stack_in are two. A function for both would take the reader and the constructor besides, and be longer than they are.
// Row h as a value, as read_value, but a variable that is free and not filled is a variable of environment e, raised by `by`.
pub fn value_in(rows: &[u16], envs: &[u16], h: usize, m: u32, by: u32, d: u32, e: u32) -> Val
    requires { (h ≤ 65536) × EnvironmentIn envs.now e }
    ensures { (result ≡ value_at rows.now (place_v m (shifted envs.now e by) d) h) × OkV m h result }
{
    match crate::variables::free_variable(rows, envs, 2, h, m, by, d, e) {
        Some(x) => Val::ValVar(x),
        None => read_value(rows, h, m as usize, by as usize, d as usize),
    }
}

// The same of a stack.
pub fn stack_in(rows: &[u16], envs: &[u16], h: usize, m: u32, by: u32, d: u32, e: u32) -> Stk
    requires { (h ≤ 65536) × EnvironmentIn envs.now e }
    ensures { (result ≡ stack_at rows.now (place_s m (shifted envs.now e by) d) h) × OkS m h result }
{
    match crate::variables::free_variable(rows, envs, 8, h, m, by, d, e) {
        Some(x) => Stk::StkVar(x),
        None => read_stack(rows, h, m as usize, by as usize, d as usize),
    }
}

// The row that part p of row h names, a register if `file`, else a component; a register may name none.
pub fn part(parts: &[u16], file: bool, h: usize, p: usize) -> Option<usize>
    requires { 0 < h }
    ensures { (result ≡ slot_at file h (get_or parts.now p 0)) × OkSlot h result }
{
    let x = tables::at(parts, p);
    match (file, x) {
        (true, 0) => None,
        (true, _) => Some(link(h, x - 1)),
        (false, _) => Some(link(h, x)),
    }
}

// How many letters the code row has whose registers start at p.
pub fn letter_count(parts: &[u16], p: usize) -> usize
    requires { p ≤ 65535 }
    ensures { (result ≡ get_or parts.now (p + 8) 0) × (result ≤ 65535) }
{
    tables::at(parts, p + 8)
}

// Where the n items of stack row r from item j on stand one row further down, if one of the rows that it names has them all.
fn one_down(rows: &[u16], r: usize, j: usize, n: usize) -> Option<Place>
    requires { r ≤ 65536 }
    ensures { result ≡ down_of rows.now (stack_at rows.now StkVar r) j n }
{
    match read_stack(rows, r, 0, 0, 0) {
        Stk::Push(_, x) => Some(Place {
            row: x,
            at: j.checked_sub(1)?,
        }),
        Stk::Join(x, y) => {
            let c = item_count(rows, x);
            if c <= j {
                Some(Place { row: y, at: j - c })
            } else if n <= c - j {
                Some(Place { row: x, at: j })
            } else {
                None
            }
        }
        _ => None,
    }
}

// The lowest place that has the n items of stack row r from item j on.
fn narrow(rows: &[u16], parts: &[u16], r: usize, j: usize, n: usize) -> Place
    requires { (r ≤ 65536) × CountedTo (tab rows.now parts.now) r }
    ensures { Narrowed (tab rows.now parts.now) r j n result.row result.at }
{
    let mut place = Place { row: r, at: j };
    while let Some(lower) = one_down(rows, place.row, place.at, n) {
        place = lower;
    }
    place
}

fn head(s: Stk) -> Option<Item>
    ensures { result ≡ head_of s }
{
    match s {
        Stk::StkVar(k) => Some(Item::Var(k)),
        Stk::Push(t, _) => Some(Item::Val(t)),
        _ => None,
    }
}

// Item j of stack row h from the top, its variables past d raised by `by`.
pub fn item_at(rows: &[u16], parts: &[u16], by: usize, d: usize, h: usize, j: usize) -> Option<Item>
    requires { (by + d ≤ 1099511627776) × (h ≤ 65536) × CountedTo (tab rows.now parts.now) h }
    ensures { ItemOf (tab rows.now parts.now) (lift by) d h (stack_under (tab rows.now parts.now) [] (lift by) d h) j result }
{
    let w = narrow(rows, parts, h, j, 1);
    if w.at == 0 {
        head(read_stack(rows, w.row, 0, by, d))
    } else {
        None
    }
}

// Item j of stack row h from the top, its variables as those of environment e count now.
pub fn item_in(
    rows: &[u16],
    parts: &[u16],
    envs: &[u16],
    e: usize,
    h: usize,
    j: usize,
) -> Option<Item>
    requires { (e ≤ 65535) × (length envs.now ≤ 65535) × (h ≤ 65536) × CountedTo (tab rows.now parts.now) h }
    ensures { ItemOf (tab rows.now parts.now) (var_in envs.now e) 0 h (stack_under (tab rows.now parts.now) [] (var_in envs.now e) 0 h) j result }
{
    let w = narrow(rows, parts, h, j, 1);
    if w.at == 0 {
        head(stack_in(rows, envs, w.row, 0, 0, 0, e as u32))
    } else {
        None
    }
}
