// The premises of pass three (crate valid) that read type rows and what the checker knows: the type of a register, of a tuple's component,
// of a package's inside and of a pointer's stack, whether a stack is a tail of sp, its items, and the rows that an instruction gives. Rows
// are read from the tables (crate types_rows), registers and sp from the checker's arrays (crate valid_context); two more rows, `I` and
// `N`, stand behind the program's own, so that each type that the checker holds is the type of a row in an environment, whose variables
// count as `envs` says (specs/Environments.antt of types_rows); what an instruction gives is read in the last one. Promised of each: its
// premise's least fault, or what the premise gives, as an equation with the definition. Above these stand operands (modules
// bases, operands), the components of a tuple (components, plain_components) and targets (target). A function that reads more tables than
// the rows' is lent the image that they are sections of (crate image), and reads the rows as the checker shares them. One that compares
// rows is lent `pending`, where crate types_equal keeps what is still to be compared.
#![tactic(auto)]

pub mod bases;
pub mod components;
pub mod operands;
pub mod plain_components;
pub mod target;

ghost use Rattle.std.specs.Prelude.{IfOk, IfSome, ◌≡◌, ℕ, suc, ◌+◌, ◌-◌, ◌*◌, ◌≤◌, ◌<◌, true, cond, List, [], ◌∷◌, ◌++◌, map, reverse, length, get_or, take};
ghost use Rattle.syntax.specs.Partial.{guarded};
ghost use Rattle.syntax.specs.Syntax.{Kind, value, stack};
ghost use Rattle.types.specs.Types.{junk, nil, svar, arg, kind_of, items};
ghost use Rattle.types.specs.Rows.{type_at, types_of, all_below};
ghost use Rattle.valid.specs.Program.{Program, as_code};
ghost use Rattle.types.specs.Equal.{same};
ghost use Rattle.tables.specs.Tables.{rows_in, span, letters_at};
ghost use Rattle.valid.specs.Tests.{as_int, as_hidden, item_at, above, formed_arg, formed_args, letters_left};
ghost use Rattle.valid.specs.PassThree.{or_fault, integer_at, pointer_at, formed};
ghost use Rattle.valid_scope.specs.Scoped.{Scoped};
ghost use Rattle.valid_scope.specs.Letters.{letters_of};
ghost use Rattle.types_rows.specs.Read.{tab, mean_v, mean_s};
ghost use Rattle.types_rows.specs.Environments.{read_in, Known};
ghost use Rattle.valid_context.specs.Context.{Reading, regs_of, sp_of, sp_above, linked, EnvsIn};
ghost use Rattle.image.specs.Sections.{Ordered, arg_section, shared_section, slot_section};
ghost use Rattle.valid_context.specs.Told.{told_of, told};
ghost use Rattle.valid_typing.specs.Typing.{types_in, held_in, held_type, held_stack, Ready, Comparing, Found, component_at, code_seen, CodeIn, item_is, LowItem, EntryIn, LinkIs, LaidOut, SmallItem, EntryIs, given_row, given_arg, args_in, fits_letter, letters_less};
ghost use Rattle.valid_typing.specs.Image.{row_table, ScopedAt, letters_in};

use faults::Fault;
use image::Places;
use types_rows::{Held, Item, Stk, Val};
use valid_scope::BlockLetters;

// A code row: its link, its stack's link, and where its registers start.
#[derive(Clone, Copy)]
pub struct Coded {
    pub link: usize,
    pub stack: usize,
    pub start: usize,
}

// Operands of the table that stand one behind the other: the first, and how many.
#[derive(Clone, Copy)]
pub struct Listed {
    pub first: usize,
    pub count: usize,
}

// ---- rows
// The row that link h names; no row reads as the junk type.
pub fn row_of(n: usize, h: usize) -> usize
    requires { (n ≤ 512) × (h ≤ n + 2) }
    ensures { ((rows parts : List ℕ) → Ready rows parts n → type_at value (types_in rows parts n) result ≡ mean_v (tab rows parts) h) × (result ≤ n + 1) }
{
    if h == 0 { n + 1 } else { h - 1 }
}

// Row t is the integer type.
pub fn is_int(rows: &[u16], parts: &[u16], n: usize, t: usize) -> bool
    requires { Ready rows.now parts.now n × (t ≤ 65535) }
    ensures { (E : List ℕ) (e : ℕ) → as_int ((held_in rows.now parts.now n E).type e t) ≡ guarded result tt }
{
    matches!(
        types_rows::read_value(rows, types_rows::link(n + 3, t), 0, 0, 0),
        Val::Int
    )
}

// Register r is an integer.
pub fn integer(rows: &[u16], parts: &[u16], n: usize, regs: &[u16], r: usize) -> Result<(), Fault>
    requires { Ready rows.now parts.now n }
    ensures { (E : List ℕ) (P : Program) (Δ : List Kind) → told_of (integer_at P Δ (regs_of (held_in rows.now parts.now n E) regs.now) r) ≡ told (λ u. tt) result }
{
    let u = valid_context::register(regs, r);
    if u.link == 0 {
        return Err(Fault::WrongType);
    }
    faults::holds_or(is_int(rows, parts, n, u.link - 1), Fault::WrongType)
}

// Component i of the tuple in register r.
pub fn component(
    rows: &[u16],
    parts: &[u16],
    n: usize,
    regs: &[u16],
    r: usize,
    i: usize,
) -> Result<Held, Fault>
    requires { Ready rows.now parts.now n }
    ensures { ((E : List ℕ) (P : Program) (Δ : List Kind) → told_of (component_at P Δ (regs_of (held_in rows.now parts.now n E) regs.now) r i) ≡ told (held_type (held_in rows.now parts.now n E)) result) × ((E : List ℕ) → IfOk result (λ h. Found n E regs.now h)) }
{
    let u = valid_context::register(regs, r);
    if u.link == 0 {
        return Err(Fault::WrongType);
    }
    let h = types_rows::link(n + 3, u.link - 1);
    let Val::Tuple(p, c) = types_rows::read_value(rows, h, 0, 0, 0) else {
        return Err(Fault::WrongType);
    };
    if i >= c {
        return Err(Fault::NoItem);
    }
    let t = types_rows::link(h, tables::at(parts, p + i));
    Ok(Held {
        row: row_of(n, t),
        env: u.env,
    })
}

// The stack to which register r points, as a link.
pub fn pointer(rows: &[u16], parts: &[u16], n: usize, regs: &[u16], r: usize) -> Result<Held, Fault>
    requires { Ready rows.now parts.now n }
    ensures { ((E : List ℕ) (P : Program) (Δ : List Kind) → told_of (pointer_at P Δ (regs_of (held_in rows.now parts.now n E) regs.now) r) ≡ told (held_stack rows.now parts.now E) result) × ((E : List ℕ) → IfOk result (λ h. Found n E regs.now h)) }
{
    let u = valid_context::register(regs, r);
    if u.link == 0 {
        return Err(Fault::WrongType);
    }
    let h = types_rows::link(n + 3, u.link - 1);
    let Val::Pointer(x) = types_rows::read_value(rows, h, 0, 0, 0) else {
        return Err(Fault::WrongType);
    };
    Ok(Held { row: x, env: u.env })
}

// What the package type of row t hides: its row, and fault 9 if it is no package type. Once the package is opened, that row is read in the
// environment that the unpack makes.
pub fn hidden_inside(rows: &[u16], parts: &[u16], n: usize, t: usize) -> Result<usize, Fault>
    requires { Ready rows.now parts.now n × (t ≤ 65535) }
    ensures { (told_of (or_fault 9 (as_hidden (type_at value (types_in rows.now parts.now n) t))) ≡ told (type_at value (types_in rows.now parts.now n)) result) × ((E : List ℕ) (e : ℕ) → Known E → e ≤ 2 * length E → told_of (or_fault 9 (as_hidden ((held_in rows.now parts.now n E).type e t))) ≡ told ((held_in rows.now parts.now n (E ++ e ∷ [])).type (suc (2 * length E))) result) × IfOk result (λ x. x ≤ n + 1) }
{
    let h = types_rows::link(n + 3, t);
    let Val::Hidden(x) = types_rows::read_value(rows, h, 0, 0, 0) else {
        return Err(Fault::WrongType);
    };
    Ok(row_of(n, x))
}

// Row t as code.
pub(crate) fn code(rows: &[u16], parts: &[u16], n: usize, t: usize) -> Option<Coded>
    requires { Ready rows.now parts.now n × (t ≤ 65535) }
    ensures { ((E : List ℕ) (e : ℕ) → as_code ((held_in rows.now parts.now n E).type e t) ≡ code_seen rows.now parts.now E e result) × IfSome result (λ c. CodeIn n c) }
{
    let h = types_rows::link(n + 3, t);
    let Val::Code(x, p) = types_rows::read_value(rows, h, 0, 0, 0) else {
        return None;
    };
    Some(Coded {
        link: h,
        stack: x,
        start: p,
    })
}

// Rows l and r are both the integer type, as most rows that are compared are.
fn both_int(rows: &[u16], parts: &[u16], n: usize, l: usize, r: usize) -> bool
    requires { Ready rows.now parts.now n }
    ensures { result ≡ true → (E : List ℕ) (e f : ℕ) → (held_in rows.now parts.now n E).type e l ≡ (held_in rows.now parts.now n E).type f r }
{
    if l > 512 || r > 512 {
        return false;
    }
    is_int(rows, parts, n, l) && is_int(rows, parts, n, r)
}

// Rows l and r, in the environments e and f, are seen at once to have the same type.
pub(crate) fn same_at_sight(
    rows: &[u16],
    parts: &[u16],
    n: usize,
    l: usize,
    e: usize,
    r: usize,
    f: usize,
) -> bool
    requires { Ready rows.now parts.now n }
    ensures { result ≡ true → (E : List ℕ) → (held_in rows.now parts.now n E).type e l ≡ (held_in rows.now parts.now n E).type f r }
{
    (l == r && e == f) || both_int(rows, parts, n, l, r)
}

// The value types of l and r are equal.
pub fn same_rows(
    rows: &[u16],
    parts: &[u16],
    envs: &[u16],
    n: usize,
    l: Held,
    r: Held,
    pending: &mut [u32],
) -> bool
    requires { Comparing rows.now parts.now envs.now n pending.old × (l.env ≤ 65535) × (r.env ≤ 65535) }
    ensures { result ≡ same ((held_in rows.now parts.now n envs.now).type l.env l.row) ((held_in rows.now parts.now n envs.now).type r.env r.row) }
{
    same_at_sight(rows, parts, n, l.row, l.env, r.row, r.env)
        || types_equal::equal_held(rows, parts, envs, n + 2, l, r, pending)
}

// ---- items
// An item of a stack row that was read in environment e is the one that entry y of sp stands for, which was read in environment f.
fn same_item(
    rows: &[u16],
    parts: &[u16],
    envs: &[u16],
    n: usize,
    it: Option<Item>,
    e: usize,
    y: usize,
    f: usize,
    pending: &mut [u32],
) -> bool
    requires { Comparing rows.now parts.now envs.now n pending.old × LowItem (n + 2) it × (e ≤ 65535) × EntryIn y f }
    ensures { result ≡ item_is rows.now parts.now n envs.now e it f y }
{
    match it {
        None => false,
        Some(Item::Val(t)) => {
            let l = Held {
                row: row_of(n, t),
                env: e,
            };
            let r = Held { row: y, env: f };
            y < 1024 && same_rows(rows, parts, envs, n, l, r, pending)
        }
        Some(Item::Var(k)) => y >= 1024 && k == types_rows::variables::variable(envs, f, y - 1024),
    }
}

// The value row of link t, in environment e, is seen at once to have the type of entry y of sp, in environment f.
fn seen_item(rows: &[u16], parts: &[u16], n: usize, t: usize, e: usize, y: usize, f: usize) -> bool
    requires { Ready rows.now parts.now n × (t ≤ n + 2) }
    ensures { result ≡ true → (y < 1024) × ((E : List ℕ) → read_in E e (mean_v (tab rows.now parts.now) t) ≡ (held_in rows.now parts.now n E).type f y) }
{
    y < 1024 && same_at_sight(rows, parts, n, row_of(n, t), e, y, f)
}

// The i lowest items of sp are the stack variable k of environment e alone.
fn lone_variable(sp: &[u16], i: usize, k: usize, e: usize) -> bool
    ensures { result ≡ true → (T : Reading) → sp_of T sp.now i ≡ svar (T.variable e k) nil }
{
    let y = tables::cell::<2>(sp, 0, 0);
    if i != 1 || y < 1024 || tables::cell::<2>(sp, 0, 1) != e {
        return false;
    }
    y - 1024 == k
}

// The stack row of link x, in its environment, is seen at once to have the m lowest items of sp: value rows one under the other, and no
// row or a variable.
fn seen_items(rows: &[u16], parts: &[u16], n: usize, sp: &[u16], m: usize, x: Held) -> bool
    requires { Ready rows.now parts.now n × (x.row ≤ n + 2) × (m ≤ 65535) }
    ensures { result ≡ true → (E : List ℕ) → true ≡ same (read_in E x.env (mean_s (tab rows.now parts.now) x.row)) (sp_of (held_in rows.now parts.now n E) sp.now m) }
{
    let e = x.env;
    let mut y = x.row;
    let mut i = m;
    // Kept: a `loop`. It walks rows that name one another, which is no range.
    loop {
        match types_rows::read_stack(rows, y, 0, 0, 0) {
            Stk::Nil => return i == 0,
            Stk::StkVar(k) => return lone_variable(sp, i, k, e),
            Stk::Push(t, z) => {
                if i == 0 {
                    return false;
                }
                let u = tables::cell::<2>(sp, i - 1, 0);
                if !seen_item(rows, parts, n, t, e, u, tables::cell::<2>(sp, i - 1, 1)) {
                    return false;
                }
                y = z;
                i -= 1;
            }
            _ => return false,
        }
    }
}

// The stack row of link x, in its environment, has the m lowest items of sp, each found by its position.
fn same_each(
    rows: &[u16],
    parts: &[u16],
    envs: &[u16],
    n: usize,
    sp: &[u16],
    m: usize,
    x: Held,
    pending: &mut [u32],
) -> bool
    requires { Comparing rows.now parts.now envs.now n pending.old × (x.row ≤ n + 2) × (x.env ≤ 65535) × (m ≤ 65535) }
    ensures { result ≡ same (read_in envs.now x.env (mean_s (tab rows.now parts.now) x.row)) (sp_of (held_in rows.now parts.now n envs.now) sp.now m) }
{
    let h = x.row;
    let e = x.env;
    if types_rows::item_count(rows, h) != m {
        return false;
    }
    for i in 0..m {
        let it = types_rows::item_in(rows, parts, envs, e, h, i);
        let y = tables::cell::<2>(sp, m - i - 1, 0);
        let f = tables::cell::<2>(sp, m - i - 1, 1);
        if !same_item(rows, parts, envs, n, it, e, y, f, pending) {
            return false;
        }
    }
    true
}

// The stack row of link x, in its environment, has the m lowest items of sp.
pub fn same_items(
    rows: &[u16],
    parts: &[u16],
    envs: &[u16],
    n: usize,
    sp: &[u16],
    m: usize,
    x: Held,
    pending: &mut [u32],
) -> bool
    requires { Comparing rows.now parts.now envs.now n pending.old × (x.row ≤ n + 2) × (x.env ≤ 65535) × (m ≤ 65535) }
    ensures { result ≡ same (read_in envs.now x.env (mean_s (tab rows.now parts.now) x.row)) (sp_of (held_in rows.now parts.now n envs.now) sp.now m) }
{
    seen_items(rows, parts, n, sp, m, x) || same_each(rows, parts, envs, n, sp, m, x, pending)
}

// The items of the stack row of link x, in its environment, are a tail of sp's.
pub fn is_tail(
    rows: &[u16],
    parts: &[u16],
    envs: &[u16],
    n: usize,
    sp: &[u16],
    d: usize,
    x: Held,
    pending: &mut [u32],
) -> bool
    requires { Comparing rows.now parts.now envs.now n pending.old × (x.row ≤ n + 2) × (x.env ≤ 65535) }
    ensures { above (read_in envs.now x.env (mean_s (tab rows.now parts.now) x.row)) (sp_of (held_in rows.now parts.now n envs.now) sp.now d) ≡ guarded result (sp_above (held_in rows.now parts.now n envs.now) sp.now (items (mean_s (tab rows.now parts.now) x.row)) (d - items (mean_s (tab rows.now parts.now) x.row))) }
{
    let m = types_rows::item_count(rows, x.row);
    m <= d && same_items(rows, parts, envs, n, sp, m, x, pending)
}

// The link of an item that is a value type, else 0.
fn link_of(n: usize, it: Option<Item>) -> usize
    requires { (n ≤ 512) × LowItem (n + 2) it }
    ensures { LinkIs n it result × (result ≤ n + 2) }
{
    match it {
        Some(Item::Val(t)) => row_of(n, t) + 1,
        _ => 0,
    }
}

// The link of item i of the stack row of link x, if it and those above it are value types; else 0.
pub fn row_item(rows: &[u16], parts: &[u16], n: usize, x: usize, i: usize) -> usize
    requires { Ready rows.now parts.now n × (x ≤ n + 2) }
    ensures { ((E : List ℕ) (e : ℕ) → item_at (read_in E e (mean_s (tab rows.now parts.now) x)) i ≡ linked (held_in rows.now parts.now n E) e result) × (result ≤ n + 2) }
{
    for j in 0..i {
        if link_of(n, types_rows::item_at(rows, parts, 0, 0, x, j)) == 0 {
            return 0;
        }
    }
    link_of(n, types_rows::item_at(rows, parts, 0, 0, x, i))
}

// The entry of sp that stands for an item.
fn entry_of(n: usize, it: Option<Item>) -> u16
    requires { (n ≤ 512) × LowItem (n + 2) it × SmallItem it }
    ensures { EntryIs n it result }
{
    match it {
        None => 0,
        Some(Item::Val(t)) => row_of(n, t) as u16,
        Some(Item::Var(k)) => (k + 1024) as u16,
    }
}

// The items of the stack row of link x, in its environment, are put into sp.
pub fn flatten(rows: &[u16], parts: &[u16], n: usize, sp: &mut [u16], x: Held)
    requires { Ready rows.now parts.now n × LaidOut rows.now parts.now n x.row sp.old × (x.env ≤ 65535) }
    ensures { ((E : List ℕ) → sp_of (held_in rows.now parts.now n E) sp.new (items (mean_s (tab rows.now parts.now) x.row)) ≡ read_in E x.env (mean_s (tab rows.now parts.now) x.row)) × EnvsIn x.env sp.new (items (mean_s (tab rows.now parts.now) x.row)) }
{
    let h = x.row;
    let e = x.env;
    let m = types_rows::item_count(rows, h);
    for i in 0..m {
        let it = types_rows::item_at(rows, parts, 0, 0, h, i);
        valid_context::put(sp, m - i - 1, entry_of(n, it), e as u16);
    }
}

// ---- given rows
// Row t of the program's n rows; one that is not there reads as the junk type.
pub fn given_row(n: usize, t: usize) -> usize
    requires { n ≤ 512 }
    ensures { (result ≡ given_row n t) × (result ≤ n + 1) }
{
    if t < n { t } else { n + 1 }
}

// Row t of the program's n rows is a stack row.
pub(crate) fn is_stack_row(rows: &[u16], n: usize, t: usize) -> bool
    requires { n ≤ 512 }
    ensures { (parts : List ℕ) → kind_of (given_arg rows.now parts n t) ≡ cond result stack value }
{
    t < n && types_rows::is_stack(rows, t)
}

// Row t, as an argument, is formed under the letters w.
fn formed_arg(
    rows: &[u16],
    parts: &[u16],
    n: usize,
    uses: &[u16],
    tops: &[u16],
    t: usize,
    w: BlockLetters,
) -> bool
    requires { Scoped (tab rows.now parts.now) n uses.now tops.now }
    ensures { result ≡ formed_arg (letters_of parts.now w) (given_arg rows.now parts.now n t) }
{
    t >= n || valid_scope::formed(rows, parts, n, uses, tops, t, w)
}

// The type of row t is formed under the letters w.
pub fn formed_row(
    image: &[u16],
    p: Places,
    n: usize,
    t: usize,
    w: BlockLetters,
) -> Result<(), Fault>
    requires { Ordered p (length image.now) × (n ≤ 512) × ScopedAt p image.now n }
    ensures { (P : Program) → P.types ≡ types_of (rows_in (row_table p image.now) n) → told_of (formed P (letters_in p image.now w) t) ≡ told (λ u. tt) result }
{
    let uses = p.uses;
    let tops = p.tops;
    let shared = p.shared;
    let slots = p.slots;
    let end = p.end;
    let rows = &image[shared..slots];
    let parts = &image[slots..end];
    if is_stack_row(rows, n, t) {
        return Ok(());
    }
    faults::holds_or(
        formed_arg(
            rows,
            parts,
            n,
            &image[uses..tops],
            &image[tops..shared],
            t,
            w,
        ),
        Fault::Unbound,
    )
}

// The c arguments that stand in the table from a on are formed under the letters w.
pub(crate) fn formed_args(
    image: &[u16],
    p: Places,
    n: usize,
    a: usize,
    c: usize,
    w: BlockLetters,
) -> bool
    requires { Ordered p (length image.now) × ScopedAt p image.now n × (a + c ≤ 4294967295) }
    ensures { result ≡ formed_args (letters_in p image.now w) (args_in (shared_section p image.now) (slot_section p image.now) n (span (arg_section p image.now) a c)) }
{
    let from = p.args;
    let to = p.uses;
    let top = p.tops;
    let shared = p.shared;
    let slots = p.slots;
    let end = p.end;
    let args = &image[from..to];
    let uses = &image[to..top];
    let tops = &image[top..shared];
    let rows = &image[shared..slots];
    let parts = &image[slots..end];
    // The loop's invariant speaks of locals, and of no parameter that is a struct.
    let u = w;
    for i in 0..c {
        let t = tables::at(args, a + i);
        if !formed_arg(rows, parts, n, uses, tops, t, u) {
            return false;
        }
    }
    true
}

// The c rows that stand in `args` from a on, in the order of their variables.
pub(crate) fn reversed(args: &[u16], a: usize, c: usize, n: usize, back: &mut [u16])
    requires { (n ≤ 512) × (c ≤ length back.old) × (a + c ≤ 4294967295) }
    ensures { take c back.new ≡ reverse (map (given_row n) (span args.now a c)) }
{
    for i in 0..c {
        back[c - i - 1] = given_row(n, tables::at(args, a + i)) as u16;
    }
}

// An argument that is a stack or not fits a letter of the table.
fn letter_fits(stack: bool, x: usize) -> bool
    ensures { result ≡ fits_letter stack x }
{
    if stack { x != 0 } else { x == 0 }
}

// There is a letter for each argument, and it is of the argument's kind: the code row's registers start at p.
pub(crate) fn letters_fit(rows: &[u16], parts: &[u16], n: usize, args: &[u16], p: usize) -> bool
    requires { (n ≤ 512) × (p ≤ 65535) × (all_below (n + 2) args.now ≡ true) }
    ensures { letters_left (map (λ (x : ℕ). get_or (types_in rows.now parts.now n) x (arg value junk)) args.now) (letters_at parts.now p) ≡ guarded result (letters_less parts.now p (length args.now)) }
{
    let c = args.len();
    let k = types_rows::letter_count(parts, p);
    if k < c {
        return false;
    }
    for j in 0..c {
        let x = tables::at(parts, p + 9 + (k - c + j));
        if !letter_fits(types_rows::is_stack(rows, tables::at(args, j)), x) {
            return false;
        }
    }
    true
}
