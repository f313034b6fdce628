// Pass three's look at operands: the type of an operand, with its type arguments filled in, or packed.
// Types are given as rows: rows n and n + 1 are made I and N, so that every type the checker holds is the type of one of n + 2 rows.
// Promised: the least fault of the premise as crate valid defines it (`operand`), or a row that has the type it gives,
// in its environment: a resulting row is read now. Asked: the tables of module prepare of load, and operands with at most eight arguments.
ghost use Rattle.std.specs.Prelude.{IfOk, ◌≡◌, true, ◌&&◌, cond, ltb, eqb, map, ℕ, ◌+◌, ◌≤◌, length, get_or, List, []};
ghost use Rattle.syntax.specs.Syntax.{Kind, value, inst, pack};
ghost use Rattle.syntax.specs.Fault.{Fault as AnyFault, number_of};
ghost use Rattle.types.specs.Types.{junk, arg, a_stack, Wf};
ghost use Rattle.types.specs.Rows.{type_at, all_below};
ghost use Rattle.tables.specs.Tables.{span, base_of, operand_from};
ghost use Rattle.valid.specs.Program.{Program, arg_of};
ghost use Rattle.valid.specs.PassThree.{formed, applied, packed, operand};
ghost use Rattle.image.specs.Sections.{Ordered, arg_section};
ghost use Rattle.valid_context.specs.Context.{regs_of};
ghost use Rattle.valid_context.specs.Told.{gives, told_of, told};
ghost use Rattle.valid.specs.Bounds.{Short};
ghost use Rattle.valid_typing.specs.Typing.{held_type, Found, given_row};
ghost use Rattle.valid_typing.specs.operands.Operands.{BaseIn, Carries};
ghost use Rattle.valid_typing.specs.Image.{types_at, read_at, ScopedAt, Prepared, operand_in, HoldsAt, letters_in};

use faults::Fault;
use image::{Counts, Places};
use types_rows::Held;
use valid_scope::BlockLetters;

// A base with arguments: its kind and number, where its arguments start in the table and how many, and the resulting row.
// Kept: a kind is the number that stands in the table of operands, as `base_of` and `operand_from` of crate tables read it.
#[derive(Clone, Copy)]
pub struct BaseArgs {
    pub kind: usize,
    pub number: usize,
    pub first: usize,
    pub count: usize,
    pub row: usize,
}

// Row t is known to have no free variable.
fn is_closed(image: &[u16], p: Places, n: usize, t: usize) -> bool
    requires { Ordered p (length image.now) × ScopedAt p image.now n }
    ensures { result ≡ true → Wf [] a_stack (type_at value (types_at p image.now n) t) }
{
    let uses = p.uses;
    let tops = p.tops;
    let shared = p.shared;
    let slots = p.slots;
    let end = p.end;
    let none = BlockLetters {
        hidden: 0,
        count: 0,
        start: 0,
    };
    t < n
        && valid_scope::formed(
            &image[shared..slots],
            &image[slots..end],
            n,
            &image[uses..tops],
            &image[tops..shared],
            t,
            none,
        )
}

// The least fault of a base that carries the arguments `args` (rows, in the order of their variables) and names the resulting row.
fn fill(
    image: &[u16],
    envs: &[u16],
    p: Places,
    c: Counts,
    regs: &[u16],
    o: BaseArgs,
    args: &[u16],
    pending: &mut [u32],
) -> Result<(), Fault>
    requires { Prepared p image.now c.rows pending.old × (o.number ≤ 4294967295) × (all_below (c.rows + 2) args.now ≡ true) × (length envs.now ≤ 64) }
    ensures { (P : Program) (Δ : List Kind) (f : AnyFault) → HoldsAt p image.now c P → number_of f ≡ 10 → told_of (applied P Δ f (regs_of (read_at p image.now c.rows envs.now) regs.now) (base_of o.kind o.number) (map (λ (x : ℕ). get_or (types_at p image.now c.rows) x (arg value junk)) args.now) o.row) ≡ told (λ u. tt) result }
{
    let shared = p.shared;
    let slots = p.slots;
    let end = p.end;
    let rows = &image[shared..slots];
    let parts = &image[slots..end];
    let n = c.rows;
    let b = crate::bases::base_type(image, envs, p, c, regs, o.kind, o.number)?;
    let Some(k) = crate::code(rows, parts, n, b.row) else {
        return Err(Fault::WrongType);
    };
    if !crate::letters_fit(rows, parts, n, args, k.start) {
        return Err(Fault::WrongLetter);
    }
    let closed = is_closed(image, p, n, b.row);
    let r = crate::given_row(n, o.row);
    faults::holds_or(
        types_equal::filling::filled(rows, parts, envs, n + 2, b, closed, args, r, pending),
        Fault::Unequal,
    )
}

// The least fault of a base with arguments and a resulting row, under the letters w.
fn instance(
    image: &[u16],
    envs: &[u16],
    p: Places,
    c: Counts,
    regs: &[u16],
    o: BaseArgs,
    w: BlockLetters,
    pending: &mut [u32],
) -> Result<(), Fault>
    requires { Prepared p image.now c.rows pending.old × BaseIn o × (o.count ≤ 8) × (length envs.now ≤ 64) }
    ensures { (P : Program) (f : AnyFault) → HoldsAt p image.now c P → number_of f ≡ 10 → told_of (operand P (letters_in p image.now w) f (regs_of (read_at p image.now c.rows envs.now) regs.now) (inst (base_of o.kind o.number) (span (arg_section p image.now) o.first o.count) o.row)) ≡ told (λ u. type_at value (types_at p image.now c.rows) (given_row c.rows o.row)) result }
{
    let args = p.args;
    let uses = p.uses;
    let n = c.rows;
    let k = o.count;
    let mut back = [0u16; 8];
    crate::reversed(&image[args..uses], o.first, k, n, &mut back);
    let h = fill(image, envs, p, c, regs, o, &back[..k], pending);
    let g = crate::formed_row(image, p, n, o.row, w);
    let f = faults::holds_or(
        crate::formed_args(image, p, n, o.first, k, w),
        Fault::Unbound,
    );
    faults::both(f, faults::both(g, h))
}

// The least fault of a base that is packed with its argument's row as what the resulting row hides; that row is formed.
fn pack(
    image: &[u16],
    envs: &[u16],
    p: Places,
    c: Counts,
    regs: &[u16],
    o: BaseArgs,
    pending: &mut [u32],
) -> Result<(), Fault>
    requires { Prepared p image.now c.rows pending.old × BaseIn o × (length envs.now ≤ 64) }
    ensures { (P : Program) (Δ : List Kind) (f : AnyFault) → HoldsAt p image.now c P → number_of f ≡ 10 → told_of (formed P Δ o.row) ≡ gives tt → told_of (packed P Δ f (regs_of (read_at p image.now c.rows envs.now) regs.now) (base_of o.kind o.number) (arg_of P (get_or (arg_section p image.now) o.first 0)) o.row) ≡ told (λ u. tt) result }
{
    let from = p.args;
    let to = p.uses;
    let shared = p.shared;
    let slots = p.slots;
    let end = p.end;
    let rows = &image[shared..slots];
    let parts = &image[slots..end];
    let n = c.rows;
    let a = tables::at(&image[from..to], o.first);
    // Of the three, the base and what the row hides have no fault but 9, the argument none but 14.
    let b = crate::bases::base_type(image, envs, p, c, regs, o.kind, o.number)?;
    let x = crate::hidden_inside(rows, parts, n, crate::given_row(n, o.row))?;
    if crate::is_stack_row(rows, n, a) {
        return Err(Fault::WrongLetter);
    }
    let t = crate::given_row(n, a);
    faults::holds_or(
        types_equal::filling::packs(rows, parts, envs, n + 2, b, t, x, pending),
        Fault::Unequal,
    )
}

// The least fault of a package, under the letters w: no other is less than 7.
fn package(
    image: &[u16],
    envs: &[u16],
    p: Places,
    c: Counts,
    regs: &[u16],
    o: BaseArgs,
    w: BlockLetters,
    pending: &mut [u32],
) -> Result<(), Fault>
    requires { Prepared p image.now c.rows pending.old × BaseIn o × (length envs.now ≤ 64) }
    ensures { (P : Program) (f : AnyFault) → HoldsAt p image.now c P → number_of f ≡ 10 → told_of (operand P (letters_in p image.now w) f (regs_of (read_at p image.now c.rows envs.now) regs.now) (pack (get_or (arg_section p image.now) o.first 0) (base_of o.kind o.number) o.row)) ≡ told (λ u. type_at value (types_at p image.now c.rows) (given_row c.rows o.row)) result }
{
    let n = c.rows;
    if !crate::formed_args(image, p, n, o.first, 1, w) {
        return Err(Fault::Unbound);
    }
    crate::formed_row(image, p, n, o.row, w)?;
    pack(image, envs, p, c, regs, o, pending)
}

// The least fault of an operand that carries arguments or, from kind 4 on, is packed, under the letters w.
fn carried(
    image: &[u16],
    envs: &[u16],
    p: Places,
    c: Counts,
    regs: &[u16],
    o: BaseArgs,
    w: BlockLetters,
    pending: &mut [u32],
) -> Result<(), Fault>
    requires { Prepared p image.now c.rows pending.old × BaseIn o × Carries o × (length envs.now ≤ 64) }
    ensures { (P : Program) (f : AnyFault) → HoldsAt p image.now c P → number_of f ≡ 10 → told_of (operand P (letters_in p image.now w) f (regs_of (read_at p image.now c.rows envs.now) regs.now) (operand_from o.kind o.number (span (arg_section p image.now) o.first o.count) (get_or (arg_section p image.now) o.first 0) o.row)) ≡ told (λ u. type_at value (types_at p image.now c.rows) (given_row c.rows o.row)) result }
{
    if o.kind < 4 {
        return instance(image, envs, p, c, regs, o, w, pending);
    }
    let b = BaseArgs {
        kind: o.kind - 4,
        number: o.number,
        first: o.first,
        count: o.count,
        row: o.row,
    };
    package(image, envs, p, c, regs, b, w, pending)
}

// An operand of this kind, with so many arguments, is a base alone.
pub(crate) fn is_plain(kind: usize, count: usize) -> bool
    ensures { result ≡ (ltb kind 4 && eqb count 0) }
{
    kind < 4 && count == 0
}

// The type of operand v under the letters w.
pub fn operand(
    image: &[u16],
    literals: &[u32],
    envs: &[u16],
    p: Places,
    c: Counts,
    v: usize,
    w: BlockLetters,
    regs: &[u16],
    pending: &mut [u32],
) -> Result<Held, Fault>
    requires { Prepared p image.now c.rows pending.old × Short (operand_in p image.now literals.now v) × (v ≤ 131072) × (length envs.now ≤ 64) }
    ensures { ((P : Program) (f : AnyFault) → HoldsAt p image.now c P → number_of f ≡ 10 → told_of (operand P (letters_in p image.now w) f (regs_of (read_at p image.now c.rows envs.now) regs.now) (operand_in p image.now literals.now v)) ≡ told (held_type (read_at p image.now c.rows envs.now)) result) × IfOk result (λ h. Found c.rows envs.now regs.now h) }
{
    let operands = p.operands;
    let args = p.args;
    let table = &image[operands..args];
    let kind = tables::cell::<4>(table, v, 0);
    let count = tables::cell::<4>(table, v, 1);
    let number = tables::number_at(literals, v);
    if is_plain(kind, count) {
        return crate::bases::base_type(image, envs, p, c, regs, kind, number);
    }
    let row = tables::cell::<4>(table, v, 2);
    let first = tables::cell::<4>(table, v, 3);
    let o = BaseArgs {
        kind,
        number,
        first,
        count,
        row,
    };
    carried(image, envs, p, c, regs, o, w, pending)?;
    Ok(Held {
        row: crate::given_row(c.rows, row),
        env: 2 * envs.len(),
    })
}
