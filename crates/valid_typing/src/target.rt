// Pass three's look at the target of a jump or branch: an operand that is code with no variable left, whose stack is sp and whose
// registers, where the code names one, have the same types now.
// Promised: the premise's least fault as crate valid defines it, if the target does not fit, and for fault 10 the first item that does not:
// 0 for sp, 1 to 8 for a register, 99 for the resulting row.
ghost use Rattle.std.specs.Prelude.{◌≡◌, true, List, ℕ, ◌+◌, ◌≤◌};
ghost use Rattle.syntax.specs.Syntax.{Kind, Operand};
ghost use Rattle.syntax.specs.Fault.{unfit, first_item};
ghost use Rattle.valid.specs.Program.{Program};
ghost use Rattle.valid.specs.PassThree.{operand, unfits, target_of};
ghost use Rattle.types_rows.specs.Read.{tab, slot_at, parts_of, mean_v};
ghost use Rattle.types_rows.specs.Environments.{read_in};
ghost use Rattle.valid_context.specs.Context.{regs_of, context_of};
ghost use Rattle.valid_context.specs.Told.{gives, told_of};
ghost use Rattle.valid.specs.Bounds.{Short};
ghost use Rattle.valid_typing.specs.Typing.{held_in, Comparing};
ghost use Rattle.valid_typing.specs.Image.{read_at, Prepared, operand_in, HoldsAt, letters_in};
ghost use Rattle.valid_typing.specs.target.Fits.{slot_fits, CodeHeld, TargetIn, item_of, operand_misfit, AnsweredBy};

use faults::Fault;
use image::{Counts, Places};
use types_rows::Held;
use valid_context::Link;
use valid_scope::BlockLetters;

// The least fault of a target, and for fault 10 the first item that does not fit.
#[derive(Clone, Copy)]
pub struct Misfit {
    pub fault: Fault,
    pub item: Option<usize>,
}

// A fault that is no item's.
fn of_no_item(fault: Fault) -> Misfit
    ensures { result ≡ record { fault = fault; item = None } }
{
    Misfit { fault, item: None }
}

// The item that does not fit.
fn of_item(item: usize) -> Misfit
    ensures { result ≡ record { fault = Fault.Unequal; item = Some item } }
{
    Misfit {
        fault: Fault::Unequal,
        item: Some(item),
    }
}

// The fault of a target's operand: for fault 10 the item is the resulting row.
fn of_operand(f: Fault) -> Misfit
    ensures { result ≡ operand_misfit f }
{
    match f {
        Fault::Unequal => of_item(99),
        _ => of_no_item(f),
    }
}

// A register of link u fits what the code row of link h, in environment e, says of it: x is 0 for nothing, else one more than a row.
fn register_fits(
    rows: &[u16],
    parts: &[u16],
    envs: &[u16],
    n: usize,
    h: Held,
    x: usize,
    u: Link,
    pending: &mut [u32],
) -> bool
    requires { Comparing rows.now parts.now envs.now n pending.old × CodeHeld n h × (x ≤ 65535) × (u.env ≤ 65535) }
    ensures { result ≡ slot_fits (λ (t : ℕ). read_in envs.now h.env (mean_v (tab rows.now parts.now) t)) (held_in rows.now parts.now n envs.now) (slot_at true h.row x) u.env u.link }
{
    if x == 0 {
        return true;
    }
    if u.link == 0 {
        return false;
    }
    let l = Held {
        row: crate::row_of(n, types_rows::link(h.row, x - 1)),
        env: h.env,
    };
    let r = Held {
        row: u.link - 1,
        env: u.env,
    };
    crate::same_rows(rows, parts, envs, n, l, r, pending)
}

// The first register, counted from 1, that does not fit the code row of link h, whose registers start at p.
fn unfit_register(
    rows: &[u16],
    parts: &[u16],
    envs: &[u16],
    n: usize,
    h: Held,
    p: usize,
    regs: &[u16],
    pending: &mut [u32],
) -> Option<usize>
    requires { Comparing rows.now parts.now envs.now n pending.old × CodeHeld n h × (p ≤ 65535) }
    ensures { (P : Program) (Δ : List Kind) → item_of result ≡ first_item (unfits P Δ 1 (read_in envs.now h.env (parts_of (mean_v (tab rows.now parts.now)) parts.now true h.row p 8)) (regs_of (held_in rows.now parts.now n envs.now) regs.now)) }
{
    // The loop's invariant speaks of locals, and of no parameter that is a struct.
    let k = h;
    for i in 0..8 {
        let u = Link {
            link: tables::cell::<2>(regs, i, 0),
            env: tables::cell::<2>(regs, i, 1),
        };
        let x = tables::at(parts, p + i);
        if !register_fits(rows, parts, envs, n, k, x, u, pending) {
            return Some(i + 1);
        }
    }
    None
}

// A target whose operand has the type t.
fn aimed(
    rows: &[u16],
    parts: &[u16],
    envs: &[u16],
    n: usize,
    t: Held,
    regs: &[u16],
    sp: &[u16],
    d: usize,
    pending: &mut [u32],
) -> Result<(), Misfit>
    requires { Comparing rows.now parts.now envs.now n pending.old × (t.row ≤ n + 1) × (t.env ≤ 65535) × (d ≤ 65535) }
    ensures { (P : Program) (Δ : List Kind) (v : Operand) → told_of (operand P Δ (unfit 99) (regs_of (held_in rows.now parts.now n envs.now) regs.now) v) ≡ gives ((held_in rows.now parts.now n envs.now).type t.env t.row) → AnsweredBy (target_of P Δ (context_of (held_in rows.now parts.now n envs.now) regs.now sp.now d) v) (λ u. u) result }
{
    let Some(c) = crate::code(rows, parts, n, t.row) else {
        return Err(of_no_item(Fault::WrongType));
    };
    if types_rows::letter_count(parts, c.start) != 0 {
        return Err(of_no_item(Fault::WrongType));
    }
    let x = Held {
        row: c.stack,
        env: t.env,
    };
    if !crate::same_items(rows, parts, envs, n, sp, d, x, pending) {
        return Err(of_item(0));
    }
    let h = Held {
        row: c.link,
        env: t.env,
    };
    match unfit_register(rows, parts, envs, n, h, c.start, regs, pending) {
        Some(i) => Err(of_item(i)),
        None => Ok(()),
    }
}

// The target that operand v is, under the letters w, with the registers' links and the d items of sp.
pub fn target(
    image: &[u16],
    literals: &[u32],
    envs: &[u16],
    p: Places,
    c: Counts,
    v: usize,
    w: BlockLetters,
    regs: &[u16],
    sp: &[u16],
    d: usize,
    pending: &mut [u32],
) -> Result<(), Misfit>
    requires { Prepared p image.now c.rows pending.old × Short (operand_in p image.now literals.now v) × TargetIn v envs.now d }
    ensures { (P : Program) → HoldsAt p image.now c P → AnsweredBy (target_of P (letters_in p image.now w) (context_of (read_at p image.now c.rows envs.now) regs.now sp.now d) (operand_in p image.now literals.now v)) (λ u. u) result }
{
    let shared = p.shared;
    let slots = p.slots;
    let end = p.end;
    let rows = &image[shared..slots];
    let parts = &image[slots..end];
    match crate::operands::operand(image, literals, envs, p, c, v, w, regs, pending) {
        Ok(t) => aimed(rows, parts, envs, c.rows, t, regs, sp, d, pending),
        Err(f) => Err(of_operand(f)),
    }
}
