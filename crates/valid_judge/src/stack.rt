// One instruction of pass three that reads or changes sp, but for those through a pointer: `getsp`, `setsp`, `salloc`, `sfree`, `sld`,
// `sst`. The types known before it stand in the checker's arrays (crate valid_context), and are there changed to those known after it.
// Promised of each: the least fault that `judge` of crate valid gives the instruction, or, if it has none, the types after it;
// sp stays within 64 items, and every environment that is held still exists; `envs` has the environments of the packages opened so far.
ghost use Rattle.std.specs.Prelude.{◌≡◌, ℕ, ◌*◌, ◌≤◌, List, length, IfOk};
ghost use Rattle.syntax.specs.Syntax.{Kind, getsp, setsp, salloc, sfree, sld, sst};
ghost use Rattle.types.specs.Types.{pointer};
ghost use Rattle.types.specs.Equal.{same};
ghost use Rattle.valid.specs.Program.{Program};
ghost use Rattle.valid.specs.PassThree.{judge};
ghost use Rattle.valid_context.specs.Context.{Reading, sp_of, context_of, EnvsIn};
ghost use Rattle.valid_context.specs.Told.{told_of, told};
ghost use Rattle.valid_typing.specs.Typing.{held_in, Ready, Comparing};
ghost use Rattle.valid_judge.specs.heap.Forms.{KeptRegs};
ghost use Rattle.valid_judge.specs.stack.Forms.{InStack};
ghost use Rattle.valid_typing.specs.Image.{Prepared, letters_in};
ghost use Rattle.valid_judge.specs.Image.{Rooms, InStackAt};

use faults::{Fault, both, holds_or};
use image::Places;
use types_rows::{Held, Val};
use valid_scope::BlockLetters;

// The type of row t in environment e points to the m lowest items of sp.
pub(crate) fn points(
    rows: &[u16],
    parts: &[u16],
    envs: &[u16],
    n: usize,
    sp: &[u16],
    m: usize,
    t: Held,
    pending: &mut [u32],
) -> bool
    requires { Comparing rows.now parts.now envs.now n pending.old × (m ≤ 65535) × (t.row ≤ 65535) × (t.env ≤ 65535) }
    ensures { result ≡ same ((held_in rows.now parts.now n envs.now).type t.env t.row) (pointer (sp_of (held_in rows.now parts.now n envs.now) sp.now m)) }
{
    let v = types_rows::read_value(rows, types_rows::link(n + 3, t.row), 0, 0, 0);
    let Val::Pointer(x) = v else {
        return false;
    };
    let y = Held { row: x, env: t.env };
    valid_typing::same_items(rows, parts, envs, n, sp, m, y, pending)
}

// getsp d t, under the letters w
pub(crate) fn get_sp(
    image: &[u16],
    envs: &[u16],
    p: Places,
    n: usize,
    w: BlockLetters,
    regs: &mut [u16],
    sp: &[u16],
    depth: usize,
    d: usize,
    t: usize,
    pending: &mut [u32],
) -> Result<(), Fault>
    requires { Prepared p image.now n pending.old × Rooms envs.now regs.old sp.now depth }
    ensures { InStackAt p image.now n envs.now (letters_in p image.now w) regs.old sp.now depth regs.new sp.now (λ (u : Unit {0}). depth) result (getsp d t) × KeptRegs envs.now regs.old regs.new }
{
    let rows = &image[p.shared..p.slots];
    let parts = &image[p.slots..p.end];
    let r = valid_typing::given_row(n, t);
    let e = 2 * envs.len();
    let u = Held { row: r, env: e };
    let same = points(rows, parts, envs, n, sp, depth, u, pending);
    both(
        valid_typing::formed_row(image, p, n, t, w),
        holds_or(same, Fault::Unequal),
    )?;
    crate::heap::set_register(regs, d, r, e)
}

// setsp s
pub(crate) fn set_sp(
    rows: &[u16],
    parts: &[u16],
    envs: &[u16],
    n: usize,
    regs: &[u16],
    sp: &[u16],
    depth: usize,
    s: usize,
    pending: &mut [u32],
) -> Result<usize, Fault>
    requires { Comparing rows.now parts.now envs.now n pending.old }
    ensures { ((Δ : List Kind) → InStack rows.now parts.now n envs.now Δ regs.now sp.now depth regs.now sp.now (λ y. y) result (setsp s)) × IfOk result (λ y. y ≤ depth) }
{
    let x = valid_typing::pointer(rows, parts, n, regs, s)?;
    if valid_typing::is_tail(rows, parts, envs, n, sp, depth, x, pending) {
        Ok(types_rows::item_count(rows, x.row))
    } else {
        Err(Fault::NoTail)
    }
}

// salloc k
pub(crate) fn allocate(n: usize, sp: &mut [u16], depth: usize, k: usize) -> Result<usize, Fault>
    requires { (n ≤ 512) × (128 ≤ length sp.old) × (depth ≤ 64) }
    ensures { ((rows parts E regs : List ℕ) (Δ : List Kind) → Ready rows parts n → InStack rows parts n E Δ regs sp.old depth regs sp.new (λ y. y) result (salloc k)) × IfOk result (λ y. y ≤ 64) × ((b : ℕ) → EnvsIn b sp.old depth → IfOk result (λ y. EnvsIn b sp.new y)) }
{
    if 64 - depth < k {
        return Err(Fault::TooDeep);
    }
    valid_context::push_junks(sp, depth, k, n + 1);
    Ok(depth + k)
}

// sfree k
pub(crate) fn free(sp: &[u16], depth: usize, k: usize) -> Result<usize, Fault>
    requires { depth ≤ 64 }
    ensures { ((T : Reading) (regs : List ℕ) (P : Program) (Δ : List Kind) → told_of (judge P Δ (context_of T regs sp.now depth) (sfree k)) ≡ told (λ y. context_of T regs sp.now y) result) × IfOk result (λ y. y ≤ depth) }
{
    if valid_context::values(sp, depth, k) {
        Ok(depth - k)
    } else {
        Err(Fault::NoItem)
    }
}

// sld d i
pub(crate) fn load_item(
    regs: &mut [u16],
    sp: &[u16],
    depth: usize,
    d: usize,
    i: usize,
) -> Result<(), Fault>
    requires { (16 ≤ length regs.old) × (depth ≤ 64) }
    ensures { ((T : Reading) (P : Program) (Δ : List Kind) → told_of (judge P Δ (context_of T regs.old sp.now depth) (sld d i)) ≡ told (λ u. context_of T regs.new sp.now depth) result) × ((b : ℕ) → EnvsIn b sp.now depth → EnvsIn b regs.old 8 → EnvsIn b regs.new 8) }
{
    let u = valid_context::sp_item(sp, depth, i);
    if u.link == 0 {
        return Err(Fault::NoItem);
    }
    crate::heap::set_register(regs, d, u.link - 1, u.env)
}

// sst i s
pub(crate) fn store_item(
    n: usize,
    regs: &[u16],
    sp: &mut [u16],
    depth: usize,
    i: usize,
    s: usize,
) -> Result<(), Fault>
    requires { (n ≤ 512) × (2 * depth ≤ length sp.old) × (depth ≤ 64) }
    ensures { ((rows parts E : List ℕ) (Δ : List Kind) → Ready rows parts n → InStack rows parts n E Δ regs.now sp.old depth regs.now sp.new (λ (u : Unit {0}). depth) result (sst i s)) × ((b : ℕ) → EnvsIn b regs.now 8 → EnvsIn b sp.old depth → EnvsIn b sp.new depth) }
{
    let u = crate::heap::link_at(n, regs, s);
    if u.link == 0 {
        return Err(Fault::WrongType);
    }
    holds_or(
        valid_context::set_item(sp, depth, i, u.link - 1, u.env),
        Fault::NoItem,
    )
}
