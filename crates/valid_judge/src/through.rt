// One instruction of pass three that loads or stores through a pointer into the stack: `slp`, `ssp`. The types known before it stand in
// the checker's arrays (crate valid_context), and are there changed to those known after it. For a store, the pointer's items are written
// out into a third array, `work`, where one is replaced and the whole is compared with what the given row points to.
// Promised of each: the least fault that `judge` of crate valid gives the instruction, or, if it has none, the types after it;
// every environment that is held still exists; `envs` has the environments of the packages opened so far.
ghost use Rattle.std.specs.Prelude.{◌≡◌, ℕ, ◌*◌, List, length, Ok, IfOk};
ghost use Rattle.syntax.specs.Syntax.{Kind, slp, ssp};
ghost use Rattle.types.specs.Types.{items};
ghost use Rattle.types.specs.Rows.{types_of};
ghost use Rattle.tables.specs.Tables.{rows_in};
ghost use Rattle.valid.specs.Program.{Program};
ghost use Rattle.valid.specs.Rules.{Context};
ghost use Rattle.valid.specs.Tests.{item_at};
ghost use Rattle.valid.specs.PassThree.{new_tail};
ghost use Rattle.syntax.proofs.Least.{least};
ghost use Rattle.faults.specs.Numbers.{refusal_number};
ghost use Rattle.types_rows.specs.Read.{tab};
ghost use Rattle.valid_context.specs.Context.{linked, regs_of, sp_of, context_of};
ghost use Rattle.valid_context.specs.Told.{told_of, told};
ghost use Rattle.valid_typing.specs.Typing.{held_in, Comparing, LaidOut, given_row};
ghost use Rattle.valid_typing.proofs.Judging.{through};
ghost use Rattle.valid_judge.specs.heap.Forms.{KeptRegs};
ghost use Rattle.valid_judge.specs.stack.Forms.{InStack, Kept};
ghost use Rattle.valid_judge.specs.through.Forms.{stack_in, Replaced, Linked, LinkIn, Laying, parted, Passed};
ghost use Rattle.valid_typing.specs.Image.{Prepared, letters_in};
ghost use Rattle.valid_judge.specs.Image.{Flattens, Rooms, InStackAt};

use faults::{Fault, both, holds_or};
use image::Places;
use types_rows::Held;
use valid_context::Link;
use valid_scope::BlockLetters;

// ssp d i s t: the pointer's register, the item, the register that is stored, and the row that is given.
#[derive(Clone, Copy)]
pub struct PointerStore {
    pub pointer: usize,
    pub item: usize,
    pub source: usize,
    pub row: usize,
}

// slp d s i
pub(crate) fn load_through(
    rows: &[u16],
    parts: &[u16],
    envs: &[u16],
    n: usize,
    regs: &mut [u16],
    sp: &[u16],
    depth: usize,
    d: usize,
    s: usize,
    i: usize,
    pending: &mut [u32],
) -> Result<(), Fault>
    requires { Comparing rows.now parts.now envs.now n pending.old × Rooms envs.now regs.old sp.now depth }
    ensures { ((Δ : List Kind) → InStack rows.now parts.now n envs.now Δ regs.old sp.now depth regs.new sp.now (λ (u : Unit {0}). depth) result (slp d s i)) × KeptRegs envs.now regs.old regs.new }
{
    let x = valid_typing::pointer(rows, parts, n, regs, s)?;
    let tail = valid_typing::is_tail(rows, parts, envs, n, sp, depth, x, pending);
    let u = valid_typing::row_item(rows, parts, n, x.row, i);
    both(
        holds_or(tail, Fault::NoTail),
        holds_or(u != 0, Fault::NoItem),
    )?;
    crate::heap::set_register(regs, d, u - 1, x.env)
}

// The stack row of link x with the type of link u for item i, and row t points to it.
fn new_tail(
    rows: &[u16],
    parts: &[u16],
    envs: &[u16],
    n: usize,
    work: &mut [u16],
    x: Held,
    u: Link,
    i: usize,
    t: usize,
    pending: &mut [u32],
) -> Result<(), Fault>
    requires { Comparing rows.now parts.now envs.now n pending.old × LaidOut rows.now parts.now n x.row work.old × Linked n x.env u }
    ensures { ((P : Program) (Δ : List Kind) (Γ : Context) (s : ℕ) → P.types ≡ types_of (rows_in (tab rows.now parts.now) n) → item_at Γ.regs s ≡ linked (held_in rows.now parts.now n envs.now) u.env u.link → told_of (new_tail P Δ Γ (stack_in rows.now parts.now envs.now x.env x.row) i s t) ≡ told (λ v. sp_of (held_in rows.now parts.now n envs.now) work.new (items (stack_in rows.now parts.now envs.now x.env x.row))) result) × IfOk result (λ v. Replaced (held_in rows.now parts.now n envs.now) (stack_in rows.now parts.now envs.now x.env x.row) i u (2 * length envs.now) (given_row n t) (sp_of (held_in rows.now parts.now n envs.now) work.new (items (stack_in rows.now parts.now envs.now x.env x.row)))) }
{
    let y = valid_typing::row_item(rows, parts, n, x.row, i);
    both(
        holds_or(y != 0, Fault::NoItem),
        holds_or(u.link != 0, Fault::WrongType),
    )?;
    valid_typing::flatten(rows, parts, n, work, x);
    let m = types_rows::item_count(rows, x.row);
    valid_context::set_item(work, m, i, u.link - 1, u.env);
    let r = Held {
        row: valid_typing::given_row(n, t),
        env: 2 * envs.len(),
    };
    holds_or(
        crate::stack::points(rows, parts, envs, n, work, m, r, pending),
        Fault::Unequal,
    )
}

// What the pointer of x points to is a tail of sp, and has a new tail as above, with the item and the row of x: its link.
fn pass_through(
    rows: &[u16],
    parts: &[u16],
    envs: &[u16],
    n: usize,
    regs: &[u16],
    sp: &[u16],
    depth: usize,
    work: &mut [u16],
    u: Link,
    x: PointerStore,
    pending: &mut [u32],
) -> Result<Held, Fault>
    requires { Comparing rows.now parts.now envs.now n pending.old × Laying rows.now parts.now n work.old × LinkIn n u }
    ensures { ((P : Program) (Δ : List Kind) → P.types ≡ types_of (rows_in (tab rows.now parts.now) n) → item_at (regs_of (held_in rows.now parts.now n envs.now) regs.now) x.source ≡ linked (held_in rows.now parts.now n envs.now) u.env u.link → told_of (through P Δ (context_of (held_in rows.now parts.now n envs.now) regs.now sp.now depth) x.pointer x.item x.source x.row) ≡ told (λ b. parted rows.now parts.now n envs.now sp.now depth work.new b) result) × IfOk result (λ b. Passed rows.now parts.now n envs.now regs.now sp.now depth work.new u x b) }
{
    let b = valid_typing::pointer(rows, parts, n, regs, x.pointer)?;
    let tail = valid_typing::is_tail(rows, parts, envs, n, sp, depth, b, pending);
    both(
        holds_or(tail, Fault::NoTail),
        new_tail(rows, parts, envs, n, work, b, u, x.item, x.row, pending),
    )?;
    Ok(b)
}

// The first holds, and what the second gives, or the lesser of the faults that stand against them.
pub(crate) fn and_give(a: Result<(), Fault>, b: Result<Held, Fault>) -> Result<Held, Fault>
    ensures { (refusal_number result ≡ least (refusal_number a) (refusal_number b)) × IfOk result (λ h. (refusal_number a ≡ 0) × (b ≡ Ok h)) }
{
    match (a, b) {
        (Err(f), Err(g)) => Err(if f.number() <= g.number() { f } else { g }),
        (Err(f), Ok(_)) => Err(f),
        (Ok(_), b) => b,
    }
}

// ssp, under the letters w
pub(crate) fn store_through(
    image: &[u16],
    envs: &[u16],
    p: Places,
    n: usize,
    regs: &mut [u16],
    sp: &mut [u16],
    work: &mut [u16],
    depth: usize,
    x: PointerStore,
    w: BlockLetters,
    pending: &mut [u32],
) -> Result<(), Fault>
    requires { Prepared p image.now n pending.old × Flattens p image.now n work.old × Rooms envs.now regs.old sp.old depth }
    ensures { InStackAt p image.now n envs.now (letters_in p image.now w) regs.old sp.old depth regs.new sp.new (λ (u : Unit {0}). depth) result (ssp x.pointer x.item x.source x.row) × Kept envs.now regs.old sp.old depth regs.new sp.new depth }
{
    let rows = &image[p.shared..p.slots];
    let parts = &image[p.slots..p.end];
    let u = crate::heap::link_at(n, regs, x.source);
    let b = pass_through(rows, parts, envs, n, regs, sp, depth, work, u, x, pending);
    let known = holds_or(u.link != 0, Fault::WrongType);
    let formed = valid_typing::formed_row(image, p, n, x.row, w);
    let b = and_give(formed, and_give(known, b))?;
    valid_context::set_item(
        sp,
        types_rows::item_count(rows, b.row),
        x.item,
        u.link - 1,
        u.env,
    );
    crate::heap::set_register(
        regs,
        x.pointer,
        valid_typing::given_row(n, x.row),
        2 * envs.len(),
    )
}
