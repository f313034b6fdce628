// One instruction of pass three that reads or makes a tuple's component, and `halt`. The types known before it stand in the checker's
// arrays (crate valid_context), and are there changed to those known after it; `envs` has the environments of the packages opened so far.
// Promised of each: the least fault that `judge` of crate valid gives the instruction, or, if it has none, the types after it;
// every environment that is held still exists.
ghost use Rattle.std.specs.Prelude.{◌≡◌, ℕ, ◌+◌, ◌-◌, ◌≤◌, ◌<◌, List, length};
ghost use Rattle.syntax.specs.Syntax.{Kind, stack, ld, st, halt};
ghost use Rattle.types.specs.Types.{Ty};
ghost use Rattle.types.specs.Equal.{same};
ghost use Rattle.valid.specs.Program.{Program};
ghost use Rattle.valid.specs.Tests.{item_at};
ghost use Rattle.valid.specs.PassThree.{assign};
ghost use Rattle.valid_context.specs.Context.{Reading, regs_of, linked, EnvsIn};
ghost use Rattle.valid_context.specs.Told.{told_of, told};
ghost use Rattle.valid_typing.specs.Typing.{held_in, Ready, Comparing};
ghost use Rattle.valid_judge.specs.heap.Forms.{held, InRegs, KeptRegs};
ghost use Rattle.valid_typing.specs.Image.{Prepared, letters_in};
ghost use Rattle.valid_judge.specs.Image.{InRegsAt};

use crate::through::and_give;
use faults::{Fault, both, holds_or};
use image::Places;
use types_rows::Held;
use valid_context::Link;
use valid_scope::BlockLetters;

// The link of register r, among those of the n + 2 rows.
pub(crate) fn link_at(n: usize, regs: &[u16], r: usize) -> Link
    requires { n ≤ 512 }
    ensures { ((rows parts E : List ℕ) → Ready rows parts n → item_at (regs_of (held_in rows parts n E) regs.now) r ≡ linked (held_in rows parts n E) result.env result.link) × (result.link ≤ n + 2) × (result.env ≤ 65535) × ((b : ℕ) → EnvsIn b regs.now 8 → result.env ≤ b) }
{
    let u = valid_context::register(regs, r);
    if u.link < n + 3 {
        u
    } else {
        Link {
            link: n + 2,
            env: u.env,
        }
    }
}

// Register d gets the type of a row in an environment.
pub(crate) fn set_register(regs: &mut [u16], d: usize, row: usize, env: usize) -> Result<(), Fault>
    requires { (16 ≤ length regs.old) × (row < 65535) × (env ≤ 65535) }
    ensures { ((T : Reading) (P : Program) (Δ : List Kind) (s : Ty stack) → told_of (assign P Δ (held s (regs_of T regs.old)) d (T.type env row)) ≡ told (λ u. held s (regs_of T regs.new)) result) × ((b : ℕ) → env ≤ b → EnvsIn b regs.old 8 → EnvsIn b regs.new 8) }
{
    holds_or(valid_context::assign(regs, d, row, env), Fault::WrongType)
}

// ld d s i
pub(crate) fn load(
    rows: &[u16],
    parts: &[u16],
    envs: &[u16],
    n: usize,
    regs: &mut [u16],
    d: usize,
    s: usize,
    i: usize,
) -> Result<(), Fault>
    requires { Ready rows.now parts.now n × (16 ≤ length regs.old) }
    ensures { ((Δ : List Kind) → InRegs rows.now parts.now n envs.now Δ regs.old regs.new result (ld d s i)) × KeptRegs envs.now regs.old regs.new }
{
    let c = valid_typing::component(rows, parts, n, regs, s, i)?;
    set_register(regs, d, c.row, c.env)
}

// st d i s
pub(crate) fn store(
    rows: &[u16],
    parts: &[u16],
    envs: &[u16],
    n: usize,
    regs: &[u16],
    d: usize,
    i: usize,
    s: usize,
    pending: &mut [u32],
) -> Result<(), Fault>
    requires { Comparing rows.now parts.now envs.now n pending.old }
    ensures { (Δ : List Kind) → InRegs rows.now parts.now n envs.now Δ regs.now regs.now result (st d i s) }
{
    let u = link_at(n, regs, s);
    let t = and_give(
        holds_or(u.link != 0, Fault::WrongType),
        valid_typing::component(rows, parts, n, regs, d, i),
    )?;
    holds_or(
        same_link(rows, parts, envs, n, u, t, pending),
        Fault::Unequal,
    )
}

// The type of link u, 0 aside, is the type t.
fn same_link(
    rows: &[u16],
    parts: &[u16],
    envs: &[u16],
    n: usize,
    u: Link,
    t: Held,
    pending: &mut [u32],
) -> bool
    requires { Comparing rows.now parts.now envs.now n pending.old × (u.env ≤ 65535) × (t.env ≤ 65535) }
    ensures { result ≡ same ((held_in rows.now parts.now n envs.now).type u.env (u.link - 1)) ((held_in rows.now parts.now n envs.now).type t.env t.row) }
{
    if u.link == 0 {
        let none = Held { row: 0, env: u.env };
        return valid_typing::same_rows(rows, parts, envs, n, none, t, pending);
    }
    let l = Held {
        row: u.link - 1,
        env: u.env,
    };
    valid_typing::same_rows(rows, parts, envs, n, l, t, pending)
}

// halt t, under the letters w
pub(crate) fn stop(
    image: &[u16],
    envs: &[u16],
    p: Places,
    n: usize,
    regs: &[u16],
    t: usize,
    w: BlockLetters,
    pending: &mut [u32],
) -> Result<(), Fault>
    requires { Prepared p image.now n pending.old × (length envs.now ≤ 64) }
    ensures { InRegsAt p image.now n envs.now (letters_in p image.now w) regs.now regs.now result (halt t) }
{
    let shared = p.shared;
    let slots = p.slots;
    let end = p.end;
    let rows = &image[shared..slots];
    let parts = &image[slots..end];
    let u = link_at(n, regs, 0);
    both(
        valid_typing::formed_row(image, p, n, t, w),
        holds_or(u.link != 0, Fault::WrongType),
    )?;
    let r = Held {
        row: valid_typing::given_row(n, t),
        env: 2 * envs.len(),
    };
    holds_or(
        same_link(rows, parts, envs, n, u, r, pending),
        Fault::Unequal,
    )
}
