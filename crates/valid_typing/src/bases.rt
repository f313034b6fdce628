// Pass three's look at the base of an operand: the type of a register, a literal or a label, given as a row; and the entries of the
// table of operands.
// Promised: the fault of the premise as crate valid defines it (`base`), or, if it holds, a row that has the type it gives, in its
// environment: a label's row and a literal's are read now.
// Asked: the tables of module prepare of load (`Ready` of this crate).
ghost use Rattle.std.specs.Prelude.{IfOk, ◌≡◌, ℕ, ◌+◌, ◌≤◌, length, get_or, List};
ghost use Rattle.syntax.specs.Syntax.{Kind, value, reg, lab};
ghost use Rattle.types.specs.Rows.{type_at};
ghost use Rattle.tables.specs.Tables.{cell, base_of};
ghost use Rattle.valid.specs.Program.{Program};
ghost use Rattle.valid.specs.PassThree.{base};
ghost use Rattle.types_rows.specs.Read.{tab};
ghost use Rattle.valid_context.specs.Context.{regs_of};
ghost use Rattle.valid_context.specs.Told.{told_of, told};
ghost use Rattle.valid_context.specs.premises.Answers.{Holds};
ghost use Rattle.valid_typing.specs.Typing.{types_in, held_in, held_type, Ready, Found};
ghost use Rattle.image.specs.Sections.{Ordered};
ghost use Rattle.valid_typing.specs.Image.{read_at, ReadyAt, HoldsAt};

use faults::Fault;
use image::{Counts, Places};
use types_rows::Held;

// One of the n + 2 rows that has the type of row t.
fn row_within(n: usize, t: usize) -> usize
    requires { (n ≤ 512) × (t ≤ 65535) }
    ensures { ((rows parts : List ℕ) → Ready rows parts n → type_at value (types_in rows parts n) result ≡ type_at value (types_in rows parts n) t) × (result ≤ n + 1) }
{
    crate::row_of(n, types_rows::link(n + 3, t))
}

fn register_type(n: usize, regs: &[u16], r: usize) -> Result<Held, Fault>
    requires { n ≤ 512 }
    ensures { ((rows parts E : List ℕ) (P : Program) (Δ : List Kind) → Ready rows parts n → told_of (base P Δ (regs_of (held_in rows parts n E) regs.now) (reg r)) ≡ told (held_type (held_in rows parts n E)) result) × ((E : List ℕ) → IfOk result (λ h. Found n E regs.now h)) }
{
    let u = valid_context::register(regs, r);
    if u.link == 0 {
        return Err(Fault::WrongType);
    }
    Ok(Held {
        row: row_within(n, u.link - 1),
        env: u.env,
    })
}

fn label_type(envs: &[u16], n: usize, blocks: &[u16], nb: usize, l: usize) -> Result<Held, Fault>
    requires { (n ≤ 512) × (l ≤ 4294967295) × (length envs.now ≤ 64) }
    ensures { ((rows parts regs : List ℕ) (P : Program) (Δ : List Kind) → Ready rows parts n → Holds (tab rows parts) n blocks.now nb P → told_of (base P Δ (regs_of (held_in rows parts n envs.now) regs) (lab l)) ≡ told (held_type (held_in rows parts n envs.now)) result) × ((regs : List ℕ) → IfOk result (λ h. Found n envs.now regs h)) }
{
    if l >= nb {
        return Err(Fault::WrongType);
    }
    Ok(Held {
        row: crate::given_row(n, tables::cell::<2>(blocks, l, 0)),
        env: 2 * envs.len(),
    })
}

// The type of a base: of kind 0 a register, of kind 1 a literal, else a label.
pub(crate) fn base_type(
    image: &[u16],
    envs: &[u16],
    p: Places,
    c: Counts,
    regs: &[u16],
    kind: usize,
    number: usize,
) -> Result<Held, Fault>
    requires { Ordered p (length image.now) × ReadyAt p image.now c.rows × (number ≤ 4294967295) × (length envs.now ≤ 64) }
    ensures { ((P : Program) (Δ : List Kind) → HoldsAt p image.now c P → told_of (base P Δ (regs_of (read_at p image.now c.rows envs.now) regs.now) (base_of kind number)) ≡ told (held_type (read_at p image.now c.rows envs.now)) result) × IfOk result (λ h. Found c.rows envs.now regs.now h) }
{
    let blocks = p.blocks;
    let instrs = p.instrs;
    match kind {
        0 => register_type(c.rows, regs, number),
        1 => Ok(Held {
            row: c.rows,
            env: 2 * envs.len(),
        }),
        _ => label_type(envs, c.rows, &image[blocks..instrs], c.blocks, number),
    }
}
