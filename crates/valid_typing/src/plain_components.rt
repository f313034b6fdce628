// The components that `malloc` takes where they are seen at once to make the tuple of its row, as those of most texts are: operands with no
// arguments, each of the very row of its component in the same environment, or both the integer type. Promised: where the answer is yes,
// the operands have types, and the row is the tuple of them (`Makes`); no is no answer, and module components is asked. Asked: the tables
// of module prepare of load.
ghost use Rattle.std.specs.Prelude.{◌≡◌, true, false, ℕ, ◌+◌, ◌≤◌, List};
ghost use Rattle.syntax.specs.Syntax.{Kind, value};
ghost use Rattle.syntax.specs.Fault.{fault};
ghost use Rattle.types.specs.Rows.{type_at};
ghost use Rattle.tables.specs.Tables.{operand_at, operands_at};
ghost use Rattle.valid.specs.Program.{Program};
ghost use Rattle.valid.specs.PassThree.{operand};
ghost use Rattle.types_rows.specs.Read.{parts_of, mean_v};
ghost use Rattle.image.specs.Sections.{operand_section, slot_section};
ghost use Rattle.valid_context.specs.Context.{regs_of};
ghost use Rattle.valid_context.specs.Told.{gives, told_of};
ghost use Rattle.valid_typing.specs.Typing.{RowParts};
ghost use Rattle.valid_typing.specs.operands.Operands.{operand_table};
ghost use Rattle.valid_typing.specs.Image.{row_table, types_at, read_at, PlainIn, ListedWithin, HoldsAt};
ghost use Rattle.valid_typing.specs.components.Components.{components};
ghost use Rattle.valid_typing.specs.plain_components.Makes.{Makes};

use crate::Listed;
use image::{Counts, Places};
use types_rows::Val;

// Operand v has no arguments, and is seen at once to have the type of row t, which is read now.
fn plain_fits(
    image: &[u16],
    literals: &[u32],
    envs: &[u16],
    p: Places,
    c: Counts,
    v: usize,
    regs: &[u16],
    t: usize,
) -> bool
    requires { PlainIn p image.now c.rows envs.now × (v ≤ 131072) × (t ≤ c.rows + 1) }
    ensures { result ≡ true → (P : Program) (Δ : List Kind) (args : List ℕ) → HoldsAt p image.now c P → told_of (operand P Δ (fault 10) (regs_of (read_at p image.now c.rows envs.now) regs.now) (operand_at (operand_table (operand_section p image.now) literals.now args) v)) ≡ gives (type_at value (types_at p image.now c.rows) t) }
{
    let operands = p.operands;
    let args = p.args;
    let shared = p.shared;
    let slots = p.slots;
    let end = p.end;
    let table = &image[operands..args];
    let rows = &image[shared..slots];
    let parts = &image[slots..end];
    let n = c.rows;
    let kind = tables::cell::<4>(table, v, 0);
    let count = tables::cell::<4>(table, v, 1);
    if !crate::operands::is_plain(kind, count) {
        return false;
    }
    if kind == 1 {
        return crate::is_int(rows, parts, n, t);
    }
    let number = tables::number_at(literals, v);
    let Ok(b) = crate::bases::base_type(image, envs, p, c, regs, kind, number) else {
        return false;
    };
    crate::same_at_sight(rows, parts, n, b.row, b.env, t, 2 * envs.len())
}

// The operands o are so seen to have the types of the components that stand in the table of parts from `at` on, of the row of link h.
fn plain_parts(
    image: &[u16],
    literals: &[u32],
    envs: &[u16],
    p: Places,
    c: Counts,
    o: Listed,
    regs: &[u16],
    h: usize,
    at: usize,
) -> bool
    requires { PlainIn p image.now c.rows envs.now × RowParts c.rows h at × ListedWithin o }
    ensures { result ≡ true → (P : Program) (Δ : List Kind) (args : List ℕ) → HoldsAt p image.now c P → told_of (components P Δ (regs_of (read_at p image.now c.rows envs.now) regs.now) (operands_at (operand_table (operand_section p image.now) literals.now args) o.first o.count)) ≡ gives (parts_of (mean_v (row_table p image.now)) (slot_section p image.now) false h at o.count) }
{
    // The loop's invariant speaks of locals, and of no parameter that is a struct.
    let q = p;
    let k = c;
    let slots = p.slots;
    let end = p.end;
    let parts = &image[slots..end];
    let v = o.first;
    for i in (0..o.count).rev() {
        let t = crate::row_of(k.rows, types_rows::link(h, tables::at(parts, at + i)));
        if !plain_fits(image, literals, envs, q, k, v + i, regs, t) {
            return false;
        }
    }
    true
}

// The operands o are seen at once to make the tuple of row t, as those of most texts are: they need not be listed.
pub fn plain_tuple(
    image: &[u16],
    literals: &[u32],
    envs: &[u16],
    p: Places,
    c: Counts,
    o: Listed,
    regs: &[u16],
    t: usize,
) -> bool
    requires { PlainIn p image.now c.rows envs.now × (o.first + o.count ≤ 131072) × (t ≤ 65535) }
    ensures { result ≡ true → (P : Program) (Δ : List Kind) (args : List ℕ) → HoldsAt p image.now c P → Makes P Δ (regs_of (read_at p image.now c.rows envs.now) regs.now) (operands_at (operand_table (operand_section p image.now) literals.now args) o.first o.count) (type_at value (types_at p image.now c.rows) t) }
{
    let shared = p.shared;
    let slots = p.slots;
    let h = types_rows::link(c.rows + 3, t);
    let Val::Tuple(at, k) = types_rows::read_value(&image[shared..slots], h, 0, 0, 0) else {
        return false;
    };
    k == o.count && plain_parts(image, literals, envs, p, c, o, regs, h, at)
}
