// Pass three's look at the components that `malloc` takes: the types of a list of operands, and whether a row is the tuple of them.
// Promised: the least fault of the list as crate valid defines it (`operands`), or, if there is none, the rows of its types, each
// with its environment; and the test `same` of crate types against the tuple. Asked: the tables of module prepare of load, and operands
// with at most eight arguments.
ghost use Rattle.std.specs.Prelude.{◌≡◌, false, ◌≤◌, length};
ghost use Rattle.syntax.specs.Syntax.{value};
ghost use Rattle.types.specs.Types.{tuple};
ghost use Rattle.types.specs.Rows.{type_at};
ghost use Rattle.types.specs.Equal.{same};
ghost use Rattle.valid.specs.Program.{Program};
ghost use Rattle.types_rows.specs.Read.{tab, parts_of, mean_v};
ghost use Rattle.valid_context.specs.Context.{regs_of};
ghost use Rattle.valid_context.specs.Told.{told_of, told};
ghost use Rattle.valid.specs.Bounds.{AllShort};
ghost use Rattle.valid_typing.specs.Typing.{types_in, held_in, Comparing, RowParts};
ghost use Rattle.valid_typing.specs.Image.{read_at, Prepared, listed_in, ListedInto, HoldsAt, letters_in};
ghost use Rattle.valid_typing.specs.components.Components.{types_from, components};

use crate::Listed;
use faults::Fault;
use image::{Counts, Places};
use types_rows::{Held, Val};
use valid_scope::BlockLetters;

// The types of the operands o under the letters w; their rows and environments are put into `found`.
pub fn operand_list(
    image: &[u16],
    literals: &[u32],
    envs: &[u16],
    p: Places,
    c: Counts,
    o: Listed,
    w: BlockLetters,
    regs: &[u16],
    pending: &mut [u32],
    found: &mut [u16],
) -> Result<(), Fault>
    requires { Prepared p image.now c.rows pending.old × AllShort (listed_in p image.now literals.now o) × ListedInto o found.old × (length envs.now ≤ 64) }
    ensures { (P : Program) → HoldsAt p image.now c P → told_of (components P (letters_in p image.now w) (regs_of (read_at p image.now c.rows envs.now) regs.now) (listed_in p image.now literals.now o)) ≡ told (λ u. types_from (read_at p image.now c.rows envs.now) found.new 0 o.count) result }
{
    // The loop's invariant speaks of locals, and of no parameter that is a struct.
    let t = p;
    let k = c;
    let u = w;
    let v = o.first;
    let mut all = Ok(());
    for i in (0..o.count).rev() {
        match crate::operands::operand(image, literals, envs, t, k, v + i, u, regs, pending) {
            Ok(h) => valid_context::put(found, i, h.row as u16, h.env as u16),
            Err(f) => all = faults::both(Err(f), all),
        }
    }
    all
}

// The c components that stand in `parts` from p on, of the row of link h, which is read now, are the rows in `found`.
fn same_parts(
    rows: &[u16],
    parts: &[u16],
    envs: &[u16],
    n: usize,
    h: usize,
    p: usize,
    c: usize,
    found: &[u16],
    pending: &mut [u32],
) -> bool
    requires { Comparing rows.now parts.now envs.now n pending.old × RowParts n h p × (c ≤ 65535) }
    ensures { result ≡ same (parts_of (mean_v (tab rows.now parts.now)) parts.now false h p c) (types_from (held_in rows.now parts.now n envs.now) found.now 0 c) }
{
    for i in 0..c {
        let l = Held {
            row: crate::row_of(n, types_rows::link(h, tables::at(parts, p + i))),
            env: 2 * envs.len(),
        };
        let r = Held {
            row: tables::cell::<2>(found, i, 0),
            env: tables::cell::<2>(found, i, 1),
        };
        if !crate::same_rows(rows, parts, envs, n, l, r, pending) {
            return false;
        }
    }
    true
}

// Row t, which is read now, is the tuple of the c rows in `found`.
pub fn same_tuple(
    rows: &[u16],
    parts: &[u16],
    envs: &[u16],
    n: usize,
    t: usize,
    found: &[u16],
    c: usize,
    pending: &mut [u32],
) -> bool
    requires { Comparing rows.now parts.now envs.now n pending.old × (t ≤ 65535) }
    ensures { result ≡ same (type_at value (types_in rows.now parts.now n) t) (tuple (types_from (held_in rows.now parts.now n envs.now) found.now 0 c)) }
{
    let h = types_rows::link(n + 3, t);
    let Val::Tuple(p, k) = types_rows::read_value(rows, h, 0, 0, 0) else {
        return false;
    };
    k == c && same_parts(rows, parts, envs, n, h, p, c, found, pending)
}
