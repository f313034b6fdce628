// The size of a row, taken from what is left of a limit: 1 plus the sizes of the rows that it names, counted each time; at 0 nothing more
// is looked at. Value rows and stack rows are measured by two rules that call each other; the row number falls. A row that was measured
// before stands in the table `sizes`, and is not measured again (`Measured`, specs/size/Size.antt). Promised: what is left, exactly. Asked:
// a table of sizes that are right.
ghost use Rattle.std.specs.Prelude.{◌≡◌, ◌-◌, ◌≤◌};
ghost use Rattle.types_rows.specs.Read.{tab, value_at, stack_at};
ghost use Rattle.types_rows.specs.declared.Val.TheVariants.{ValVar};
ghost use Rattle.types_rows.specs.declared.Stk.TheVariants.{StkVar};
ghost use Rattle.types_rows.specs.size.Size.{size_at, parts_size, under_v, under_s, PartsAt, Measured};

use crate::{Stk, Val};

// What is left of `left` after the size of row h, or 0. No row has no size.
#[cycle(spend_parts_spend_row_spend_stack_spend_value)]
pub(crate) fn spend_row(rows: &[u16], parts: &[u16], sizes: &[u16], h: usize, left: usize) -> usize
    requires { (h ≤ 65536) × Measured (tab rows.now parts.now) sizes.now }
    ensures { result ≡ left - size_at (tab rows.now parts.now) h }
{
    if h == 0 {
        return left;
    }
    let s = tables::at(sizes, h);
    if s != 0 {
        return left.saturating_sub(s);
    }
    if left == 0 {
        return 0;
    }
    if crate::is_stack(rows, h - 1) {
        spend_stack(rows, parts, sizes, h, left - 1)
    } else {
        spend_value(rows, parts, sizes, h, left - 1)
    }
}

// What is left after the rows that the value row h names.
#[cycle(spend_parts_spend_row_spend_stack_spend_value)]
fn spend_value(rows: &[u16], parts: &[u16], sizes: &[u16], h: usize, left: usize) -> usize
    requires { (h ≤ 65536) × Measured (tab rows.now parts.now) sizes.now }
    ensures { result ≡ left - under_v (size_at (tab rows.now parts.now)) parts.now h (value_at rows.now ValVar h) }
{
    match crate::read_value(rows, h, 0, 0, 0) {
        Val::Tuple(p, c) => spend_parts(rows, parts, sizes, h, false, p, c, left),
        Val::Pointer(x) | Val::Hidden(x) => spend_row(rows, parts, sizes, x, left),
        Val::Code(x, p) => {
            let rest = spend_row(rows, parts, sizes, x, left);
            spend_parts(rows, parts, sizes, h, true, p, 8, rest)
        }
        _ => left,
    }
}

// What is left after the rows that the stack row h names.
#[cycle(spend_parts_spend_row_spend_stack_spend_value)]
fn spend_stack(rows: &[u16], parts: &[u16], sizes: &[u16], h: usize, left: usize) -> usize
    requires { (h ≤ 65536) × Measured (tab rows.now parts.now) sizes.now }
    ensures { result ≡ left - under_s (size_at (tab rows.now parts.now)) (stack_at rows.now StkVar h) }
{
    match crate::read_stack(rows, h, 0, 0, 0) {
        Stk::Push(x, y) | Stk::Join(x, y) => {
            let rest = spend_row(rows, parts, sizes, x, left);
            spend_row(rows, parts, sizes, y, rest)
        }
        _ => left,
    }
}

// What is left after the n parts of row h at p.
#[cycle(spend_parts_spend_row_spend_stack_spend_value)]
fn spend_parts(
    rows: &[u16],
    parts: &[u16],
    sizes: &[u16],
    h: usize,
    file: bool,
    p: usize,
    n: usize,
    left: usize,
) -> usize
    requires { PartsAt h p n × Measured (tab rows.now parts.now) sizes.now }
    ensures { result ≡ left - parts_size (size_at (tab rows.now parts.now)) parts.now file h p n }
{
    let mut rest = left;
    for i in p..p + n {
        if let Some(t) = crate::part(parts, file, h, i) {
            rest = spend_row(rows, parts, sizes, t, rest);
        }
    }
    rest
}
