// Rows of equal types shared, for pass three: a second table of the same rows, in which each reference names one row for all rows of its
// type (module rename). Rows with the same number are equal at once (crate types_equal), so that types that a text builds many times are
// compared once. Promised: every row of the new table has the type that it had; its counts, the two rows behind, and what passes one and
// two have seen hold of it as before (`Shared`); of the image only the two sections of the new table are written. Asked: room, the tables
// of module prepare of load, and that passes one and two found no fault in the rows. Which rows are compared is found by hashes (module
// row_hash), of which nothing is promised: a row is named for another only if they compare equal.
#![tactic(auto)]

pub mod rename;
pub mod row_hash;

ghost use Rattle.std.specs.Prelude.{◌≡◌, true, ℕ, ◌+◌, ◌≤◌, ◌<◌, length, get_or};
ghost use Rattle.syntax.specs.Syntax.{value};
ghost use Rattle.types.specs.Types.{junk, arg};
ghost use Rattle.types.specs.Rows.{types_of};
ghost use Rattle.tables.specs.Tables.{cell, row_at, rows_in};
ghost use Rattle.types_rows.specs.Clear.{RowsClear};
ghost use Rattle.types_rows.specs.Read.{tab, Counted};
ghost use Rattle.image.specs.Sections.{row_section, part_section, shared_section, slot_section, Ordered, Outside};
ghost use Rattle.valid.specs.Bounds.{SmallRow};
ghost use Rattle.valid_share.specs.rename.Renamed.{new_part};
ghost use Rattle.valid_share.specs.Shared.{Firsts, Alike, Lower, SmallForms, RowsTo, WorkFor, SharedFor, Shared};

use image::Places;

// Rows c and r, of m rows, are of the same type.
fn same_type(rows: &[u16], parts: &[u16], m: usize, c: usize, r: usize, pending: &mut [u32]) -> bool
    requires { (m ≤ 514) × (c < m) × (r < m) × (1543 ≤ length pending.old) }
    ensures { result ≡ true → get_or (types_of (rows_in (tab rows.now parts.now) m)) c (arg value junk) ≡ get_or (types_of (rows_in (tab rows.now parts.now) m)) r (arg value junk) }
{
    match (types_rows::is_stack(rows, c), types_rows::is_stack(rows, r)) {
        (true, true) => types_equal::equal_stacks(rows, parts, m, c, r, pending),
        (false, false) => types_equal::equal_values(rows, parts, m, c, r, pending),
        _ => false,
    }
}

// The first c parts of two rows of the kind k, with the numbers a and b and with x and y, are the same in the new table.
fn alike_parts(
    parts: &[u16],
    first: &[u16],
    k: usize,
    a: usize,
    b: usize,
    x: usize,
    y: usize,
    c: usize,
) -> bool
    requires { SmallForms a b x y × (c ≤ 65544) }
    ensures { result ≡ true → (j : ℕ) → j < c → new_part first.now parts.now k a b j ≡ new_part first.now parts.now k x y j }
{
    for j in 0..c {
        if rename::new_part(parts, first, k, a, b, j)
            != rename::new_part(parts, first, k, x, y, j)
        {
            return false;
        }
    }
    true
}

// Two rows of the kind k, with the numbers a and b and with x and y, are the same in the new table.
fn alike_forms(
    parts: &[u16],
    first: &[u16],
    k: usize,
    a: usize,
    b: usize,
    x: usize,
    y: usize,
) -> bool
    requires { SmallForms a b x y }
    ensures { result ≡ true → Alike first.now parts.now k a b x y }
{
    match k {
        3 => b == y && alike_parts(parts, first, k, a, b, x, y, b),
        2 | 8 => a == x,
        5 => {
            let c = 9 + types_rows::letter_count(parts, b);
            rename::first_of(first, a) == rename::first_of(first, x)
                && alike_parts(parts, first, k, a, b, x, y, c)
        }
        _ => {
            rename::first_of(first, a) == rename::first_of(first, x)
                && rename::first_of(first, b) == rename::first_of(first, y)
        }
    }
}

// Rows c and r, of m rows, name rows of the same types in the same form, as is seen from the rows that stand for those that they name.
fn alike(rows: &[u16], parts: &[u16], m: usize, first: &[u16], c: usize, r: usize) -> bool
    requires { RowsTo (tab rows.now parts.now) m first.now r × (c ≤ r) }
    ensures { result ≡ true → get_or (types_of (rows_in (tab rows.now parts.now) m)) c (arg value junk) ≡ get_or (types_of (rows_in (tab rows.now parts.now) m)) r (arg value junk) }
{
    let k = tables::cell::<4>(rows, c, 0);
    let a = tables::cell::<4>(rows, c, 1);
    let b = tables::cell::<4>(rows, c, 2);
    let x = tables::cell::<4>(rows, r, 1);
    let y = tables::cell::<4>(rows, r, 2);
    k == tables::cell::<4>(rows, r, 0) && alike_forms(parts, first, k, a, b, x, y)
}

// Row c stands for row r: it stands for itself, their hashes are equal, and their types. What is pending stands behind the hashes in `work`.
fn stands_for(
    rows: &[u16],
    parts: &[u16],
    m: usize,
    first: &[u16],
    work: &mut [u32],
    c: usize,
    r: usize,
) -> bool
    requires { RowsTo (tab rows.now parts.now) m first.now r × Counted (tab rows.now parts.now) m × (c ≤ r) × (2567 ≤ length work.old) }
    ensures { result ≡ true → get_or (types_of (rows_in (tab rows.now parts.now) m)) c (arg value junk) ≡ get_or (types_of (rows_in (tab rows.now parts.now) m)) r (arg value junk) }
{
    tables::entry_or(work, 2 * c, 0) == tables::entry_or(work, 2 * r, 0)
        && tables::at(first, c) == c
        && (alike(rows, parts, m, first, c, r)
            || same_type(rows, parts, m, c, r, &mut work[1024..]))
}

// A row that is found to have the type of row r.
fn first_like(
    rows: &[u16],
    parts: &[u16],
    m: usize,
    first: &[u16],
    work: &mut [u32],
    chains: &[u16],
    r: usize,
) -> usize
    requires { RowsTo (tab rows.now parts.now) m first.now r × Counted (tab rows.now parts.now) m × (2567 ≤ length work.old) }
    ensures { (get_or (types_of (rows_in (tab rows.now parts.now) m)) result (arg value junk) ≡ get_or (types_of (rows_in (tab rows.now parts.now) m)) r (arg value junk)) × (result ≤ r) }
{
    let mut next = row_hash::row_below(chains, row_hash::chain_of(work, r), r);
    while let Some(c) = next {
        if stands_for(rows, parts, m, first, work, c, r) {
            return c;
        }
        next = row_hash::row_below(chains, 256 + c, c);
    }
    r
}

// Writes into `first` a row of the type of each of the n rows.
fn find_first(
    rows: &[u16],
    parts: &[u16],
    n: usize,
    first: &mut [u16],
    work: &mut [u32],
    chains: &mut [u16],
)
    requires { (n ≤ 512) × Counted (tab rows.now parts.now) (n + 2) × Lower (tab rows.now parts.now) n × WorkFor n first.old work.old }
    ensures { Firsts (tab rows.now parts.now) (n + 2) first.new n }
{
    for r in 0..n {
        row_hash::put_hash(rows, parts, first, work, r);
        let c = first_like(rows, parts, n + 2, first, work, chains, r);
        first[r] = c as u16;
        row_hash::chain_row(chains, work, c, r);
    }
}

// Rows n and n + 1 are `I` and `N`. `first` and `work` are written too: `work` holds the hashes, two a row, and from entry 1,024 on what a
// comparison keeps pending.
pub fn share(image: &mut [u16], p: Places, n: usize, first: &mut [u16], work: &mut [u32])
    requires ordered { Ordered p (length image.old) × (n ≤ 512) × SharedFor n p × WorkFor n first.old work.old }
    requires counted { Counted (tab (row_section p image.old) (part_section p image.old)) (n + 2) × (cell 4 (row_section p image.old) n 0 ≡ 0) × (cell 4 (row_section p image.old) (n + 1) 0 ≡ 1) }
    requires rows_clear { RowsClear (tab (row_section p image.old) (part_section p image.old)) n × ((r : ℕ) → r < n → SmallRow (row_at (tab (row_section p image.old) (part_section p image.old)) r)) }
    ensures { Shared (tab (row_section p image.old) (part_section p image.old)) (tab (shared_section p image.new) (slot_section p image.new)) n × Outside p.shared p.end image.old image.new }
{
    let rows = &image[p.rows..p.blocks];
    let parts = &image[p.parts..p.operands];
    find_first(rows, parts, n, first, work, &mut [0; 768]);
    rename::fill_rows(image, p, first, n + 2);
    rename::fill_parts(image, p, first, n);
}
