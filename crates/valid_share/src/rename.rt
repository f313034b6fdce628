// A second table of the same rows, in which each reference is replaced by the row that `first` names for it, if that is lower; the parts of
// row r stand at 17 r. Both tables are sections of one image (crate image). Promised: each entry and each part of the new table is the
// renamed one (`FilledRows`, `FilledParts` of specs/rename/Renamed.antt), and nothing else is written. Asked: room, and at most 514 rows.
// Kept: a row's kind is the number in its table (specs/Tables.antt of crate tables: 2 and 8 are variables, 3 a tuple, 5 code), since
// `row_from` there and the definitions of specs/rename/Renamed.antt speak of any number.
ghost use Rattle.std.specs.Prelude.{◌≡◌, true, [], ◌∷◌, ◌+◌, ◌-◌, ◌*◌, ◌≤◌, ◌<◌, length};
ghost use Rattle.std.proofs.lemmas.List.Edits.{sets};
ghost use Rattle.tables.specs.Tables.{cell};
ghost use Rattle.image.specs.Sections.{part, row_section, part_section, shared_section, slot_section, Ordered, Outside};
ghost use Rattle.valid_share.specs.rename.Renamed.{first_of, new_a, new_b, new_slot, new_part, NewEntries, part_at, FilledRows, FilledParts, InOrder, FilledRow, HasParts, FilledIf};

use image::Places;

// The entries of a row.
#[derive(Clone, Copy)]
struct Entries {
    kind: u16,
    a: u16,
    b: u16,
    count: u16,
}

// The row that stands for row x.
#[tactic(auto, unfolding(crate::specs::rename::Renamed::first_of))]
pub(crate) fn first_of(first: &[u16], x: usize) -> usize
    ensures { (result ≡ first_of first.now x) × (result ≤ x) }
{
    tables::at(first, x).min(x)
}

// The first number of row r, of the kind k.
#[tactic(auto, unfolding(crate::specs::rename::Renamed::new_a))]
fn new_a(first: &[u16], r: usize, k: usize, a: usize) -> usize
    requires { (r ≤ 514) × (a ≤ 65535) }
    ensures { (result ≡ new_a first.now r k a) × (result ≤ 65535) }
{
    match k {
        3 => 17 * r,
        2 | 8 => a,
        _ => first_of(first, a),
    }
}

// The second number.
#[tactic(auto, unfolding(crate::specs::rename::Renamed::new_b))]
fn new_b(first: &[u16], r: usize, k: usize, b: usize) -> usize
    requires { (r ≤ 514) × (b ≤ 65535) }
    ensures { (result ≡ new_b first.now r k b) × (result ≤ 65535) }
{
    match k {
        3 => b,
        5 => 17 * r,
        _ => first_of(first, b),
    }
}

// A register: 0, or one more than its row.
#[tactic(auto, unfolding(crate::specs::rename::Renamed::new_slot))]
fn new_slot(first: &[u16], x: usize) -> usize
    ensures { (result ≡ new_slot first.now x) × (result ≤ x) }
{
    if x == 0 {
        0
    } else {
        first_of(first, x - 1) + 1
    }
}

// Part j of a row of the kind k with the numbers a and b.
#[tactic(auto, unfolding(crate::specs::rename::Renamed::new_part))]
pub(crate) fn new_part(
    parts: &[u16],
    first: &[u16],
    k: usize,
    a: usize,
    b: usize,
    j: usize,
) -> usize
    requires { (a ≤ 65535) × (b ≤ 65535) × (j ≤ 65543) }
    ensures { (result ≡ new_part first.now parts.now k a b j) × (result ≤ 65535) }
{
    if k == 3 {
        first_of(first, tables::at(parts, a + j))
    } else if j < 8 {
        new_slot(first, tables::at(parts, b + j))
    } else {
        tables::at(parts, b + j)
    }
}

// The four entries of row r in the new table.
#[tactic(auto, unfolding(crate::specs::rename::Renamed::entry_at))]
fn new_entries(rows: &[u16], first: &[u16], r: usize) -> Entries
    requires { r < 514 }
    ensures { NewEntries first.now rows.now r result }
{
    let k = tables::cell::<4>(rows, r, 0);
    let a = new_a(first, r, k, tables::cell::<4>(rows, r, 1));
    let b = new_b(first, r, k, tables::cell::<4>(rows, r, 2));
    let c = tables::cell::<4>(rows, r, 3);
    Entries {
        kind: k as u16,
        a: a as u16,
        b: b as u16,
        count: c as u16,
    }
}

// Writes them as row r of the new table.
fn put_entries(rows2: &mut [u16], r: usize, e: Entries)
    requires { (r < 514) × (4 * r + 4 ≤ length rows2.old) }
    ensures { rows2.new ≡ sets rows2.old (4 * r) (e.kind ∷ e.a ∷ e.b ∷ e.count ∷ []) }
{
    rows2[4 * r..4 * r + 4].copy_from_slice(&[e.kind, e.a, e.b, e.count]);
}

// The entries of the m rows.
pub(crate) fn fill_rows(image: &mut [u16], p: Places, first: &[u16], m: usize)
    requires { Ordered p (length image.old) × (m ≤ 514) × (4 * m ≤ p.slots - p.shared) }
    ensures { FilledRows first.now (row_section p image.old) m (shared_section p image.new) × Outside p.shared p.slots image.old image.new }
{
    let Places {
        rows,
        blocks,
        shared,
        slots,
        ..
    } = p;
    for r in 0..m {
        let e = new_entries(&image[rows..blocks], first, r);
        put_entries(&mut image[shared..slots], r, e);
    }
}

// A row of the kind k has parts: it is a tuple or code.
fn has_parts(k: usize) -> bool
    ensures { HasParts k → result ≡ true }
{
    matches!(k, 3 | 5)
}

// The 17 parts of a row of the kind k with the numbers a and b, from the section of parts, at `base`.
fn fill_row(
    image: &mut [u16],
    first: &[u16],
    parts: usize,
    operands: usize,
    base: usize,
    k: usize,
    a: usize,
    b: usize,
)
    requires { InOrder parts operands base (length image.old) × (a ≤ 65535) × (b ≤ 65535) }
    ensures { FilledRow base 17 (new_part first.now (part parts operands image.old) k a b) image.old image.new × Outside base (base + 17) image.old image.new }
{
    for j in 0..17 {
        let x = new_part(&image[parts..operands], first, k, a, b, j);
        image[base + j] = x as u16;
    }
}

// The same of row r, from the sections of rows and parts, if it has parts.
fn fill_if(
    image: &mut [u16],
    first: &[u16],
    rows: usize,
    blocks: usize,
    parts: usize,
    operands: usize,
    base: usize,
    r: usize,
)
    requires { (rows ≤ blocks) × (blocks ≤ parts) × InOrder parts operands base (length image.old) × (r ≤ 512) }
    ensures { FilledIf (cell 4 (part rows blocks image.old) r 0) base 17 (part_at first.now (part rows blocks image.old) (part parts operands image.old) r) image.old image.new × Outside base (base + 17) image.old image.new }
{
    let k = tables::cell::<4>(&image[rows..blocks], r, 0);
    let a = tables::cell::<4>(&image[rows..blocks], r, 1);
    let b = tables::cell::<4>(&image[rows..blocks], r, 2);
    if has_parts(k) {
        fill_row(image, first, parts, operands, base, k, a, b);
    }
}

// The parts of the n rows.
pub(crate) fn fill_parts(image: &mut [u16], p: Places, first: &[u16], n: usize)
    requires { Ordered p (length image.old) × (n ≤ 512) × (17 * n ≤ p.end - p.slots) }
    ensures { FilledParts first.now (row_section p image.old) (part_section p image.old) n (slot_section p image.new) × Outside p.slots p.end image.old image.new }
{
    let Places {
        rows,
        blocks,
        parts,
        operands,
        slots,
        ..
    } = p;
    for r in 0..n {
        let base = slots + 17 * r;
        fill_if(image, first, rows, blocks, parts, operands, base, r);
    }
}
