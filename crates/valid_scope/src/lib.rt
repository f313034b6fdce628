// Fault 7, and a block's own line (module entry): is every variable of a row bound by the block's letters, and of its letter, or one of the
// hidden variables in force (document 02, point 3)? Two tables are filled once, each row from the rows that it names (module variables).
// `uses` has 64 entries a row, one for each variable: how it is free in the row. `tops` has one entry a row: one more than the highest free
// variable, or 255 if some variable is bound inside the row by a letter of the other kind. The rows before a row give a bound, past which
// no variable is free in them: only the variables below it are looked for. The tables are sections of the image, as the rows are.
// Promises: `find_all` makes tables that are right for the types of the rows (`Scoped`, specs/Scoped.antt), and writes nothing else; from
// such tables `formed` answers whether the type of a row is well-formed under the letters given (`formed_arg` of crate valid). Laws for
// callers: proofs/Callers.antt.
#![tactic(auto)]

pub mod entry;
pub mod variables;

ghost use Rattle.std.specs.Prelude.{◌≡◌, cond, List, ℕ, suc, ◌+◌, ◌-◌, ◌*◌, ◌^◌, ◌<◌, ◌≤◌, eqb, ltb, length, get_or};
ghost use Rattle.std.proofs.Math.ListN.{get_elem?};
ghost use Rattle.syntax.specs.Syntax.{value};
ghost use Rattle.types.specs.Types.{junk, arg};
ghost use Rattle.types.specs.Rows.{types_of};
ghost use Rattle.valid.specs.Tests.{formed_arg};
ghost use Rattle.tables.specs.Tables.{row_from, row_at, rows_in};
ghost use Rattle.types_rows.specs.Read.{tab};
ghost use Rattle.image.specs.Sections.{row_section, part_section, use_section, top_section, Ordered, Outside};
ghost use Rattle.valid_scope.specs.variables.Free.{fits, top_of, free_in};
ghost use Rattle.valid_scope.specs.variables.Uses.{row_use, row_respected};
ghost use Rattle.valid_scope.specs.Scoped.{row_type, Free, Within, Cleared, Scoped, Checked, NextRow, RowRoom};
ghost use Rattle.valid_scope.specs.Letters.{letters_of};

use image::Places;

// The letters in force: how many hidden variables there are, one for each unpack before (document 02, point 3); then the block's letters,
// how many there are and where they start in the table of parts, in the order of their variables.
#[derive(Clone, Copy)]
pub struct BlockLetters {
    pub hidden: usize,
    pub count: usize,
    pub start: usize,
}

// Each variable that is bound inside row r is of its letter.
fn row_respected(rows: &[u16], parts: &[u16], uses: &[u16], tops: &[u16], r: usize) -> bool
    ensures { result ≡ row_respected uses.now tops.now (row_at (tab rows.now parts.now) r) }
{
    crate::variables::form_respected(
        parts,
        uses,
        tops,
        tables::cell::<4>(rows, r, 0),
        tables::cell::<4>(rows, r, 1),
        tables::cell::<4>(rows, r, 2),
    )
}

// One more than the highest variable used, after variable k of use u.
fn raised(top: usize, u: u16, k: usize) -> usize
    requires { k < 64 }
    ensures { result ≡ cond (eqb u 0) top (suc k) }
{
    if u == 0 { top } else { k + 1 }
}

// A bound of the variables of a row of kind c: that of the rows before it, or, of a variable itself, 64.
fn limit_of(c: usize, bound: usize) -> usize
    requires { bound ≤ 64 }
    ensures { (result ≡ cond (eqb c 2) 64 (cond (eqb c 8) 64 bound)) × (result ≤ 64) }
{
    match c {
        2 | 8 => 64,
        _ => bound,
    }
}

// Entries `from` to `to` become 0.
fn clear(uses: &mut [u16], from: usize, to: usize)
    requires { (from ≤ to) × (to ≤ length uses.old) }
    ensures { Cleared uses.old uses.new from to }
{
    uses[from..to].fill(0);
}

// The kind of a row and its two numbers.
#[derive(Clone, Copy)]
struct Form {
    kind: usize,
    first: usize,
    second: usize,
}

// Those of row r.
fn form_at(rows: &[u16], r: usize) -> Form
    ensures { ((parts : List ℕ) → row_from parts result.kind result.first result.second ≡ row_at (tab rows.now parts) r) × (result.first ≤ 65535) × (result.second ≤ 65535) }
{
    Form {
        kind: tables::cell::<4>(rows, r, 0),
        first: tables::cell::<4>(rows, r, 1),
        second: tables::cell::<4>(rows, r, 2),
    }
}

// How variable k is free in a row of this form.
fn use_in(image: &[u16], p: Places, f: Form, k: usize) -> u16
    requires { Ordered p (length image.now) × (f.first ≤ 65535) × (f.second ≤ 65535) × (k ≤ 65535) }
    ensures { result ≡ row_use (use_section p image.now) k (row_from (part_section p image.now) f.kind f.first f.second) }
{
    crate::variables::form_use(
        &image[p.parts..p.operands],
        &image[p.uses..p.tops],
        f.kind,
        f.first,
        f.second,
        k,
    )
}

// Fills the uses of row r, none from `bound` on being free in the rows before it; answers one more than its highest free variable.
fn fill_uses(image: &mut [u16], p: Places, r: usize, bound: usize) -> usize
    requires { Ordered p (length image.old) × (64 * r + 64 ≤ p.tops - p.uses) × NextRow (tab (row_section p image.old) (part_section p image.old)) r bound × Free (tab (row_section p image.old) (part_section p image.old)) r (use_section p image.old) }
    ensures { (result ≡ top_of (λ k. free_in k (row_type (tab (row_section p image.old) (part_section p image.old)) r)) 64) × Free (tab (row_section p image.old) (part_section p image.old)) (suc r) (use_section p image.new) × Outside p.uses p.tops image.old image.new }
{
    let f = form_at(&image[p.rows..p.blocks], r);
    let limit = limit_of(f.kind, bound);
    let mut top = 0;
    for k in 0..limit {
        let u = use_in(image, p, f, k);
        image[p.uses + (64 * r + k)] = u;
        top = raised(top, u, k);
    }
    clear(&mut image[p.uses..p.tops], 64 * r + limit, 64 * r + 64);
    top
}

// What stands in `tops` for a row with this highest variable.
fn mark(respected: bool, top: usize) -> u16
    requires { top ≤ 64 }
    ensures { result ≡ cond respected top 255 }
{
    if respected { top as u16 } else { 255 }
}

// Fills the entries of row r, those of the rows before it being there; from bound to bound.
fn find_uses(image: &mut [u16], p: Places, r: usize, bound: usize) -> usize
    requires { Ordered p (length image.old) × RowRoom p r × NextRow (tab (row_section p image.old) (part_section p image.old)) r bound × Scoped (tab (row_section p image.old) (part_section p image.old)) r (use_section p image.old) (top_section p image.old) }
    ensures { Scoped (tab (row_section p image.old) (part_section p image.old)) (suc r) (use_section p image.new) (top_section p image.new) × (result ≤ 64) × Within (tab (row_section p image.old) (part_section p image.old)) (suc r) result × Outside p.uses p.shared image.old image.new }
{
    let respected = row_respected(
        &image[p.rows..p.blocks],
        &image[p.parts..p.operands],
        &image[p.uses..p.tops],
        &image[p.tops..p.shared],
        r,
    );
    let top = fill_uses(image, p, r, bound);
    image[p.tops + r] = mark(respected, top);
    bound.max(top)
}

// Fills the entries of the n rows.
pub fn find_all(image: &mut [u16], p: Places, n: usize)
    requires { Ordered p (length image.old) × (64 * n ≤ p.tops - p.uses) × (n ≤ p.shared - p.tops) × ((r : ℕ) → r < n → Checked (tab (row_section p image.old) (part_section p image.old)) r) }
    ensures { Scoped (tab (row_section p image.old) (part_section p image.old)) n (use_section p image.new) (top_section p image.new) × Outside p.uses p.shared image.old image.new }
{
    let mut bound = 0;
    for r in 0..n {
        bound = find_uses(image, p, r, bound);
    }
}

// Variable k, of use u, is a hidden variable or one of the block's letters, and of its letter, or it is not used.
fn in_block(parts: &[u16], u: u16, k: usize, w: BlockLetters) -> bool
    ensures { result ≡ fits u (get_elem? (letters_of parts.now w) k) }
{
    if k < w.hidden {
        crate::variables::is_value(u)
    } else {
        crate::variables::is_bound(parts, u, k - w.hidden, w.count, w.start)
    }
}

// Every variable of row r, one of n, is bound and of its letter under the letters w. `rows` and n are here for the promise alone.
pub fn formed(
    rows: &[u16],
    parts: &[u16],
    n: usize,
    uses: &[u16],
    tops: &[u16],
    r: usize,
    w: BlockLetters,
) -> bool
    requires { (r < n) × Scoped (tab rows.now parts.now) n uses.now tops.now }
    ensures { result ≡ formed_arg (letters_of parts.now w) (get_or (types_of (rows_in (tab rows.now parts.now) n)) r (arg value junk)) }
{
    let top = tables::at(tops, r);
    top != 255 && (0..top).all(|k| in_block(parts, crate::variables::use_at(uses, k, r), k, w))
}
