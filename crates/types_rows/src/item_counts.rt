// The count of items of each stack row (entry 3 of its row), from the counts of lower rows.
// Promised: the counts, and that the rows are as before. Asked: rows within pass two's limit of size. The parts of rows are not read:
// they stand in the contracts alone, and what is promised is so for all parts with which the rows are within that limit.
ghost use Rattle.std.specs.Prelude.{◌≡◌, List, ℕ, ◌*◌, ◌≤◌, ◌<◌, length};
ghost use Rattle.types.specs.Types.{items};
ghost use Rattle.types_rows.specs.Read.{tab, mean_s, items_at};
ghost use Rattle.types_rows.specs.item_counts.Counts.{SizesFit, CountsFilled};

use crate::Stk;

// The items of stack row h, from the counts of lower rows.
fn count_row(rows: &[u16], h: usize) -> usize
    requires { h ≤ 65536 }
    ensures { (parts : List ℕ) → ((x : ℕ) → x < h → items_at rows.now x ≡ items (mean_s (tab rows.now parts) x)) → result ≡ items (mean_s (tab rows.now parts) h) }
{
    match crate::read_stack(rows, h, 0, 0, 0) {
        Stk::StkVar(_) => 1,
        Stk::Push(_, x) => crate::item_count(rows, x) + 1,
        Stk::Join(x, y) => crate::item_count(rows, x) + crate::item_count(rows, y),
        _ => 0,
    }
}

// Writes the count of its items into each of the first n rows; a value row has none.
pub fn count_items(rows: &mut [u16], n: usize)
    requires { (n ≤ 65536) × (4 * n ≤ length rows.old) × ((parts : List ℕ) × SizesFit rows.old parts n) }
    ensures { (parts : List ℕ) → SizesFit rows.old parts n → CountsFilled rows.old rows.new parts n }
{
    for r in 0..n {
        let count = count_row(rows, r + 1);
        rows[4 * r + 3] = count as u16;
    }
}
