// What pass three reads beside the rows of a text: two rows more, `I` and `N`, so that every type that the checker holds is the type of a
// row; in each stack row the count of its items (module measure of types_rows); how each row uses variables (crate valid_scope). Promised:
// these tables are right, and the text's rows and its other tables stay as they are. Asked: room, and that passes one and two found no
// fault in the rows.
ghost use Rattle.std.specs.Prelude.{ℕ, ◌+◌, ◌-◌, ◌*◌, ◌≤◌, ◌<◌, ◌≡◌, length, set};
ghost use Rattle.tables.specs.Tables.{row_at};
ghost use Rattle.types_rows.specs.Clear.{RowsClear};
ghost use Rattle.types_rows.specs.Read.{tab};
ghost use Rattle.image.specs.Sections.{row_section, part_section, use_section, top_section, Ordered};
ghost use Rattle.valid.specs.Bounds.{SmallRow};
ghost use Rattle.load.specs.Loaded.{SpaceFor};
ghost use Rattle.load.specs.prepare.Prepared.{Prepared, Kept};

use image::Places;

// Rows n and n + 1 get the kinds of `I` and `N`.
fn put_two(rows: &mut [u16], n: usize)
    requires { (n ≤ 512) × (4 * n + 8 ≤ length rows.old) }
    ensures { rows.new ≡ set (set rows.old (4 * n) 0) (4 * n + 4) 1 }
{
    rows[4 * n] = 0;
    rows[4 * n + 4] = 1;
}

// Puts the two rows behind the n of the text, counts the items of stack rows, and finds how rows use variables.
pub(crate) fn prepare(image: &mut [u16], p: Places, n: usize)
    requires ordered { Ordered p (length image.old) × (n ≤ 512) × SpaceFor n (p.blocks - p.rows) (p.tops - p.uses) (p.shared - p.tops) }
    requires rows_clear { RowsClear (tab (row_section p image.old) (part_section p image.old)) n × ((r : ℕ) → r < n → SmallRow (row_at (tab (row_section p image.old) (part_section p image.old)) r)) }
    ensures { Prepared (row_section p image.old) (row_section p image.new) (part_section p image.old) n (use_section p image.new) (top_section p image.new) × Kept p image.old image.new }
{
    let from = p.rows;
    let to = p.blocks;
    put_two(&mut image[from..to], n);
    types_rows::item_counts::count_items(&mut image[from..to], n + 2);
    valid_scope::find_all(image, p, n);
}
