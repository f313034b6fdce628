// Pass two's size of a row, with a limit: `size_over` says exactly whether it is above 4,096 (module size stops as soon as it is), and
// keeps the size of a row within the limit.
// Promised: fault 6 of crate types, and that the table of sizes stays right. Asked: a table of sizes that are right.
ghost use Rattle.std.specs.Prelude.{◌≡◌, ◌≤◌, ltb};
ghost use Rattle.types.specs.Rows.{size_of, sizes_of};
ghost use Rattle.tables.specs.Tables.{row_at, rows_in};
ghost use Rattle.types_rows.specs.Read.{tab};
ghost use Rattle.types_rows.specs.size.Size.{Measured};

// Row r is larger than 4,096 (fault 6). Of the rows that it names only lower ones count. The size of a row within the limit is kept.
pub fn size_over(rows: &[u16], parts: &[u16], sizes: &mut [u16], r: usize) -> bool
    requires { (r ≤ 65535) × Measured (tab rows.now parts.now) sizes.old }
    ensures { (result ≡ ltb 4096 (size_of (sizes_of (rows_in (tab rows.now parts.now) r)) (row_at (tab rows.now parts.now) r))) × Measured (tab rows.now parts.now) sizes.new }
{
    let rest = crate::size::spend_row(rows, parts, sizes, r + 1, 4097);
    if rest == 0 {
        return true;
    }
    tables::put(sizes, r + 1, (4097 - rest) as u16);
    false
}
