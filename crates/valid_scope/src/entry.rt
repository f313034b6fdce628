// A block's own line in pass three: 7 if its row has a variable that is unbound or of the wrong letter, 8 if block 0 is unfit as the
// entry, 13 if sp has more than 64 items. Promised: the least of these faults, as `block_faults` of crate valid has them, and the number of
// samples that the entry declares. Asked: that the block's row is a code row (pass two), and the tables of module prepare of load.
ghost use Rattle.std.specs.Prelude.{◌≡◌, true, false, ◌&&◌, not, List, ◌++◌, get_or, ℕ, ◌≤◌, ◌<◌};
ghost use Rattle.syntax.specs.Syntax.{value, Instr};
ghost use Rattle.syntax.proofs.Least.{least_of};
ghost use Rattle.types.specs.Types.{Ty, int, push};
ghost use Rattle.types.specs.Equal.{same};
ghost use Rattle.types.specs.Rows.{type_at, types_of};
ghost use Rattle.tables.specs.Tables.{rows_in};
ghost use Rattle.types_rows.specs.Read.{tab, mean_v, slot_at, on_slot, parts_of, CountedTo};
ghost use Rattle.valid.specs.Program.{block_of};
ghost use Rattle.valid.specs.Rules.{ints, declared};
ghost use Rattle.valid.specs.Tests.{is_entry};
ghost use Rattle.valid.specs.PassThree.{block_faults};
ghost use Rattle.valid_scope.specs.Scoped.{Scoped};
ghost use Rattle.faults.specs.Numbers.{fault_number};
ghost use Rattle.valid_scope.specs.entry.Entry.{gaps, Declares, FitFirst, CodeAt, block_at};

use crate::BlockLetters;
use faults::Fault;
use types_rows::Val;

// The tuple that r1 is as the entry's: its row, where its components start, and how many it has.
#[derive(Clone, Copy)]
pub struct Samples {
    pub row: usize,
    pub start: usize,
    pub count: usize,
}

// Value row h is the integer type.
fn is_int(rows: &[u16], h: usize) -> bool
    requires { h ≤ 65536 }
    ensures { (parts : List ℕ) → result ≡ same (mean_v (tab rows.now parts) h) int }
{
    matches!(types_rows::read_value(rows, h, 0, 0, 0), Val::Int)
}

// The c components of row h at p are integers.
fn all_ints(rows: &[u16], parts: &[u16], h: usize, p: usize, c: usize) -> bool
    requires { (h ≤ 65536) × (0 < h) × (p ≤ 65535) × (c ≤ 65535) }
    ensures { result ≡ same (parts_of (mean_v (tab rows.now parts.now)) parts.now false h p c) (ints c) }
{
    (0..c).all(|i| is_int(rows, types_rows::link(h, tables::at(parts, p + i))))
}

// No register of the k at p is named.
fn none_named(parts: &[u16], p: usize, k: usize) -> bool
    requires { (p ≤ 65536) × (k ≤ 8) }
    ensures { (v : ℕ → Ty value) (h : ℕ) → result ≡ same (parts_of v parts.now true h p k) (gaps k) }
{
    (0..k).all(|i| tables::at(parts, p + i) == 0)
}

// The tuple that value row t is, if it is one.
fn tuple_at(rows: &[u16], t: usize) -> Option<Samples>
    requires { t ≤ 65536 }
    ensures { (parts : List ℕ) → Declares (tab rows.now parts) (push (mean_v (tab rows.now parts) t)) result }
{
    match types_rows::read_value(rows, t, 0, 0, 0) {
        Val::Tuple(start, count) => Some(Samples {
            row: t,
            start,
            count,
        }),
        _ => None,
    }
}

// The tuple in the register of row h that stands at p, as r1 of the entry.
fn samples_in(rows: &[u16], parts: &[u16], h: usize, p: usize) -> Option<Samples>
    requires { (0 < h) × (h ≤ 65536) }
    ensures { Declares (tab rows.now parts.now) (on_slot (mean_v (tab rows.now parts.now)) (slot_at true h (get_or parts.now p 0))) result }
{
    let t = types_rows::part(parts, true, h, p)?;
    tuple_at(rows, t)
}

// That register has a tuple of integers.
fn has_samples(rows: &[u16], parts: &[u16], h: usize, p: usize) -> bool
    requires { (0 < h) × (h ≤ 65536) }
    ensures { FitFirst (on_slot (mean_v (tab rows.now parts.now)) (slot_at true h (get_or parts.now p 0))) result }
{
    match samples_in(rows, parts, h, p) {
        Some(x) => all_ints(rows, parts, x.row, x.start, x.count),
        None => false,
    }
}

// The code row h with the stack x and its registers at p is fit as the entry.
fn is_entry(rows: &[u16], parts: &[u16], h: usize, x: usize, p: usize) -> bool
    requires { CodeAt (tab rows.now parts.now) h x p }
    ensures { (xs : List Instr) → result ≡ is_entry (block_at (tab rows.now parts.now) h x p xs) }
{
    types_rows::letter_count(parts, p) == 0
        && types_rows::item_count(rows, x) == 0
        && has_samples(rows, parts, h, p)
        && none_named(parts, p + 1, 7)
}

// The least fault of the line of a block with the row c, of n rows. Only block 0 must be fit as the entry.
pub fn block_fault(
    rows: &[u16],
    parts: &[u16],
    n: usize,
    uses: &[u16],
    tops: &[u16],
    c: usize,
    first: bool,
) -> Option<Fault>
    requires { (n ≤ 512) × (c ≤ 65535) × CountedTo (tab rows.now parts.now) n × Scoped (tab rows.now parts.now) n uses.now tops.now }
    ensures { (xs : List Instr) → fault_number result ≡ least_of (block_faults first (block_of (type_at value (types_of (rows_in (tab rows.now parts.now) n)) c) xs)) }
{
    let h = types_rows::link(n + 1, c);
    let Val::Code(x, p) = types_rows::read_value(rows, h, 0, 0, 0) else {
        return Some(Fault::Unbound);
    };
    let none = BlockLetters {
        hidden: 0,
        count: 0,
        start: 0,
    };
    if !crate::formed(rows, parts, n, uses, tops, c, none) {
        Some(Fault::Unbound)
    } else if first && !is_entry(rows, parts, h, x, p) {
        Some(Fault::NoEntry)
    } else if types_rows::item_count(rows, x) > 64 {
        Some(Fault::TooDeep)
    } else {
        None
    }
}

// How many samples the block with the row c declares, if it is the entry.
pub fn sample_count(rows: &[u16], parts: &[u16], n: usize, c: usize) -> usize
    requires { (n ≤ 512) × (c ≤ 65535) }
    ensures { (xs : List Instr) → result ≡ declared (block_of (type_at value (types_of (rows_in (tab rows.now parts.now) n)) c) xs).regs }
{
    let h = types_rows::link(n + 1, c);
    let Val::Code(_, p) = types_rows::read_value(rows, h, 0, 0, 0) else {
        return 0;
    };
    match samples_in(rows, parts, h, p) {
        Some(x) => x.count,
        None => 0,
    }
}
