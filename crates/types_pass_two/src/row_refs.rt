// The rows that a row or a block names (document 01, "Faults", 4 and 5): whether each exists, and is of the sort that is needed there. It
// reads the decoded tables and no text, and changes nothing.
// Promised: `row_fault` is the least fault of a type line by the definition of pass two, `block_fault` that of a block's line. Every read is
// total: past a table's end stands 0.
ghost use Rattle.std.specs.Prelude.{ℕ, ◌≤◌, ◌≡◌, cond, List, [], ◌∷◌, ltb};
ghost use Rattle.syntax.proofs.Least.{least_of};
ghost use Rattle.faults.specs.Numbers.{fault_number};
ghost use Rattle.tables.specs.Tables.{span, rows_in};
ghost use Rattle.types.specs.Rows.{value_row, stack_row, code_row, hidden_row, ref, refs_faults};
ghost use Rattle.types_rows.specs.Read.{tab};
ghost use Rattle.types_pass_two.specs.row_refs.Rows.{row_refs_faults};
ghost use Rattle.types_pass_two.specs.row_refs.Least.{ref_least, refs_least, part_refs, list_refs};

// Kept: a row's kind is the number in its table, as `row_from` of crate tables reads it.

use faults::{Fault, least};
use tables::cell;

// What an entry of a list of rows is: a tuple's component, a code row's register (0, or one more than the row), an argument.
#[derive(Clone, Copy)]
pub enum Part {
    Component,
    Register,
    Argument,
}

// The fault of a row: it exists or not, and fits or not.
fn fault_of(exists: bool, fits: bool) -> Option<Fault>
    ensures { fault_number result ≡ cond exists (cond fits 0 5) 4 }
{
    if !exists {
        Some(Fault::Missing)
    } else if !fits {
        Some(Fault::WrongSort)
    } else {
        None
    }
}

// Row t is to be one of the first n, and a value row, a stack row, a code row, a package's row.
pub(crate) fn value_ref(rows: &[u16], n: usize, t: usize) -> Option<Fault>
    ensures { fault_number result ≡ ref_least rows.now n value_row t }
{
    fault_of(t < n, cell::<4>(rows, t, 0) < 7)
}

fn stack_ref(rows: &[u16], n: usize, t: usize) -> Option<Fault>
    ensures { fault_number result ≡ ref_least rows.now n stack_row t }
{
    fault_of(t < n, cell::<4>(rows, t, 0) >= 7)
}

pub(crate) fn code_ref(rows: &[u16], n: usize, t: usize) -> Option<Fault>
    ensures { fault_number result ≡ ref_least rows.now n code_row t }
{
    fault_of(t < n, cell::<4>(rows, t, 0) == 5)
}

pub(crate) fn hidden_ref(rows: &[u16], n: usize, t: usize) -> Option<Fault>
    ensures { fault_number result ≡ ref_least rows.now n hidden_row t }
{
    fault_of(t < n, cell::<4>(rows, t, 0) == 6)
}

// There is a row or label t among the first n.
pub(crate) fn any_ref(n: usize, t: usize) -> Option<Fault>
    ensures { fault_number result ≡ cond (ltb t n) 0 4 }
{
    fault_of(t < n, true)
}

fn part_fault(rows: &[u16], n: usize, part: Part, x: usize) -> Option<Fault>
    ensures { fault_number result ≡ refs_least rows.now n (part_refs part x) }
{
    match part {
        Part::Component => value_ref(rows, n, x),
        Part::Register => {
            if x == 0 {
                None
            } else {
                value_ref(rows, n, x - 1)
            }
        }
        Part::Argument => any_ref(n, x),
    }
}

// Entries p to p + m - 1 of s.
pub(crate) fn list_fault(
    rows: &[u16],
    n: usize,
    part: Part,
    s: &[u16],
    p: usize,
    m: usize,
) -> Option<Fault>
    requires { (p ≤ 1048576) × (m ≤ 65535) }
    ensures { fault_number result ≡ refs_least rows.now n (list_refs part (span s.now p m)) }
{
    let mut f = None;
    for i in 0..m {
        f = least(f, part_fault(rows, n, part, tables::at(s, p + i)));
    }
    f
}

// The least of the faults 4 and 5 that stand on row r.
pub(crate) fn row_fault(rows: &[u16], parts: &[u16], r: usize) -> Option<Fault>
    ensures { fault_number result ≡ least_of (row_refs_faults (tab rows.now parts.now) r) }
{
    let a = cell::<4>(rows, r, 1);
    let b = cell::<4>(rows, r, 2);
    match cell::<4>(rows, r, 0) {
        0..=2 | 7 | 8 => None,
        3 => list_fault(rows, r, Part::Component, parts, a, b),
        4 => stack_ref(rows, r, a),
        5 => least(
            stack_ref(rows, r, a),
            list_fault(rows, r, Part::Register, parts, b, 8),
        ),
        6 => value_ref(rows, r, a),
        9 => least(value_ref(rows, r, a), stack_ref(rows, r, b)),
        _ => least(stack_ref(rows, r, a), stack_ref(rows, r, b)),
    }
}

// The least fault that stands on the line of a block with the code row c.
pub(crate) fn block_fault(rows: &[u16], n: usize, c: usize) -> Option<Fault>
    ensures { (ps : List ℕ) → fault_number result ≡ least_of (refs_faults (rows_in (tab rows.now ps) n) (ref code_row c ∷ [])) }
{
    code_ref(rows, n, c)
}
