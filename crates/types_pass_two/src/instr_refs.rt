// The rows and labels that an instruction names (document 01, "Faults", 4 and 5; document 02, point 3): its operands with their labels,
// arguments and resulting rows, and its row t.
// Promised: `instr_fault` is the least fault of its line by the definition of pass two, whatever the parts ps of rows. Every read is total:
// past a table's end stands 0.
ghost use Rattle.std.specs.Prelude.{ℕ, ◌<◌, ◌≤◌, ◌≡◌, List, [], ◌∷◌, get_or};
ghost use Rattle.syntax.proofs.Least.{least, least_of};
ghost use Rattle.faults.specs.Numbers.{fault_number};
ghost use Rattle.tables.specs.Tables.{cell, rows_in, operand_at, operands_at, instr_at};
ghost use Rattle.types.specs.Rows.{hidden_row, any_row, instr_faults};
ghost use Rattle.types_rows.specs.Read.{tab};
ghost use Rattle.types_pass_two.specs.row_refs.Least.{ref_least};
ghost use Rattle.types_pass_two.specs.instr_refs.Instrs.{operand_table, label_least, operands_least, given_place, count_of};

// Kept: codes and the kinds of operands are the numbers in their tables, as `instr_at` and `operand_from` of crate tables read them.

use crate::row_refs::{Part, any_ref, code_ref, hidden_ref, list_fault, value_ref};
use faults::{Fault, least};
use tables::cell;

// The base of operand v, of kind k; kinds from 2 on are labels.
fn label_fault(nb: usize, k: usize, numbers: &[u32], v: usize) -> Option<Fault>
    ensures { fault_number result ≡ label_least nb k (get_or numbers.now v 0) }
{
    if k < 2 {
        None
    } else {
        any_ref(nb, tables::number_at(numbers, v))
    }
}

// Operand v, a package, whose label has the fault f: its argument, which may be of either sort, and its `H` row.
fn package_fault(
    rows: &[u16],
    n: usize,
    operands: &[u16],
    args: &[u16],
    v: usize,
    f: Option<Fault>,
) -> Option<Fault>
    ensures { fault_number result ≡ least (fault_number f) (least (ref_least rows.now n any_row (get_or args.now (cell 4 operands.now v 3) 0)) (ref_least rows.now n hidden_row (cell 4 operands.now v 2))) }
{
    let a = tables::at(args, cell::<4>(operands, v, 3));
    let h = cell::<4>(operands, v, 2);
    least(f, least(any_ref(n, a), hidden_ref(rows, n, h)))
}

// Operand v: its label, its arguments, its resulting row.
fn operand_fault(
    rows: &[u16],
    n: usize,
    nb: usize,
    operands: &[u16],
    numbers: &[u32],
    args: &[u16],
    v: usize,
) -> Option<Fault>
    ensures { fault_number result ≡ operands_least rows.now n nb (operand_at (operand_table operands.now numbers.now args.now) v ∷ []) }
{
    let k = cell::<4>(operands, v, 0);
    if k >= 4 {
        let p = label_fault(nb, k - 4, numbers, v);
        return package_fault(rows, n, operands, args, v, p);
    }
    let f = label_fault(nb, k, numbers, v);
    let m = cell::<4>(operands, v, 1);
    if m == 0 {
        return f;
    }
    let at = cell::<4>(operands, v, 3);
    let g = list_fault(rows, n, Part::Argument, args, at, m);
    least(f, least(g, code_ref(rows, n, cell::<4>(operands, v, 2))))
}

// Operands v to v + m - 1.
fn operands_fault(
    rows: &[u16],
    n: usize,
    nb: usize,
    operands: &[u16],
    numbers: &[u32],
    args: &[u16],
    v: usize,
    m: usize,
) -> Option<Fault>
    requires { (v ≤ 65535) × (m ≤ 65535) }
    ensures { fault_number result ≡ operands_least rows.now n nb (operands_at (operand_table operands.now numbers.now args.now) v m) }
{
    let mut f = None;
    for i in 0..m {
        let g = operand_fault(rows, n, nb, operands, numbers, args, v + i);
        f = least(f, g);
    }
    f
}

// Which entry of an instruction with the code k is its row t (add to unpack; one past the last counts as halt).
fn given_place(k: usize) -> Option<usize>
    ensures { result ≡ given_place k }
{
    match k {
        12 | 13 => Some(2),
        20 => Some(4),
        0..=21 | 23 => None,
        _ => Some(1),
    }
}

// How many operands an instruction with the code k has, which says m.
fn operand_count(k: usize, m: usize) -> usize
    requires { m ≤ 65535 }
    ensures { (result ≡ count_of k m) × (result ≤ 65535) }
{
    match k {
        12 => m,
        0..=9 | 21 | 23 => 1,
        _ => 0,
    }
}

// The least fault that stands on the line of instruction j.
pub(crate) fn instr_fault(
    rows: &[u16],
    n: usize,
    nb: usize,
    instrs: &[u16],
    operands: &[u16],
    numbers: &[u32],
    args: &[u16],
    j: usize,
) -> Option<Fault>
    ensures { (ps : List ℕ) → fault_number result ≡ least_of (instr_faults (rows_in (tab rows.now ps) n) nb (instr_at instrs.now (operand_table operands.now numbers.now args.now) j)) }
{
    let k = cell::<8>(instrs, j, 0);
    let m = operand_count(k, cell::<8>(instrs, j, 6));
    let f = operands_fault(
        rows,
        n,
        nb,
        operands,
        numbers,
        args,
        cell::<8>(instrs, j, 5),
        m,
    );
    match given_place(k) {
        Some(g) => least(value_ref(rows, n, cell::<8>(instrs, j, g)), f),
        None => f,
    }
}
