// Pass two over the tables of a decoded text: what each line names exists, is lower and of its sort (modules row_refs, instr_refs, refs),
// and no row's size is over 4,096 (module measure of types_rows, which keeps the sizes of the rows before). Promised: the lowest line with
// a fault and its least fault, as `pass_two` of crate types has them. Asked: that the starts of blocks rise (crate text_decode).
#![tactic(auto)]

pub mod instr_refs;
pub mod refs;
pub mod row_refs;

ghost use Rattle.std.specs.Prelude.{◌≡◌, ◌≤◌};
ghost use Rattle.syntax.specs.Fault.{lowest_line};
ghost use Rattle.syntax.proofs.Least.{least_of};
ghost use Rattle.faults.specs.Numbers.{fault_number};
ghost use Rattle.text.specs.Entries.{entries_in};
ghost use Rattle.types.specs.Rows.{rows_faults, pass_two};
ghost use Rattle.tables.specs.Tables.{rows_in, blocks_from};
ghost use Rattle.types_rows.specs.Read.{tab};
ghost use Rattle.types_rows.specs.size.Size.{Measured};
ghost use Rattle.types_pass_two.specs.instr_refs.Instrs.{operand_table};
ghost use Rattle.types_pass_two.specs.refs.Refs.{refusal_of, Rising};
ghost use Rattle.types_pass_two.specs.PassTwo.{faults_at};

use faults::{Fault, LineFault};

// The least fault of row r.
fn row_fault(rows: &[u16], parts: &[u16], sizes: &mut [u16], r: usize) -> Option<Fault>
    requires { (r ≤ 65535) × Measured (tab rows.now parts.now) sizes.old }
    ensures { (fault_number result ≡ least_of (faults_at (tab rows.now parts.now) r)) × Measured (tab rows.now parts.now) sizes.new }
{
    if let Some(f) = crate::row_refs::row_fault(rows, parts, r) {
        return Some(f);
    }
    types_rows::measure::size_over(rows, parts, sizes, r).then_some(Fault::TooLarge)
}

// The lowest of the n type lines with a fault. Row r stands on line r + 1.
fn rows_fault(rows: &[u16], parts: &[u16], sizes: &mut [u16], n: usize) -> Option<LineFault>
    requires { (n ≤ 65535) × Measured (tab rows.now parts.now) sizes.old }
    ensures { refusal_of result ≡ lowest_line 1 (rows_faults (rows_in (tab rows.now parts.now) n) 0 (rows_in (tab rows.now parts.now) n)) }
{
    for r in 0..n {
        if let Some(fault) = row_fault(rows, parts, sizes, r) {
            return Some(LineFault { fault, line: r + 1 });
        }
    }
    None
}

// The lowest line with a fault, of n rows, nb blocks and ni instructions.
pub fn pass_two(
    rows: &[u16],
    parts: &[u16],
    n: usize,
    blocks: &[u16],
    nb: usize,
    instrs: &[u16],
    ni: usize,
    operands: &[u16],
    numbers: &[u32],
    args: &[u16],
) -> Option<LineFault>
    requires { (n ≤ 65535) × (nb ≤ 65535) × (ni ≤ 65535) × Rising blocks.now nb }
    ensures { refusal_of result ≡ lowest_line 0 (pass_two (rows_in (tab rows.now parts.now) n) nb (entries_in (rows_in (tab rows.now parts.now) n) (blocks_from blocks.now instrs.now (operand_table operands.now numbers.now args.now) ni 0 nb))) }
{
    let mut sizes = [0u16; 513];
    let found = rows_fault(rows, parts, &mut sizes, n);
    if found.is_some() {
        return found;
    }
    crate::refs::code_fault(rows, n, blocks, nb, instrs, ni, operands, numbers, args)
}
