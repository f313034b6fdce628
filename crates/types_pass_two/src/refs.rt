// Pass two's look at references (document 01, "Faults", 4 and 5) behind the type lines: the lines of blocks and of instructions (modules
// row_refs and instr_refs), one after the other. Promised: `code_fault` is the lowest such line that has a fault by the definition of pass
// two, with its least fault. The parts of rows play no role here, so that holds whatever the parts ps.
ghost use Rattle.std.specs.Prelude.{ℕ, ◌+◌, ◌-◌, ◌<◌, ◌≤◌, ◌≡◌, List, map};
ghost use Rattle.syntax.specs.Syntax.{instr};
ghost use Rattle.syntax.specs.Fault.{lowest_line};
ghost use Rattle.tables.specs.Tables.{rows_in, instrs_from};
ghost use Rattle.tables.proofs.Steps.{end_of};
ghost use Rattle.types.specs.Rows.{entries_faults};
ghost use Rattle.types_rows.specs.Read.{tab};
ghost use Rattle.types_pass_two.specs.instr_refs.Instrs.{operand_table};
ghost use Rattle.types_pass_two.specs.refs.Refs.{code_faults, refusal_of, Rising};

use crate::instr_refs::instr_fault;
use crate::row_refs::block_fault;
use faults::LineFault;
use tables::cell;

// Instructions j to e - 1; instruction i stands on line base + i.
fn instrs_fault(
    rows: &[u16],
    n: usize,
    nb: usize,
    instrs: &[u16],
    operands: &[u16],
    numbers: &[u32],
    args: &[u16],
    j: usize,
    e: usize,
    base: usize,
) -> Option<LineFault>
    requires { (e ≤ 65535) × (base ≤ 262144) }
    ensures { (ps : List ℕ) → refusal_of result ≡ lowest_line (base + j) (entries_faults (rows_in (tab rows.now ps) n) nb (map instr (instrs_from instrs.now (operand_table operands.now numbers.now args.now) j (e - j)))) }
{
    for i in j..e {
        if let Some(fault) = instr_fault(rows, n, nb, instrs, operands, numbers, args, i) {
            return Some(LineFault {
                fault,
                line: base + i,
            });
        }
    }
    None
}

// Where block b ends: where the next begins, the last with the last instruction.
fn block_end(blocks: &[u16], nb: usize, ni: usize, b: usize) -> usize
    requires { (b < nb) × (ni ≤ 65535) }
    ensures { (result ≡ end_of blocks.now ni nb b) × (result ≤ 65535) }
{
    if b + 1 < nb {
        cell::<2>(blocks, b + 1, 1)
    } else {
        ni
    }
}

// The lowest line behind the n type lines with a fault, of nb blocks and ni instructions, and its least fault.
pub(crate) fn code_fault(
    rows: &[u16],
    n: usize,
    blocks: &[u16],
    nb: usize,
    instrs: &[u16],
    ni: usize,
    operands: &[u16],
    numbers: &[u32],
    args: &[u16],
) -> Option<LineFault>
    requires n_bound { (n ≤ 65535) × (nb ≤ 65535) × (ni ≤ 65535) }
    requires rising { Rising blocks.now nb }
    ensures { (ps : List ℕ) → refusal_of result ≡ lowest_line (n + 1) (code_faults (tab rows.now ps) n blocks.now nb instrs.now ni (operand_table operands.now numbers.now args.now)) }
{
    for b in 0..nb {
        let s = cell::<2>(blocks, b, 1);
        if let Some(fault) = block_fault(rows, n, cell::<2>(blocks, b, 0)) {
            return Some(LineFault {
                fault,
                line: n + b + s + 1,
            });
        }
        let e = block_end(blocks, nb, ni, b);
        let base = n + b + 2;
        let found = instrs_fault(rows, n, nb, instrs, operands, numbers, args, s, e, base);
        if found.is_some() {
            return found;
        }
    }
    None
}
