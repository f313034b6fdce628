// Pass three over the tables, which are sections of one image (crate image), the rows as the checker shares them: each block's line (module
// entry of valid_scope), and its instructions (module body). Behind a line with a fault nothing is looked at, so the first one found is the
// lowest. Promised: the lowest line with a fault, its least fault and, for 10 at a jump or branch, the first item that does not fit, as
// `pass_three` of crate valid has them. Asked: what crate load leaves in the tables.
#![tactic(auto)]

pub mod body;

ghost use Rattle.std.specs.Prelude.{◌≡◌, List, ◌+◌, ◌≤◌, eqb};
ghost use Rattle.syntax.specs.Syntax.{value, Instr};
ghost use Rattle.syntax.specs.Fault.{lowest_line};
ghost use Rattle.syntax.proofs.Least.{least_of};
ghost use Rattle.types.specs.Rows.{type_at, types_of};
ghost use Rattle.tables.specs.Tables.{cell, rows_in};
ghost use Rattle.faults.specs.Numbers.{fault_number};
ghost use Rattle.tables.proofs.Steps.{end_of};
ghost use Rattle.valid.specs.Program.{Program, block_of, blocks_of};
ghost use Rattle.valid.specs.PassThree.{block_faults, pass_three};
ghost use Rattle.image.specs.Sections.{block_section};
ghost use Rattle.valid_typing.specs.Image.{row_table, HoldsAt};
ghost use Rattle.valid_verdict.specs.finding.Found.{refusal_said};
ghost use Rattle.valid_pass_three.specs.body.Tables.{Tabled, Arrays};
ghost use Rattle.valid_pass_three.specs.Blocks.{block_pass, block_in, blocks_in, BlockWithin, BlocksWithin};

use crate::body::CodeBlock;
use faults::Fault;
use image::{Counts, Places};
use types_rows::Val;
use valid_verdict::finding::{Finding, on_line};

// Where block b of nb ends.
fn block_end(blocks: &[u16], nb: usize, ni: usize, b: usize) -> usize
    requires { b ≤ 65535 }
    ensures { result ≡ end_of blocks.now ni nb b }
{
    if b + 1 < nb {
        tables::cell::<2>(blocks, b + 1, 1)
    } else {
        ni
    }
}

// The least fault of the line of a block with the row r, of n rows.
fn line_fault(image: &[u16], p: Places, n: usize, r: usize, first: bool) -> Option<Fault>
    requires { Tabled p image.now n × (r ≤ 65535) }
    ensures { (xs : List Instr) → fault_number result ≡ least_of (block_faults first (block_of (type_at value (types_of (rows_in (row_table p image.now) n)) r) xs)) }
{
    valid_scope::entry::block_fault(
        &image[p.shared..p.slots],
        &image[p.slots..p.end],
        n,
        &image[p.uses..p.tops],
        &image[p.tops..p.shared],
        r,
        first,
    )
}

// Block b's line and its instructions.
fn block(
    image: &[u16],
    literals: &[u32],
    p: Places,
    c: Counts,
    b: usize,
    regs: &mut [u16],
    sp: &mut [u16],
    work: &mut [u16],
    pending: &mut [u32],
) -> Result<(), Finding>
    requires { Tabled p image.now c.rows × BlockWithin p image.now literals.now c b × Arrays regs.old sp.old work.old pending.old }
    ensures { (P : Program) → HoldsAt p image.now c P → refusal_said result ≡ lowest_line (c.rows + b + cell 2 (block_section p image.now) b 1 + 1) (block_pass P (eqb b 0) (block_in p image.now literals.now c b)) }
{
    let table = &image[p.blocks..p.instrs];
    let n = c.rows;
    let r = tables::cell::<2>(table, b, 0);
    let first = tables::cell::<2>(table, b, 1);
    let line = n + b + first + 1;
    let link = types_rows::link(n + 1, r);
    let v = types_rows::read_value(&image[p.shared..p.slots], link, 0, 0, 0);
    let Val::Code(stack, start) = v else {
        return Err(on_line(Fault::Unbound, line));
    };
    if let Some(f) = line_fault(image, p, n, r, b == 0) {
        return Err(on_line(f, line));
    }
    let end = block_end(table, c.blocks, c.instrs, b);
    let base = n + b + 2;
    let x = CodeBlock {
        link,
        stack,
        start,
        first,
        end,
        base,
    };
    crate::body::code_block(image, literals, p, c, x, regs, sp, work, pending)
}

// The lowest line with a fault, of the rows, blocks and instructions that c counts.
pub fn pass_three(
    image: &[u16],
    literals: &[u32],
    p: Places,
    c: Counts,
    regs: &mut [u16],
    sp: &mut [u16],
    work: &mut [u16],
    pending: &mut [u32],
) -> Result<(), Finding>
    requires { Tabled p image.now c.rows × BlocksWithin p image.now literals.now c × Arrays regs.old sp.old work.old pending.old }
    ensures { (P : Program) → HoldsAt p image.now c P → P.blocks ≡ blocks_of (types_of (rows_in (row_table p image.now) c.rows)) (blocks_in p image.now literals.now c) → refusal_said result ≡ lowest_line 0 (pass_three P) }
{
    if c.blocks == 0 {
        return Err(on_line(Fault::NoEntry, c.rows + 1));
    }
    for b in 0..c.blocks {
        block(image, literals, p, c, b, regs, sp, work, pending)?;
    }
    Ok(())
}
