// A text that may be run: loaded (crate load), and with no fault on block 0's line (module entry of valid_scope). Promised: whether the
// text fits the image that is lent, which every text does where it has `Space`. Where it fits, what bars the program from starting, as
// `barred` of crate exec has it, or else that the tables represent the program to the machine and fit it (`Fit` of crate exec_machine: few
// instructions, registers r1 to r8, operands that stand in the tables), and how many samples it wants. Nothing is asked.
#![tactic(auto)]

ghost use Rattle.std.specs.Prelude.{◌≡◌, true, cond, List, ◌≤◌, eqb, length};
ghost use Rattle.syntax.specs.Syntax.{value, Instr};
ghost use Rattle.syntax.proofs.Least.{least_of};
ghost use Rattle.faults.specs.Numbers.{fault_number};
ghost use Rattle.types.specs.Rows.{type_at, types_of};
ghost use Rattle.tables.specs.Tables.{cell, rows_in};
ghost use Rattle.types_rows.specs.Read.{tab, CountedTo};
ghost use Rattle.valid.specs.Program.{block_of};
ghost use Rattle.valid.specs.Rules.{declared};
ghost use Rattle.valid.specs.PassThree.{block_faults};
ghost use Rattle.valid_scope.specs.Scoped.{Scoped};
ghost use Rattle.image.specs.Sections.{Ordered, row_section, block_section, part_section, use_section, top_section};
ghost use Rattle.text_decode.specs.Decoded.{fits, Fitting};
ghost use Rattle.load.specs.Loaded.{SpaceIn};
ghost use Rattle.exec_ready.specs.Ready.{ReadyIn};

use faults::{Fault, LineFault};
use image::Places;
use text_decode::state::Unread;

// How many blocks and instructions a text that may be run has, and how many samples it wants.
#[derive(Clone, Copy)]
pub struct Ready {
    pub blocks: usize,
    pub instrs: usize,
    pub samples: usize,
}

// The least fault of the line of the first of nb blocks, and no entry if there is no block.
fn first_fault(image: &[u16], p: Places, n: usize, nb: usize) -> Option<Fault>
    requires { Ordered p (length image.now) × (n ≤ 512) × CountedTo (tab (row_section p image.now) (part_section p image.now)) n × Scoped (tab (row_section p image.now) (part_section p image.now)) n (use_section p image.now) (top_section p image.now) }
    ensures { (xs : List Instr) → fault_number result ≡ cond (eqb nb 0) 8 (least_of (block_faults true (block_of (type_at value (types_of (rows_in (tab (row_section p image.now) (part_section p image.now)) n)) (cell 2 (block_section p image.now) 0 0)) xs))) }
{
    if nb == 0 {
        return Some(Fault::NoEntry);
    }
    let rows = p.rows;
    let blocks = p.blocks;
    let instrs = p.instrs;
    let parts = p.parts;
    let operands = p.operands;
    let uses = p.uses;
    let tops = p.tops;
    let shared = p.shared;
    let c = tables::at(&image[blocks..instrs], 0);
    valid_scope::entry::block_fault(
        &image[rows..blocks],
        &image[parts..operands],
        n,
        &image[uses..tops],
        &image[tops..shared],
        c,
        true,
    )
}

// How many samples the first block declares, if it is the entry.
fn samples_wanted(image: &[u16], p: Places, n: usize) -> usize
    requires { Ordered p (length image.now) × (n ≤ 512) }
    ensures { (xs : List Instr) → result ≡ declared (block_of (type_at value (types_of (rows_in (tab (row_section p image.now) (part_section p image.now)) n)) (cell 2 (block_section p image.now) 0 0)) xs).regs }
{
    let rows = p.rows;
    let blocks = p.blocks;
    let instrs = p.instrs;
    let parts = p.parts;
    let operands = p.operands;
    let c = tables::at(&image[blocks..instrs], 0);
    valid_scope::entry::sample_count(&image[rows..blocks], &image[parts..operands], n, c)
}

// Load the text into the image, and say what bars the program, or else how many samples it wants.
pub fn make_ready(text: &[u8], image: &mut [u16], numbers: &mut [u32]) -> Result<Ready, Unread>
    ensures { Fitting (SpaceIn image.old numbers.old) (fits result) (ReadyIn text.now image.new numbers.new result) }
{
    let c = load::load(text, image, numbers)?;
    let p = image::lay_out(image.len());
    if let Some(fault) = first_fault(image, p, c.rows, c.blocks) {
        return Err(Unread::Faulty(LineFault {
            fault,
            line: c.rows + 1,
        }));
    }
    Ok(Ready {
        blocks: c.blocks,
        instrs: c.instrs,
        samples: samples_wanted(image, p, c.rows),
    })
}
