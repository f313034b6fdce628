// Pass three's judgement of one instruction of the table (document 01, "Typing"), by its code (modules plain_forms, operand_forms).
// A function for each form stands in the modules by what it works on: tuples and `halt` (heap), sp (stack), through a pointer (through),
// operands (values), targets (jumps). Of an instruction is told its least fault, and the types known after it. The types known before it,
// of the registers and of sp, stand in two of the checker's arrays (crate valid_context), and are changed there; two more are lent: `work`
// for the items behind a pointer, `pending` for what a comparison keeps pending; a third, `envs`, has the environments of the packages that
// the block's unpacks have opened so far. Promised: the least fault that `judge` of crate valid gives the instruction, and
// for fault 10 at a branch or jump the first item that does not fit; or, if it has no fault, the types and the letters after it, sp within
// 64 items, and the environment of the package that it opens, if it is an unpack. The tables are sections of one image (crate image).
#![tactic(auto)]

pub mod heap;
pub mod jumps;
pub mod operand_forms;
pub mod plain_forms;
pub mod stack;
pub mod through;
pub mod values;

ghost use Rattle.std.specs.Prelude.{◌≡◌, ◌≤◌, IfOk};
ghost use Rattle.tables.specs.Tables.{OperandTable, rows_in, instr_at};
ghost use Rattle.types.specs.Rows.{types_of};
ghost use Rattle.valid.specs.Program.{Program};
ghost use Rattle.valid.specs.PassThree.{judge};
ghost use Rattle.valid_context.specs.Context.{context_of};
ghost use Rattle.valid.specs.Bounds.{SmallInstr};
ghost use Rattle.valid_context.specs.Told.{told_of, told};
ghost use Rattle.valid_typing.specs.target.Fits.{AnsweredBy};
ghost use Rattle.valid_judge.specs.Codes.{OperandCode, TargetCode, OperandForm, PlainForm};
ghost use Rattle.image.specs.Sections.{instr_section};
ghost use Rattle.valid_typing.specs.Image.{row_table, read_at, Prepared, instr_in, HoldsAt, letters_in};
ghost use Rattle.valid_judge.specs.heap.Forms.{KeptRegs};
ghost use Rattle.valid_judge.specs.Image.{Flattens, SmallRows, Rooms, InForce, after, Goes};
ghost use Rattle.valid_judge.specs.stack.Forms.{Kept};

use faults::Fault;
use image::{Counts, Places};
use valid_scope::BlockLetters;
use valid_typing::target::Misfit;

// An instruction: its place in the table, and its code.
#[derive(Clone, Copy)]
pub struct InstrForm {
    pub at: usize,
    pub code: usize,
}

// Where a block is: an instruction of the table, and how many items sp has before it.
#[derive(Clone, Copy)]
pub struct Reached {
    pub instr: usize,
    pub depth: usize,
}

// Where the block is after an instruction without a fault: how many items sp has, and the environment of the package that the line opens,
// if it opens one.
#[derive(Clone, Copy)]
pub struct Judged {
    pub depth: usize,
    pub opened: Option<usize>,
}

// Code k has operands.
fn has_operands(k: usize) -> bool
    ensures { OperandCode result k }
{
    matches!(k, 0..=9 | 12 | 21)
}

// Code k has a target.
fn has_target(k: usize) -> bool
    ensures { TargetCode result k }
{
    matches!(k, 3..=8 | 21)
}

// An instruction with operands; sp stays.
fn operand_form(
    image: &[u16],
    literals: &[u32],
    envs: &[u16],
    p: Places,
    c: Counts,
    x: InstrForm,
    w: BlockLetters,
    regs: &mut [u16],
    sp: &[u16],
    pending: &mut [u32],
    m: usize,
) -> Result<(), Misfit>
    requires { Prepared p image.now c.rows pending.old × SmallInstr (instr_in p image.now literals.now x.at) × Rooms envs.now regs.old sp.now m × OperandForm p image.now x }
    ensures { ((P : Program) → HoldsAt p image.now c P → AnsweredBy (judge P (letters_in p image.now w) (context_of (read_at p image.now c.rows envs.now) regs.old sp.now m) (instr_in p image.now literals.now x.at)) (λ (u : Unit {0}). context_of (read_at p image.now c.rows envs.now) regs.new sp.now m) result) × KeptRegs envs.now regs.old regs.new }
{
    if has_target(x.code) {
        return crate::operand_forms::jump_form(
            image, literals, envs, p, c, x, w, regs, sp, m, pending,
        );
    }
    match crate::operand_forms::value_form(image, literals, envs, p, c, x, w, regs, pending) {
        Ok(_) => Ok(()),
        Err(fault) => Err(Misfit { fault, item: None }),
    }
}

// An instruction without operands
fn plain_form(
    image: &[u16],
    envs: &[u16],
    p: Places,
    n: usize,
    x: InstrForm,
    w: BlockLetters,
    regs: &mut [u16],
    sp: &mut [u16],
    work: &mut [u16],
    m: usize,
    pending: &mut [u32],
) -> Result<usize, Fault>
    requires { Prepared p image.now n pending.old × Flattens p image.now n work.old × Rooms envs.now regs.old sp.old m × PlainForm p image.now x }
    ensures { ((P : Program) (ω : OperandTable) → P.types ≡ types_of (rows_in (row_table p image.now) n) → told_of (judge P (letters_in p image.now w) (context_of (read_at p image.now n envs.now) regs.old sp.old m) (instr_at (instr_section p image.now) ω x.at)) ≡ told (λ y. context_of (read_at p image.now n envs.now) regs.new sp.new y) result) × IfOk result (λ y. y ≤ 64) × IfOk result (λ y. Kept envs.now regs.old sp.old m regs.new sp.new y) }
{
    match x.code {
        13..=16 => crate::plain_forms::sp_form(image, envs, p, n, x, w, regs, sp, m, pending),
        17..=20 => {
            crate::plain_forms::item_form(image, envs, p, n, x, w, regs, sp, work, m, pending)?;
            Ok(m)
        }
        _ => {
            crate::plain_forms::heap_form(image, envs, p, n, x, w, regs, pending)?;
            Ok(m)
        }
    }
}

// The instruction that is reached at y, under the letters w
pub fn judge(
    image: &[u16],
    literals: &[u32],
    envs: &[u16],
    p: Places,
    c: Counts,
    y: Reached,
    w: BlockLetters,
    regs: &mut [u16],
    sp: &mut [u16],
    work: &mut [u16],
    pending: &mut [u32],
) -> Result<Judged, Misfit>
    requires { Prepared p image.now c.rows pending.old × SmallRows p image.now c.rows work.old × SmallInstr (instr_in p image.now literals.now y.instr) × InForce envs.now w regs.old sp.old y.depth }
    ensures { ((P : Program) → HoldsAt p image.now c P → AnsweredBy (judge P (letters_in p image.now w) (context_of (read_at p image.now c.rows envs.now) regs.old sp.old y.depth) (instr_in p image.now literals.now y.instr)) (λ j. context_of (read_at p image.now c.rows (after envs.now j.opened)) regs.new sp.new j.depth) result) × IfOk result (λ j. j.depth ≤ 64) × IfOk result (λ j. Goes p image.now envs.now j.opened w (instr_in p image.now literals.now y.instr) regs.new sp.new j.depth) }
{
    let k = tables::cell::<8>(&image[p.instrs..p.parts], y.instr, 0);
    let x = InstrForm {
        at: y.instr,
        code: k,
    };
    let depth = y.depth;
    if k == 23 {
        let o = crate::operand_forms::open_form(image, literals, envs, p, c, x, w, regs, pending);
        return match o {
            Ok(e) => Ok(Judged {
                depth,
                opened: Some(e),
            }),
            Err(fault) => Err(Misfit { fault, item: None }),
        };
    }
    if has_operands(k) {
        operand_form(image, literals, envs, p, c, x, w, regs, sp, pending, depth)?;
        return Ok(Judged {
            depth,
            opened: None,
        });
    }
    match plain_form(image, envs, p, c.rows, x, w, regs, sp, work, depth, pending) {
        Ok(depth) => Ok(Judged {
            depth,
            opened: None,
        }),
        Err(fault) => Err(Misfit { fault, item: None }),
    }
}
