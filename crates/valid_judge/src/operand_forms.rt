// An instruction of pass three that has operands, by its code in the table of instructions (crate tables): each function here takes the
// codes of some forms that have the same effect on the checker's arrays, reads the instruction's numbers, and judges it. Promised of each:
// what `judge` of crate valid gives instruction j of the table, as the form's own function promises it.
ghost use Rattle.valid.specs.Program.{Program};
ghost use Rattle.valid.specs.PassThree.{judge};
ghost use Rattle.valid_context.specs.Context.{context_of};
ghost use Rattle.valid.specs.Bounds.{SmallInstr};
ghost use Rattle.valid_typing.specs.target.Fits.{AnsweredBy};
ghost use Rattle.valid_typing.specs.Image.{read_at, Prepared, instr_in, HoldsAt, letters_in};
ghost use Rattle.valid_judge.specs.Codes.{ValueForm, JumpForm, OpenForm};
ghost use Rattle.valid_judge.specs.heap.Forms.{KeptRegs};
ghost use Rattle.valid_judge.specs.Image.{Roomy, Unpacks, Rooms, InFileAt, OpensAt};

use crate::InstrForm;
use crate::jumps::Tested;
use faults::Fault;
use image::{Counts, Places};
use valid_scope::BlockLetters;
use valid_typing::Listed;
use valid_typing::target::Misfit;

// add, sub, mul 0 to 2, mov 9, malloc 12
pub(crate) fn value_form(
    image: &[u16],
    literals: &[u32],
    envs: &[u16],
    p: Places,
    c: Counts,
    x: InstrForm,
    w: BlockLetters,
    regs: &mut [u16],
    pending: &mut [u32],
) -> Result<(), Fault>
    requires { Prepared p image.now c.rows pending.old × SmallInstr (instr_in p image.now literals.now x.at) × Roomy envs.now regs.old × ValueForm p image.now x }
    ensures { InFileAt p image.now c envs.now (letters_in p image.now w) regs.old regs.new result (instr_in p image.now literals.now x.at) × KeptRegs envs.now regs.old regs.new }
{
    let from = p.instrs;
    let to = p.parts;
    let instrs = &image[from..to];
    let a = tables::cell::<8>(instrs, x.at, 1);
    let b = tables::cell::<8>(instrs, x.at, 2);
    let v = tables::cell::<8>(instrs, x.at, 5);
    if x.code < 3 {
        return crate::values::compute(image, literals, envs, p, c, v, w, regs, pending, a, b);
    }
    if x.code == 9 {
        return crate::values::move_to(image, literals, envs, p, c, v, w, regs, pending, a);
    }
    let k = tables::cell::<8>(instrs, x.at, 6);
    let o = Listed { first: v, count: k };
    crate::values::make_tuple(image, literals, envs, p, c, o, w, regs, pending, a, b)
}

// branches 3 to 8, jmp 21
pub(crate) fn jump_form(
    image: &[u16],
    literals: &[u32],
    envs: &[u16],
    p: Places,
    c: Counts,
    x: InstrForm,
    w: BlockLetters,
    regs: &[u16],
    sp: &[u16],
    m: usize,
    pending: &mut [u32],
) -> Result<(), Misfit>
    requires { Prepared p image.now c.rows pending.old × SmallInstr (instr_in p image.now literals.now x.at) × JumpForm p image.now x × Rooms envs.now regs.now sp.now m }
    ensures { (P : Program) → HoldsAt p image.now c P → AnsweredBy (judge P (letters_in p image.now w) (context_of (read_at p image.now c.rows envs.now) regs.now sp.now m) (instr_in p image.now literals.now x.at)) (λ u. context_of (read_at p image.now c.rows envs.now) regs.now sp.now m) result }
{
    let from = p.instrs;
    let to = p.parts;
    let instrs = &image[from..to];
    let v = tables::cell::<8>(instrs, x.at, 5);
    if x.code == 21 {
        return crate::jumps::jump(image, literals, envs, p, c, v, w, regs, sp, m, pending);
    }
    let r = tables::cell::<8>(instrs, x.at, 1);
    let b = Tested {
        register: r,
        operand: v,
    };
    crate::jumps::branch(image, literals, envs, p, c, b, w, regs, sp, m, pending)
}

// unpack 23
pub(crate) fn open_form(
    image: &[u16],
    literals: &[u32],
    envs: &[u16],
    p: Places,
    c: Counts,
    x: InstrForm,
    w: BlockLetters,
    regs: &mut [u16],
    pending: &mut [u32],
) -> Result<usize, Fault>
    requires { Prepared p image.now c.rows pending.old × SmallInstr (instr_in p image.now literals.now x.at) × Unpacks envs.now w regs.old × OpenForm p image.now x }
    ensures { OpensAt p image.now c envs.now w regs.old regs.new result (instr_in p image.now literals.now x.at) }
{
    let from = p.instrs;
    let to = p.parts;
    let instrs = &image[from..to];
    let d = tables::cell::<8>(instrs, x.at, 1);
    let v = tables::cell::<8>(instrs, x.at, 5);
    crate::values::open(image, literals, envs, p, c, v, w, regs, pending, d)
}
