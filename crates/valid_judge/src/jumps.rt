// One instruction of pass three that goes to a target: a branch, `jmp`. It changes no types; its target's are looked at whether a branch
// is taken or not.
// Promised of each: the least fault that `judge` of crate valid gives the instruction, if it has one, and for fault 10 the first
// item that does not fit: 0 for sp, 1 to 8 for a register, 99 for the operand's resulting row.
ghost use Rattle.std.specs.Prelude.{◌≡◌, ◌≤◌, None};
ghost use Rattle.faults.specs.Numbers.{number};
ghost use Rattle.syntax.proofs.Least.{least};
ghost use Rattle.syntax.specs.Syntax.{Branch, bop, jmp};
ghost use Rattle.valid.specs.Program.{Program};
ghost use Rattle.valid.specs.PassThree.{judge};
ghost use Rattle.valid_context.specs.Context.{context_of};
ghost use Rattle.valid.specs.Bounds.{Short};
ghost use Rattle.valid_typing.specs.target.Fits.{AnsweredBy, misfit_number};
ghost use Rattle.valid_judge.specs.Image.{Rooms};
ghost use Rattle.valid_typing.specs.Image.{read_at, Prepared, operand_in, HoldsAt, letters_in};

use faults::Fault;
use image::{Counts, Places};
use valid_scope::BlockLetters;
use valid_typing::target::Misfit;

// A branch: the register that it tests, and its operand.
#[derive(Clone, Copy)]
pub struct Tested {
    pub register: usize,
    pub operand: usize,
}

// The fault f, or that of a target if it is less: no item's.
fn lesser(f: Fault, t: Result<(), Misfit>) -> Misfit
    ensures { (number result.fault ≡ least (number f) (misfit_number t)) × (result.item ≡ None) }
{
    match t {
        Ok(_) => Misfit {
            fault: f,
            item: None,
        },
        Err(m) => Misfit {
            fault: if f.number() <= m.fault.number() {
                f
            } else {
                m.fault
            },
            item: None,
        },
    }
}

// jmp v, under the letters w, with the d items of sp
pub(crate) fn jump(
    image: &[u16],
    literals: &[u32],
    envs: &[u16],
    p: Places,
    c: Counts,
    v: usize,
    w: BlockLetters,
    regs: &[u16],
    sp: &[u16],
    d: usize,
    pending: &mut [u32],
) -> Result<(), Misfit>
    requires { Prepared p image.now c.rows pending.old × Short (operand_in p image.now literals.now v) × (v ≤ 131072) × Rooms envs.now regs.now sp.now d }
    ensures { (P : Program) → HoldsAt p image.now c P → AnsweredBy (judge P (letters_in p image.now w) (context_of (read_at p image.now c.rows envs.now) regs.now sp.now d) (jmp (operand_in p image.now literals.now v))) (λ u. context_of (read_at p image.now c.rows envs.now) regs.now sp.now d) result }
{
    valid_typing::target::target(image, literals, envs, p, c, v, w, regs, sp, d, pending)
}

// A branch x, under the letters w, with the d items of sp
pub(crate) fn branch(
    image: &[u16],
    literals: &[u32],
    envs: &[u16],
    p: Places,
    c: Counts,
    x: Tested,
    w: BlockLetters,
    regs: &[u16],
    sp: &[u16],
    d: usize,
    pending: &mut [u32],
) -> Result<(), Misfit>
    requires { Prepared p image.now c.rows pending.old × Short (operand_in p image.now literals.now x.operand) × (x.operand ≤ 131072) × Rooms envs.now regs.now sp.now d }
    ensures { (P : Program) (o : Branch) → HoldsAt p image.now c P → AnsweredBy (judge P (letters_in p image.now w) (context_of (read_at p image.now c.rows envs.now) regs.now sp.now d) (bop o x.register (operand_in p image.now literals.now x.operand))) (λ u. context_of (read_at p image.now c.rows envs.now) regs.now sp.now d) result }
{
    let shared = p.shared;
    let slots = p.slots;
    let end = p.end;
    let rows = &image[shared..slots];
    let parts = &image[slots..end];
    let v = x.operand;
    let f = valid_typing::integer(rows, parts, c.rows, regs, x.register);
    let t = valid_typing::target::target(image, literals, envs, p, c, v, w, regs, sp, d, pending);
    match f {
        Ok(_) => t,
        Err(f) => Err(lesser(f, t)),
    }
}
