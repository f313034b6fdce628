// An instruction of pass three that has no operand, by its code in the table of instructions (crate tables): each function here takes the
// codes of some forms that have the same effect on the checker's arrays, reads the instruction's numbers, and judges it. Promised of each:
// what `judge` of crate valid gives instruction j of the table, as the form's own function promises it.
ghost use Rattle.std.specs.Prelude.{◌≤◌, IfOk};
ghost use Rattle.tables.specs.Tables.{OperandTable, instr_at};
ghost use Rattle.image.specs.Sections.{instr_section};
ghost use Rattle.valid_typing.specs.Image.{Prepared, letters_in};
ghost use Rattle.valid_judge.specs.Codes.{HeapForm, SpForm, ItemForm};
ghost use Rattle.valid_judge.specs.heap.Forms.{KeptRegs};
ghost use Rattle.valid_judge.specs.stack.Forms.{Kept};
ghost use Rattle.valid_judge.specs.Image.{Roomy, Flattens, Rooms, InRegsAt, InStackAt};

use crate::InstrForm;
use crate::through::PointerStore;
use faults::Fault;
use image::Places;
use tables::cell;
use valid_scope::BlockLetters;

// ld 10, st 11, halt 22 and from 24 on
pub(crate) fn heap_form(
    image: &[u16],
    envs: &[u16],
    p: Places,
    n: usize,
    x: InstrForm,
    w: BlockLetters,
    regs: &mut [u16],
    pending: &mut [u32],
) -> Result<(), Fault>
    requires { Prepared p image.now n pending.old × Roomy envs.now regs.old × HeapForm p image.now x }
    ensures { ((ω : OperandTable) → InRegsAt p image.now n envs.now (letters_in p image.now w) regs.old regs.new result (instr_at (instr_section p image.now) ω x.at)) × KeptRegs envs.now regs.old regs.new }
{
    let instrs = &image[p.instrs..p.parts];
    let rows = &image[p.shared..p.slots];
    let parts = &image[p.slots..p.end];
    let a = cell::<8>(instrs, x.at, 1);
    let b = cell::<8>(instrs, x.at, 2);
    let c = cell::<8>(instrs, x.at, 3);
    match x.code {
        10 => crate::heap::load(rows, parts, envs, n, regs, a, b, c),
        11 => crate::heap::store(rows, parts, envs, n, regs, a, b, c, pending),
        _ => crate::heap::stop(image, envs, p, n, regs, a, w, pending),
    }
}

// getsp 13, setsp 14, salloc 15, sfree 16
pub(crate) fn sp_form(
    image: &[u16],
    envs: &[u16],
    p: Places,
    n: usize,
    x: InstrForm,
    w: BlockLetters,
    regs: &mut [u16],
    sp: &mut [u16],
    depth: usize,
    pending: &mut [u32],
) -> Result<usize, Fault>
    requires { Prepared p image.now n pending.old × Rooms envs.now regs.old sp.old depth × SpForm p image.now x }
    ensures { ((ω : OperandTable) → InStackAt p image.now n envs.now (letters_in p image.now w) regs.old sp.old depth regs.new sp.new (λ y. y) result (instr_at (instr_section p image.now) ω x.at)) × IfOk result (λ y. y ≤ 64) × IfOk result (λ y. Kept envs.now regs.old sp.old depth regs.new sp.new y) }
{
    let instrs = &image[p.instrs..p.parts];
    let rows = &image[p.shared..p.slots];
    let parts = &image[p.slots..p.end];
    let a = cell::<8>(instrs, x.at, 1);
    let b = cell::<8>(instrs, x.at, 2);
    match x.code {
        13 => {
            crate::stack::get_sp(image, envs, p, n, w, regs, sp, depth, a, b, pending)?;
            Ok(depth)
        }
        14 => crate::stack::set_sp(rows, parts, envs, n, regs, sp, depth, a, pending),
        15 => crate::stack::allocate(n, sp, depth, a),
        _ => crate::stack::free(sp, depth, a),
    }
}

// sld 17, sst 18, slp 19, ssp 20
pub(crate) fn item_form(
    image: &[u16],
    envs: &[u16],
    p: Places,
    n: usize,
    x: InstrForm,
    w: BlockLetters,
    regs: &mut [u16],
    sp: &mut [u16],
    work: &mut [u16],
    m: usize,
    pending: &mut [u32],
) -> Result<(), Fault>
    requires { Prepared p image.now n pending.old × Flattens p image.now n work.old × Rooms envs.now regs.old sp.old m × ItemForm p image.now x }
    ensures { ((ω : OperandTable) → InStackAt p image.now n envs.now (letters_in p image.now w) regs.old sp.old m regs.new sp.new (λ (u : Unit {0}). m) result (instr_at (instr_section p image.now) ω x.at)) × Kept envs.now regs.old sp.old m regs.new sp.new m }
{
    let instrs = &image[p.instrs..p.parts];
    let rows = &image[p.shared..p.slots];
    let parts = &image[p.slots..p.end];
    let a = cell::<8>(instrs, x.at, 1);
    let b = cell::<8>(instrs, x.at, 2);
    let c = cell::<8>(instrs, x.at, 3);
    let t = cell::<8>(instrs, x.at, 4);
    match x.code {
        17 => crate::stack::load_item(regs, sp, m, a, b),
        18 => crate::stack::store_item(n, regs, sp, m, a, b),
        19 => crate::through::load_through(rows, parts, envs, n, regs, sp, m, a, b, c, pending),
        _ => {
            let y = PointerStore {
                pointer: a,
                item: b,
                source: c,
                row: t,
            };
            crate::through::store_through(image, envs, p, n, regs, sp, work, m, y, w, pending)
        }
    }
}
