// A block's instructions, from the types that its code row says on: the registers (`enter`) and the stack written out (crate valid_typing),
// then one instruction after the other (crate valid_judge), the types before each kept in two arrays (crate valid_context), and the
// environments of the packages that the block's unpacks have opened in a third (document 02, point 3). Behind a line with a fault nothing
// is looked at, so the first one found is the lowest. Promised: the lowest line with a fault, its least fault and, for
// 10 at a jump or branch, the first item that does not fit, as `body_faults` of crate valid has them. Asked: what crate load leaves in the tables
// (specs/body/Tables.antt), and room in the arrays.
ghost use Rattle.std.specs.Prelude.{◌≡◌, true, List, [], ℕ, ◌+◌, ◌-◌, ◌≤◌, length, take, IfOk, IfSome};
ghost use Rattle.syntax.specs.Syntax.{stack};
ghost use Rattle.syntax.specs.Fault.{lowest_line};
ghost use Rattle.types.specs.Types.{Ty};
ghost use Rattle.tables.specs.Tables.{letters_at};
ghost use Rattle.valid.specs.Program.{Program};
ghost use Rattle.valid.specs.Rules.{at_start};
ghost use Rattle.valid.specs.Bounds.{SmallInstr};
ghost use Rattle.valid.specs.PassThree.{holds, judge, body_faults};
ghost use Rattle.image.specs.Sections.{slot_section};
ghost use Rattle.types_rows.specs.Read.{tab, mean_v, parts_of, on_slot, OkSlot};
ghost use Rattle.valid_context.specs.Context.{on_link, regs_of, context_of, EnvsIn};
ghost use Rattle.valid_typing.specs.target.Fits.{AnsweredBy};
ghost use Rattle.valid_typing.specs.Typing.{held_in, Ready, RowParts};
ghost use Rattle.valid_typing.specs.Image.{row_table, read_at, Prepared, instr_in, HoldsAt, letters_in};
ghost use Rattle.valid_judge.specs.Image.{SmallRows, after, counting, Goes};
ghost use Rattle.valid_scope.specs.entry.Entry.{block_at};
ghost use Rattle.valid_verdict.specs.finding.Found.{refusal_said};
ghost use Rattle.valid_pass_three.specs.body.Tables.{Tabled, SmallInstrs, Arrays, Begins, Opening, CodeRow, instrs_in};

use image::{Counts, Places};
use types_rows::Held;
use valid_judge::{Judged, Reached};
use valid_scope::BlockLetters;
use valid_typing::target::Misfit;
use valid_verdict::finding::Finding;

// A block of a code row: the row's link, its stack's, where its registers start; its instructions from first to end - 1, of which
// instruction i stands on line base + i.
#[derive(Clone, Copy)]
pub struct CodeBlock {
    pub link: usize,
    pub stack: usize,
    pub start: usize,
    pub first: usize,
    pub end: usize,
    pub base: usize,
}

// Its instructions alone, one after the other, and how many items sp has before the first.
#[derive(Clone, Copy)]
pub struct BodyLines {
    pub first: usize,
    pub end: usize,
    pub base: usize,
    pub depth: usize,
}

// The link of a register that a code row names.
fn link_of(n: usize, s: Option<usize>) -> usize
    requires { (n ≤ 512) × OkSlot (n + 3) s }
    ensures { ((rows parts : List ℕ) (a : Ty stack) → Ready rows parts n → on_link (held_in rows parts n []) 0 result a ≡ on_slot (mean_v (tab rows parts)) s a) × (result ≤ n + 2) }
{
    match s {
        Some(t) => valid_typing::row_of(n, t) + 1,
        None => 0,
    }
}

// The registers as the code row of link h says, whose registers start at p.
fn enter(rows: &[u16], parts: &[u16], n: usize, h: usize, p: usize, regs: &mut [u16])
    requires { Ready rows.now parts.now n × RowParts n h p × (16 ≤ length regs.old) }
    ensures { (regs_of (held_in rows.now parts.now n []) regs.new ≡ parts_of (mean_v (tab rows.now parts.now)) parts.now true h p 8) × EnvsIn 0 regs.new 8 }
{
    for i in 0..8 {
        let s = types_rows::part(parts, true, h, p + i);
        valid_context::put(regs, i, link_of(n, s) as u16, 0);
    }
}

// The instruction that is reached at y, with the environments of the h packages opened so far.
fn line(
    image: &[u16],
    literals: &[u32],
    envs: &[u16],
    h: usize,
    p: Places,
    c: Counts,
    y: Reached,
    w: BlockLetters,
    regs: &mut [u16],
    sp: &mut [u16],
    work: &mut [u16],
    pending: &mut [u32],
) -> Result<Judged, Misfit>
    requires { Prepared p image.now c.rows pending.old × SmallRows p image.now c.rows work.old × SmallInstr (instr_in p image.now literals.now y.instr) × Opening envs.now h w regs.old sp.old y.depth }
    ensures { ((P : Program) → HoldsAt p image.now c P → AnsweredBy (judge P (letters_in p image.now (counting w (take h envs.now))) (context_of (read_at p image.now c.rows (take h envs.now)) regs.old sp.old y.depth) (instr_in p image.now literals.now y.instr)) (λ j. context_of (read_at p image.now c.rows (after (take h envs.now) j.opened)) regs.new sp.new j.depth) result) × IfOk result (λ j. j.depth ≤ 64) × IfOk result (λ j. Goes p image.now (take h envs.now) j.opened (counting w (take h envs.now)) (instr_in p image.now literals.now y.instr) regs.new sp.new j.depth) }
{
    let u = BlockLetters {
        hidden: h,
        count: w.count,
        start: w.start,
    };
    valid_judge::judge(
        image,
        literals,
        &envs[..h],
        p,
        c,
        y,
        u,
        regs,
        sp,
        work,
        pending,
    )
}

// The environment of the package that a line has opened, if it has opened one, stands behind the h before; how many there are then.
fn note(envs: &mut [u16], h: usize, opened: Option<usize>) -> usize
    requires { (length (after (take h envs.old) opened) ≤ length envs.old) × (h ≤ length envs.old) × IfSome opened (λ e. e ≤ 65535) }
    ensures { (take result envs.new ≡ after (take h envs.old) opened) × (result ≡ length (after (take h envs.old) opened)) }
{
    let Some(e) = opened else {
        return h;
    };
    envs[h] = e as u16;
    h + 1
}

// The instructions of a block from i = first to end - 1, under its letters, with the types before them in the arrays; instruction i stands
// on line base + i.
fn body(
    image: &[u16],
    literals: &[u32],
    p: Places,
    c: Counts,
    x: BodyLines,
    w: BlockLetters,
    regs: &mut [u16],
    sp: &mut [u16],
    work: &mut [u16],
    pending: &mut [u32],
) -> Result<(), Finding>
    requires { Tabled p image.now c.rows × SmallInstrs p image.now literals.now x.first x.end x.base × Arrays regs.old sp.old work.old pending.old × Begins w regs.old sp.old x.depth }
    ensures { (P : Program) → HoldsAt p image.now c P → refusal_said result ≡ lowest_line (x.base + x.first) (body_faults P (letters_in p image.now w) (holds (context_of (read_at p image.now c.rows []) regs.old sp.old x.depth)) (instrs_in p image.now literals.now x.first (x.end - x.first))) }
{
    let mut envs = [0u16; 64];
    let mut h = 0;
    let mut depth = x.depth;
    for i in x.first..x.end {
        let at = Reached { instr: i, depth };
        let v = match line(
            image, literals, &envs, h, p, c, at, w, regs, sp, work, pending,
        ) {
            Ok(v) => v,
            Err(m) => {
                return Err(Finding {
                    fault: m.fault,
                    line: x.base + i,
                    item: m.item,
                });
            }
        };
        h = note(&mut envs, h, v.opened);
        depth = v.depth;
    }
    Ok(())
}

// A block of a code row, from the types that the row says on.
pub(crate) fn code_block(
    image: &[u16],
    literals: &[u32],
    p: Places,
    c: Counts,
    x: CodeBlock,
    regs: &mut [u16],
    sp: &mut [u16],
    work: &mut [u16],
    pending: &mut [u32],
) -> Result<(), Finding>
    requires { Tabled p image.now c.rows × SmallInstrs p image.now literals.now x.first x.end x.base × Arrays regs.old sp.old work.old pending.old × CodeRow p image.now c.rows x }
    ensures { (P : Program) → HoldsAt p image.now c P → refusal_said result ≡ lowest_line (x.base + x.first) (body_faults P (letters_at (slot_section p image.now) x.start) (holds (at_start (block_at (row_table p image.now) x.link x.stack x.start (instrs_in p image.now literals.now x.first (x.end - x.first))))) (instrs_in p image.now literals.now x.first (x.end - x.first))) }
{
    let rows = &image[p.shared..p.slots];
    let parts = &image[p.slots..p.end];
    let n = c.rows;
    enter(rows, parts, n, x.link, x.start, regs);
    let y = Held {
        row: x.stack,
        env: 0,
    };
    valid_typing::flatten(rows, parts, n, sp, y);
    let count = types_rows::letter_count(parts, x.start);
    let depth = types_rows::item_count(rows, x.stack);
    let w = BlockLetters {
        hidden: 0,
        count,
        start: x.start + 9,
    };
    let z = BodyLines {
        first: x.first,
        end: x.end,
        base: x.base,
        depth,
    };
    body(image, literals, p, c, z, w, regs, sp, work, pending)
}
