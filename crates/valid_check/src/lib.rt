// Check a program's text with working memory lent, whatever it holds: decode it and make passes one and two (crate load), let rows of
// equal types be one (crate valid_share), type it (crate valid_pass_three), and answer (crate valid_verdict). Promised: whether the text
// fits the image, and if it does, the answer of check. Asked: room for the typing of a block. Module attempt puts working memory on the
// stack, module lent takes it from the caller.
#![tactic(auto)]

pub mod attempt;
pub mod lent;

ghost use Rattle.std.specs.Prelude.{◌≡◌, true, ℕ, ◌≤◌, length, IsSome, IfSome};
ghost use Rattle.syntax.specs.Fault.{lowest_line};
ghost use Rattle.types.specs.Rows.{types_of};
ghost use Rattle.tables.specs.Tables.{rows_in};
ghost use Rattle.image.specs.Sections.{Ordered};
ghost use Rattle.valid.specs.Program.{Program, blocks_of};
ghost use Rattle.valid.specs.PassThree.{pass_three};
ghost use Rattle.valid.specs.Verdict.{check};
ghost use Rattle.valid_typing.specs.Image.{row_table, HoldsAt};
ghost use Rattle.valid_pass_three.specs.body.Tables.{Tabled};
ghost use Rattle.valid_pass_three.specs.Blocks.{blocks_in, BlocksWithin};
ghost use Rattle.valid_verdict.specs.finding.Found.{refusal_said};
ghost use Rattle.valid_verdict.specs.Answers.{verdict_is};
ghost use Rattle.valid_share.specs.Shared.{SharedFor};
ghost use Rattle.valid_check.specs.Lent.{Roomy};

use image::{Counts, Places};
use text_decode::state::Unread;
use valid_verdict::Answer;
use valid_verdict::finding::Finding;

// Whether the image has room for n rows once more.
fn has_shared(p: Places, n: usize) -> bool
    requires { ((l : ℕ) × Ordered p l) × (n ≤ 512) }
    ensures { (result ≡ true → SharedFor n p) × (SharedFor n p → result ≡ true) }
{
    4 * n + 8 <= p.slots - p.shared && 17 * n <= p.end - p.slots
}

// Pass three over the tables in the image. The registers' types and those of sp stand here.
fn third_pass(
    image: &[u16],
    numbers: &[u32],
    p: Places,
    c: Counts,
    work: &mut [u16],
    pending: &mut [u32],
) -> Result<(), Finding>
    requires { Tabled p image.now c.rows × BlocksWithin p image.now numbers.now c × (8192 ≤ length work.old) × (1543 ≤ length pending.old) }
    ensures { (P : Program) → HoldsAt p image.now c P → P.blocks ≡ blocks_of (types_of (rows_in (row_table p image.now) c.rows)) (blocks_in p image.now numbers.now c) → refusal_said result ≡ lowest_line 0 (pass_three P) }
{
    let mut regs = [0u16; 16];
    let mut sp = [0u16; 128];
    valid_pass_three::pass_three(image, numbers, p, c, &mut regs, &mut sp, work, pending)
}

// Check with working memory lent: an image with the rows once more, its numbers, hashes of rows and what a comparison keeps pending, and
// what the typing of a block needs. No answer if the text does not fit the image.
pub(crate) fn check_in(
    text: &[u8],
    image: &mut [u16],
    numbers: &mut [u32],
    hash: &mut [u32],
    work: &mut [u16],
) -> Option<Answer>
    requires { (8192 ≤ length work.old) × (2567 ≤ length hash.old) }
    ensures fits { Roomy image.old numbers.old → IsSome result }
    ensures answers { IfSome result (λ a. verdict_is a ≡ check text.now) }
{
    let c = match load::load(text, image, numbers) {
        Ok(c) => c,
        Err(Unread::Unfit) => return None,
        Err(Unread::Faulty(f)) => return Some(Answer::Refused(f.fault.number(), f.line)),
    };
    let p = image::lay_out(image.len());
    if !has_shared(p, c.rows) {
        return None;
    }
    valid_share::share(image, p, c.rows, work, hash);
    let f = third_pass(image, numbers, p, c, work, hash);
    Some(valid_verdict::answer_for(f, c.blocks, c.instrs))
}
