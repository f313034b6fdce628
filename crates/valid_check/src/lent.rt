// Check a program's text with working memory from the caller, whatever it holds. Promised, on every input: the answer of check if the
// working memory is long enough, and what it holds afterwards is free; else 16, line 0, before anything else is looked at, and nothing is
// changed. Nothing is asked.
ghost use Rattle.std.specs.Prelude.{◌≡◌, ℕ, List, length};
ghost use Rattle.image.specs.Enough.{enough_to_check, Left};
ghost use Rattle.valid_verdict.specs.Answers.{verdict_is};
ghost use Rattle.valid_check.specs.Lent.{check_in};

use crate::check_in;
use faults::Fault;
use valid_verdict::Answer;

// A check with working memory lent. The plan, which a check does not need, holds the hashes of rows and what a
// comparison keeps pending.
pub fn check(
    text: &[u8],
    image: &mut [u16],
    numbers: &mut [u32],
    plan: &mut [u32],
    work: &mut [u16],
) -> Answer
    ensures { (verdict_is result ≡ check_in (enough_to_check (length image.old) (length numbers.old) (length plan.old) (length work.old)) text.now) × Left {A = List ℕ × List ℕ × List ℕ × List ℕ} (enough_to_check (length image.old) (length numbers.old) (length plan.old) (length work.old)) (image.old, numbers.old, plan.old, work.old) (image.new, numbers.new, plan.new, work.new) }
{
    if !image::lent::is_enough_to_check(image.len(), numbers.len(), plan.len(), work.len()) {
        return Answer::Refused(Fault::BadState.number(), 0);
    }
    check_in(text, image, numbers, plan, work).unwrap()
}
