// Check a program's text (document 01). Promised, of every text: the answer is the verdict of crate valid, accepted with the counts of
// blocks and instructions, or the number and the line, for 10 at a jump or branch with the first item that does not fit (document 02, point
// 2). Nothing is asked. `check` puts its working memory on the stack, some 438 KB for a large text (module attempt of
// valid_check); `check_in` is lent it, whatever it holds (module lent): where it is too short it answers 16, line 0, and nothing is changed;
// else what it holds afterwards is free.
#![tactic(auto)]

ghost use Rattle.std.specs.Prelude.{◌≡◌, ℕ, List, length};
ghost use Rattle.valid.specs.Verdict.{check};
ghost use Rattle.valid_verdict.specs.Answers.{verdict_is};
ghost use Rattle.image.specs.Enough.{enough_to_check, Left};
ghost use Rattle.valid_check.specs.Lent.{check_in};

use valid_verdict::Answer;

// What check answers on a text.
pub fn check(text: &[u8]) -> Answer
    ensures { verdict_is result ≡ check text.now }
{
    valid_check::attempt::check(text)
}

// What check answers on a text, with working memory lent: an image of 161,694 entries, 16,400 numbers, a plan of 8,208 and work of 8,192
// are enough for every text.
pub fn check_in(
    text: &[u8],
    image: &mut [u16],
    numbers: &mut [u32],
    plan: &mut [u32],
    work: &mut [u16],
) -> Answer
    ensures { (verdict_is result ≡ check_in (enough_to_check (length image.old) (length numbers.old) (length plan.old) (length work.old)) text.now) × Left {A = List ℕ × List ℕ × List ℕ × List ℕ} (enough_to_check (length image.old) (length numbers.old) (length plan.old) (length work.old)) (image.old, numbers.old, plan.old, work.old) (image.new, numbers.new, plan.new, work.new) }
{
    valid_check::lent::check(text, image, numbers, plan, work)
}
