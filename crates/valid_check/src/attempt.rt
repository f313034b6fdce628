// Check a program's text with working memory on the stack: a text of at most 2,048 bytes is tried in a small image, one that does not fit
// it goes to the large one, some 400 KB. Promised: the answer of check. Nothing is asked.
ghost use Rattle.std.specs.Prelude.{◌≡◌, ◌≤◌, length, IsSome, IfSome};
ghost use Rattle.valid.specs.Verdict.{check};
ghost use Rattle.valid_verdict.specs.Answers.{verdict_is};

use crate::check_in;
use valid_verdict::Answer;

// With an image and numbers of these lengths on the stack. No answer if the text does not fit the image. It is not to become a part of
// `check`, so that a check of a small text does not take the stack of the large image.
#[inline(never)]
fn check_sized<const IMAGE: usize, const NUMBERS: usize>(
    text: &[u8],
    hash: &mut [u32],
    work: &mut [u16],
) -> Option<Answer>
    requires small { (IMAGE ≤ 161694) × (NUMBERS ≤ 16400) }
    requires lent { (8192 ≤ length work.old) × (2567 ≤ length hash.old) }
    ensures fits { 161694 ≤ IMAGE → 16400 ≤ NUMBERS → IsSome result }
    ensures answers { IfSome result (λ a. verdict_is a ≡ check text.now) }
{
    let mut image = [0u16; IMAGE];
    let mut numbers = [0u32; NUMBERS];
    check_in(text, &mut image, &mut numbers, hash, work)
}

// With the image that the text fits. Hashes, what a comparison keeps pending and what the typing of a block needs are lent to both.
pub fn check(text: &[u8]) -> Answer
    ensures { verdict_is result ≡ check text.now }
{
    let mut hash = [0u32; 2567];
    let mut work = [0u16; 8192];
    if text.len() <= 2048
        && let Some(a) = check_sized::<5162, 96>(text, &mut hash, &mut work)
    {
        return a;
    }
    check_sized::<161694, 16400>(text, &mut hash, &mut work).unwrap()
}
