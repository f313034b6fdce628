// Working memory that a caller lends, by its lengths: whether it is long enough for every text. Promised: `enough` and `enough_to_check` of
// specs/Enough.antt. Nothing is asked.
ghost use Rattle.std.specs.Prelude.{◌≡◌};
ghost use Rattle.image.specs.Enough.{enough, enough_to_check};

// To start and continue every text.
pub fn is_enough(image: usize, numbers: usize, plan: usize) -> bool
    ensures { result ≡ enough image numbers plan }
{
    161694 <= image && 16400 <= numbers && 8208 <= plan
}

// To check every text.
pub fn is_enough_to_check(image: usize, numbers: usize, plan: usize, work: usize) -> bool
    ensures { result ≡ enough_to_check image numbers plan work }
{
    is_enough(image, numbers, plan) && 8192 <= work
}
