// A load's samples, read from their text. `read_samples` says whether the text is well formed and has as many samples as are
// wanted, and promises that those then stand in `out`; else nothing is said of `out`.
ghost use Rattle.std.specs.Prelude.{◌≡◌, ◌≤◌, length, take};
ghost use Rattle.syntax.specs.Partial.{guarded};
ghost use Rattle.text.specs.Samples.{samples_of};
ghost use Rattle.exec_state.specs.samples.Counted.{exactly};

// The samples, one to a line. Reading stops at the first line that is malformed or one too many.
pub fn read_samples(text: &[u8], want: usize, out: &mut [u32]) -> bool
    requires { want ≤ length out.old }
    ensures { guarded result (take want out.new) ≡ exactly want (samples_of text.now) }
{
    let mut at = 0;
    let mut n = 0;
    // Kept: a `while`. Lines are of any length, and the first that is malformed ends the walk.
    while at < text.len() {
        let e = text_lines::line_end(text, at);
        if text.len() <= e {
            return false;
        }
        if want <= n {
            return false;
        }
        let Some(v) = text_fields::numbers::literal(&text[at..e]) else {
            return false;
        };
        out[n] = v;
        n += 1;
        at = e + 1;
    }
    n == want
}
