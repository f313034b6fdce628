// Lines of a text, found as parts of the caller's bytes: where a line ends, and line n.
// Promises: the answers are those of `split` and `lines_of` of crate text, on every input; the laws that a loop over
// all lines, or over the parts of a line, goes by are in proofs/Parts.antt.
#![tactic(auto)]

ghost use Rattle.std.specs.Prelude.{◌≡◌, ◌||◌, ◌+◌, ◌≤◌, eqb, length, drop};
ghost use Rattle.text.specs.Bytes.{lines_of};
ghost use Rattle.text_lines.specs.Parts.{comma, lf, first_part, field_in, InLine, line_at, NextLine, LastEnd};

// Where the part that starts at `at` ends: at the next byte c, or at the end of s. Past the end of s: `at` itself.
pub fn part_end(s: &[u8], at: usize, c: u8) -> usize
    ensures { result ≡ at + length (first_part c (drop at s.now)) }
{
    for i in at..s.len() {
        if s[i] == c {
            return i;
        }
    }
    at.max(s.len())
}

// Where the line that starts at `at` ends: at its LF, or at the end of the text.
pub fn line_end(text: &[u8], at: usize) -> usize
    ensures { result ≡ at + length (first_part lf (drop at text.now)) }
{
    part_end(text, at, b'\n')
}

// A byte that ends a field: a comma or LF.
pub fn is_stop(b: u8) -> bool
    ensures { result ≡ (eqb b comma || eqb b lf) }
{
    matches!(b, b',' | b'\n')
}

// Where the field that starts at `at` in the first line ends: at the next comma, or at the line's LF.
pub fn field_end(s: &[u8], at: usize) -> usize
    requires { InLine s.now at }
    ensures { result ≡ at + length (field_in s.now at) }
{
    for i in at..s.len() {
        if is_stop(s[i]) {
            return i;
        }
    }
    s.len()
}

// Where the last line that has an LF ends: past that LF, or at 0 if there is none.
pub fn last_end(text: &[u8]) -> usize
    ensures { LastEnd text.now result }
{
    for i in (0..text.len()).rev() {
        if text[i] == b'\n' {
            return i + 1;
        }
    }
    0
}

// Where the line after the one at `at` starts: past its LF, or at the end of the text.
fn next_line(text: &[u8], at: usize) -> usize
    ensures { NextLine text.now at result }
{
    let e = line_end(text, at);
    if e < text.len() { e + 1 } else { text.len() }
}

// Where line n starts, counted from 0, or the end of the text.
fn line_start(text: &[u8], n: usize) -> usize
    ensures { (result ≤ length text.now) × (lines_of (drop result text.now) ≡ drop n (lines_of text.now)) }
{
    let mut at = 0;
    for _ in 0..n {
        if text.len() <= at {
            break;
        }
        at = next_line(text, at);
    }
    at
}

// Line n, counted from 0, without its LF; empty where there is none.
pub fn line(text: &[u8], n: usize) -> &[u8]
    ensures { result.now ≡ line_at text.now n }
{
    let at = line_start(text, n);
    let e = line_end(text, at);
    &text[at..e]
}
