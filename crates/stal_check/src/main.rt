// The check program: reads a program's text from standard input and prints `accept,blocks,instructions` or `refuse,number,line`. Promised
// (`check_line`), on every text: the bytes to be printed are the line of the verdict of crate valid (`verdict_line` of crate print).
#![tactic(auto)]

ghost use Rattle.std.specs.Prelude.{◌≡◌, ◌≤◌, length, take};
ghost use Rattle.valid.specs.Verdict.{check};
ghost use Rattle.print.specs.Lines.{verdict_line};

use std::io;
use std::io::Write;

// Writes the line of the verdict on a text, and says how many bytes it has.
fn check_line(text: &[u8], out: &mut [u8]) -> usize
    requires { 64 ≤ length out.old }
    ensures { (result ≤ length out.new) × (take result out.new ≡ verdict_line (check text.now)) }
{
    print_lines::write_verdict(checker::check(text), out).unwrap()
}

// One byte more than a program may have: a longer text is refused for its length, however long.
fn main(rt: HostRuntime) -> io::Result<()> {
    let mut text = [0u8; 65537];
    let n = read_input::read_full(&mut rt.stdin(), &mut text)?;
    let mut line = [0u8; 64];
    let k = check_line(&text[..n], &mut line);
    rt.stdout().write_all(&line[..k])
}
