// The lines that the check program and the run program print, written into lent memory.
// Promised: the line of the answer as crate print has it (`verdict_line`, `answer_line`), at the start of the memory, if it has room for the
// whole of it, and bytes past it stay; else the memory is left as it was (`written`); and that 64 bytes are enough. Nothing is asked.
#![tactic(auto)]

ghost use Rattle.std.specs.Prelude.{◌≡◌, [], ◌∷◌, ◌++◌, ◌+◌, ◌≤◌, length, take};
ghost use Rattle.exec.specs.Run.{halted_after};
ghost use Rattle.print.specs.Decimal.{decimal};
ghost use Rattle.print.specs.Lines.{kind_name, verdict_line, answer_line};
ghost use Rattle.print.specs.Written.{written};
ghost use Rattle.print_write.specs.Answers.{written_is};
ghost use Rattle.print_write.specs.Put.{Puts};
ghost use Rattle.valid_verdict.specs.Answers.{verdict_is};
ghost use Rattle.exec_outcome.specs.Answers.{answer_is};

// A line of a word, given with its comma, and a number; where it ends. Part of its caller, which knows the word: a copy of unknown length
// would ask for the C library's memmove.
#[inline(always)]
fn one_number(word: &[u8], a: usize, out: &mut [u8]) -> usize
    requires { (length word.now ≤ 7) × (64 ≤ length out.old) }
    ensures { (result ≤ 64) × (take result out.new ≡ word.now ++ (decimal a ++ (10 ∷ []))) }
{
    let i = print_write::put(word, out, 0);
    let j = print_write::put_decimal(a as u64, out, i);
    print_write::put(b"\n", out, j)
}

// A line of a word, given with its comma, and two numbers; where it ends.
fn two_numbers(word: &[u8], a: usize, b: usize, out: &mut [u8]) -> usize
    requires { (length word.now ≤ 7) × (64 ≤ length out.old) }
    ensures { (result ≤ 64) × (take result out.new ≡ word.now ++ (decimal a ++ (44 ∷ (decimal b ++ (10 ∷ []))))) }
{
    let i = print_write::put(word, out, 0);
    let j = print_write::put_decimal(a as u64, out, i);
    let k = print_write::put(b",", out, j);
    let l = print_write::put_decimal(b as u64, out, k);
    print_write::put(b"\n", out, l)
}

// The name of a kind.
fn put_kind(kind: u8, out: &mut [u8], at: usize) -> usize
    requires { at + 6 ≤ length out.old }
    ensures { Puts out.old at (kind_name kind) out.new result × (result ≤ at + 6) }
{
    match kind {
        0 => print_write::put(b"int", out, at),
        1 => print_write::put(b"code", out, at),
        2 => print_write::put(b"tuple", out, at),
        3 => print_write::put(b"height", out, at),
        _ => print_write::put(b"junk", out, at),
    }
}

// The line of a halt; where it ends.
fn halt_line(steps: usize, kind: u8, number: u32, out: &mut [u8]) -> usize
    requires { 64 ≤ length out.old }
    ensures { (result ≤ 64) × (take result out.new ≡ answer_line (halted_after steps kind number)) }
{
    let i = print_write::put(b"halted,", out, 0);
    let j = print_write::put_decimal(steps as u64, out, i);
    let k = print_write::put(b",", out, j);
    let l = put_kind(kind, out, k);
    let m = print_write::put(b",", out, l);
    let n = print_write::put_signed(i64::from(number.cast_signed()), out, m);
    print_write::put(b"\n", out, n)
}

// The line of a run's answer; where it ends.
fn answer_line(a: exec_outcome::Answer, out: &mut [u8]) -> usize
    requires { 64 ≤ length out.old }
    ensures { (result ≤ 64) × (take result out.new ≡ answer_line (answer_is a)) }
{
    match a {
        exec_outcome::Answer::Refused(number, line) => two_numbers(b"refuse,", number, line, out),
        exec_outcome::Answer::Halted(steps, kind, number) => halt_line(steps, kind, number, out),
        exec_outcome::Answer::Paused(steps) => one_number(b"paused,", steps, out),
        exec_outcome::Answer::StackFull(steps) => one_number(b"stack,", steps, out),
        exec_outcome::Answer::HeapFull(steps) => one_number(b"heap,", steps, out),
        exec_outcome::Answer::Stuck(steps) => one_number(b"stuck,", steps, out),
    }
}

// The line of a verdict; where it ends.
fn verdict_line(a: valid_verdict::Answer, out: &mut [u8]) -> usize
    requires { 64 ≤ length out.old }
    ensures { (result ≤ 64) × (take result out.new ≡ verdict_line (verdict_is a)) }
{
    match a {
        valid_verdict::Answer::Accepted(blocks, instructions) => two_numbers(
            b"accept,",
            blocks,
            instructions,
            out,
        ),
        valid_verdict::Answer::Refused(number, line) => two_numbers(b"refuse,", number, line, out),
        valid_verdict::Answer::Unfit(line, _) => two_numbers(b"refuse,", 10, line, out),
    }
}

// Kept: two functions, since each names the line of its own type; a trait for three lines of code is no plainer.
// Writes the line of an answer to a start or a continuing: how many bytes, or none where the memory is too short.
pub fn write_answer(a: exec_outcome::Answer, out: &mut [u8]) -> Option<usize>
    ensures { (written_is result out.new ≡ written (answer_line (answer_is a)) out.old) × (length (answer_line (answer_is a)) ≤ 64) }
{
    let mut line = [0u8; 64];
    let n = answer_line(a, &mut line);
    print_write::write(&line[0..n], out)
}

// Writes the line of an answer to a check: how many bytes, or none where the memory is too short.
pub fn write_verdict(a: valid_verdict::Answer, out: &mut [u8]) -> Option<usize>
    ensures { (written_is result out.new ≡ written (verdict_line (verdict_is a)) out.old) × (length (verdict_line (verdict_is a)) ≤ 64) }
{
    let mut line = [0u8; 64];
    let n = verdict_line(a, &mut line);
    print_write::write(&line[0..n], out)
}
