// The line of a day's report, written into lent memory.
// Promised: the line of the answer as crate report has it (`report_line`), at the start of the memory, if it has room for the whole of it,
// and bytes past it stay; else the memory is left as it was; and that 160 bytes are enough. Nothing is asked.
ghost use Rattle.std.specs.Prelude.{◌≡◌, ◌+◌, ◌≤◌, [], ◌∷◌, ◌++◌, length, take};
ghost use Rattle.print.specs.Decimal.{decimal, signed_decimal};
ghost use Rattle.print.specs.Written.{written};
ghost use Rattle.print_write.specs.Answers.{written_is};
ghost use Rattle.print_write.specs.Put.{Puts};
ghost use Rattle.report.specs.Day.{report_line, figures, no_integer, refused};
ghost use Rattle.report_day.specs.Answers.{figures_is, report_is};

use crate::{Day, Figures, Refused};

// Puts a comma and an integer.
fn put_next(n: i64, out: &mut [u8], at: usize) -> usize
    requires { at + 22 ≤ length out.old }
    ensures { Puts out.old at (44 ∷ signed_decimal n) out.new result × (result ≤ at + 22) }
{
    let a = print_write::put(b",", out, at);
    print_write::put_signed(n, out, a)
}

// Puts the last figure, a comma before it and the line's end behind.
fn put_last(n: u64, out: &mut [u8], at: usize) -> usize
    requires { at + 22 ≤ length out.old }
    ensures { Puts out.old at (44 ∷ (decimal n ++ (10 ∷ []))) out.new result × (result ≤ at + 22) }
{
    let a = print_write::put(b",", out, at);
    let b = print_write::put_decimal(n, out, a);
    print_write::put(b"\n", out, b)
}

// Puts the two counts, a comma between them.
fn put_counts(count: u64, others: u64, out: &mut [u8]) -> usize
    requires { 41 ≤ length out.old }
    ensures { Puts out.old 0 (decimal count ++ (44 ∷ decimal others)) out.new result × (result ≤ 41) }
{
    let a = print_write::put_decimal(count, out, 0);
    let b = print_write::put(b",", out, a);
    print_write::put_decimal(others, out, b)
}

// The line of the seven figures; where it ends.
fn figures_line(f: Figures, out: &mut [u8]) -> usize
    requires { 160 ≤ length out.old }
    ensures { (result ≤ 160) × (take result out.new ≡ report_line (figures (figures_is f))) }
{
    let a = put_counts(f.count, f.others, out);
    let b = put_next(f.total, out, a);
    let c = put_next(f.smallest, out, b);
    let d = put_next(f.largest, out, c);
    let e = put_next(f.quotient, out, d);
    put_last(f.remainder, out, e)
}

// The line of a day without integers; where it ends.
fn none_line(others: u64, out: &mut [u8]) -> usize
    requires { 160 ≤ length out.old }
    ensures { (result ≤ 160) × (take result out.new ≡ report_line (no_integer others)) }
{
    let a = put_counts(0, others, out);
    print_write::put(b",-,-,-,-,-\n", out, a)
}

// The line of a refusal; where it ends.
fn refusal_line(line: usize, out: &mut [u8]) -> usize
    requires { 160 ≤ length out.old }
    ensures { (result ≤ 160) × (take result out.new ≡ report_line (refused line)) }
{
    let a = print_write::put(b"refuse,17,", out, 0);
    let b = print_write::put_decimal(line as u64, out, a);
    print_write::put(b"\n", out, b)
}

// The line of an answer; where it ends.
fn report_line(a: Result<Day, Refused>, out: &mut [u8]) -> usize
    requires { 160 ≤ length out.old }
    ensures { (result ≤ 160) × (take result out.new ≡ report_line (report_is a)) }
{
    match a {
        Err(r) => refusal_line(r.line, out),
        Ok(Day::NoInteger(others)) => none_line(others, out),
        Ok(Day::Tallied(f)) => figures_line(f, out),
    }
}

// Writes the line of a day's report: how many bytes, or none where the memory is too short.
pub fn write_report(a: Result<Day, Refused>, out: &mut [u8]) -> Option<usize>
    ensures { (written_is result out.new ≡ written (report_line (report_is a)) out.old) × (length (report_line (report_is a)) ≤ 160) }
{
    let mut line = [0u8; 160];
    let n = report_line(a, &mut line);
    print_write::write(&line[0..n], out)
}
