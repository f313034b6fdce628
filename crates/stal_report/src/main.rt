// The report program: reads a day's stop lines from standard input and prints the day's report, or `refuse,17,line`. Promised
// (`report_line`), on every text: the bytes to be printed are the line of the text's report (`report_line`, `report` of crate report).
#![tactic(auto)]

ghost use Rattle.std.specs.Prelude.{◌≡◌, ◌≤◌, length, take};
ghost use Rattle.report.specs.Day.{report, report_line};

use std::io;
use std::io::Write;

// Writes the line of a day's report, and says how many bytes it has.
fn report_line(text: &[u8], out: &mut [u8]) -> usize
    requires { 160 ≤ length out.old }
    ensures { (result ≤ length out.new) × (take result out.new ≡ report_line (report text.now)) }
{
    report_day::line::write_report(report_day::report(text), out).unwrap()
}

// One byte more than 500 of the longest stop lines have: these bytes decide every report, however long the input is (crate report,
// specs/Claims.antt: `Decided`).
fn main(rt: HostRuntime) -> io::Result<()> {
    let mut text = [0u8; 17001];
    let n = read_input::read_full(&mut rt.stdin(), &mut text)?;
    let mut line = [0u8; 160];
    let k = report_line(&text[..n], &mut line);
    rt.stdout().write_all(&line[..k])
}
