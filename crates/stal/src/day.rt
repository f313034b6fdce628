// A day's report, and the lines of reports, verdicts and answers, under C names. Promised, on every input: the figures are those of the
// report of the text (crate report), and the bytes those of the line (crate print) of the report, or of the verdict or answer whose numbers
// are given; crate stal_lines has the code and the values of each case. Nothing is asked.
ghost use Rattle.std.specs.Prelude.{◌≡◌};
ghost use Rattle.print.specs.Lines.{verdict_line, answer_line};
ghost use Rattle.print.specs.Written.{written};
ghost use Rattle.report.specs.Day.{report, report_line};
ghost use Rattle.stal_numbers.specs.Numbers.{verdict, reply};
ghost use Rattle.stal_numbers.specs.Back.{verdict_back, answer_back};
ghost use Rattle.stal_lines.specs.Day.{TellsDay};
ghost use Rattle.stal_lines.specs.Line.{told, told_of};

// Report a day of stop lines: 0 and the seven figures; 17 and the line of a refusal; 16, line 0, where fewer than seven entries are lent.
#[unsafe(no_mangle)]
pub extern "C" fn stal_report(text: &[u8], figures: &mut [u64], line: &mut usize) -> usize
    ensures { TellsDay figures.old (report text.now) result line.new figures.new }
{
    stal_lines::put_figures(report_day::report(text), figures, line)
}

// Write the line of a day's report: 0 and its length, or 16 and 0 where `out` is too short.
#[unsafe(no_mangle)]
pub extern "C" fn stal_report_line(text: &[u8], out: &mut [u8], length: &mut usize) -> usize
    ensures { told result length.new out.new ≡ told_of (written (report_line (report text.now)) out.old) }
{
    let w = report_day::line::write_report(report_day::report(text), out);
    stal_lines::put_written(w, length)
}

// Write the line of a run's answer, given by its numbers: 0 and its length, or 16 and 0 where `out` is too short.
#[unsafe(no_mangle)]
pub extern "C" fn stal_answer_line(
    code: usize,
    first: usize,
    kind: u8,
    number: u32,
    out: &mut [u8],
    length: &mut usize,
) -> usize
    ensures { told result length.new out.new ≡ told_of (written (answer_line (answer_back (reply code first kind number))) out.old) }
{
    let w = print_lines::write_answer(stal_lines::answer_of(code, first, kind, number), out);
    stal_lines::put_written(w, length)
}

// Write the line of a check's answer, given by its numbers: 0 and its length, or 16 and 0 where `out` is too short.
#[unsafe(no_mangle)]
pub extern "C" fn stal_verdict_line(
    code: usize,
    first: usize,
    second: usize,
    out: &mut [u8],
    length: &mut usize,
) -> usize
    ensures { told result length.new out.new ≡ told_of (written (verdict_line (verdict_back (verdict code first second))) out.old) }
{
    let w = print_lines::write_verdict(stal_lines::verdict_by(code, first, second), out);
    stal_lines::put_written(w, length)
}
