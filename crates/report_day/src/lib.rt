// A day's report over the lent text of its stop lines (document 02, point 1).
// Promised: the answer is that of `report` of crate report, on every text (specs/Answers.antt: `report_is`). Nothing is asked.
#![tactic(auto)]

pub mod line;

ghost use Rattle.std.specs.Prelude.{◌≡◌, ◌<◌};
ghost use Rattle.report.specs.Day.{report};
ghost use Rattle.report_day.specs.Answers.{figures_is, report_is};
ghost use Rattle.report_day.specs.Tally.{after, Small, figures_by};

use report_stop::Stop;

// The seven figures.
#[derive(Clone, Copy)]
pub struct Figures {
    pub count: u64,
    pub others: u64,
    pub total: i64,
    pub smallest: i64,
    pub largest: i64,
    pub quotient: i64,
    pub remainder: u64,
}

// What a day comes to: no integer, and so many other stops; or the figures.
#[derive(Clone, Copy)]
pub enum Day {
    NoInteger(u64),
    Tallied(Figures),
}

// Refused with 17: the lowest line that may not stand there.
#[derive(Clone, Copy)]
pub struct Refused {
    pub line: usize,
}

// What is kept of the integers read so far: how many, their sum, the smallest and the largest.
#[derive(Clone, Copy)]
struct Tally {
    count: u64,
    sum: i64,
    low: i64,
    high: i64,
}

impl Tally {
    // Of no integers.
    const NONE: Tally = Tally {
        count: 0,
        sum: 0,
        low: i64::MAX,
        high: i64::MIN,
    };

    // One stop more.
    fn with(self, stop: Stop) -> Tally
        requires { Small self × (self.count < 500) }
        ensures { (result ≡ after self stop) × Small result }
    {
        match stop {
            Stop::Integer(n) => {
                let n = i64::from(n);
                Tally {
                    count: self.count + 1,
                    sum: self.sum + n,
                    low: self.low.min(n),
                    high: self.high.max(n),
                }
            }
            Stop::Other => self,
        }
    }

    // The figures of a day's integers and so many other stops.
    fn figures(self, others: u64) -> Figures
        requires { (0 < self.count) × Small self }
        ensures { figures_is result ≡ figures_by self others }
    {
        let count = self.count as i64;
        Figures {
            count: self.count,
            others,
            total: self.sum,
            smallest: self.low,
            largest: self.high,
            quotient: self.sum.div_euclid(count),
            remainder: self.sum.rem_euclid(count) as u64,
        }
    }
}

// The day's report, or the first line that may not stand there.
pub fn report(text: &[u8]) -> Result<Day, Refused>
    ensures { report_is result ≡ report text.now }
{
    let mut tally = Tally::NONE;
    let mut lines = 0;
    let mut at = 0;
    // Kept: a `while`. Lines are of any length, and one that has no LF is refused.
    while at < text.len() {
        let end = text_lines::line_end(text, at);
        lines += 1;
        if text.len() <= end || 500 < lines {
            return Err(Refused { line: lines });
        }
        let Some(stop) = report_stop::read_stop(&text[at..end]) else {
            return Err(Refused { line: lines });
        };
        tally = tally.with(stop);
        at = end + 1;
    }
    if tally.count == 0 {
        return Ok(Day::NoInteger(lines as u64));
    }
    Ok(Day::Tallied(tally.figures(lines as u64 - tally.count)))
}
