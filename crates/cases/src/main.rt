// Runs packed cases (data/, written by tools/pack_cases, where their form is told) through check, start and resume, and compares every
// answer and the whole lent state with what the cases say. Check: the counts of blocks and instructions, or number and line, and for fault
// 10 at a jump or branch the first item that does not fit. Start and resume: the stop, the steps and r1's word, or number and line.
// State: every lent word, the depth, the heap's use and the position. Then it runs packed days (data/days.txt, written by tools/pack_days)
// through the day's report, and compares the line that is written with the packed one, byte by byte: into memory that is longer than the
// line, whose bytes past it must stay, into memory of just its length, and into memory one byte shorter, which must be refused and left as
// it was. A case or a day that differs is printed by its name, and at the end how many there are.
#![tactic(auto)]

ghost use Rattle.std.specs.Prelude.{◌<◌, ◌≤◌, length};

use exec_machine::Place;
use exec_outcome::Outcome;
use exec_words::memory::JUNK;
use report_day::{Day, Refused};
use std::rt::Files;
use std::{io, str};
use valid_verdict::Answer;

const FILES: u8 = 40;

// Where the stack's and the heap's words stand in the lent and the wanted memory: 8 registers, 260 stack words, 2,052 heap words.
const STACK: usize = 8;

const HEAP: usize = 268;

const WORDS: usize = 2320;

// The memory that a day's line is written into, and what each of its bytes is before.
const ROOM: usize = 200;

const BEFORE: u8 = 165;

// No depth, an empty heap, and the first position.
const START: Place = Place {
    depth: 0,
    used: 0,
    position: 0,
};

// ---- a line's fields
// The bytes a to b - 1, none if there are no such.
fn part(s: &[u8], a: usize, b: usize) -> &[u8] {
    s.get(a..b).unwrap_or(&s[..0])
}

fn letter(line: &[u8]) -> u8 {
    tables::entry_or(line, 0, 0)
}

// The number that digits spell; of more than 19, zeros before them aside, the first 19 are read.
fn number(digits: &[u8]) -> Option<usize> {
    let first = digits.iter().position(|b| *b != b'0')?;
    let rest = digits.get(first..)?;
    str::from_utf8(rest.get(..19).unwrap_or(rest))
        .ok()?
        .parse()
        .ok()
}

// Field k of a line, 0 if there is none: numbers parted by blanks, the first behind the line's letter and a blank.
fn field(line: &[u8], k: usize) -> usize {
    part(line, 2, line.len())
        .split(|b| !b.is_ascii_digit())
        .nth(k)
        .and_then(number)
        .unwrap_or(0)
}

fn kind_field(line: &[u8], k: usize) -> u8 {
    (field(line, k) % 256) as u8
}

fn number_field(line: &[u8], k: usize) -> u32 {
    (field(line, k) % 4294967296) as u32
}

fn place_of(line: &[u8]) -> Place {
    Place {
        depth: number_field(line, 0),
        used: field(line, 1),
        position: field(line, 2),
    }
}

// ---- what is compared
// Fields k to k + 2 of a line are a, b and c.
fn has_numbers(line: &[u8], k: usize, a: usize, b: usize, c: usize) -> bool
    requires { k ≤ 9 }
{
    field(line, k) == a && field(line, k + 1) == b && field(line, k + 2) == c
}

// Check's answer is that of the line; 100 stands for no item.
fn is_answer(line: &[u8], answer: Answer) -> bool {
    match answer {
        Answer::Accepted(blocks, instructions) => has_numbers(line, 0, 0, blocks, instructions),
        Answer::Refused(number, at) => has_numbers(line, 0, number, at, 100),
        Answer::Unfit(at, item) => has_numbers(line, 0, 10, at, item),
    }
}

// A call's answer is that of the line, from field 1 on.
fn is_stop(line: &[u8], answer: exec_outcome::Answer) -> bool {
    match answer {
        exec_outcome::Answer::Refused(number, at) => has_numbers(line, 1, 0, number, at),
        exec_outcome::Answer::Halted(steps, kind, number) => {
            field(line, 4) == number as usize && has_numbers(line, 1, 1, steps, usize::from(kind))
        }
        exec_outcome::Answer::Paused(steps) => has_numbers(line, 1, 2, steps, 0),
        exec_outcome::Answer::StackFull(steps) => has_numbers(line, 1, 3, steps, 0),
        exec_outcome::Answer::HeapFull(steps) => has_numbers(line, 1, 4, steps, 0),
        exec_outcome::Answer::Stuck(steps) => has_numbers(line, 1, 5, steps, 0),
    }
}

fn is_place(a: Place, b: Place) -> bool {
    a.depth == b.depth && a.used == b.used && a.position == b.position
}

// ---- the bench
// What was compared so far, and where the present case is: its name's and its samples' bytes in the file, the length of its text, words
// lent, and the lent state's place beside the wanted one.
#[derive(Clone, Copy)]
struct Bench {
    cases: usize,
    checks: usize,
    calls: usize,
    states: usize,
    days: usize,
    differences: usize,
    name: usize,
    text: usize,
    samples: usize,
    samples_end: usize,
    stack: usize,
    heap: usize,
    place: Place,
    wanted: Place,
}

impl Bench {
    const EMPTY: Bench = Bench {
        cases: 0,
        checks: 0,
        calls: 0,
        states: 0,
        days: 0,
        differences: 0,
        name: 0,
        text: 0,
        samples: 0,
        samples_end: 0,
        stack: 0,
        heap: 0,
        place: START,
        wanted: START,
    };

    // A difference more, unless what was compared agrees.
    fn agreed(self, agrees: bool) -> Bench {
        Bench {
            differences: self.differences.saturating_add(usize::from(!agrees)),
            ..self
        }
    }

    // A line that changes only the bench: `c name`, a case or a day, with no text and no samples; `f`, a new lent state; `l stack heap` words
    // lent; `d depth used position` of the lent state and the wanted one, `e` of the wanted one.
    fn set(self, line: &[u8], at: usize) -> Bench {
        match letter(line) {
            b'c' => Bench {
                cases: self.cases.saturating_add(1),
                name: at,
                text: 0,
                samples_end: 0,
                ..self
            },
            b'f' => Bench {
                stack: 256,
                heap: 2048,
                place: START,
                wanted: START,
                ..self
            },
            b'l' => Bench {
                stack: field(line, 0),
                heap: field(line, 1),
                ..self
            },
            b'd' => Bench {
                place: place_of(line),
                wanted: place_of(line),
                ..self
            },
            b'e' => Bench {
                wanted: place_of(line),
                ..self
            },
            _ => self,
        }
    }

    // `s length`, and so many bytes on the lines below, from `at` to `end` with a LF: the samples.
    fn with_samples(self, at: usize, end: usize) -> Bench {
        Bench {
            samples: at,
            samples_end: end.saturating_sub(1),
            ..self
        }
    }

    fn checked(self, agrees: bool) -> Bench {
        let next = self.agreed(agrees);
        Bench {
            checks: self.checks.saturating_add(1),
            ..next
        }
    }

    fn with_day(self, agrees: bool) -> Bench {
        let next = self.agreed(agrees);
        Bench {
            days: self.days.saturating_add(1),
            ..next
        }
    }

    // After a call that is answered as the line says, or not.
    fn called(self, agrees: bool, place: Place) -> Bench {
        let next = self.agreed(agrees);
        Bench {
            calls: self.calls.saturating_add(1),
            place,
            ..next
        }
    }

    // After the lent state was compared: its words are as wanted, or not.
    fn compared(self, words: bool) -> Bench {
        let next = self.agreed(words && is_place(self.place, self.wanted));
        Bench {
            states: self.states.saturating_add(1),
            ..next
        }
    }
}

// ---- lines on the text
// Behind the LF of the line at `at`, or the end.
fn line_end(s: &[u8], at: usize) -> usize
    requires { at < length s.now }
    ensures { (at < result) × (result ≤ length s.now) }
{
    for i in at..s.len() {
        if s[i] == b'\n' {
            return i + 1;
        }
    }
    s.len()
}

// The line at `at`, none if there is none.
fn line_at(s: &[u8], at: usize) -> &[u8] {
    if at < s.len() {
        &s[at..line_end(s, at)]
    } else {
        &s[..0]
    }
}

// How many bytes below a line belong to it: of `t` and `s` so many as it says, and a LF.
fn bytes_below(line: &[u8]) -> usize {
    match letter(line) {
        b't' => field(line, 1).saturating_add(1),
        b's' => field(line, 0).saturating_add(1),
        _ => 0,
    }
}

// Where the next line starts that is no other's bytes, or the end.
fn next_line(s: &[u8], at: usize) -> usize
    requires { at < length s.now }
    ensures { (at < result) × (result ≤ length s.now) }
{
    let end = line_end(s, at);
    end + bytes_below(&s[at..end]).min(s.len() - end)
}

// Puts the bytes into the buffer from `at` on, if they fit, and says where they end.
fn copy(from: &[u8], to: &mut [u8], at: usize) -> usize {
    let end = at.saturating_add(from.len());
    if at <= to.len() && from.len() <= to.len() - at {
        to[at..at + from.len()].copy_from_slice(from);
    }
    end
}

// `t times length`, and so many bytes on the lines below: they go to the text's end, so many times.
fn add_text(line: &[u8], bytes: &[u8], b: Bench, text: &mut [u8]) -> Bench {
    let once = part(bytes, 0, field(line, 1));
    let mut end = b.text;
    for _ in 0..field(line, 0) {
        end = copy(once, text, end);
    }
    Bench { text: end, ..b }
}

// What check answers with working memory lent, which holds junk.
fn check_lent(text: &[u8]) -> Answer {
    let mut image = [42405u16; 161694];
    let mut literals = [2779096485u32; 16400];
    let mut plan = [2779096485u32; 8208];
    let mut work = [42405u16; 8192];
    checker::check_in(text, &mut image, &mut literals, &mut plan, &mut work)
}

// `a number line item`, or `a 0 blocks instructions`: what check answers, with and without working memory lent.
fn is_checked(line: &[u8], text: &[u8]) -> bool {
    is_answer(line, checker::check(text)) && is_answer(line, check_lent(text))
}

// All the bytes are as they were before.
fn are_before(bytes: &[u8]) -> bool {
    bytes.iter().all(|b| *b == BEFORE)
}

// Writes the report's line into the first n bytes of the memory.
fn write(answer: Result<Day, Refused>, n: usize, memory: &mut [u8]) -> Option<usize> {
    let k = n.min(memory.len());
    report_day::line::write_report(answer, &mut memory[..k])
}

// Of n bytes lent: the whole line is written if it is no longer than they are, else nothing; all other bytes are as they were.
fn is_written(text: &[u8], line: &[u8], n: usize) -> bool {
    let mut memory = [BEFORE; ROOM];
    match write(report_day::report(text), n, &mut memory) {
        Some(k) => {
            k == line.len()
                && k <= n
                && memory
                    .strip_prefix(line)
                    .is_some_and(|rest| are_before(rest))
        }
        None => n < line.len() && are_before(&memory),
    }
}

// The day's report is the line, which has a byte at least.
fn is_report(line: &[u8], text: &[u8]) -> bool {
    0 < line.len()
        && is_written(text, line, ROOM)
        && is_written(text, line, line.len())
        && is_written(text, line, line.len() - 1)
}

// The line at `at`, if it is one on the text or the bench.
fn text_line(s: &[u8], at: usize, b: Bench, text: &mut [u8]) -> Bench
    requires { at < length s.now }
{
    let e = line_end(s, at);
    let line = &s[at..e];
    let end = next_line(s, at);
    match letter(line) {
        b't' => add_text(line, part(s, e, end), b, text),
        b's' => b.with_samples(e, end),
        b'a' => b.checked(is_checked(line, part(text, 0, b.text))),
        // `r` and a blank, and behind them the line that the report of the text, a day, must print.
        b'r' => b.with_day(is_report(part(line, 2, line.len()), part(text, 0, b.text))),
        _ => b.set(line, at),
    }
}

// ---- lines on the lent state
// The words of the registers, the stack and the heap.
#[derive(Clone, Copy, PartialEq)]
struct Words {
    kinds: [u8; WORDS],
    numbers: [u32; WORDS],
}

impl Words {
    // Words `from` to `end` - 1 become the kind and the number.
    fn fill(&mut self, from: usize, end: usize, kind: u8, number: u32) {
        let end = end.min(WORDS);
        if from < end {
            self.kinds[from..end].fill(kind);
            self.numbers[from..end].fill(number);
        }
    }

    // `f` makes all words junk, `p area from end kind number` changes some of an area.
    fn poke(&mut self, line: &[u8]) {
        match letter(line) {
            b'f' => self.fill(0, WORDS, JUNK, 0),
            b'p' => {
                let area = field(line, 0);
                let from = word_at(area, field(line, 1));
                let end = word_at(area, field(line, 2));
                self.fill(from, end, kind_field(line, 3), number_field(line, 4));
            }
            _ => {}
        }
    }

    // As wanted: `f` makes all words junk, `w from end kind number` changes some.
    fn want(&mut self, line: &[u8]) {
        match letter(line) {
            b'f' => self.fill(0, WORDS, JUNK, 0),
            b'w' => {
                let from = field(line, 0);
                let end = field(line, 1);
                self.fill(from, end, kind_field(line, 2), number_field(line, 3));
            }
            _ => {}
        }
    }
}

// Where word i of an area stands, or the area's end: 0 the registers, 1 the stack, 2 the heap.
fn word_at(area: usize, i: usize) -> usize {
    match area {
        0 => i.min(STACK),
        1 => STACK + i.min(HEAP - STACK),
        _ => HEAP + i.min(WORDS - HEAP),
    }
}

// Start, or continue, with working memory lent, which holds junk.
fn call_in(
    line: &[u8],
    text: &[u8],
    samples: &[u8],
    rk: &mut [u8],
    rn: &mut [u32],
    sk: &mut [u8],
    sn: &mut [u32],
    hk: &mut [u8],
    hn: &mut [u32],
    place: Place,
) -> Outcome {
    let mut image = [42405u16; 161694];
    let mut literals = [2779096485u32; 16400];
    let mut plan = [2779096485u32; 8208];
    let budget = field(line, 0);
    if letter(line) == b'g' {
        return execute::lent::start(
            text,
            samples,
            budget,
            &mut image,
            &mut literals,
            &mut plan,
            rk,
            rn,
            sk,
            sn,
            hk,
            hn,
            place,
        );
    }
    execute::lent::resume(
        text,
        budget,
        &mut image,
        &mut literals,
        &mut plan,
        rk,
        rn,
        sk,
        sn,
        hk,
        hn,
        place,
    )
}

// Start, or continue: a text of even length with working memory on the stack, one of odd length with it lent.
fn call(
    line: &[u8],
    text: &[u8],
    samples: &[u8],
    rk: &mut [u8],
    rn: &mut [u32],
    sk: &mut [u8],
    sn: &mut [u32],
    hk: &mut [u8],
    hn: &mut [u32],
    place: Place,
) -> Outcome {
    if text.len() % 2 == 1 {
        return call_in(line, text, samples, rk, rn, sk, sn, hk, hn, place);
    }
    let budget = field(line, 0);
    if letter(line) == b'g' {
        return execute::start(text, samples, budget, rk, rn, sk, sn, hk, hn, place);
    }
    execute::resume(text, budget, rk, rn, sk, sn, hk, hn, place)
}

// A call on the lent words: as many of the stack and the heap as are lent.
fn call_on(line: &[u8], text: &[u8], samples: &[u8], b: Bench, words: &mut Words) -> Outcome {
    let (rk, rest) = words.kinds.split_at_mut(STACK);
    let (sk, hk) = rest.split_at_mut(HEAP - STACK);
    let (rn, rest) = words.numbers.split_at_mut(STACK);
    let (sn, hn) = rest.split_at_mut(HEAP - STACK);
    let stack = b.stack.min(HEAP - STACK);
    let heap = b.heap.min(WORDS - HEAP);
    call(
        line,
        text,
        samples,
        rk,
        rn,
        &mut sk[..stack],
        &mut sn[..stack],
        &mut hk[..heap],
        &mut hn[..heap],
        b.place,
    )
}

// `g budget` and an answer: start; `n budget` and an answer: continue.
fn try_call(line: &[u8], text: &[u8], samples: &[u8], b: Bench, words: &mut Words) -> Bench {
    match letter(line) {
        b'g' | b'n' => {
            let out = call_on(line, text, samples, b, words);
            b.called(is_stop(line, out.answer), out.place)
        }
        _ => b,
    }
}

// `q`: the whole lent state is the wanted one.
fn compare(line: &[u8], b: Bench, words: &Words, wanted: &Words) -> Bench {
    if letter(line) == b'q' {
        b.compared(*words == *wanted)
    } else {
        b
    }
}

// ---- all cases
// Prints a case's name if there is a difference more than before.
fn report(rt: &impl Print, before: usize, after: usize, name: &[u8]) -> io::Result<()> {
    if before < after {
        rt.write_all(b"differs: ")?;
        rt.write_all(name)?;
    }
    Ok(())
}

// The line at `at`, and the bytes below it; a case that differs is printed.
fn try_at(
    rt: &impl Print,
    s: &[u8],
    at: usize,
    b: Bench,
    text: &mut [u8],
    words: &mut Words,
    wanted: &mut Words,
) -> io::Result<Bench>
    requires { at < length s.now }
{
    let line = line_at(s, at);
    let a = text_line(s, at, b, text);
    words.poke(line);
    wanted.want(line);
    let samples = part(s, a.samples, a.samples_end);
    let c = try_call(line, part(text, 0, a.text), samples, a, words);
    let next = compare(line, c, words, wanted);
    report(rt, b.differences, next.differences, line_at(s, next.name))?;
    Ok(next)
}

// The cases of bytes read from a file.
fn try_bytes(rt: &impl Print, s: &[u8], start: Bench) -> io::Result<Bench> {
    let mut text = [0u8; 200000];
    let mut words = Words {
        kinds: [0; WORDS],
        numbers: [0; WORDS],
    };
    let mut wanted = words;
    let mut b = start;
    let mut at = 0;
    // Kept: a `while`. A line says how many bytes below belong to it.
    while at < s.len() {
        b = try_at(rt, s, at, b, &mut text, &mut words, &mut wanted)?;
        at = next_line(s, at);
    }
    Ok(b)
}

// The cases of the file with that name.
fn try_named(rt: &(impl Files + Print), path: &str, b: Bench) -> io::Result<Bench> {
    let mut buf = [0u8; 196608];
    let n = read_input::load(rt, path, &mut buf)?;
    try_bytes(rt, &buf[..n], b)
}

// The cases of file i.
fn try_file(rt: &(impl Files + Print), i: u8, b: Bench) -> io::Result<Bench>
    requires { i < 100 }
{
    let mut path = *b"cases00.txt";
    path[5] = b'0' + i / 10;
    path[6] = b'0' + i % 10;
    try_named(rt, str::from_utf8(&path).unwrap(), b)
}

// The cases of all files.
fn try_files(rt: &(impl Files + Print)) -> io::Result<Bench> {
    let mut b = Bench::EMPTY;
    for i in 0..FILES {
        b = try_file(rt, i, b)?;
    }
    Ok(b)
}

fn print_differences(rt: &impl Print, n: usize) -> io::Result<()> {
    println!(rt; "{n} differ")
}

fn print_cases(rt: &impl Print, b: Bench) -> io::Result<()> {
    print!(rt; "{} cases: {} checks, ", b.cases, b.checks)?;
    print!(rt; "{} calls, {} states compared, ", b.calls, b.states)?;
    print_differences(rt, b.differences)
}

fn print_days(rt: &impl Print, b: Bench) -> io::Result<()> {
    print!(rt; "{} days, ", b.days)?;
    print_differences(rt, b.differences)
}

fn main(rt: HostRuntime) -> io::Result<()> {
    print_cases(&rt, try_files(&rt)?)?;
    print_days(&rt, try_named(&rt, "days.txt", Bench::EMPTY)?)
}
