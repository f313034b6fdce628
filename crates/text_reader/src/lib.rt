// A reader of lines: a struct that holds a lent text and a position in it (document 01, "Which form goes where"), and its methods. `next`
// calls the line finder of crate text_lines. Promises: what is handed back is the line at the position by `lines_of` of crate text, on every input; after n lines from the
// start that is line n (`reads_line` of proofs/Reading). `read` and `read_all` have plain parameters.
#![tactic(auto)]

ghost use Rattle.std.specs.Prelude.{◌≡◌, ◌-◌, take, drop};
ghost use Rattle.text_reader.specs.Reading.{past_lf, line_from, next_from, ended_at, moved, ReadAll};

// A lent text, and where in it the next line starts.
#[derive(Clone, Copy)]
pub struct Reader<'a> {
    pub text: &'a [u8],
    pub at: usize,
}

// Whether no line starts at `at`.
fn ended(text: &[u8], at: usize) -> bool
    ensures { result ≡ ended_at text.now at }
{
    text.len() <= at
}

// Past the LF at e, or e itself at the end of the text.
fn past(text: &[u8], e: usize) -> usize
    ensures { result ≡ past_lf text.now e }
{
    if e < text.len() { e + 1 } else { e }
}

// The bytes from `at` to e, as many of them as there are.
fn part(text: &[u8], at: usize, e: usize) -> &[u8]
    ensures { result.now ≡ take (e - at) (drop at text.now) }
{
    let to = e.min(text.len());
    let from = at.min(to);
    &text[from..to]
}

impl<'a> Reader<'a> {
    // A reader of the text that stands at `at`.
    pub fn new(text: &'a [u8], at: usize) -> Reader<'a>
        ensures { (result.text ≡ text.entry) × (result.at ≡ at) }
    {
        Reader { text, at }
    }

    // Where the reader stands.
    pub fn position(self) -> usize
        ensures { result ≡ self.entry.at }
    {
        self.at
    }

    // Whether every line has been read.
    pub fn at_end(self) -> bool
        ensures { result ≡ ended_at self.entry.text.now self.entry.at }
    {
        ended(self.text, self.at)
    }

    // The next line, without its LF, as a part of the text; the reader moves on past it.
    pub fn next<'s>(&'s mut self) -> &'a [u8]
        ensures { (result.now ≡ line_from self.old.text.now self.old.at) × (self.new ≡ moved self.old) }
    {
        let text = self.text;
        let at = self.at;
        let end = text_lines::line_end(text, at);
        self.at = past(text, end);
        part(text, at, end)
    }
}

// Reads one line of the text through a reader that stands at `at`; `at` is then where the reader stands.
pub fn read<'a, 's>(text: &'a [u8], at: &'s mut usize) -> &'a [u8]
    ensures { (result.now ≡ line_from text.now at.old) × (at.new ≡ next_from text.now at.old) }
{
    let mut r = Reader::new(text, *at);
    let line = r.next();
    *at = r.position();
    line
}

// Reads every line of the text through one reader, puts as many as there is room for in `out`, and says how many there are.
pub fn read_all<'a, 's>(text: &'a [u8], out: &'s mut [&'a [u8]]) -> usize
    ensures { ReadAll text.now out.old out.new result }
{
    let mut r = Reader::new(text, 0);
    let mut n = 0;
    // Kept: a `while`. `next` says that the line at the end is empty, where an iterator would have none.
    while !r.at_end() {
        let line = r.next();
        tables::put(&mut *out, n, line);
        n += 1;
    }
    n
}
