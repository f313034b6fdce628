// Walks the text on standard input by the reader of lines, compares each line with the one that the line finder gives, and prints how many
// lines there are and how many agree. All agree: `agreeing` promises the count of the lines.
#![tactic(auto)]

ghost use Rattle.std.specs.Prelude.{◌≡◌, cond, length};
ghost use Rattle.text.specs.Bytes.{same_bytes, lines_of};

use std::io;

// 1 for two lines with the same bytes, else 0.
fn agreement(a: &[u8], b: &[u8]) -> usize
    ensures { result ≡ cond (same_bytes a.now b.now) 1 0 }
{
    usize::from(a == b)
}

// How many lines, read through the reader one after the other, are the line finder's.
fn agreeing(text: &[u8]) -> usize
    ensures { result ≡ length (lines_of text.now) }
{
    let mut at = 0;
    let mut n: usize = 0;
    let mut agree = 0;
    // Kept: a `while`. What is tried is the reader, which moves `at` on.
    while at < text.len() {
        let line = text_reader::read(text, &mut at);
        agree += agreement(line, text_lines::line(text, n));
        n += 1;
    }
    agree
}

// How many lines a reader finds that reads the text to its end.
fn count(text: &[u8]) -> usize
    ensures { result ≡ length (lines_of text.now) }
{
    let none = &text[..0];
    let mut places = [none; 16];
    text_reader::read_all(text, &mut places)
}

fn main(rt: HostRuntime) -> io::Result<()> {
    let mut text = [0u8; 65537];
    let n = read_input::read_full(&mut rt.stdin(), &mut text)?;
    let lines = count(&text[..n]);
    let agree = agreeing(&text[..n]);
    println!(rt; "{lines} lines, {agree} agree")
}
