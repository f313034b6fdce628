// Bytes and numbers put behind one another into lent memory, from a place on; and a line written there whole or not at all.
// Promised: the memory holds what is put, up to the place that is answered, behind what it held before, and what is past it stays
// (specs/Put.antt: `Puts`); of a line, what `written` of crate print says. Asked, of what is put alone: that there is room for it, 20 bytes
// for a number and 21 for a signed one.
#![tactic(auto)]

ghost use Rattle.std.specs.Prelude.{◌≡◌, ◌+◌, ◌≤◌, length};
ghost use Rattle.print.specs.Decimal.{decimal, signed_decimal};
ghost use Rattle.print.specs.Written.{written};
ghost use Rattle.print_write.specs.Put.{Puts};
ghost use Rattle.print_write.specs.Answers.{written_is};

use itoa::Buffer;

// Puts the bytes s from `at` on, and says where they end.
pub fn put(s: &[u8], out: &mut [u8], at: usize) -> usize
    requires { at + length s.now ≤ length out.old }
    ensures { Puts out.old at s.now out.new result }
{
    let end = at + s.len();
    out[at..end].copy_from_slice(s);
    end
}

// Puts n in decimal.
pub fn put_decimal(n: u64, out: &mut [u8], at: usize) -> usize
    requires { at + 20 ≤ length out.old }
    ensures { Puts out.old at (decimal n) out.new result × (result ≤ at + 20) }
{
    put(Buffer::new().format(n).as_bytes(), out, at)
}

// Puts an integer in decimal, with its sign if it is negative.
pub fn put_signed(n: i64, out: &mut [u8], at: usize) -> usize
    requires { at + 21 ≤ length out.old }
    ensures { Puts out.old at (signed_decimal n) out.new result × (result ≤ at + 21) }
{
    put(Buffer::new().format(n).as_bytes(), out, at)
}

// Writes a line at the start of lent memory, if it has room for the whole of it: how many bytes were written, none where the memory is too
// short.
pub fn write(line: &[u8], out: &mut [u8]) -> Option<usize>
    ensures { written_is result out.new ≡ written line.now out.old }
{
    if out.len() < line.len() {
        return None;
    }
    Some(put(line, out, 0))
}
