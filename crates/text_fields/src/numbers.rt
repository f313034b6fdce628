// Numbers of a field: decimal numbers within bounds, literals as bits, registers. Promises: an answer stands, by `number_of` of
// specs/numbers/Numbers.antt, for what `number`, `literal` and `register` of crate text say of the whole field; reading stops as soon as
// the number is above its bound, however many digits follow. `number_at` reads a field of a line in one walk, from its first byte to the
// one that ends it (`ScanIs`).
ghost use Rattle.std.specs.Prelude.{◌≡◌, ◌≤◌, ◌&&◌, ◌==◌, nat_lt};
ghost use Rattle.text.specs.Bytes.{number, literal};
ghost use Rattle.text.specs.Grammar.{row_number, index, register};
ghost use Rattle.text_lines.specs.Parts.{field_in, InLine};
ghost use Rattle.text_fields.specs.numbers.Numbers.{number_of, with_digit, up_to, zero_led, ScanIs};

// The number that the digits of n and then b spell, if b is a digit and the number is at most high.
fn with_digit(n: u32, b: u8, high: u32) -> Option<u32>
    ensures { number_of result ≡ with_digit high n b }
{
    if !b.is_ascii_digit() {
        return None;
    }
    let m = u64::from(n) * 10 + u64::from(b - b'0');
    if m <= u64::from(high) {
        Some(m as u32)
    } else {
        None
    }
}

// The number that s spells if it is digits alone and the number is at most high; 0 for no digit at all.
fn digits(s: &[u8], high: u32) -> Option<u32>
    ensures { number_of result ≡ up_to high 0 s.now }
{
    let mut n = 0;
    for b in s {
        n = with_digit(n, *b, high)?;
    }
    Some(n)
}

// Of several bytes the first is a zero.
fn zero_led(s: &[u8]) -> bool
    ensures { result ≡ zero_led s.now }
{
    1 < s.len() && s[0] == b'0'
}

// A decimal number from low to high, without a leading zero.
pub fn number_in(s: &[u8], low: u32, high: u32) -> Option<u32>
    ensures { number_of result ≡ number low high s.now }
{
    if s.is_empty() || zero_led(s) {
        return None;
    }
    let n = digits(s, high)?;
    if low <= n { Some(n) } else { None }
}

// The bits of a literal of 32 signed bits; -0 is none.
pub fn literal(s: &[u8]) -> Option<u32>
    ensures { number_of result ≡ literal s.now }
{
    match s {
        [b'-', rest @ ..] => Some(number_in(rest, 1, 2147483648)?.wrapping_neg()),
        _ => number_in(s, 0, 2147483647),
    }
}

// Registers r1 to r8 are 0 to 7.
pub(crate) fn register(s: &[u8]) -> Option<u32>
    ensures { number_of result ≡ register s.now }
{
    match s {
        [b'r', rest @ ..] => Some(number_in(rest, 1, 8)? - 1),
        _ => None,
    }
}

// A row number, 0 to 511.
pub(crate) fn row_number(s: &[u8]) -> Option<u16>
    ensures { number_of result ≡ row_number s.now }
{
    Some(number_in(s, 0, 511)? as u16)
}

// A variable's k, a component's or an item's index, or a label: 0 to 63.
pub(crate) fn index(s: &[u8]) -> Option<u32>
    ensures { number_of result ≡ index s.now }
{
    number_in(s, 0, 63)
}

// A number read from a place of a line on, and where its field ends.
#[derive(Clone, Copy)]
pub struct Scan {
    pub value: u32,
    pub next: usize,
}

// Kept: the line's LF ends the walk, so that no place is tested; with a range, decoding a long text takes a tenth more machine instructions.
// The number of the field that starts at `at`, if it is digits alone and the number is at most high; 0 for no digit at all.
fn digits_at(s: &[u8], at: usize, high: u32) -> Option<Scan>
    requires { InLine s.now at }
    ensures { ScanIs s.now at (up_to high 0 (field_in s.now at)) result }
{
    let mut n = 0;
    let mut i = at;
    while let Some(m) = with_digit(n, s[i], high) {
        n = m;
        i += 1;
    }
    if text_lines::is_stop(s[i]) {
        Some(Scan { value: n, next: i })
    } else {
        None
    }
}

// Of n bytes, several, the first is the zero b.
fn led(b: u8, n: usize) -> bool
    ensures { result ≡ (nat_lt 1 n && b == 48) }
{
    1 < n && b == b'0'
}

// Kept: number_in reads a part whose end is known, number_at finds the end in the same walk; in one, each field would be walked twice.
// The decimal number from low to high, without a leading zero, of the field that starts at `at`.
pub fn number_at(s: &[u8], at: usize, low: u32, high: u32) -> Option<Scan>
    requires { InLine s.now at }
    ensures { ScanIs s.now at (number low high (field_in s.now at)) result }
{
    let x = digits_at(s, at, high)?;
    if x.next == at || led(s[at], x.next - at) || x.value < low {
        return None;
    }
    Some(x)
}

// The register, r1 to r8 as 0 to 7, of the field that starts at `at`.
pub fn register_at(s: &[u8], at: usize) -> Option<Scan>
    requires { InLine s.now at }
    ensures { ScanIs s.now at (register (field_in s.now at)) result }
{
    if s[at] != b'r' {
        return None;
    }
    let x = number_at(s, at + 1, 1, 8)?;
    Some(Scan {
        value: x.value - 1,
        next: x.next,
    })
}
