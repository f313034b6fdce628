// Fields of a line: numbers (module numbers), names and letters (names), operands: plain ones (plain_operands), and here packages and those
// that carry type arguments and a resulting row. Promises: each answer, and what is written into lent memory, is what crate text says of
// the field, on every input; nothing is written past the end of what is lent. Asks: that the place of the field is in the line.
#![tactic(auto)]

pub mod names;
pub mod numbers;
pub mod plain_operands;

ghost use Rattle.std.specs.Prelude.{◌≡◌, [], ◌∷◌};
ghost use Rattle.std.proofs.lemmas.List.Edits.{sets};
ghost use Rattle.text.specs.Bytes.{split};
ghost use Rattle.text.specs.Grammar.{row_number, carrier, or_literal, carried, packed, before, operand};
ghost use Rattle.text_lines.specs.Parts.{InLine};
ghost use Rattle.text_fields.specs.numbers.Numbers.{number_of};
ghost use Rattle.text_fields.specs.plain_operands.Answers.{OperandIs};
ghost use Rattle.text_fields.specs.Answers.{OperandAt};
ghost use Rattle.text_fields.specs.Pieces.{colon, base_read, is_some, or_zero, row_count, rows_in, any_read};

use crate::plain_operands::{Base, OperandRead, Placed};

// A register, or `#` and a label.
fn carrier(f: &[u8]) -> Option<Base>
    ensures { result ≡ base_read (carrier f.now) }
{
    match f {
        [b'#', rest @ ..] => Some(Base::Label(crate::numbers::index(rest)?)),
        _ => Some(Base::Register(crate::numbers::register(f)?)),
    }
}

// A field without `=`: a register, a label or a literal.
fn base(f: &[u8]) -> Option<Base>
    ensures { result ≡ base_read (or_literal (carrier f.now) f.now) }
{
    if let Some(b) = carrier(f) {
        return Some(b);
    }
    Some(Base::Literal(crate::numbers::literal(f)?))
}

// The field is a row number.
fn is_row(f: &[u8]) -> bool
    ensures { result ≡ is_some (row_number f.now) }
{
    crate::numbers::row_number(f).is_some()
}

// How many parts s has between colons, if each is a row number and there are at most eight.
fn count_rows(s: &[u8]) -> Option<u16>
    ensures { number_of result ≡ row_count 0 (split colon s.now) }
{
    let mut i = 0;
    for n in 0..8 {
        let e = text_lines::part_end(s, i, b':');
        if !is_row(&s[i..e]) {
            return None;
        }
        if s.len() <= e {
            return Some(n + 1);
        }
        i = e + 1;
    }
    None
}

// The row number of a part; 0 where it is none.
fn row_of(f: &[u8]) -> u16
    ensures { result ≡ or_zero (row_number f.now) }
{
    crate::numbers::row_number(f).unwrap_or(0)
}

// Writes the row numbers between colons from `at` on.
fn put_rows(s: &[u8], out: &mut [u16], at: usize)
    ensures { out.new ≡ sets out.old at (rows_in (split colon s.now)) }
{
    let end = out.len();
    let mut i = 0;
    for to in at..end {
        let e = text_lines::part_end(s, i, b':');
        out[to] = row_of(&s[i..e]);
        if s.len() <= e {
            return;
        }
        i = e + 1;
    }
}

// A carrier with arguments, l, and the resulting row, t: the two sides of `=`.
fn carried(l: &[u8], t: &[u8], out: &mut [u16], at: usize) -> Option<OperandRead>
    ensures { OperandIs (carried (split colon l.now) t.now) out.old at result out.new }
{
    let e = text_lines::part_end(l, 0, b':');
    if l.len() <= e {
        return None;
    }
    let k = e + 1;
    let base = carrier(&l[0..e])?;
    let count = count_rows(&l[k..])?;
    let row = crate::numbers::row_number(t)?;
    put_rows(&l[k..], out, at);
    Some(OperandRead {
        base,
        packed: false,
        count,
        row,
    })
}

// A package: its argument's row and what is packed, l, which stand behind `!`, and its `H` row, t.
fn packed(l: &[u8], t: &[u8], out: &mut [u16], at: usize) -> Option<OperandRead>
    ensures { OperandIs (packed (split colon l.now) t.now) out.old at result out.new }
{
    let e = text_lines::part_end(l, 0, b':');
    if l.len() <= e {
        return None;
    }
    let k = e + 1;
    let v = &l[k..];
    if text_lines::part_end(v, 0, b':') < v.len() {
        return None;
    }
    let base = base(v)?;
    let argument = crate::numbers::row_number(&l[0..e])?;
    let row = crate::numbers::row_number(t)?;
    tables::put(out, at, argument);
    Some(OperandRead {
        base,
        packed: true,
        count: 1,
        row,
    })
}

// The two sides of `=`, l and t: behind `!` what is packed, else a carrier with arguments.
fn sides(l: &[u8], t: &[u8], out: &mut [u16], at: usize) -> Option<OperandRead>
    ensures { OperandIs (before l.now t.now) out.old at result out.new }
{
    match l {
        [] => None,
        [b'!', rest @ ..] => packed(rest, t, out, at),
        _ => carried(l, t, out, at),
    }
}

// A plain operand.
fn plain(f: &[u8]) -> Option<OperandRead>
    ensures { result ≡ any_read (or_literal (carrier f.now) f.now) }
{
    let base = base(f)?;
    Some(OperandRead {
        base,
        packed: false,
        count: 0,
        row: 0,
    })
}

// An operand, looked for at its `=`. The rows of its arguments, at most eight, are written from `at` on; nothing where it is plain or none.
fn any_operand(f: &[u8], out: &mut [u16], at: usize) -> Option<OperandRead>
    ensures { OperandIs (operand f.now) out.old at result out.new }
{
    let e = text_lines::part_end(f, 0, b'=');
    if f.len() <= e {
        return plain(f);
    }
    let k = e + 1;
    let t = &f[k..];
    if text_lines::part_end(t, 0, b'=') < t.len() {
        return None;
    }
    sides(&f[0..e], t, out, at)
}

// The operand whose field starts at `at`; its arguments as above.
pub fn operand_at(s: &[u8], at: usize, out: &mut [u16], to: usize) -> Option<Placed>
    requires { InLine s.now at }
    ensures { OperandAt s.now at out.old to result out.new }
{
    if let Some(x) = crate::plain_operands::plain_at(s, at) {
        return Some(x);
    }
    let next = text_lines::field_end(s, at);
    let read = any_operand(&s[at..next], out, to)?;
    Some(Placed { read, next })
}
