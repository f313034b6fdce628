// A line's fields into the image, in one walk up to the line's LF: `rest` is a text from a place within a line on, and a field is looked
// for behind a comma of that line. Promises: what the fields say by the line's form (`FormIs` of specs/line/Answers.antt), and where the
// line ends if they are of that form.
ghost use Rattle.std.specs.Prelude.{◌≡◌, true, [], ◌∷◌, ◌+◌, ◌*◌, ◌≤◌, ◌<◌, length, get_or, set};
ghost use Rattle.image.specs.Sections.{Ordered, Outside, part_section, operand_section, arg_section};
ghost use Rattle.text_lines.specs.Parts.{line_in, field_in, InLine, StopAt};
ghost use Rattle.text_fields.specs.numbers.Numbers.{ScanIs};
ghost use Rattle.text_decode.specs.line.Fields.{fields_from, plain_field, most_of, part_number};
ghost use Rattle.text_decode.specs.line.Forms.{form_of, fewest};
ghost use Rattle.text_decode.specs.line.Answers.{SlotIs, SlotsAre, PartsRead, kind_number, base_number, with_operand, operands_in, OperandRoom, OperandsRead, CountThrough, SaidThrough, PlainForm, PlainIs, RowIs, FormIs};
ghost use Rattle.text_decode.specs.store.Store.{FieldRoom};

use crate::store::Used;
use image::Places;
use text_fields::numbers::Scan;
use text_fields::plain_operands::{Base, OperandRead};

// By the form's place: the kinds of its plain fields, 1 register, 2 row, 3 index, 4 amount, 0 for none, the first the lowest of four octal
// digits; above them how many operands follow: none, one, or up to 16.
const FORMS: [u32; 36] = [
    0, // I
    0, // N
    3, // V
    0, // U
    2, // P
    0, // C
    2, // H
    0, // E
    3, // X
    18, // K
    18, // A
    2, // B
    4105, // add
    4105, // sub
    4105, // mul
    4097, // beq
    4097, // bneq
    4097, // bgt
    4097, // blt
    4097, // bgte
    4097, // blte
    4097, // mov
    201, // ld
    89, // st
    65553, // malloc
    17, // getsp
    1, // setsp
    4, // salloc
    4, // sfree
    25, // sld
    11, // sst
    201, // slp
    1113, // ssp
    4096, // jmp
    2, // halt
    4097, // unpack
];

// What FORMS says of a form: the kinds of its plain fields, and the most operands.
#[derive(Clone, Copy)]
pub struct Form {
    pub a: u16,
    pub b: u16,
    pub c: u16,
    pub d: u16,
    pub most: u16,
}

// A plain field's number, and where the field ends.
#[derive(Clone, Copy)]
pub struct Slot {
    pub value: u16,
    pub next: usize,
}

// The numbers of a form's plain fields, 0 for those that it has not, and where the last one ends.
#[derive(Clone, Copy)]
pub struct Slots {
    pub a: u16,
    pub b: u16,
    pub c: u16,
    pub d: u16,
    pub next: usize,
}

// How many operands or components were read, how many arguments they carry, and where the line ends.
#[derive(Clone, Copy)]
pub struct Count {
    pub count: u16,
    pub args: u16,
    pub next: usize,
}

// What a line's fields say: the numbers of a form's plain fields, how many operands follow, how many arguments they carry, and where the
// line ends. Of U a and b are where its components start and how many there are; of C they are its stack and where its registers start.
#[derive(Clone, Copy)]
pub struct Said {
    pub a: u16,
    pub b: u16,
    pub c: u16,
    pub d: u16,
    pub count: u16,
    pub args: u16,
    pub next: usize,
}

// The entry of FORMS, taken apart.
fn form_at(code: usize) -> Form
    requires { code < 36 }
    ensures { result ≡ form_of code }
{
    let w = FORMS[code];
    Form {
        a: (w % 8) as u16,
        b: (w / 8 % 8) as u16,
        c: (w / 64 % 8) as u16,
        d: (w / 512 % 8) as u16,
        most: (w / 4096 % 32) as u16,
    }
}

// The greatest number of a field of kind 2 row, 3 index, 4 amount.
fn most_of(kind: u16) -> u32
    ensures { result ≡ most_of kind }
{
    match kind {
        2 => 511,
        3 => 63,
        _ => 64,
    }
}

// The number of the field of that kind that starts at `at`.
fn plain_field(rest: &[u8], at: usize, kind: u16) -> Option<Scan>
    requires { InLine rest.now at }
    ensures { ScanIs rest.now at (plain_field kind (field_in rest.now at)) result }
{
    if kind == 1 {
        return text_fields::numbers::register_at(rest, at);
    }
    text_fields::numbers::number_at(rest, at, 0, most_of(kind))
}

// The field behind the stop at `at`, if there is one.
fn read_field(rest: &[u8], at: usize, kind: u16) -> Option<Slot>
    requires { (kind ≡ 0 → ⊥) × StopAt rest.now at }
    ensures { SlotIs rest.now at kind result }
{
    if rest[at] != b',' {
        return None;
    }
    let x = plain_field(rest, at + 1, kind)?;
    Some(Slot {
        value: x.value as u16,
        next: x.next,
    })
}

// The same; kind 0 takes no field.
fn read_slot(rest: &[u8], at: usize, kind: u16) -> Option<Slot>
    requires { StopAt rest.now at }
    ensures { SlotIs rest.now at kind result }
{
    if kind == 0 {
        return Some(Slot { value: 0, next: at });
    }
    read_field(rest, at, kind)
}

// The plain fields of a form.
fn read_slots(rest: &[u8], at: usize, f: Form) -> Option<Slots>
    requires { StopAt rest.now at }
    ensures { SlotsAre rest.now at (f.a ∷ f.b ∷ f.c ∷ f.d ∷ []) result }
{
    let a = read_slot(rest, at, f.a)?;
    let b = read_slot(rest, a.next, f.b)?;
    let c = read_slot(rest, b.next, f.c)?;
    let d = read_slot(rest, c.next, f.d)?;
    Some(Slots {
        a: a.value,
        b: b.value,
        c: c.value,
        d: d.value,
        next: d.next,
    })
}

// The dash that starts at `at`, if it is alone: no row.
fn dash_at(rest: &[u8], at: usize) -> Option<Scan>
    requires { InLine rest.now at × (get_or rest.now at 0 ≡ 45) }
    ensures { ScanIs rest.now at (part_number true (field_in rest.now at)) result }
{
    let next = at + 1;
    if text_lines::is_stop(rest[next]) {
        return Some(Scan { value: 0, next });
    }
    None
}

// A component's row, or a register's: 0 for `-`, else one more than the row.
fn part_at(rest: &[u8], at: usize, known: bool) -> Option<Scan>
    requires { InLine rest.now at }
    ensures { ScanIs rest.now at (part_number known (field_in rest.now at)) result }
{
    if !known {
        return text_fields::numbers::number_at(rest, at, 0, 511);
    }
    if rest[at] == b'-' {
        return dash_at(rest, at);
    }
    let x = text_fields::numbers::number_at(rest, at, 0, 511)?;
    Some(Scan {
        value: x.value + 1,
        next: x.next,
    })
}

// Kept: in this and in read_operands the walk goes from stop to stop, which is no range, and n says how many fields were read.
// All the fields behind the stop at `at`, at most `most`, as rows or registers from p on.
fn read_parts(
    rest: &[u8],
    at: usize,
    known: bool,
    most: u16,
    parts: &mut [u16],
    p: usize,
) -> Option<Count>
    requires { (p + most ≤ length parts.old) × (most ≤ 16) × StopAt rest.now at }
    ensures { PartsRead (fields_from (line_in rest.now) (at + 1)) known most p parts.old parts.new result × CountThrough rest.now result }
{
    let mut i = at;
    let mut n: u16 = 0;
    while rest[i] == b',' {
        if n == most {
            return None;
        }
        let x = part_at(rest, i + 1, known)?;
        parts[p + usize::from(n)] = x.value as u16;
        n += 1;
        i = x.next;
    }
    Some(Count {
        count: n,
        args: 0,
        next: i,
    })
}

// An operand's kind as the tables keep it: 0 register, 1 literal, 2 label; 4, 5, 6 a package of such.
fn kind_number(o: OperandRead) -> u16
    ensures { result ≡ kind_number o }
{
    let kind: u16 = match o.base {
        Base::Register(_) => 0,
        Base::Literal(_) => 1,
        Base::Label(_) => 2,
    };
    if o.packed { kind + 4 } else { kind }
}

// The number of an operand's base.
fn base_number(b: Base) -> u32
    ensures { result ≡ base_number b }
{
    match b {
        Base::Register(n) => n,
        Base::Literal(n) => n,
        Base::Label(n) => n,
    }
}

// Stores operand v, with its arguments from `start` on.
fn put_operand(o: OperandRead, start: u16, operands: &mut [u16], numbers: &mut [u32], v: usize)
    requires { (4 * v + 4 ≤ length operands.old) × (v < length numbers.old) }
    ensures { (operands.new ≡ with_operand operands.old v o start) × (numbers.new ≡ set numbers.old v (base_number o.base)) }
{
    let i = 4 * v;
    operands[i] = kind_number(o);
    operands[i + 1] = o.count;
    operands[i + 2] = o.row;
    operands[i + 3] = start;
    numbers[v] = base_number(o.base);
}

// All the fields behind the stop at `at`, at most `most`, as operands from v on, their arguments from a on.
fn read_operands(
    rest: &[u8],
    at: usize,
    most: u16,
    image: &mut [u16],
    p: Places,
    numbers: &mut [u32],
    v: usize,
    a: usize,
) -> Option<Count>
    requires { Ordered p (length image.old) × OperandRoom (v + most) (a + 8 * most) (length (operand_section p image.old)) (length numbers.old) (length (arg_section p image.old)) × (most ≤ 16) × StopAt rest.now at }
    ensures { OperandsRead (fields_from (line_in rest.now) (at + 1)) most v a (operands_in p image.old numbers.old) (operands_in p image.new numbers.new) result × CountThrough rest.now result × Outside p.operands p.uses image.old image.new }
{
    let from = p.operands;
    let mid = p.args;
    let to = p.uses;
    let mut i = at;
    let mut n: u16 = 0;
    let mut m: u16 = 0;
    while rest[i] == b',' {
        if n == most {
            return None;
        }
        let start = a + usize::from(m);
        let x = text_fields::operand_at(rest, i + 1, &mut image[mid..to], start)?;
        let w = v + usize::from(n);
        put_operand(x.read, start as u16, &mut image[from..mid], numbers, w);
        n += 1;
        m += x.read.count;
        i = x.next;
    }
    Some(Count {
        count: n,
        args: m,
        next: i,
    })
}

// Where one operand may follow it must.
fn fewest(most: u16) -> u16
    ensures { result ≡ fewest most }
{
    if most == 1 { 1 } else { 0 }
}

// A line of any form but U and C: operands are written from v on, their arguments from a on.
fn read_plain(
    rest: &[u8],
    at: usize,
    code: usize,
    image: &mut [u16],
    p: Places,
    numbers: &mut [u32],
    v: usize,
    a: usize,
) -> Option<Said>
    requires { Ordered p (length image.old) × PlainForm code × OperandRoom (v + 16) (a + 128) (length (operand_section p image.old)) (length numbers.old) (length (arg_section p image.old)) × StopAt rest.now at }
    ensures { PlainIs code (fields_from (line_in rest.now) (at + 1)) v a (operands_in p image.old numbers.old) (operands_in p image.new numbers.new) result × SaidThrough rest.now result × Outside p.operands p.uses image.old image.new }
{
    let f = form_at(code);
    let x = read_slots(rest, at, f)?;
    let n = read_operands(rest, x.next, f.most, image, p, numbers, v, a)?;
    if n.count < fewest(f.most) {
        return None;
    }
    Some(Said {
        a: x.a,
        b: x.b,
        c: x.c,
        d: x.d,
        count: n.count,
        args: n.args,
        next: n.next,
    })
}

// The line of a tuple: up to 16 components.
fn read_tuple(rest: &[u8], at: usize, parts: &mut [u16], p: usize) -> Option<Said>
    requires { (p + 17 ≤ length parts.old) × (p < 65536) × StopAt rest.now at }
    ensures { RowIs 3 (fields_from (line_in rest.now) (at + 1)) p parts.old parts.new result × SaidThrough rest.now result }
{
    let n = read_parts(rest, at, false, 16, parts, p)?;
    Some(Said {
        a: p as u16,
        b: n.count,
        c: 0,
        d: 0,
        count: 0,
        args: 0,
        next: n.next,
    })
}

// The line of a code row: its letters, its stack and eight registers.
fn read_code(rest: &[u8], at: usize, parts: &mut [u16], p: usize) -> Option<Said>
    requires { (p + 17 ≤ length parts.old) × (p < 65536) × StopAt rest.now at }
    ensures { RowIs 5 (fields_from (line_in rest.now) (at + 1)) p parts.old parts.new result × SaidThrough rest.now result }
{
    if rest[at] != b',' {
        return None;
    }
    let b = at + 1;
    let e = text_lines::field_end(rest, b);
    let x = read_slot(rest, e, 2)?;
    let n = read_parts(rest, x.next, true, 8, parts, p)?;
    if n.count < 8 {
        return None;
    }
    let q = text_fields::names::letters(&rest[b..e], parts, p + 9)?;
    parts[p + 8] = q as u16;
    Some(Said {
        a: x.value,
        b: p as u16,
        c: 0,
        d: 0,
        count: 0,
        args: 0,
        next: n.next,
    })
}

// The fields behind the stop at `at` of a line of the form at place `code`, written to the first places that are not in use.
pub(crate) fn read_form(
    rest: &[u8],
    at: usize,
    code: usize,
    image: &mut [u16],
    p: Places,
    numbers: &mut [u32],
    u: Used,
) -> Option<Said>
    requires { FieldRoom p image.old numbers.old u × (code < 36) × (u.rows ≤ 512) × StopAt rest.now at }
    ensures { FormIs code (fields_from (line_in rest.now) (at + 1)) (17 * u.rows) u.operands u.args (part_section p image.old) (part_section p image.new) (operands_in p image.old numbers.old) (operands_in p image.new numbers.new) result × SaidThrough rest.now result × Outside p.parts p.uses image.old image.new }
{
    let from = p.parts;
    let to = p.operands;
    let k = 17 * u.rows;
    match code {
        3 => read_tuple(rest, at, &mut image[from..to], k),
        5 => read_code(rest, at, &mut image[from..to], k),
        _ => read_plain(rest, at, code, image, p, numbers, u.operands, u.args),
    }
}
