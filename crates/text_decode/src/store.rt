// One line of a text into the image: what its fields say is stored at the first places that are not in use. Promises: behind the line the
// tables say what it says (`LineIs` of specs/store/Lines.antt), what was in use is kept, and the answer says where a line of some form
// ends. Asked: that the line has an LF, and room for one line more behind what is in use (`RoomFor`).
ghost use Rattle.std.specs.Prelude.{◌≡◌, ◌+◌, ◌*◌, ◌≤◌, ◌<◌, length};
ghost use Rattle.std.proofs.lemmas.List.Edits.{sets};
ghost use Rattle.image.specs.Sections.{Ordered, Outside, row_section, block_section, instr_section, part_section};
ghost use Rattle.text_lines.specs.Parts.{line_in, InLine, StopAt};
ghost use Rattle.text_decode.specs.line.Fields.{fields_from};
ghost use Rattle.text_decode.specs.line.Answers.{operands_in, FormIs};
ghost use Rattle.text_decode.specs.store.Store.{store_in, FieldRoom, EntryRoom, RoomFor, Few};
ghost use Rattle.text_decode.specs.store.Lines.{RestThrough, ReadAs, Stored};

use crate::line::Said;
use image::Places;

// How many places of the image's tables are in use.
#[derive(Clone, Copy)]
pub struct Used {
    pub rows: usize,
    pub blocks: usize,
    pub instrs: usize,
    pub operands: usize,
    pub args: usize,
}

// What a line of some form is: an instruction with the numbers of its operands and of their arguments, the last of a block apart.
#[derive(Clone, Copy)]
pub enum Line {
    Row,
    Block,
    Instruction(usize, usize),
    Last(usize, usize),
}

// The same, and where the line ends.
#[derive(Clone, Copy)]
pub struct LineRead {
    pub line: Line,
    pub next: usize,
}

// Writes entries from place i on.
fn put_entries(table: &mut [u16], i: usize, entries: &[u16])
    requires { i + length entries.now ≤ length table.old }
    ensures { table.new ≡ sets table.old i entries.now }
{
    table[i..i + entries.len()].copy_from_slice(entries);
}

// Stores what the fields of a line say, at the first place that is not in use.
fn put_line(code: usize, s: Said, image: &mut [u16], p: Places, u: Used) -> Line
    requires { EntryRoom p image.old u × (code < 36) × Few u }
    ensures { Stored code s u (row_section p image.old) (instr_section p image.old) (block_section p image.old) (row_section p image.new) (instr_section p image.new) (block_section p image.new) result × Outside p.rows p.parts image.old image.new }
{
    let rows = p.rows;
    let blocks = p.blocks;
    let instrs = p.instrs;
    let parts = p.parts;
    if code < 11 {
        put_entries(
            &mut image[rows..blocks],
            4 * u.rows,
            &[code as u16, s.a, s.b],
        );
        return Line::Row;
    }
    if code == 11 {
        put_entries(
            &mut image[blocks..instrs],
            2 * u.blocks,
            &[s.a, u.instrs as u16],
        );
        return Line::Block;
    }
    put_entries(
        &mut image[instrs..parts],
        8 * u.instrs,
        &[
            (code - 12) as u16,
            s.a,
            s.b,
            s.c,
            s.d,
            u.operands as u16,
            s.count,
        ],
    );
    let operands = usize::from(s.count);
    let args = s.args as usize;
    match code {
        33 | 34 => Line::Last(operands, args),
        _ => Line::Instruction(operands, args),
    }
}

// The fields behind a line's first, which ends at f: the text from there on goes to their reader, which stops at the line's LF.
fn read_rest(
    text: &[u8],
    f: usize,
    code: usize,
    image: &mut [u16],
    p: Places,
    numbers: &mut [u32],
    u: Used,
) -> Option<Said>
    requires { FieldRoom p image.old numbers.old u × (code < 36) × StopAt text.now f × Few u }
    ensures { FormIs code (fields_from (line_in text.now) (f + 1)) (17 * u.rows) u.operands u.args (part_section p image.old) (part_section p image.new) (operands_in p image.old numbers.old) (operands_in p image.new numbers.new) result × RestThrough text.now f result × Outside p.parts p.uses image.old image.new }
{
    crate::line::read_form(&text[f..], 0, code, image, p, numbers, u)
}

// The first line of the text, read into the first places of the image that are not in use.
pub(crate) fn read_line(
    text: &[u8],
    image: &mut [u16],
    p: Places,
    numbers: &mut [u32],
    u: Used,
) -> Option<LineRead>
    requires { Ordered p (length image.old) × RoomFor u (store_in p image.old numbers.old) × Few u × InLine text.now 0 }
    ensures { ReadAs text.now u (store_in p image.old numbers.old) (store_in p image.new numbers.new) result × Outside p.rows p.uses image.old image.new }
{
    let f = text_lines::field_end(text, 0);
    let code = text_fields::names::name_code(&text[..f]);
    if 36 <= code {
        return None;
    }
    let Some(s) = read_rest(text, f, code, image, p, numbers, u) else {
        return None;
    };
    Some(LineRead {
        line: put_line(code, s, image, p, u),
        next: f + s.next,
    })
}
