// What decoding a text keeps from line to line, and how it ends: the place of a line among type lines and blocks, what is in use of the
// image and whether it has room for one line more, the fault of a line, and the answers. Promises: a line out of order is fault 2 and
// one too many fault 3, as pass one of document 01 says (`line_fault` of specs/state/State.antt, which this crate equates with it). Asks:
// that what is in use is not more than a text can have.
ghost use Rattle.std.specs.Prelude.{◌≡◌, true, List, ℕ, ◌≤◌, length, Err};
ghost use Rattle.image.specs.Sections.{Ordered};
ghost use Rattle.text_decode.specs.store.Store.{store_in, RoomFor, Plenty, Few};
ghost use Rattle.text_decode.specs.store.Lines.{operand_count, arg_count, used_after};
ghost use Rattle.text_decode.specs.state.State.{fault_of, line_fault, place_behind, none_used, faulty, last_read};

use crate::store::{Line, Used};
use faults::{Fault, LineFault};
use image::{Counts, Places};

// Why a text is not read: it does not fit the image, or it has a fault.
#[derive(Clone, Copy)]
pub enum Unread {
    Unfit,
    Faulty(LineFault),
}

// Where a line stands: among the type lines, in a block that has not ended, or behind one that has.
#[derive(Clone, Copy)]
pub(crate) enum Place {
    TypeLines,
    InBlock,
    BehindBlock,
}

// Out of order comes before too many.
fn fault_of(in_order: bool, full: bool) -> Option<Fault>
    ensures { result ≡ fault_of in_order full }
{
    if !in_order {
        Some(Fault::Misplaced)
    } else if full {
        Some(Fault::TooMany)
    } else {
        None
    }
}

// The fault of a line of some form.
pub(crate) fn line_fault(l: Line, place: Place, u: Used) -> Option<Fault>
    ensures { result ≡ line_fault l place u }
{
    let in_block = matches!(place, Place::InBlock);
    match l {
        Line::Row => fault_of(matches!(place, Place::TypeLines), 512 <= u.rows),
        Line::Block => fault_of(!in_block, 64 <= u.blocks),
        Line::Instruction(_, _) | Line::Last(_, _) => fault_of(in_block, 1024 <= u.instrs),
    }
}

// The place behind the line.
pub(crate) fn place_behind(l: Line) -> Place
    ensures { result ≡ place_behind l }
{
    match l {
        Line::Row => Place::TypeLines,
        Line::Block | Line::Instruction(_, _) => Place::InBlock,
        Line::Last(_, _) => Place::BehindBlock,
    }
}

// What is in use behind the line.
pub(crate) fn used_after(u: Used, l: Line) -> Used
    requires { Few u × (operand_count l ≤ 16) × (arg_count l ≤ 65536) }
    ensures { result ≡ used_after u l }
{
    match l {
        Line::Row => Used {
            rows: u.rows + 1,
            ..u
        },
        Line::Block => Used {
            blocks: u.blocks + 1,
            ..u
        },
        Line::Instruction(n, m) | Line::Last(n, m) => Used {
            instrs: u.instrs + 1,
            operands: u.operands + n,
            args: u.args + m,
            ..u
        },
    }
}

// The answer that names a fault and its line.
pub(crate) fn faulty(fault: Fault, line: usize) -> Result<Counts, Unread>
    ensures { result ≡ faulty fault line }
{
    Err(Unread::Faulty(LineFault { fault, line }))
}

// What is read at the end of the text: a block that has not ended is a fault one line further on.
pub(crate) fn end_of_text(place: Place, line: usize, u: Used) -> Result<Counts, Unread>
    ensures { result ≡ last_read place line u }
{
    if matches!(place, Place::InBlock) {
        return faulty(Fault::Misplaced, line);
    }
    Ok(Counts {
        rows: u.rows,
        blocks: u.blocks,
        instrs: u.instrs,
    })
}

// Nothing is in use.
pub(crate) fn unused() -> Used
    ensures { result ≡ none_used }
{
    Used {
        rows: 0,
        blocks: 0,
        instrs: 0,
        operands: 0,
        args: 0,
    }
}

// Whether the image, with its sections at these places, and `numbers` numbers have room for every text.
pub(crate) fn has_plenty(p: Places, numbers: usize) -> bool
    requires { (n : ℕ) × Ordered p n }
    ensures { result ≡ true → Plenty p numbers }
{
    2052 <= p.blocks - p.rows
        && 8721 <= p.operands - p.parts
        && 65600 <= p.args - p.operands
        && 16400 <= numbers
        && 32896 <= p.uses - p.args
        && 8200 <= p.parts - p.instrs
        && 130 <= p.instrs - p.blocks
}

// Whether they have room for one line more behind what is in use: `plenty` says that they have room for every text.
pub(crate) fn has_room(plenty: bool, p: Places, numbers: usize, u: Used) -> bool
    requires { ((n : ℕ) × Ordered p n) × Few u × (plenty ≡ true → Plenty p numbers) }
    ensures { (l ns : List ℕ) → Ordered p (length l) → length ns ≡ numbers → (result ≡ true → RoomFor u (store_in p l ns)) × (RoomFor u (store_in p l ns) → result ≡ true) }
{
    plenty
        || 4 * (u.rows + 1) <= p.blocks - p.rows
            && 17 * (u.rows + 1) <= p.operands - p.parts
            && 4 * (u.operands + 16) <= p.args - p.operands
            && u.operands + 16 <= numbers
            && u.args + 128 <= p.uses - p.args
            && 8 * (u.instrs + 1) <= p.parts - p.instrs
            && 2 * (u.blocks + 1) <= p.instrs - p.blocks
}
