// A text that may be run or typed: decoded into an image (crate text_decode), passed by passes one and two (crate types_pass_two), and
// prepared for pass three (module prepare). Promised: whether the text fits the image that is lent, which every text does where it has
// `Space`. Where it fits, the fault of passes one and two, as crate valid has them, or else that the tables stand for the program of the
// text, with what these passes have seen of it. Nothing is asked.
#![tactic(auto)]

pub mod prepare;

ghost use Rattle.std.specs.Prelude.{◌≡◌, true, ℕ, ◌-◌, ◌≤◌, length};
ghost use Rattle.syntax.specs.Fault.{lowest_line};
ghost use Rattle.text.specs.Entries.{entries_in};
ghost use Rattle.types.specs.Rows.{pass_two};
ghost use Rattle.tables.specs.Tables.{rows_in, blocks_from};
ghost use Rattle.image.specs.Sections.{Ordered, block_section, instr_section};
ghost use Rattle.types_pass_two.specs.refs.Refs.{Rising, refusal_of};
ghost use Rattle.text_decode.specs.store.Store.{row_table, operands_of, store_in, stored};
ghost use Rattle.text_decode.specs.Decoded.{fits, Fitting};
ghost use Rattle.load.specs.Loaded.{SpaceFor, SmallRead, SpaceIn, uses_in, tops_in, LoadIs};

use faults::LineFault;
use image::{Counts, Places};
use text_decode::state::Unread;

// Whether the sections have room for what pass three reads of n rows.
fn has_space(p: Places, n: usize) -> bool
    requires { ((l : ℕ) × Ordered p l) × (n ≤ 512) }
    ensures { (result ≡ true → SpaceFor n (p.blocks - p.rows) (p.tops - p.uses) (p.shared - p.tops)) × (SpaceFor n (p.blocks - p.rows) (p.tops - p.uses) (p.shared - p.tops) → result ≡ true) }
{
    4 * n + 8 <= p.blocks - p.rows && 64 * n <= p.tops - p.uses && n <= p.shared - p.tops
}

// Pass two over the tables in the image.
fn second_pass(image: &[u16], numbers: &[u32], p: Places, c: Counts) -> Option<LineFault>
    requires { Ordered p (length image.now) × SmallRead c × Rising (block_section p image.now) c.blocks }
    ensures { refusal_of result ≡ lowest_line 0 (pass_two (rows_in (row_table (store_in p image.now numbers.now)) c.rows) c.blocks (entries_in (rows_in (row_table (store_in p image.now numbers.now)) c.rows) (blocks_from (block_section p image.now) (instr_section p image.now) (operands_of (store_in p image.now numbers.now)) c.instrs 0 c.blocks))) }
{
    let rows = p.rows;
    let blocks = p.blocks;
    let instrs = p.instrs;
    let parts = p.parts;
    let operands = p.operands;
    let args = p.args;
    let uses = p.uses;
    types_pass_two::pass_two(
        &image[rows..blocks],
        &image[parts..operands],
        c.rows,
        &image[blocks..instrs],
        c.blocks,
        &image[instrs..parts],
        c.instrs,
        &image[operands..args],
        numbers,
        &image[args..uses],
    )
}

// Reads the text into the image; where passes one and two find no fault, makes it ready for pass three too.
pub fn load(text: &[u8], image: &mut [u16], numbers: &mut [u32]) -> Result<Counts, Unread>
    ensures { Fitting (SpaceIn image.old numbers.old) (fits result) (LoadIs text.now (stored image.new numbers.new) (uses_in image.new) (tops_in image.new) result) }
{
    let c = text_decode::read_text(text, image, numbers)?;
    let p = image::lay_out(image.len());
    if !has_space(p, c.rows) {
        return Err(Unread::Unfit);
    }
    if let Some(f) = second_pass(image, numbers, p, c) {
        return Err(Unread::Faulty(f));
    }
    crate::prepare::prepare(image, p, c.rows);
    Ok(c)
}
