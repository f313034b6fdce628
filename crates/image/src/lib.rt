#![tactic(auto)]
// The decoded program as one image: its tables are sections of one lent slice, at places that its length decides. Promised: the places,
// which stand one behind the other within the slice (proofs/Laws.antt: `ordered`). Nothing is asked, and nothing is set beforehand. There
// are five layouts: for a slice that is too short to hold a text, no room at all; for small texts; and for every text; the last two with
// the rows once more, as the checker shares them, or without. Module lent says how long is long enough for every text.
pub mod lent;

ghost use Rattle.std.specs.Prelude.{◌≡◌};
ghost use Rattle.image.specs.Layout.{places_of};

// Where each section starts; it ends where the next starts.
#[derive(Clone, Copy)]
pub struct Places {
    pub rows: usize,
    pub blocks: usize,
    pub instrs: usize,
    pub parts: usize,
    pub operands: usize,
    pub args: usize,
    pub uses: usize,
    pub tops: usize,
    pub shared: usize,
    pub slots: usize,
    pub end: usize,
}

// How many rows, blocks and instructions a text has.
#[derive(Clone, Copy)]
pub struct Counts {
    pub rows: usize,
    pub blocks: usize,
    pub instrs: usize,
}

// Too short for any text.
const NO_PLACES: Places = Places {
    rows: 0,
    blocks: 0,
    instrs: 0,
    parts: 0,
    operands: 0,
    args: 0,
    uses: 0,
    tops: 0,
    shared: 0,
    slots: 0,
    end: 0,
};

// For small texts.
const SMALL: Places = Places {
    rows: 0,
    blocks: 144,
    instrs: 274,
    parts: 978,
    operands: 1573,
    args: 1957,
    uses: 2213,
    tops: 4389,
    shared: 4423,
    slots: 4423,
    end: 4423,
};

// For every text.
const LARGE: Places = Places {
    rows: 0,
    blocks: 2056,
    instrs: 2186,
    parts: 10386,
    operands: 19124,
    args: 84724,
    uses: 117620,
    tops: 150388,
    shared: 150900,
    slots: 150900,
    end: 150900,
};

// The places in an image of length n.
pub fn lay_out(n: usize) -> Places
    ensures { result ≡ places_of n }
{
    match n {
        ..4423 => NO_PLACES,
        4423..5162 => SMALL,
        5162..150900 => Places {
            slots: 4567,
            end: 5162,
            ..SMALL
        },
        150900..161694 => LARGE,
        _ => Places {
            slots: 152956,
            end: 161694,
            ..LARGE
        },
    }
}
