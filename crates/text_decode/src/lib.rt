// A text into an image, in one pass over its lines: a line's fields (module line), what they say stored (store), what is kept from line to
// line (state). This is pass one. Promises: whether the text fits the image that is lent, which every text does where it has `Room`.
// Where it fits, the answer names the fault of pass one that document 01 gives; where there is none, the image's tables stand for the text
// (`ReadIs` of specs/Decoded.antt). Nothing is asked.
#![tactic(auto)]

pub mod line;
pub mod state;
pub mod store;

ghost use Rattle.text_decode.specs.store.Store.{stored, Room};
ghost use Rattle.text_decode.specs.Decoded.{fits, Fitting, ReadIs};

use crate::state::{Place, Unread};
use faults::Fault;
use image::Counts;

// One pass over the text, line by line, into the image. What stands behind the last LF is a line of no form.
pub fn read_text(text: &[u8], image: &mut [u16], numbers: &mut [u32]) -> Result<Counts, Unread>
    ensures { Fitting (Room (stored image.old numbers.old)) (fits result) (ReadIs text.now (stored image.new numbers.new) result) }
{
    if 65536 < text.len() {
        return crate::state::faulty(Fault::TooMany, 0);
    }
    let p = image::lay_out(image.len());
    let plenty = crate::state::has_plenty(p, numbers.len());
    let end = text_lines::last_end(text);
    let mut u = crate::state::unused();
    let mut at = 0;
    let mut line = 1;
    let mut place = Place::TypeLines;
    // Kept: a `while`. Lines are of any length, and where one ends is known only once it is read.
    while at < end {
        if !crate::state::has_room(plenty, p, numbers.len(), u) {
            return Err(Unread::Unfit);
        }
        let Some(x) = crate::store::read_line(&text[at..], image, p, numbers, u) else {
            return crate::state::faulty(Fault::Malformed, line);
        };
        if let Some(f) = crate::state::line_fault(x.line, place, u) {
            return crate::state::faulty(f, line);
        }
        u = crate::state::used_after(u, x.line);
        place = crate::state::place_behind(x.line);
        at += x.next + 1;
        line += 1;
    }
    if at < text.len() {
        return crate::state::faulty(Fault::Malformed, line);
    }
    crate::state::end_of_text(place, line, u)
}
