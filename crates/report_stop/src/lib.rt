// One line of a day: the stop that it tells, as a day's report counts it.
// Promised: the answer is that of `stop_of` of crate report on the line's bytes (specs/Told.antt: `told`). Nothing is asked.
#![tactic(auto)]

ghost use Rattle.std.specs.Prelude.{◌≡◌, not, [], ◌∷◌, ℕ};
ghost use Rattle.text.specs.Bytes.{number};
ghost use Rattle.report.specs.Stops.{most_steps, kind_of, plain_stop, halt_with, stop_in, stop_of};
ghost use Rattle.report.specs.Day.{is_none};
ghost use Rattle.report_stop.specs.Told.{told, kind_in, kind_number};

// A halt with an integer; any other stop.
#[derive(Clone, Copy)]
pub enum Stop {
    Integer(i32),
    Other,
}

// The kinds of the word that a run halts with.
#[derive(Clone, Copy)]
enum Kind {
    Int,
    Code,
    Tuple,
    Height,
    Junk,
}

// "steps 0 to 1,000,000"
fn is_steps(n: &[u8]) -> bool
    ensures { result ≡ not (is_none (number 0 most_steps n.now)) }
{
    text_fields::numbers::number_in(n, 0, 1000000).is_some()
}

// The name of a stop other than a halt.
#[tactic(auto, using(crate::proofs::Laws::plain_names), unfolding(text::specs::Bytes::bytes))]
fn is_plain(w: &[u8]) -> bool
    ensures { result ≡ not (is_none (plain_stop w.now 0)) }
{
    matches!(w, b"paused" | b"stack" | b"heap" | b"stuck")
}

// A line of two fields.
fn plain(w: &[u8], n: &[u8]) -> Option<Stop>
    ensures { result ≡ told (stop_in (w.now ∷ n.now ∷ [])) }
{
    if is_steps(n) && is_plain(w) {
        Some(Stop::Other)
    } else {
        None
    }
}

// The kind of that name.
#[tactic(auto, using(crate::proofs::Laws::kind_names), unfolding(text::specs::Bytes::bytes))]
fn kind_of(k: &[u8]) -> Option<Kind>
    ensures { kind_in result ≡ kind_of k.now }
{
    match k {
        b"int" => Some(Kind::Int),
        b"code" => Some(Kind::Code),
        b"tuple" => Some(Kind::Tuple),
        b"height" => Some(Kind::Height),
        b"junk" => Some(Kind::Junk),
        _ => None,
    }
}

// A halt with a word of that kind and bits: "junk 0".
fn halt_with(kind: Kind, bits: u32) -> Option<Stop>
    ensures { (steps : ℕ) → result ≡ told (halt_with steps (kind_number kind) bits) }
{
    match kind {
        Kind::Int => Some(Stop::Integer(bits.cast_signed())),
        Kind::Junk if bits != 0 => None,
        _ => Some(Stop::Other),
    }
}

// A line of four fields.
fn halt(w: &[u8], n: &[u8], k: &[u8], m: &[u8]) -> Option<Stop>
    ensures { result ≡ told (stop_in (w.now ∷ n.now ∷ k.now ∷ m.now ∷ [])) }
{
    if w != b"halted".as_slice() || !is_steps(n) {
        return None;
    }
    let kind = kind_of(k)?;
    match text_fields::numbers::literal(m) {
        Some(bits) => halt_with(kind, bits),
        None => None,
    }
}

// The stop that a line tells, which is given without its LF.
pub fn read_stop(s: &[u8]) -> Option<Stop>
    ensures { result ≡ told (stop_of s.now) }
{
    let mut fields = s.split(|b| *b == b',');
    match (
        fields.next(),
        fields.next(),
        fields.next(),
        fields.next(),
        fields.next(),
    ) {
        (Some(w), Some(n), None, _, _) => plain(w, n),
        (Some(w), Some(n), Some(k), Some(m), None) => halt(w, n, k, m),
        _ => None,
    }
}
