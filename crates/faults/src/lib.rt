// The faults for which a program or its lent state is refused (document 01, "Faults"), and the lesser of two. Promised: a fault's number in
// the table of document 01, and the fault with the least number (`least` of crate syntax). Nothing is asked.
#![tactic(auto)]

ghost use Rattle.std.specs.Prelude.{◌≡◌, if◌then◌else◌};
ghost use Rattle.syntax.proofs.Least.{least};
ghost use Rattle.faults.specs.Numbers.{number, fault_number, refusal_number};

// In the order of their numbers: pass one finds the first three, pass two the next three, pass three those up to a wrong letter; the last
// two bar a start, and the last a continuation.
#[derive(Clone, Copy, PartialEq, Eq, PartialOrd, Ord)]
pub enum Fault {
    Malformed,
    Misplaced,
    TooMany,
    Missing,
    WrongSort,
    TooLarge,
    Unbound,
    NoEntry,
    WrongType,
    Unequal,
    NoItem,
    NoTail,
    TooDeep,
    WrongLetter,
    BadSamples,
    BadState,
}

impl Fault {
    // The number in the table of document 01.
    pub fn number(self) -> usize
        ensures { result ≡ number self }
    {
        match self {
            Fault::Malformed => 1,
            Fault::Misplaced => 2,
            Fault::TooMany => 3,
            Fault::Missing => 4,
            Fault::WrongSort => 5,
            Fault::TooLarge => 6,
            Fault::Unbound => 7,
            Fault::NoEntry => 8,
            Fault::WrongType => 9,
            Fault::Unequal => 10,
            Fault::NoItem => 11,
            Fault::NoTail => 12,
            Fault::TooDeep => 13,
            Fault::WrongLetter => 14,
            Fault::BadSamples => 15,
            Fault::BadState => 16,
        }
    }
}

// A fault, and the line on which it stands.
#[derive(Clone, Copy)]
pub struct LineFault {
    pub fault: Fault,
    pub line: usize,
}

// The lesser of two faults, if there is one.
pub fn least(a: Option<Fault>, b: Option<Fault>) -> Option<Fault>
    ensures { fault_number result ≡ least (fault_number a) (fault_number b) }
{
    match (a, b) {
        (Some(f), Some(g)) => Some(if f.number() <= g.number() { f } else { g }),
        (Some(f), None) => Some(f),
        (None, g) => g,
    }
}

// Both hold, or the lesser of the faults that stand against them.
pub fn both(a: Result<(), Fault>, b: Result<(), Fault>) -> Result<(), Fault>
    ensures { refusal_number result ≡ least (refusal_number a) (refusal_number b) }
{
    match (a, b) {
        (Err(f), Err(g)) => Err(if f.number() <= g.number() { f } else { g }),
        (Err(f), Ok(_)) => Err(f),
        (Ok(_), g) => g,
    }
}

// Holds, or else is refused for the fault.
pub fn holds_or(b: bool, f: Fault) -> Result<(), Fault>
    ensures { refusal_number result ≡ (if b then 0 else number f) }
{
    if b { Ok(()) } else { Err(f) }
}
