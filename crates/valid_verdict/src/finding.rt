// What pass three finds, where it finds a fault. Promised: what is put in; `refusal_said` (specs/finding/Found.antt) is the refusal that a
// finding says, `refusal_numbered` that of one in numbers. Nothing is asked.
ghost use Rattle.std.specs.Prelude.{◌≡◌, None};

use faults::Fault;

// A fault, its line, and the first item that does not fit, if one is named.
#[derive(Clone, Copy)]
pub struct Finding {
    pub fault: Fault,
    pub line: usize,
    pub item: Option<usize>,
}

// A finding in numbers, whatever they are: a fault's number, 0 for none, its line, and the first item that does not fit, 100 for none.
#[derive(Clone, Copy)]
pub struct NumberedFinding {
    pub number: usize,
    pub line: usize,
    pub item: usize,
}

// A fault without an item.
pub fn on_line(fault: Fault, line: usize) -> Finding
    ensures { result ≡ record { fault = fault; line = line; item = None } }
{
    Finding {
        fault,
        line,
        item: None,
    }
}
