// Plain operands of a line: a register, a literal or a label, read in one walk from a place of the line up to the byte that ends it.
// Promises: an answer that is an operand is the one that crate text reads from the field there, and says where the field ends.
// Asks: that the place is in the line.
ghost use Rattle.std.specs.Prelude.{◌≡◌};
ghost use Rattle.text_lines.specs.Parts.{InLine};
ghost use Rattle.text_fields.specs.plain_operands.Answers.{plain_placed, PlainAt};

// What an operand is made of: a register, the bits of a literal, a label.
#[derive(Clone, Copy)]
pub enum Base {
    Register(u32),
    Literal(u32),
    Label(u32),
}

// An operand: its base, whether that is packed, the count of its arguments, and the resulting row; both 0 where it is plain.
#[derive(Clone, Copy)]
pub struct OperandRead {
    pub base: Base,
    pub packed: bool,
    pub count: u16,
    pub row: u16,
}

// The same, read from a place of a line on, and where its field ends.
#[derive(Clone, Copy)]
pub struct Placed {
    pub read: OperandRead,
    pub next: usize,
}

// A plain operand, whose field ends at `next`.
fn plain_placed(base: Base, next: usize) -> Placed
    ensures { result ≡ plain_placed base next }
{
    let read = OperandRead {
        base,
        packed: false,
        count: 0,
        row: 0,
    };
    Placed { read, next }
}

// The plain operand whose field starts at `at`; none where the field is no plain operand.
pub(crate) fn plain_at(s: &[u8], at: usize) -> Option<Placed>
    requires { InLine s.now at }
    ensures { PlainAt s.now at result }
{
    match s[at] {
        b'r' => {
            let x = crate::numbers::register_at(s, at)?;
            Some(plain_placed(Base::Register(x.value), x.next))
        }
        b'#' => {
            let x = crate::numbers::number_at(s, at + 1, 0, 63)?;
            Some(plain_placed(Base::Label(x.value), x.next))
        }
        b'-' => {
            let x = crate::numbers::number_at(s, at + 1, 1, 2147483648)?;
            Some(plain_placed(Base::Literal(x.value.wrapping_neg()), x.next))
        }
        _ => {
            let x = crate::numbers::number_at(s, at, 0, 2147483647)?;
            Some(plain_placed(Base::Literal(x.value), x.next))
        }
    }
}
