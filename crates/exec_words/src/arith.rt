// Arithmetic and branch tests of the machine. `compute` gives a sum, difference or product modulo 2^32, `signed` its signed
// reading, and `branches` says whether a branch is taken on a number; each promises its definition's value on every input.
ghost use Rattle.std.specs.Prelude.{◌≡◌, ◌<◌, ◌*◌, ◌%◌, ◌^◌};
ghost use Rattle.syntax.specs.Bits.{signed};
ghost use Rattle.exec.specs.Machine.{compute, sign_of, taken};
ghost use Rattle.exec_words.specs.arith.Codes.{arith_is, arith_of, branch_of, sign_at, column};

use std::cmp::Ordering;

// Kept: a branch's kind is a number, since it stands in a row of the machine's table, which is lent memory.
// "The branch tests are a constant table of six rows by three signs": rows beq, bneq, bgt, blt, bgte, blte, columns negative,
// zero, positive.
const BRANCH: [[bool; 3]; 6] = [
    [false, true, false],
    [true, false, true],
    [false, false, true],
    [true, false, false],
    [false, true, true],
    [true, true, false],
];

// The product modulo 2^32. Kept: where sums and differences are the library's, document 01 names a multiplication of the code's own.
fn product(x: u32, y: u32) -> u32
    ensures { result ≡ (x * y) % 2 ^ 32 }
{
    (u64::from(x) * u64::from(y) % 4294967296) as u32
}

// What two numbers are made into one by.
#[derive(Clone, Copy, PartialEq, Eq)]
pub enum Arith {
    Add,
    Sub,
    Mul,
}

impl Arith {
    // Operation 0 adds, 1 subtracts, any other multiplies.
    pub fn of(op: usize) -> Arith
        ensures { arith_is result ≡ arith_of op }
    {
        match op {
            0 => Arith::Add,
            1 => Arith::Sub,
            _ => Arith::Mul,
        }
    }

    // The sum, difference or product.
    pub fn compute(self, x: u32, y: u32) -> u32
        ensures { result ≡ compute (arith_is self) x y }
    {
        match self {
            Arith::Add => x.wrapping_add(y),
            Arith::Sub => x.wrapping_sub(y),
            Arith::Mul => product(x, y),
        }
    }
}

// The same by the operation's number.
pub fn compute(op: usize, x: u32, y: u32) -> u32
    ensures { result ≡ compute (arith_of op) x y }
{
    Arith::of(op).compute(x, y)
}

// The signed number that has the bits x.
fn signed(x: u32) -> i32
    ensures { result ≡ signed x }
{
    x.cast_signed()
}

// The table's column for x, read as signed.
fn sign(x: u32) -> usize
    ensures { result ≡ column (sign_of x) }
{
    match signed(x).cmp(&0) {
        Ordering::Less => 0,
        Ordering::Equal => 1,
        Ordering::Greater => 2,
    }
}

fn is_taken(kind: usize, sign: usize) -> bool
    requires { (kind < 6) × (sign < 3) }
    ensures { result ≡ taken (branch_of kind) (sign_at sign) }
{
    BRANCH[kind][sign]
}

// Whether the branch of that kind, in the table's order, is taken on x; a kind past the table is the last.
pub fn branches(kind: usize, x: u32) -> bool
    ensures { result ≡ taken (branch_of kind) (sign_of x) }
{
    is_taken(kind.min(5), sign(x))
}
