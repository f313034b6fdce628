// The machine's own table of a program, made once for a run: a row of eight numbers for each instruction, its operand and its goals
// resolved, and behind them a row that is stuck. `predecode` promises each row, as `row_of` has it (specs/Plan.antt). What a row does
// is what the instruction does (proofs/Rows.antt: `next_is`).
#![tactic(auto)]

ghost use Rattle.std.specs.Prelude.{◌≡◌, cond, [], ◌∷◌, ℕ, ◌+◌, ◌-◌, ◌*◌, ◌<◌, ◌≤◌, ltb, eqb, length, get_or, set};
ghost use Rattle.exec.specs.Machine.{sign_of, taken};
ghost use Rattle.exec_words.specs.arith.Codes.{branch_of};
ghost use Rattle.exec_machine.specs.Step.{tables};
ghost use Rattle.exec_plan.specs.Plan.{forms, halts, columns, column_number, chosen, Small, class_of, fifth_of, added_of, last_of, put_row, row_of, Plan};

use Column::{Branch, Constant, First, Nothing, Operand, Second, Target, Third};
use exec_words::arith::branches;
use exec_words::memory::base_kind;
use tables::{cell, entry_or};

// The form of an instruction, by its code and the kind of its operand's base: register, integer, label. `unpack` has the forms of `mov`.
// Forms below 15 are classes of their own: 0 add register, 1 add integer, 2 malloc, 3 mul register, 4 branch to a label, 5 mov register,
// 6 mov of a constant, 7 jmp to a label, 8 jmp register, 9 ld, 10 st, 11 sld, 12 sst, 13 slp, 14 ssp. The others are of class 15:
// 15 mul integer, 16 getsp, 17 setsp, 18 salloc, 19 sfree, 20 sub register, 21 branch through a register, 22 branch that goes nowhere,
// 23 halt, 24 stuck.
// Kept: forms are numbers, for a row stands in memory that the caller lends, and a step goes by a row's class with one jump.
const FORMS: [[u8; 3]; 24] = [
    [0, 1, 24],
    [20, 1, 24],
    [3, 15, 24],
    [21, 22, 4],
    [21, 22, 4],
    [21, 22, 4],
    [21, 22, 4],
    [21, 22, 4],
    [21, 22, 4],
    [5, 6, 6],
    [9, 9, 9],
    [10, 10, 10],
    [2, 2, 2],
    [16, 16, 16],
    [17, 17, 17],
    [18, 18, 18],
    [19, 19, 19],
    [11, 11, 11],
    [12, 12, 12],
    [13, 13, 13],
    [14, 14, 14],
    [8, 24, 7],
    [23, 23, 23],
    [5, 6, 6],
];

// Which number stands in a column of a row: none, the instruction's first, second or third number, the place of the row that its label
// leads to, its first operand, the kind of a branch or that of a constant.
#[derive(Clone, Copy, PartialEq, Eq)]
enum Column {
    Nothing,
    First,
    Second,
    Third,
    Target,
    Operand,
    Branch,
    Constant,
}

// A row's columns 1 to 3, two registers and one number more, by the instruction's code.
const COLUMNS: [[Column; 3]; 24] = [
    [First, Second, Nothing],
    [First, Second, Nothing],
    [First, Second, Nothing],
    [First, Branch, Nothing],
    [First, Branch, Nothing],
    [First, Branch, Nothing],
    [First, Branch, Nothing],
    [First, Branch, Nothing],
    [First, Branch, Nothing],
    [First, Constant, Nothing],
    [First, Second, Third],
    [First, Third, Second],
    [First, Nothing, Operand],
    [First, Nothing, Nothing],
    [First, Nothing, Nothing],
    [Nothing, Nothing, First],
    [Nothing, Nothing, First],
    [First, Nothing, Second],
    [Nothing, Second, First],
    [First, Second, Third],
    [First, Third, Second],
    [Nothing, Nothing, Target],
    [Nothing, Nothing, Nothing],
    [First, Constant, Nothing],
];

// The numbers that a row's columns are chosen from; the target is an instruction's position.
#[derive(Clone, Copy)]
struct Choices {
    first: usize,
    second: usize,
    third: usize,
    target: usize,
    operand: usize,
    branch: usize,
    constant: usize,
}

// The form; a code past the table is that of `halt`.
fn form(code: usize, kind: usize) -> usize
    requires { kind < 3 }
    ensures { (result ≡ get_or (get_or forms code halts) kind 24) × (result < 256) }
{
    if code < 24 {
        usize::from(FORMS[code][kind])
    } else {
        23
    }
}

fn column_in(code: usize, i: usize) -> Column
    requires { i < 3 }
    ensures { column_number result ≡ get_or (get_or columns code []) i 0 }
{
    if code < 24 { COLUMNS[code][i] } else { Nothing }
}

#[tactic(auto, unfolding(crate::specs::Plan::chosen))]
fn choose(column: Column, n: Choices) -> u32
    requires { Small n }
    ensures { result ≡ chosen (column_number column) n.first n.second n.third n.target n.operand n.branch n.constant }
{
    match column {
        Nothing => 0,
        First => n.first as u32,
        Second => n.second as u32,
        Third => n.third as u32,
        Target => 8 * n.target as u32,
        Operand => n.operand as u32,
        Branch => n.branch as u32,
        Constant => n.constant as u32,
    }
}

// The form f, unless it goes to a label that is not there.
fn checked(f: usize, label: usize, labels: usize) -> usize
    requires { f < 256 }
    ensures { (result ≡ cond (ltb label labels) f (cond (eqb f 4) 22 (cond (eqb f 7) 24 f))) × (result < 256) }
{
    if label < labels {
        f
    } else {
        match f {
            4 => 22,
            7 => 24,
            _ => f,
        }
    }
}

// A row's class: its form, if that is below 15.
#[tactic(auto, unfolding(crate::specs::Plan::class_of))]
fn class(f: usize) -> u32
    ensures { result ≡ class_of f }
{
    f.min(15) as u32
}

// Column 5: the first goal of a branch; in a row of class 15 the form.
#[tactic(auto, unfolding(crate::specs::Plan::fifth_of))]
fn fifth(f: usize, goal: u32) -> u32
    requires { f < 256 }
    ensures { result ≡ fifth_of f goal }
{
    if f < 15 { goal } else { f as u32 }
}

// An integer that is to be taken away is added, negated.
fn added(kind: usize, number: u32) -> u32
    ensures { result ≡ added_of kind number }
{
    if kind == 1 {
        number.wrapping_neg()
    } else {
        number
    }
}

// How many operands `malloc` has, else the operand's number.
#[tactic(auto, unfolding(crate::specs::Plan::last_of))]
fn last(code: usize, kind: usize, operands: usize, number: u32) -> u32
    requires { operands < 65536 }
    ensures { result ≡ last_of code kind operands number }
{
    match code {
        1 => added(kind, number),
        12 => operands as u32,
        _ => number,
    }
}

// The row where a branch of that kind on x leads: that of position t, or the one after j.
fn goal(kind: usize, x: u32, t: usize, j: usize) -> u32
    requires { (t < 65536) × (j < 1024) }
    ensures { result ≡ 8 * cond (taken (branch_of kind) (sign_of x)) t (j + 1) }
{
    if branches(kind, x) {
        8 * t as u32
    } else {
        8 * (j + 1) as u32
    }
}

fn put_row(plan: &mut [u32], p: usize, row: [u32; 8])
    requires { p + 8 ≤ length plan.old }
    ensures { plan.new ≡ put_row plan.old p row }
{
    plan[p..p + 8].copy_from_slice(&row);
}

// The row of instruction j.
fn make_row(
    instrs: &[u16],
    operands: &[u16],
    bases: &[u32],
    blocks: &[u16],
    labels: usize,
    j: usize,
    plan: &mut [u32],
)
    requires { (8 * j + 8 ≤ length plan.old) × (j < 1024) }
    ensures { (n : ℕ) → plan.new ≡ put_row plan.old (8 * j) (row_of (tables instrs.now operands.now bases.now blocks.now n labels) j) }
{
    let code = cell::<8>(instrs, j, 0);
    let v = cell::<8>(instrs, j, 5);
    let kind = base_kind(cell::<4>(operands, v, 0));
    let n = entry_or(bases, v, 0);
    let label = n as usize;
    let choices = Choices {
        first: cell::<8>(instrs, j, 1),
        second: cell::<8>(instrs, j, 2),
        third: cell::<8>(instrs, j, 3),
        target: cell::<2>(blocks, label, 1),
        operand: v,
        branch: code.saturating_sub(3),
        constant: kind.saturating_sub(1),
    };
    let t = choices.target;
    let o = choices.branch;
    let f = checked(form(code, kind), label, labels);
    let row = [
        class(f),
        choose(column_in(code, 0), choices),
        choose(column_in(code, 1), choices),
        choose(column_in(code, 2), choices),
        last(code, kind, cell::<8>(instrs, j, 6), n),
        fifth(f, goal(o, 2147483648, t, j)),
        goal(o, 0, t, j),
        goal(o, 1, t, j),
    ];
    put_row(plan, 8 * j, row);
}

// The rows of all instructions, and behind them one that is stuck.
pub fn predecode(
    instrs: &[u16],
    operands: &[u16],
    bases: &[u32],
    blocks: &[u16],
    count: usize,
    labels: usize,
    plan: &mut [u32],
)
    requires { (8 * count + 8 ≤ length plan.old) × (count ≤ 1024) }
    ensures { Plan (tables instrs.now operands.now bases.now blocks.now count labels) plan.new }
{
    for j in 0..count {
        make_row(instrs, operands, bases, blocks, labels, j, plan);
    }
    put_row(plan, 8 * count, [15, 0, 0, 0, 0, 24, 0, 0]);
}
