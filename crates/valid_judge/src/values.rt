// One instruction of pass three that takes operands and gives a register its type: arithmetic, `mov`, `malloc`, `unpack`. The types known
// before it stand in the checker's arrays (crate valid_context), and are there changed to those known after it; `envs` has the environments
// of the packages opened so far. `pending` is lent for comparisons.
// Promised of each: the least fault that `judge` of crate valid gives the instruction, or, if it has none, the types after it;
// every environment that is held exists.
ghost use Rattle.std.specs.Prelude.{◌≡◌, ℕ, ◌+◌, ◌*◌, ◌≤◌, List, ltb, length, IfOk, MatchResult};
ghost use Rattle.syntax.specs.Syntax.{value, Arith, aop, mov, malloc, unpack};
ghost use Rattle.types.specs.Types.{Ty};
ghost use Rattle.valid.specs.Tests.{as_int, as_hidden};
ghost use Rattle.valid.specs.PassThree.{Judged, ◌▹◌, or_fault};
ghost use Rattle.valid_context.specs.Told.{told_of, told};
ghost use Rattle.valid_scope.specs.Letters.{letters_of};
ghost use Rattle.types_rows.specs.Environments.{Known};
ghost use Rattle.valid.specs.Bounds.{Short};
ghost use Rattle.valid_typing.specs.Typing.{held_in, held_type, Ready};
ghost use Rattle.valid_typing.specs.Image.{Prepared, operand_in, listed_in, letters_in};
ghost use Rattle.valid_judge.specs.heap.Forms.{KeptRegs};
ghost use Rattle.valid_judge.specs.values.Forms.{opened_type};
ghost use Rattle.valid_judge.specs.Image.{Roomy, Unpacks, ListedIn, InFileAt, OpensAt};

use crate::through::and_give;
use faults::{Fault, both, holds_or};
use image::{Counts, Places};
use types_rows::Held;
use valid_scope::BlockLetters;
use valid_typing::Listed;

// A premise has the answer t: that its type is the integer type.
fn integral(rows: &[u16], parts: &[u16], n: usize, t: Result<Held, Fault>) -> Result<(), Fault>
    requires { Ready rows.now parts.now n × IfOk t (λ h. h.row ≤ 65535) }
    ensures { (E : List ℕ) (J : Judged (Ty value)) → told_of J ≡ told (held_type (held_in rows.now parts.now n E)) t → told_of (J ▹ λ u. or_fault 9 (as_int u)) ≡ told (λ u. tt) result }
{
    let h = t?;
    holds_or(
        valid_typing::is_int(rows, parts, n, h.row),
        Fault::WrongType,
    )
}

// add, sub, mul: d s v, under the letters w
pub(crate) fn compute(
    image: &[u16],
    literals: &[u32],
    envs: &[u16],
    p: Places,
    c: Counts,
    v: usize,
    w: BlockLetters,
    regs: &mut [u16],
    pending: &mut [u32],
    d: usize,
    s: usize,
) -> Result<(), Fault>
    requires { Prepared p image.now c.rows pending.old × Short (operand_in p image.now literals.now v) × (v ≤ 131072) × Roomy envs.now regs.old }
    ensures { ((o : Arith) → InFileAt p image.now c envs.now (letters_in p image.now w) regs.old regs.new result (aop o d s (operand_in p image.now literals.now v))) × KeptRegs envs.now regs.old regs.new }
{
    let shared = p.shared;
    let slots = p.slots;
    let end = p.end;
    let rows = &image[shared..slots];
    let parts = &image[slots..end];
    let n = c.rows;
    let t = valid_typing::operands::operand(image, literals, envs, p, c, v, w, regs, pending);
    let g = integral(rows, parts, n, t);
    both(valid_typing::integer(rows, parts, n, regs, s), g)?;
    crate::heap::set_register(regs, d, n, 2 * envs.len())
}

// mov d v
pub(crate) fn move_to(
    image: &[u16],
    literals: &[u32],
    envs: &[u16],
    p: Places,
    c: Counts,
    v: usize,
    w: BlockLetters,
    regs: &mut [u16],
    pending: &mut [u32],
    d: usize,
) -> Result<(), Fault>
    requires { Prepared p image.now c.rows pending.old × Short (operand_in p image.now literals.now v) × (v ≤ 131072) × Roomy envs.now regs.old }
    ensures { InFileAt p image.now c envs.now (letters_in p image.now w) regs.old regs.new result (mov d (operand_in p image.now literals.now v)) × KeptRegs envs.now regs.old regs.new }
{
    let t = valid_typing::operands::operand(image, literals, envs, p, c, v, w, regs, pending)?;
    crate::heap::set_register(regs, d, t.row, t.env)
}

// malloc d t o, its operands listed
fn make_listed(
    image: &[u16],
    literals: &[u32],
    envs: &[u16],
    p: Places,
    c: Counts,
    o: Listed,
    w: BlockLetters,
    regs: &mut [u16],
    pending: &mut [u32],
    d: usize,
    t: usize,
) -> Result<(), Fault>
    requires { Prepared p image.now c.rows pending.old × ListedIn p image.now literals.now o × Roomy envs.now regs.old }
    ensures { InFileAt p image.now c envs.now (letters_in p image.now w) regs.old regs.new result (malloc d t (listed_in p image.now literals.now o)) × KeptRegs envs.now regs.old regs.new }
{
    let shared = p.shared;
    let slots = p.slots;
    let end = p.end;
    let n = c.rows;
    let mut found = [0u16; 32];
    let g = valid_typing::components::operand_list(
        image, literals, envs, p, c, o, w, regs, pending, &mut found,
    );
    both(valid_typing::formed_row(image, p, n, t, w), g)?;
    let r = valid_typing::given_row(n, t);
    let rows = &image[shared..slots];
    let parts = &image[slots..end];
    if !valid_typing::components::same_tuple(rows, parts, envs, n, r, &found, o.count, pending) {
        return Err(Fault::Unequal);
    }
    crate::heap::set_register(regs, d, r, 2 * envs.len())
}

// malloc d t o
pub(crate) fn make_tuple(
    image: &[u16],
    literals: &[u32],
    envs: &[u16],
    p: Places,
    c: Counts,
    o: Listed,
    w: BlockLetters,
    regs: &mut [u16],
    pending: &mut [u32],
    d: usize,
    t: usize,
) -> Result<(), Fault>
    requires { Prepared p image.now c.rows pending.old × ListedIn p image.now literals.now o × Roomy envs.now regs.old }
    ensures { InFileAt p image.now c envs.now (letters_in p image.now w) regs.old regs.new result (malloc d t (listed_in p image.now literals.now o)) × KeptRegs envs.now regs.old regs.new }
{
    let r = valid_typing::given_row(c.rows, t);
    if !valid_typing::plain_components::plain_tuple(image, literals, envs, p, c, o, regs, r) {
        return make_listed(image, literals, envs, p, c, o, w, regs, pending, d, t);
    }
    valid_typing::formed_row(image, p, c.rows, t, w)?;
    crate::heap::set_register(regs, d, r, 2 * envs.len())
}

// The letters in force leave room for one more variable.
fn has_room(w: BlockLetters) -> bool
    requires { w.hidden ≤ 64 }
    ensures { (parts : List ℕ) → result ≡ ltb (length (letters_of parts w)) 64 }
{
    w.count < 64 - w.hidden
}

// A premise has the answer t: that its type is a package's, and the row inside, with the package's environment.
fn inside(rows: &[u16], parts: &[u16], n: usize, t: Result<Held, Fault>) -> Result<Held, Fault>
    requires { Ready rows.now parts.now n × IfOk t (λ h. h.row ≤ 65535) }
    ensures { ((E : List ℕ) (J : Judged (Ty value)) → Known E → IfOk t (λ h. h.env ≤ 2 * length E) → told_of J ≡ told (held_type (held_in rows.now parts.now n E)) t → told_of (J ▹ λ u. or_fault 9 (as_hidden u)) ≡ told (opened_type rows.now parts.now n E) result) × IfOk result (λ h. (h.row ≤ n + 1) × MatchResult t (λ k. h.env ≡ k.env) (λ f. ⊥)) }
{
    let k = t?;
    let row = valid_typing::hidden_inside(rows, parts, n, k.row)?;
    Ok(Held { row, env: k.env })
}

// unpack d v, under the letters w
pub(crate) fn open(
    image: &[u16],
    literals: &[u32],
    envs: &[u16],
    p: Places,
    c: Counts,
    v: usize,
    w: BlockLetters,
    regs: &mut [u16],
    pending: &mut [u32],
    d: usize,
) -> Result<usize, Fault>
    requires { Prepared p image.now c.rows pending.old × Short (operand_in p image.now literals.now v) × (v ≤ 131072) × Unpacks envs.now w regs.old }
    ensures { OpensAt p image.now c envs.now w regs.old regs.new result (unpack d (operand_in p image.now literals.now v)) }
{
    let shared = p.shared;
    let slots = p.slots;
    let end = p.end;
    let rows = &image[shared..slots];
    let parts = &image[slots..end];
    let t = valid_typing::operands::operand(image, literals, envs, p, c, v, w, regs, pending);
    let i = and_give(
        holds_or(has_room(w), Fault::Unbound),
        inside(rows, parts, c.rows, t),
    )?;
    crate::heap::set_register(regs, d, i.row, 2 * envs.len() + 1)?;
    Ok(i.env)
}
