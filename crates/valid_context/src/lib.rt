// What the checker knows before an instruction, the types of the registers and of sp, held in two arrays of entries of two numbers; the
// second number of an entry is the environment that the first was read in. A register is a link: 0 if nothing is known of it, else one
// more than the row of its type. The items of sp stand from the bottom up to a depth: a number below 1024 is the row of a value type, one
// from 1024 on is a stack variable. What the arrays stand for, by a reading T of rows and variables in their environments, is defined in
// specs/Context.antt. Each function here is a premise of pass three (crate valid) that reads or changes only these, and promises that
// premise's equation for every T, and that no environment is held that was not there. Module premises has what pass three relies on and
// how it answers.
#![tactic(auto)]

pub mod premises;

ghost use Rattle.std.specs.Prelude.{◌≡◌, ℕ, ◌+◌, ◌-◌, ◌*◌, ◌≤◌, ◌<◌, length};
ghost use Rattle.syntax.specs.Partial.{guarded};
ghost use Rattle.types.specs.Types.{junk};
ghost use Rattle.valid.specs.Rules.{junks};
ghost use Rattle.valid.specs.Tests.{item_at, replaced, under};
ghost use Rattle.valid_context.specs.Context.{Reading, linked, regs_of, sp_of, sp_above, are_values, with_entry, EnvsIn};

// A link, and its environment.
// Kept: a link is what the arrays hold, 0 for none or one more than a row, as `linked` and, of crate types_rows, `lower` read it.
#[derive(Clone, Copy)]
pub struct Link {
    pub link: usize,
    pub env: usize,
}

// Entry i gets the numbers x and e.
pub fn put(s: &mut [u16], i: usize, x: u16, e: u16)
    requires { (i ≤ 65535) × (2 * i + 1 < length s.old) }
    ensures { s.new ≡ with_entry s.old i x e }
{
    s[2 * i] = x;
    s[2 * i + 1] = e;
}

// The link of register r.
pub fn register(regs: &[u16], r: usize) -> Link
    ensures { ((T : Reading) → item_at (regs_of T regs.now) r ≡ linked T result.env result.link) × (result.link ≤ 65535) × (result.env ≤ 65535) × ((b : ℕ) → EnvsIn b regs.now 8 → result.env ≤ b) }
{
    if r < 8 {
        Link {
            link: tables::cell::<2>(regs, r, 0),
            env: tables::cell::<2>(regs, r, 1),
        }
    } else {
        Link { link: 0, env: 0 }
    }
}

// Register d gets the type of a row in an environment, if there is such a register.
pub fn assign(regs: &mut [u16], d: usize, row: usize, env: usize) -> bool
    requires { (16 ≤ length regs.old) × (row < 65535) × (env ≤ 65535) }
    ensures { ((T : Reading) → replaced (regs_of T regs.old) d (T.type env row) ≡ guarded result (regs_of T regs.new)) × ((b : ℕ) → env ≤ b → EnvsIn b regs.old 8 → EnvsIn b regs.new 8) }
{
    if d < 8 {
        put(regs, d, (row + 1) as u16, env as u16);
        true
    } else {
        false
    }
}

// The k items on top are value types.
pub fn values(sp: &[u16], d: usize, k: usize) -> bool
    requires { d ≤ 65535 }
    ensures { (result ≡ are_values sp.now d k) × ((T : Reading) → under k (sp_of T sp.now d) ≡ guarded result (sp_of T sp.now (d - k))) }
{
    k <= d && (d - k..d).all(|i| tables::cell::<2>(sp, i, 0) < 1024)
}

// The link of item i from the top, if it and those above it are value types; else 0.
pub fn sp_item(sp: &[u16], d: usize, i: usize) -> Link
    requires { d ≤ 65535 }
    ensures { ((T : Reading) → item_at (sp_of T sp.now d) i ≡ linked T result.env result.link) × (result.link ≤ 1024) × (result.env ≤ 65535) × ((b : ℕ) → EnvsIn b sp.now d → result.env ≤ b) }
{
    if i < d && values(sp, d, i + 1) {
        Link {
            link: tables::cell::<2>(sp, d - i - 1, 0) + 1,
            env: tables::cell::<2>(sp, d - i - 1, 1),
        }
    } else {
        Link { link: 0, env: 0 }
    }
}

// The k entries above depth d get the row of the junk type.
pub fn push_junks(sp: &mut [u16], d: usize, k: usize, row: usize)
    requires { (d + k ≤ 65535) × (2 * (d + k) ≤ length sp.old) × (row < 1024) }
    ensures { ((T : Reading) → T.type 0 row ≡ junk → junks k (sp_of T sp.old d) ≡ sp_of T sp.new (d + k)) × ((b : ℕ) → EnvsIn b sp.old d → EnvsIn b sp.new (d + k)) }
{
    for i in 0..k {
        put(sp, d + i, row as u16, 0);
    }
}

// Item i from the top gets the type of a row in an environment, if it and those above it are value types. What is above the depth stays.
pub fn set_item(sp: &mut [u16], d: usize, i: usize, row: usize, env: usize) -> bool
    requires { (d ≤ 65535) × (2 * d ≤ length sp.old) × (row < 1024) × (env ≤ 65535) }
    ensures { ((T : Reading) → replaced (sp_of T sp.old d) i (T.type env row) ≡ guarded result (sp_of T sp.new d)) × ((T : Reading) (k : ℕ) → sp_above T sp.new d k ≡ sp_above T sp.old d k) × ((b m : ℕ) → env ≤ b → EnvsIn b sp.old m → EnvsIn b sp.new m) }
{
    if i < d && values(sp, d, i + 1) {
        put(sp, d - i - 1, row as u16, env as u16);
        true
    } else {
        false
    }
}
