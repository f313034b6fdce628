// Environments: which variable now stands for a variable of a row that was read before some unpacks (specs/Environments.antt says what an
// environment is). A walk through environments may be long; a table of names is written once, and then looked up.
// Promised: `var_in`, `name_in`, which knows tables, and for a row that is a free variable `free_at`. Asked: that environments and variables
// are small.
ghost use Rattle.std.specs.Prelude.{◌≡◌, true, ℕ, ◌+◌, ◌≤◌, ◌<◌, length, get_or};
ghost use Rattle.types_rows.specs.Environments.{var_in, name_at, name_in, shifted, free_at, EnvironmentIn};

use tables::at;

// Variable j of environment e, as it counts now; an even environment needs no look at the others.
// Kept: a `while`. The walk ends at an even environment or at variable 0, whichever comes first, so a `for` over j would need both tests too.
pub fn variable(envs: &[u16], e: usize, j: usize) -> usize
    requires { (e ≤ 131072) × (j ≤ 1099511627776) × (length envs.now ≤ 65535) }
    ensures { (result ≡ var_in envs.now e j) × (result ≤ j + length envs.now) }
{
    let mut x = e;
    let mut k = j;
    while x % 2 != 0 {
        if k == 0 {
            return envs.len().saturating_sub((x + 1) / 2);
        }
        x = at(envs, x / 2);
        k -= 1;
    }
    k + envs.len().saturating_sub(x / 2)
}

// Entry j of the table of names that starts at f.
fn listed(names: &[u16], f: usize, j: usize) -> usize
    requires { (f ≤ 65535) × (j ≤ 1099511627776) }
    ensures { (result ≡ name_at names.now f j) × (result ≤ j + 65535) }
{
    if j < 64 {
        at(names, f + j)
    } else {
        at(names, f + 64) + (j - 64)
    }
}

// Variable j of environment e, which may be a table of names.
pub fn name(envs: &[u16], e: usize, j: usize) -> usize
    requires { (e ≤ 131072) × (j ≤ 1099511627776) × (length envs.now ≤ 65535) }
    ensures { (result ≡ name_in envs.now e j) × (result ≤ j + 65535) }
{
    if e % 2 == 0 || e < 65536 {
        variable(envs, e, j)
    } else {
        listed(envs, e / 2 - 32768, j)
    }
}

// Row h, if it is a variable of the given kind that is free and not filled: which variable stands for it.
pub(crate) fn free_variable(
    rows: &[u16],
    envs: &[u16],
    kind: usize,
    h: usize,
    m: u32,
    by: u32,
    d: u32,
    e: u32,
) -> Option<usize>
    requires { (h ≤ 65536) × EnvironmentIn envs.now e }
    ensures { result ≡ free_at rows.now (shifted envs.now e by) kind m d h }
{
    if h == 0 || crate::entry(rows, h - 1, 0) != kind {
        return None;
    }
    let j = crate::entry(rows, h - 1, 1).checked_sub(d as usize + m as usize)?;
    Some(name(envs, e as usize, j) + by as usize + d as usize)
}

// Writes the table of the names of environment e from entry f on, and says whether it is one: it isn't where the walk through environments
// is longer than the table.
pub fn write_names(envs: &[u16], e: usize, names: &mut [u16], f: usize) -> bool
    requires { (e ≤ 65535) × (length envs.now ≤ 64) × (f + 65 ≤ length names.old) }
    ensures { (result ≡ true → (j : ℕ) → name_at names.new f j ≡ var_in envs.now e j) × ((i : ℕ) → i < f → get_or names.new i 0 ≡ get_or names.old i 0) }
{
    let mut x = e;
    let mut k = 0;
    for j in 0..64 {
        names[f + j] = variable(envs, x, k) as u16;
        if x % 2 == 0 {
            k += 1;
        } else {
            x = at(envs, x / 2);
        }
    }
    if x % 2 != 0 {
        return false;
    }
    names[f + 64] = variable(envs, x, k) as u16;
    true
}
