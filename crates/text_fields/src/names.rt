// The names of a line: the code of the form that its first field names, and the letters of a code row.
// Promises: each answer, and what is written into lent memory, is what crate text says of the field, on every input; a reader takes
// the field alone, as a part of the caller's line, and nothing is written past the end of what is lent.
ghost use Rattle.std.specs.Prelude.{◌≡◌, ◌≤◌, map, reverse, length, take, drop};
ghost use Rattle.std.specs.List.{list_all};
ghost use Rattle.std.proofs.lemmas.List.Edits.{sets};
ghost use Rattle.text.specs.Bytes.{bytes, same_bytes};
ghost use Rattle.text.specs.Grammar.{forms, letters};
ghost use Rattle.text_fields.specs.numbers.Numbers.{number_of};
ghost use Rattle.text_fields.specs.names.Letters.{count_of, codes_of};
ghost use Rattle.text_fields.specs.names.Pieces.{is_letter, letter_code, word_count, packed, keys_of, key_place};
ghost use Rattle.text_fields.specs.names.Names.{name_code};

// The bytes as one number, the first the least, below a 1: two fields are equal if their numbers are.
fn pack(f: &[u8]) -> u64
    requires { length f.now ≤ 6 }
    ensures { result ≡ packed f.now }
{
    let mut k: u64 = 1;
    for i in (0..f.len()).rev() {
        k = k * 256 + u64::from(f[i]);
    }
    k
}

// Kept: these two compare packed names and not the bytes, since one comparison of machine words a name is faster.
// The place of a packed name among those of type lines and of blocks; 12 where it is none of them.
fn row_name(k: u64) -> usize
    ensures { result ≡ key_place (take 12 (keys_of forms)) k }
{
    match k {
        329 => 0, // I
        334 => 1, // N
        342 => 2, // V
        341 => 3, // U
        336 => 4, // P
        323 => 5, // C
        328 => 6, // H
        325 => 7, // E
        344 => 8, // X
        331 => 9, // K
        321 => 10, // A
        322 => 11, // B
        _ => 12,
    }
}

// The place of a packed name among those of instructions; 24 where it is none of them.
fn instr_name(k: u64) -> usize
    ensures { result ≡ key_place (drop 12 (keys_of forms)) k }
{
    match k {
        23356513 => 0, // add
        23229811 => 1, // sub
        23885165 => 2, // mul
        24208738 => 3, // beq
        6197440098 => 4, // bneq
        24405858 => 5, // bgt
        24407138 => 6, // blt
        5997094754 => 7, // bgte
        5997096034 => 8, // blte
        24538989 => 9, // mov
        91244 => 10, // ld
        95347 => 11, // st
        390805188272493 => 12, // malloc
        1582484972903 => 13, // getsp
        1582484972915 => 14, // setsp
        390805188272499 => 15, // salloc
        1535005320819 => 16, // sfree
        23358579 => 17, // sld
        24408947 => 18, // sst
        24145011 => 19, // slp
        24146803 => 20, // ssp
        24145258 => 21, // jmp
        6248227176 => 22, // halt
        399549557403253 => 23, // unpack
        _ => 24,
    }
}

// The place of the form that the field names: I 0, N 1, .. unpack 35; 36 where there is none.
pub fn name_code(f: &[u8]) -> usize
    ensures { result ≡ name_code f.now }
{
    if 6 < f.len() {
        return 36;
    }
    let k = pack(f);
    let r = row_name(k);
    if r < 12 { r } else { instr_name(k) + 12 }
}

// The field is a dash alone.
fn is_dash(f: &[u8]) -> bool
    ensures { result ≡ same_bytes f.now (bytes "-") }
{
    matches!(f, [b'-'])
}

// Each byte is a letter v or s.
fn all_letters(f: &[u8]) -> bool
    ensures { result ≡ list_all is_letter f.now }
{
    f.iter().all(|b| matches!(*b, b'v' | b's'))
}

// How many letters the field has, 1 to 8 and no other byte.
fn letter_count(f: &[u8]) -> Option<u32>
    ensures { number_of result ≡ word_count f.now }
{
    if f.is_empty() || 8 < f.len() || !all_letters(f) {
        return None;
    }
    Some(f.len() as u32)
}

// Writes the letters from `at` on, the last first.
fn put_letters(f: &[u8], out: &mut [u16], at: usize)
    ensures { out.new ≡ sets out.old at (map letter_code (reverse f.now)) }
{
    let mut to = at;
    for i in (0..f.len()).rev() {
        if out.len() <= to {
            return;
        }
        out[to] = u16::from(f[i] == b's');
        to += 1;
    }
}

// The letters of a code row: how many, and from `at` on 0 for v and 1 for s in the order of their variables, the last
// letter first. Where the field is no such field nothing is written.
pub fn letters(f: &[u8], out: &mut [u16], at: usize) -> Option<u32>
    ensures { (number_of result ≡ count_of (letters f.now)) × (out.new ≡ sets out.old at (codes_of (letters f.now))) }
{
    if is_dash(f) {
        return Some(0);
    }
    let n = letter_count(f)?;
    put_letters(f, out, at);
    Some(n)
}
