// AES (FIPS 197) for keys of 16 and 32 bytes, 32 blocks at a time and with no table: no index and no branch comes from a key or from data.
// The blocks are 128 words: word 4 b + c is column c of block b, its first row in the lowest byte. The rounds work on bit planes.
#![tactic(auto)]

ghost use Rattle.std.specs.Prelude.{◌≡◌, List, ℕ, ◌+◌, ◌-◌, ◌*◌, ◌/◌, ◌%◌, ◌<◌, ◌≤◌, length, take, drop};
ghost use Rattle.octets.specs.Octets.{be32, xors};
ghost use Rattle.octets.specs.Splice.{part};
ghost use Rattle.gf256.specs.Field.{xtime};
ghost use Rattle.aes.specs.Aes.{sub_bytes, inv_sub_bytes, shift_rows, inv_shift_rows, mix_columns, inv_mix_columns, cipher, inv_cipher, rot_word, rcon, temp, next_word, expand};
ghost use Rattle.aes.specs.Planes.{column, block, state, Sliced};

// ---- the rounds, on bit planes. SUBBYTES and SHIFTROWS may change places (5.3.5): a round key is added in the pass of SHIFTROWS, so
// that a round here begins with the key that ends the round before it.

// The round key k, and a round (5.1) up to its own round key.
fn round(q: &mut [u32; 128], k: &[u32])
    requires { length k.now ≡ 128 }
    ensures { (j : ℕ) → j < 32 → state j q.new ≡ mix_columns (shift_rows (sub_bytes (xors (state j q.old) (state j k.now)))) }
{
    planes::shift_rows(q, k);
    planes::sub_bytes(q);
    mixing::mix_columns(q);
}

// The round key k, and the last round (5.1) with the round key l.
fn last_round(q: &mut [u32; 128], k: &[u32], l: &[u32])
    requires { (length k.now ≡ 128) × (length l.now ≡ 128) }
    ensures { (j : ℕ) → j < 32
        → state j q.new ≡ xors (shift_rows (sub_bytes (xors (state j q.old) (state j k.now)))) (state j l.now) }
{
    planes::shift_rows(q, k);
    planes::sub_bytes(q);
    planes::xor_words(q, l);
}

// The last round undone (5.3): its round key l, and all up to the round key k before it.
fn inv_last_round(q: &mut [u32; 128], k: &[u32], l: &[u32])
    requires { (length k.now ≡ 128) × (length l.now ≡ 128) }
    ensures { (j : ℕ) → j < 32
        → state j q.new ≡ xors (inv_sub_bytes (inv_shift_rows (xors (state j q.old) (state j l.now)))) (state j k.now) }
{
    planes::xor_words(q, l);
    planes::inv_sub_bytes(q);
    planes::inv_shift_rows(q, k);
}

// A round undone (5.3) after its round key, and the round key k before it.
fn inv_round(q: &mut [u32; 128], k: &[u32])
    requires { length k.now ≡ 128 }
    ensures { (j : ℕ) → j < 32
        → state j q.new ≡ xors (inv_sub_bytes (inv_shift_rows (inv_mix_columns (state j q.old)))) (state j k.now) }
{
    mixing::inv_mix_columns(q);
    planes::inv_sub_bytes(q);
    planes::inv_shift_rows(q, k);
}

// CIPHER (5.1) of each block: n rounds and the last, with the sliced key schedule k.
// (k and n are apart here and in decrypt_blocks: n is the number of rounds and no length, as k may be longer; the struct that has them with their
// bound is xts::Schedules, above this crate, and vectors calls with a slice of its own.)
pub fn encrypt_blocks(q: &mut [u32; 128], k: &[u32], n: usize)
    requires { (n + 2) * 128 ≤ length k.now }
    ensures { (w : List ℕ) → Sliced (n + 2) w k.now → (b : ℕ) → b < 32 → block b q.new ≡ cipher n w (block b q.old) }
{
    planes::transpose(q);
    for i in 0..n {
        let a = i * 128;
        let e = a + 128;
        round(q, &k[a..e]);
    }
    let f = n * 128;
    let g = f + 128;
    let h = g + 128;
    last_round(q, &k[f..g], &k[g..h]);
    planes::transpose(q);
}

// INVCIPHER (5.3) of each block: the last round undone, and n rounds, with the sliced key schedule k.
pub fn decrypt_blocks(q: &mut [u32; 128], k: &[u32], n: usize)
    requires { (n + 2) * 128 ≤ length k.now }
    ensures { (w : List ℕ) → Sliced (n + 2) w k.now → (b : ℕ) → b < 32 → block b q.new ≡ inv_cipher n w (block b q.old) }
{
    planes::transpose(q);
    let f = n * 128;
    let g = f + 128;
    let h = g + 128;
    inv_last_round(q, &k[f..g], &k[g..h]);
    for i in (0..n).rev() {
        let a = i * 128;
        let e = a + 128;
        inv_round(q, &k[a..e]);
    }
    planes::transpose(q);
}

// ---- the key schedule

// SUBWORD (5.2).
fn sub_word(x: u32) -> u32
    ensures { be32 result ≡ sub_bytes (be32 x) }
{
    let mut q = [0u32; 128];
    q[0] = x;
    planes::transpose(&mut q);
    planes::sub_bytes(&mut q);
    planes::transpose(&mut q);
    q[0]
}

// ROTWORD (5.2).
fn rot_word(x: u32) -> u32
    ensures { be32 result ≡ rot_word (be32 x) }
{
    x << 8 | x >> 24
}

// The word of the four bytes of w from index at, the highest first.
// (octets::be32_at, with the contract that the schedule's laws speak in: the bytes of the word, not its number.)
fn word_at(w: &[u8], at: usize) -> u32
    requires { at + 4 ≤ length w.now }
    ensures { be32 result ≡ take 4 (drop at w.now) }
{
    octets::be32_at(w, at)
}

// XTIMES (4.2): the byte shifted left by one; a bit shifted out adds 0x1b.
fn double(a: u8) -> u8
    ensures { result ≡ xtime a }
{
    let c = a >> 7;
    (a << 1) ^ (((c << 5) - c) & 0x1b)
}

// The first byte of the round constant of word i (5.2), constant being that of word i - 1: doubled at each multiple of nk.
// (nk, i and constant are what expand_key's loop runs on: i is its counter and constant changes with it, so a struct of the three would be built anew
// at each word. Which word constant belongs to differs: i - 1 here, i below; 4 ≤ nk is about expand_key's own nk, handed on.)
fn next_constant(constant: u8, nk: usize, i: usize) -> u8
    requires { (4 ≤ nk) × (nk < i) × (constant ≡ rcon ((i - 1) / nk - 1)) }
    ensures { result ≡ rcon (i / nk - 1) }
{
    if i % nk == 0 {
        return double(constant);
    }
    constant
}

// What KEYEXPANSION (5.2) adds to word i - nk, t being word i - 1 and constant the first byte of the round constant.
fn temp_word(t: u32, nk: usize, i: usize, constant: u8) -> u32
    requires { (4 ≤ nk) × (constant ≡ rcon (i / nk - 1)) }
    ensures { be32 result ≡ temp nk i (be32 t) }
{
    let p = i % nk;
    if p == 0 {
        return sub_word(rot_word(t)) ^ u32::from_be_bytes([constant, 0, 0, 0]);
    }
    if nk <= 6 {
        return t;
    }
    if p == 4 {
        return sub_word(t);
    }
    t
}

// Word i of the schedule w (5.2), which has the words before it.
// (i is the word that is made, as the standard names it; the words behind it are room.)
fn next_word(w: &[u8], nk: usize, i: usize, constant: u8) -> u32
    requires { (4 ≤ nk) × (nk ≤ i) × (i * 4 ≤ length w.now) × (constant ≡ rcon (i / nk - 1)) }
    ensures { be32 result ≡ next_word nk i w.now }
{
    word_at(w, (i - nk) * 4) ^ temp_word(word_at(w, (i - 1) * 4), nk, i, constant)
}

// KEYEXPANSION (5.2) of a key of 4 to 8 words, at the start of the result.
// (No heap: the result has room for the longest schedule, and its front counts. The bounds are on a half of a key that the caller owns; what
// follows from them, xts::Keys carries on.)
pub fn expand_key(key: &[u8]) -> [u8; 240]
    requires { (16 ≤ length key.now) × (length key.now ≤ 32) × (length key.now % 4 ≡ 0) }
    ensures { take ((length key.now / 4 + 7) * 16) result ≡ expand (length key.now / 4) key.now }
{
    let mut w = [0u8; 240];
    octets::copy_into(&mut w, 0, key);
    let nk = key.len() / 4;
    let mut constant: u8 = 1;
    for i in nk..(nk + 7) * 4 {
        let x = octets::be32(next_word(&w, nk, i, constant));
        octets::copy_into(&mut w, i * 4, &x);
        constant = next_constant(constant, nk, i + 1);
    }
    w
}

// ---- round keys as bit planes

// The column of the four bytes of s from index at.
// (The four by index, as in octets::be32_at; a call of it stays a call, as its contract is in columns.)
pub fn column_at(s: &[u8], at: usize) -> u32
    requires { at + 4 ≤ length s.now }
    ensures { column result ≡ take 4 (drop at s.now) }
{
    u32::from_le_bytes([s[at], s[at + 1], s[at + 2], s[at + 3]])
}

// A block in all lanes: that of the 16 bytes of w from index at.
fn spread(w: &[u8], at: usize) -> [u32; 128]
    requires { at + 16 ≤ length w.now }
    ensures { (j : ℕ) → j < 32 → state j result ≡ part w.now at 16 }
{
    let columns = [
        column_at(w, at),
        column_at(w, at + 4),
        column_at(w, at + 8),
        column_at(w, at + 12),
    ];
    let mut q = [0u32; 128];
    for v in 0..128 {
        q[v] = columns[v % 4];
    }
    planes::transpose(&mut q);
    q
}

// The first m round keys of the key schedule w, sliced.
// (m is a number of round keys and no length: w and the result have room for the longest schedule, and their front counts.)
pub fn slice_keys(w: &[u8], m: usize) -> [u32; 1920]
    requires { (m ≤ 15) × (m * 16 ≤ length w.now) }
    ensures { Sliced m w.now result }
{
    let mut k = [0u32; 1920];
    for i in 0..m {
        let q = spread(w, i * 16);
        let a = i * 128;
        let e = a + 128;
        k[a..e].copy_from_slice(&q);
    }
    k
}
