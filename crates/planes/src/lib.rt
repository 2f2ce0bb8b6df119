// The steps of AES (FIPS 197) on bit planes, for 32 blocks at a time: bit j of word 16 i + 4 r + c is bit i of the byte in row r and
// column c of the block in lane j. The words 16 i + 4 r to 16 i + 4 r + 3 are row 4 i + r. MIXCOLUMNS is in the crate mixing.
#![tactic(auto)]

ghost use Rattle.std.specs.Prelude.{◌≡◌, List, ℕ, ◌%◌, ◌<◌, length, slice_index};
ghost use Rattle.octets.specs.Octets.{xors};
ghost use Rattle.aes.specs.Aes.{sub_bytes, inv_sub_bytes, shift_rows, inv_shift_rows};
ghost use Rattle.bitslice.specs.Words.{ones};
ghost use Rattle.aes.specs.Planes.{cell, state, Each, Sum, Transposed, Exchanged};
ghost use Rattle.planes.specs.Rows.{row_of, put_row, turned_sum, put_cell, exchanged_row};

use std::array;

// ---- SUBBYTES

// The words of the eight bits of the byte at p.
// (Like mixing's rows and put_rows, at other numbers: the laws here speak of cell and put_cell, those there of rows_at and put_rows, and one pair of
// functions over numbers would need both sets of laws said again of a third.)
fn cell_at(q: &[u32; 128], p: usize) -> [u32; 8]
    requires { p < 16 }
    ensures { result ≡ cell p q.now }
{
    array::from_fn(|i| q[p + 16 * i])
}

// Stores the words of the eight bits of the byte at p. (They are not neighbours, so no method of slices stores them, and a loop needs an
// invariant that is longer than the eight lines.)
fn put_cell(q: &mut [u32; 128], p: usize, r: [u32; 8])
    requires { p < 16 }
    ensures { q.new ≡ put_cell p r q.old }
{
    q[p] = r[0];
    q[p + 16] = r[1];
    q[p + 32] = r[2];
    q[p + 48] = r[3];
    q[p + 64] = r[4];
    q[p + 80] = r[5];
    q[p + 96] = r[6];
    q[p + 112] = r[7];
}

// Each byte through a circuit, in all lanes.
fn each_byte<F: Fn([u32; 8]) -> [u32; 8]>(q: &mut [u32; 128], circuit: F)
    requires { F.IsAlwaysCallable circuit }
    ensures { (f : ℕ → List ℕ → List ℕ) → ((x : List ℕ) → length (f ones x) ≡ 8) → ((x y : List ℕ) → F.post circuit x y → y ≡ f ones x)
        → (p : ℕ) → p < 16 → cell p q.new ≡ f ones (cell p q.old) }
{
    for p in 0..16 {
        let r = circuit(cell_at(q, p));
        put_cell(q, p, r);
    }
}

// SUBBYTES (5.1.1).
// (This and its inverse are one line each over each_byte: the cipher calls both by name, and their contracts name two steps of the standard.)
pub fn sub_bytes(q: &mut [u32; 128])
    ensures { Each sub_bytes q.old q.new }
{
    each_byte(q, bitslice::sbox);
}

// INVSUBBYTES (5.3.2).
pub fn inv_sub_bytes(q: &mut [u32; 128])
    ensures { Each inv_sub_bytes q.old q.new }
{
    each_byte(q, bitslice::inv_sbox);
}

// ---- SHIFTROWS with a round key: SUBBYTES and SHIFTROWS may change places, so a round adds its key in the pass of SHIFTROWS

// Row g.
// (A round key k is `&[u32]` with its length as a fact, here and in cipher's rounds: it is lent as a part of the schedule, which `Sliced` has as one
// list of words; as `&[u32; 128]` it would come by a TryFrom that can fail. g < 32, here and below, is an index that a loop counts.)
fn row(q: &[u32], g: usize) -> [u32; 4]
    requires { (length q.now ≡ 128) × (g < 32) }
    ensures { result ≡ row_of g q.now }
{
    array::from_fn(|c| q[4 * g + c])
}

// Stores row g. (Tried: by copy_from_slice the goal is a list in three pieces, where the laws of the loops speak of four stores.)
fn put_row(q: &mut [u32; 128], g: usize, x: [u32; 4])
    requires { g < 32 }
    ensures { q.new ≡ put_row g x q.old }
{
    let f = 4 * g;
    q[f] = x[0];
    q[f + 1] = x[1];
    q[f + 2] = x[2];
    q[f + 3] = x[3];
}

// Makes row g the sum of row g of q, turned to the left by m words, and row g of k, turned by n. Both rows are read in order before any
// store, so that each is one vector.
fn turn_row(q: &mut [u32; 128], k: &[u32], g: usize, m: usize, n: usize)
    requires { (length k.now ≡ 128) × (g < 32) × (m < 4) × (n < 4) }
    ensures { q.new ≡ put_row g (turned_sum m n (row_of g q.old) (row_of g k.now)) q.old }
{
    let x = row(q, g);
    let y = row(k, g);
    let z = array::from_fn(|c| x[(m + c) % 4] ^ y[(n + c) % 4]);
    put_row(q, g, z);
}

// Adds k to q, row r of the state in q being turned to the left by m[r] words, and that in k by n[r]. Inlined, so that the turns are
// constants.
#[inline(always)]
fn turn_rows(q: &mut [u32; 128], k: &[u32], m: [usize; 4], n: [usize; 4])
    requires { (length k.now ≡ 128) × ((r : ℕ) → r < 4 → slice_index m r < 4) × ((r : ℕ) → r < 4 → slice_index n r < 4) }
    ensures { (g : ℕ) → g < 32
        → row_of g q.new ≡ turned_sum (slice_index m (g % 4)) (slice_index n (g % 4)) (row_of g q.old) (row_of g k.now) }
{
    for i in 0..8 {
        let g = 4 * i;
        turn_row(q, k, g, m[0], n[0]);
        turn_row(q, k, g + 1, m[1], n[1]);
        turn_row(q, k, g + 2, m[2], n[2]);
        turn_row(q, k, g + 3, m[3], n[3]);
    }
}

// ADDROUNDKEY (5.1.4) with the key k, and SHIFTROWS (5.1.2).
pub fn shift_rows(q: &mut [u32; 128], k: &[u32])
    requires { length k.now ≡ 128 }
    ensures { (j : ℕ) → j < 32 → state j q.new ≡ shift_rows (xors (state j q.old) (state j k.now)) }
{
    turn_rows(q, k, [0, 1, 2, 3], [0, 1, 2, 3]);
}

// INVSHIFTROWS (5.3.1), and ADDROUNDKEY with the key k.
pub fn inv_shift_rows(q: &mut [u32; 128], k: &[u32])
    requires { length k.now ≡ 128 }
    ensures { (j : ℕ) → j < 32 → state j q.new ≡ xors (inv_shift_rows (state j q.old)) (state j k.now) }
{
    turn_rows(q, k, [0, 3, 2, 1], [0, 0, 0, 0]);
}

// The sum with 128 words. (octets::xor_into is for bytes: over any type it would need a law of each that ^ is bit_xor, for this one line.)
pub fn xor_words(q: &mut [u32; 128], k: &[u32])
    requires { length k.now ≡ 128 }
    ensures { Sum q.old k.now q.new }
{
    for v in 0..128 {
        q[v] ^= k[v];
    }
}

// ---- from blocks to bit planes and back

// The first of two rows, where the bits of a at m shifted up by s and those of b at m have changed places.
// (s < 32 is a shift that transpose writes as a literal: a type for it would be built five times to be read here.)
fn first_of(a: [u32; 4], b: [u32; 4], s: u32, m: u32) -> [u32; 4]
    requires { s < 32 }
    ensures { result ≡ exchanged_row 0 s m a b }
{
    array::from_fn(|c| a[c] ^ ((((a[c] >> s) ^ b[c]) & m) << s))
}

// The second of them.
fn second_of(a: [u32; 4], b: [u32; 4], s: u32, m: u32) -> [u32; 4]
    requires { s < 32 }
    ensures { result ≡ exchanged_row 1 s m a b }
{
    array::from_fn(|c| b[c] ^ (((a[c] >> s) ^ b[c]) & m))
}

// Exchanges bits of the rows of q by pairs: a row of the first half and one of the second become neighbours in d.
fn exchange(d: &mut [u32; 128], q: &[u32; 128], s: u32, m: u32)
    requires { s < 32 }
    ensures { Exchanged s m q.now d.new }
{
    for x in 0..16 {
        let a = row(q, x);
        let b = row(q, x + 16);
        put_row(d, 2 * x, first_of(a, b, s, m));
        put_row(d, 2 * x + 1, second_of(a, b, s, m));
    }
}

// From blocks to bit planes, and also back: bit 8 r + i of word 4 b + c changes places with the bit of block b's lane of word 16 i + 4 r + c.
pub fn transpose(q: &mut [u32; 128])
    ensures { Transposed q.old q.new }
{
    let mut d = [0u32; 128];
    let mut e = [0u32; 128];
    exchange(&mut d, q, 4, 0x0f0f0f0f);
    exchange(&mut e, &d, 2, 0x33333333);
    exchange(&mut d, &e, 1, 0x55555555);
    exchange(&mut e, &d, 16, 0x0000ffff);
    exchange(q, &e, 8, 0x00ff00ff);
}
