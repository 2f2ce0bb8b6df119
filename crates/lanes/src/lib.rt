// SHA-1's compression of four blocks side by side. A word is an array of four, one for each lane, and each operation is made for the four
// lanes by array::from_fn, so that the compiler makes one vector operation of it. x86-64 has no rotation of vectors in its base set, and
// a rotation that the compiler recognizes among other operations keeps it from using vectors there. So the halves of ROTL^5(a) are
// added one after the other, those of ROTL^30(b) are joined one round later, and a word of the schedule is rotated one round later.
#![tactic(auto)]

ghost use Rattle.std.specs.Prelude.{◌≡◌, ℕ, [], ◌+◌, ◌*◌, ◌<◌, ◌≤◌, length, take, bit_or, bit_xor, slice_index, slice_index_or};
ghost use Rattle.octets.specs.Octets.{xors};
ghost use Rattle.digest.specs.Chaining.{◌⊞◌, schedule};
ghost use Rattle.digest.specs.Turns.{turns};
ghost use Rattle.sha_1.specs.Sha1.{rotl, f, next, rounds, compress_words};
ghost use Rattle.sha_1.specs.Turns.{turn};
ghost use Rattle.sha_1.specs.Quarters.{number};
ghost use Rattle.lanes.specs.Lanes.{Each, lane, four_digests, taps, joined, round_of};

use sha_1::Quarter;
use std::array;

// The first five words of each array in a lane of its own, side by side. (Written out: a closure that gives an array has no contract of itself, so
// array::from_fn would want one written here that is longer than the five lines.)
pub fn gather(a: [u32; 8], b: [u32; 8], c: [u32; 8], d: [u32; 8]) -> [[u32; 4]; 5]
    ensures { (lane 0 result ≡ take 5 a) × (lane 1 result ≡ take 5 b) × (lane 2 result ≡ take 5 c) × (lane 3 result ≡ take 5 d) }
{
    [
        [a[0], b[0], c[0], d[0]],
        [a[1], b[1], c[1], d[1]],
        [a[2], b[2], c[2], d[2]],
        [a[3], b[3], c[3], d[3]],
        [a[4], b[4], c[4], d[4]],
    ]
}

// The first five words of s in each lane.
pub fn broadcast(s: [u32; 8]) -> [[u32; 4]; 5]
    ensures { Each (λ i. lane i result ≡ take 5 s) }
{
    gather(s, s, s, s)
}

// The five words of lane i, the first of eight.
// (By index, one row after the other: no method of arrays takes a column. Eight, since digest::store takes the words of either hash.)
fn lane(s: [[u32; 4]; 5], i: usize) -> [u32; 8]
    requires { i < 4 }
    ensures { take 5 result ≡ lane i s }
{
    [s[0][i], s[1][i], s[2][i], s[3][i], s[4][i], 0, 0, 0]
}

// The bytes of the four lanes, one after the other.
pub fn store(s: [[u32; 4]; 5]) -> [u8; 80]
    ensures { result ≡ four_digests (lane 0 s) (lane 1 s) (lane 2 s) (lane 3 s) }
{
    let mut d = [0u8; 80];
    for i in 0..4 {
        let b = digest::store(lane(s, i));
        octets::copy_into(&mut d, 20 * i, &b[..20]);
    }
    d
}

// f of the words of a and of b, place by place. (Written out, as in gather.)
fn pairwise<F: Fn([u32; 4], [u32; 4]) -> [u32; 4]>(
    f: F,
    a: [[u32; 4]; 5],
    b: [[u32; 4]; 5],
) -> [[u32; 4]; 5]
    requires { F.IsAlwaysCallable f }
    ensures { (k : ℕ) → k < 5 → F.post f (slice_index_or a k []) (slice_index_or b k []) (slice_index_or result k []) }
{
    [
        f(a[0], b[0]),
        f(a[1], b[1]),
        f(a[2], b[2]),
        f(a[3], b[3]),
        f(a[4], b[4]),
    ]
}

// The exclusive or of two words.
fn xor_word(x: [u32; 4], y: [u32; 4]) -> [u32; 4]
    ensures { Each (λ i. slice_index result i ≡ bit_xor (slice_index x i) (slice_index y i)) }
{
    array::from_fn(|i| x[i] ^ y[i])
}

// The exclusive or of five words and five words.
pub fn xor(a: [[u32; 4]; 5], b: [[u32; 4]; 5]) -> [[u32; 4]; 5]
    ensures { Each (λ i. lane i result ≡ xors (lane i a) (lane i b)) }
{
    pairwise(xor_word, a, b)
}

// ROTL^5(a) + x + e + c + w.
fn sum(a: u32, x: u32, e: u32, c: u32, w: u32) -> u32
    ensures { result ≡ rotl 5 a ⊞ x ⊞ e ⊞ c ⊞ w }
{
    sha_1::sum5(x, e, c, w, a << 5).wrapping_add(a >> 27)
}

// The same in each lane.
fn sums(a: [u32; 4], x: [u32; 4], e: [u32; 4], c: u32, w: [u32; 4]) -> [u32; 4]
    ensures { Each (λ i. slice_index result i ≡ rotl 5 (slice_index a i) ⊞ slice_index_or x i 0 ⊞ slice_index_or e i 0 ⊞ c ⊞ slice_index_or w i 0) }
{
    array::from_fn(|i| sum(a[i], x[i], e[i], c, w[i]))
}

// The sum of two words, modulo 2^32.
fn add_word(a: [u32; 4], b: [u32; 4]) -> [u32; 4]
    ensures { Each (λ i. slice_index result i ≡ slice_index_or a i 0 ⊞ slice_index_or b i 0) }
{
    array::from_fn(|i| a[i].wrapping_add(b[i]))
}

// The or of two words.
fn or_word(x: [u32; 4], y: [u32; 4]) -> [u32; 4]
    ensures { Each (λ i. slice_index result i ≡ bit_or (slice_index x i) (slice_index y i)) }
{
    array::from_fn(|i| x[i] | y[i])
}

// The function of a quarter's rounds. (That the quarter is chosen as the rounds run is of use: with the function as a type parameter the
// compiler brought the halves of ROTL^5(a) together and made four rotations of them, in 10 per cent more instructions.)
#[tactic(auto, unfolding(sha_1::specs::Sha1::f))]
fn round_function(q: Quarter, x: [u32; 4], y: [u32; 4], z: [u32; 4]) -> [u32; 4]
    ensures { Each (λ i. slice_index result i ≡ f (number q) (slice_index x i) (slice_index y i) (slice_index z i)) }
{
    match q {
        Quarter::First => array::from_fn(|i| sha_1::ch(x[i], y[i], z[i])),
        Quarter::Second | Quarter::Fourth => array::from_fn(|i| sha_1::parity(x[i], y[i], z[i])),
        Quarter::Third => array::from_fn(|i| sha_1::maj(x[i], y[i], z[i])),
    }
}

// One of a quarter's rounds, with the constant c and the word w, on the working words a b c d e, where c is two halves.
fn step(v: [[u32; 4]; 6], q: Quarter, c: u32, w: [u32; 4]) -> [[u32; 4]; 6]
    ensures { Each (λ i. joined (lane i result) ≡ round_of (number q) c (slice_index w i) (joined (lane i v))) }
{
    let b = v[1];
    let h = or_word(v[2], v[3]);
    let x = round_function(q, b, h, v[4]);
    [
        sums(v[0], x, v[5], c, w),
        v[0],
        array::from_fn(|i| b[i] << 30),
        array::from_fn(|i| b[i] >> 2),
        h,
        v[4],
    ]
}

// Word 16 + t of the schedule, before its rotation.
fn taps_at(w: &[[u32; 4]; 96], t: usize) -> [u32; 4]
    requires { t ≤ 80 }
    ensures { Each (λ i. slice_index result i ≡ taps (lane i w.now) (16 + t)) }
{
    let a = w[t + 13];
    let b = w[t + 8];
    let c = w[t + 2];
    let d = w[t];
    array::from_fn(|i| a[i] ^ b[i] ^ c[i] ^ d[i])
}

// A quarter's rounds. The schedule runs 16 words ahead, as in sha1.
// (The working words are five, and six where c is in its two halves: each in its place by name.)
fn twenty(w: &mut [[u32; 4]; 96], s: [[u32; 4]; 5], q: Quarter) -> [[u32; 4]; 5]
    ensures { Each (λ i. (lane i w.new, lane i result) ≡ turns turn (lane i w.old, lane i s) (20 * number q) 20) }
{
    let n = q.number();
    let c = sha_1::round_constant(n);
    let mut v = [s[0], s[1], s[2], [0; 4], s[3], s[4]];
    let mut y = taps_at(w, 20 * n);
    for j in 0..20 {
        let t = 20 * n + j;
        let x = w[t];
        w[t + 16] = array::from_fn(|i| sha_1::rotl::<1>(y[i]));
        let z = taps_at(w, t + 1);
        let u = step(v, q, c, x);
        y = z;
        v = u;
    }
    [v[0], v[1], or_word(v[2], v[3]), v[4], v[5]]
}

// The 80 rounds over the block in the first 16 words of w.
fn all_rounds(w: &mut [[u32; 4]; 96], s: [[u32; 4]; 5]) -> [[u32; 4]; 5]
    ensures { Each (λ i. lane i result ≡ rounds (schedule next (take 16 (lane i w.old)) 64) (lane i s) 80) }
{
    let a = twenty(w, s, Quarter::First);
    let b = twenty(w, a, Quarter::Second);
    let c = twenty(w, b, Quarter::Third);
    twenty(w, c, Quarter::Fourth)
}

// One block in each lane, which stands in the first 16 words of w; the others are room for the schedule.
// (The type says the length too; the clauses stay as this function promised them, and those that hand w to it repeat them.)
pub fn compress(w: &mut [[u32; 4]; 96], s: [[u32; 4]; 5]) -> [[u32; 4]; 5]
    requires { length w.old ≡ 96 }
    ensures { (length w.new ≡ 96) × Each (λ i. lane i result ≡ compress_words (lane i s) (take 16 (lane i w.old))) }
{
    let v = all_rounds(w, s);
    pairwise(add_word, s, v)
}
