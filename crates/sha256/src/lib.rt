// SHA-256's compression function (FIPS 180-4). The chaining words are an array by value, handed from block to block.
#![tactic(auto)]

ghost use Rattle.std.specs.Prelude.{◌≡◌, ◌<◌, ◌≤◌, slice_index};
ghost use Rattle.digest.specs.Chaining.{◌⊞◌, ch, maj, schedule};
ghost use Rattle.digest.specs.Turns.{turns};
ghost use Rattle.sha256.specs.Sha256.{rotr, Σ₀, Σ₁, σ₀, σ₁, constants, initial, next, mix, rounds, compress_words};
ghost use Rattle.sha256.specs.Ring.{turn};

use std::array;

// One operation less than in the standard's form: no NOT.
fn ch(x: u32, y: u32, z: u32) -> u32
    ensures { result ≡ ch x y z }
{
    z ^ (x & (y ^ z))
}

// Two operations less than in the standard's form, since x ^ y is the next round's y ^ z.
fn maj(x: u32, y: u32, z: u32) -> u32
    ensures { result ≡ maj x y z }
{
    y ^ ((x ^ y) & (y ^ z))
}

fn rotr<const N: u32>(x: u32) -> u32
    requires { (0 < N) × (N < 32) }
    ensures { result ≡ rotr N x }
{
    x >> N | x << (32 - N)
}

// The four sigmas as the standard has them (4.1.2). (One function over three numbers would have a contract that says at which numbers it is which of
// Σ₀, Σ₁, σ₀, σ₁, and two of the four shift where the others rotate: longer than the four lines.)
fn big_sigma0(x: u32) -> u32
    ensures { result ≡ Σ₀ x }
{
    rotr::<2>(x) ^ rotr::<13>(x) ^ rotr::<22>(x)
}

fn big_sigma1(x: u32) -> u32
    ensures { result ≡ Σ₁ x }
{
    rotr::<6>(x) ^ rotr::<11>(x) ^ rotr::<25>(x)
}

fn sigma0(x: u32) -> u32
    ensures { result ≡ σ₀ x }
{
    rotr::<7>(x) ^ rotr::<18>(x) ^ (x >> 3)
}

fn sigma1(x: u32) -> u32
    ensures { result ≡ σ₁ x }
{
    rotr::<17>(x) ^ rotr::<19>(x) ^ (x >> 10)
}

// A word of the schedule, from the four that it depends on.
fn next_word(a: u32, b: u32, c: u32, d: u32) -> u32
    ensures { result ≡ σ₁ a ⊞ b ⊞ σ₀ c ⊞ d }
{
    sigma1(a)
        .wrapping_add(b)
        .wrapping_add(sigma0(c))
        .wrapping_add(d)
}

// One round, with the constant c and the word w.
// (The words one by one, as the standard has the round, 6.2.2: two are new, six move on, and by an index each would be a case.)
#[tactic(auto, unfolding(crate::specs::Sha256::mix))]
fn step(s: [u32; 8], c: u32, w: u32) -> [u32; 8]
    ensures { result ≡ mix c w s }
{
    let p = s[7]
        .wrapping_add(big_sigma1(s[4]))
        .wrapping_add(ch(s[4], s[5], s[6]))
        .wrapping_add(c)
        .wrapping_add(w);
    let q = big_sigma0(s[0]).wrapping_add(maj(s[0], s[1], s[2]));
    [
        p.wrapping_add(q),
        s[0],
        s[1],
        s[2],
        s[3].wrapping_add(p),
        s[4],
        s[5],
        s[6],
    ]
}

// K_0 to K_63.
const K: [u32; 64] = [
    0x428a2f98, 0x71374491, 0xb5c0fbcf, 0xe9b5dba5, 0x3956c25b, 0x59f111f1, 0x923f82a4, 0xab1c5ed5,
    0xd807aa98, 0x12835b01, 0x243185be, 0x550c7dc3, 0x72be5d74, 0x80deb1fe, 0x9bdc06a7, 0xc19bf174,
    0xe49b69c1, 0xefbe4786, 0x0fc19dc6, 0x240ca1cc, 0x2de92c6f, 0x4a7484aa, 0x5cb0a9dc, 0x76f988da,
    0x983e5152, 0xa831c66d, 0xb00327c8, 0xbf597fc7, 0xc6e00bf3, 0xd5a79147, 0x06ca6351, 0x14292967,
    0x27b70a85, 0x2e1b2138, 0x4d2c6dfc, 0x53380d13, 0x650a7354, 0x766a0abb, 0x81c2c92e, 0x92722c85,
    0xa2bfe8a1, 0xa81a664b, 0xc24b8b70, 0xc76c51a3, 0xd192e819, 0xd6990624, 0xf40e3585, 0x106aa070,
    0x19a4c116, 0x1e376c08, 0x2748774c, 0x34b0bcb5, 0x391c0cb3, 0x4ed8aa4a, 0x5b9cca4f, 0x682e6ff3,
    0x748f82ee, 0x78a5636f, 0x84c87814, 0x8cc70208, 0x90befffa, 0xa4506ceb, 0xbef9a3f7, 0xc67178f2,
];

#[tactic(auto, unfolding(crate::specs::Sha256::constants))]
fn constant(t: usize) -> u32
    requires { t < 64 }
    ensures { result ≡ slice_index constants t }
{
    K[t]
}

// Round t over the ring w; the next word takes the place of the round's.
#[tactic(auto, unfolding(crate::specs::Ring::turn, crate::specs::Ring::grow))]
fn turn(w: &mut [u32; 16], s: [u32; 8], t: usize) -> [u32; 8]
    requires { t < 64 }
    ensures { (w.new, result) ≡ turn t (w.old, s) }
{
    let i = t % 16;
    let x = w[i];
    w[i] = next_word(w[(i + 14) % 16], w[(i + 9) % 16], w[(i + 1) % 16], x);
    step(s, constant(t), x)
}

// Eight rounds from round T on. (T is a const parameter and the loop is short, so that the compiler has the rounds one after the other, with the
// places and constants in its instructions: one loop of 48 rounds and one of 16 took 2.2 times as long. After eight rounds each working word is
// back in its place.)
fn eight_rounds<const T: usize>(w: &mut [u32; 16], s: [u32; 8]) -> [u32; 8]
    requires { T ≤ 56 }
    ensures { (w.new, result) ≡ turns turn (w.old, s) T 8 }
{
    let mut v = s;
    for i in 0..8 {
        let u = turn(w, v, T + i);
        v = u;
    }
    v
}

// The 64 rounds over the block m. (The last 16 make words that nobody reads; the compiler leaves them out.)
fn all_rounds(s: [u32; 8], m: [u32; 16]) -> [u32; 8]
    ensures { result ≡ rounds (schedule next m 48) s 64 }
{
    let mut w = m;
    let a = eight_rounds::<0>(&mut w, s);
    let b = eight_rounds::<8>(&mut w, a);
    let c = eight_rounds::<16>(&mut w, b);
    let d = eight_rounds::<24>(&mut w, c);
    let e = eight_rounds::<32>(&mut w, d);
    let f = eight_rounds::<40>(&mut w, e);
    let g = eight_rounds::<48>(&mut w, f);
    eight_rounds::<56>(&mut w, g)
}

// One block, as 16 words.
// (Its like in sha_1 is over another count of words and another definition: the function generic over both is compress_words of hash's Compression.)
#[tactic(auto, unfolding(crate::specs::Sha256::compress_words, crate::specs::Sha256::add_words))]
pub fn compress_words(s: [u32; 8], m: [u32; 16]) -> [u32; 8]
    ensures { result ≡ compress_words s m }
{
    let v = all_rounds(s, m);
    array::from_fn(|i| s[i].wrapping_add(v[i]))
}

// The first chaining words.
pub fn start() -> [u32; 8]
    ensures { result ≡ initial }
{
    [
        0x6a09e667, 0xbb67ae85, 0x3c6ef372, 0xa54ff53a, 0x510e527f, 0x9b05688c, 0x1f83d9ab,
        0x5be0cd19,
    ]
}
