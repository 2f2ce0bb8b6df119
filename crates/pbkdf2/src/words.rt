// The iterations of PBKDF2 on the chaining words of any compression function.
ghost use Rattle.std.specs.Prelude.{◌≡◌, ◌-◌, ◌≤◌, length};
ghost use Rattle.octets.specs.Octets.{xors};
ghost use Rattle.pbkdf2.specs.Pbkdf2.{folded};
ghost use Rattle.pbkdf2.specs.Words.{last_block, prf_words};

use hash::Compression;
use hmac::Counted;

// The last block of a message of one whole block and the words u.
pub fn last_block<const N: usize>(u: [u32; N]) -> [u32; 16]
    requires { N ≤ 14 }
    ensures { result ≡ last_block u.entry }
{
    let mut w = [0u32; 16];
    octets::copy_into(&mut w, 0, &u);
    w[N] = 0x80000000;
    w[15] = 512 + 32 * N as u32;
    w
}

// HMAC of the words u, from the chaining words after the two key blocks.
fn prf_words<const N: usize, C: Compression<N>>(
    inner: [u32; N],
    outer: [u32; N],
    u: [u32; N],
) -> [u32; N]
    ensures { result ≡ prf_words C.compression inner.entry outer.entry u.entry }
{
    let h = C::compress_words(inner, last_block(u));
    C::compress_words(outer, last_block(h))
}

// The exclusive or, word by word.
fn xor_words<const N: usize>(a: [u32; N], b: [u32; N]) -> [u32; N]
    ensures { result ≡ xors a.entry b.entry }
{
    let mut x = a;
    for (i, y) in x.iter_mut().enumerate() {
        *y ^= b[i];
    }
    x
}

// The exclusive or of count values, of which the first is given, and how many of them were made.
pub fn iterate<const N: usize, C: Compression<N>>(
    inner: [u32; N],
    outer: [u32; N],
    first: [u32; N],
    count: u32,
) -> Counted<[u32; N]>
    requires { 1 ≤ count }
    ensures { (result.value ≡ folded (prf_words C.compression inner.entry outer.entry) first.entry (count - 1)) × (result.made ≡ count - 1) }
{
    let mut u = first;
    let mut t = first;
    let mut made: u64 = 0;
    for k in 1..count {
        let v = prf_words::<N, C>(inner, outer, u);
        let x = xor_words(t, v);
        u = v;
        t = x;
        made += 1;
    }
    Counted { value: t, made }
}
