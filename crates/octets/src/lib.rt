// Byte strings in place: copy, clear, exclusive or, comparison, and numbers in bytes.
// Each is the library's method under a contract in the definitions' words (splice, zeros, same, min, be32_of, be32_at, be32, big_endian), which
// the callers' proofs cite: a call here stays a call, since the method at its place says the same and would want these laws there again.
// equal, min and be32_of have no caller in the crates now: they stay as public promises (README names the crate, docs/DECISIONS.md equal,
// docs/LANDINGS.md min).
#![tactic(auto)]

ghost use Rattle.std.specs.Prelude.{◌≡◌, ◌+◌, ◌≤◌, min, length};
ghost use Rattle.octets.specs.Octets.{big_endian, be32_of, be32_at, xors, zeros, same, be32};
ghost use Rattle.octets.specs.Splice.{splice};

// Copies b into d, from index at.
// (By elements: copy_from_slice calls memmove, and the library may call nothing but memcpy and memset, as host/test holds it to.)
pub fn copy_into<T: Copy>(d: &mut [T], at: usize, b: &[T])
    requires { at + length b.now ≤ length d.old }
    ensures { d.new ≡ splice d.old at b.now }
{
    for i in 0..b.len() {
        d[at + i] = b[i];
    }
}

// Fills d with zeros.
pub fn clear(d: &mut [u8])
    ensures { d.new ≡ zeros (length d.old) }
{
    d.fill(0);
}

// d xor b, in d.
// (That two slices are as long as each other is between arguments that callers own apart: a struct of both would be built for one call.)
pub fn xor_into(d: &mut [u8], b: &[u8])
    requires { length d.old ≡ length b.now }
    ensures { d.new ≡ xors d.old b.now }
{
    for (i, x) in d.iter_mut().enumerate() {
        *x ^= b[i];
    }
}

// Are a and b the same bytes?
#[tactic(auto, using(crate::proofs::OctetsLaws::pointwise_same))]
pub fn equal(a: &[u8], b: &[u8]) -> bool
    ensures { result ≡ same a.now b.now }
{
    a == b
}

// The smaller of two lengths.
pub fn min(a: usize, b: usize) -> usize
    ensures { result ≡ min a b }
{
    a.min(b)
}

// The number of four bytes, the highest first.
pub fn be32_of(a: u8, b: u8, c: u8, d: u8) -> u32
    ensures { result ≡ be32_of a b c d }
{
    u32::from_be_bytes([a, b, c, d])
}

// The number of the four bytes of s from index at.
// (The four by index: as an array by try_into a part of s comes in a Result, which can't be Err here and would have to be answered. That they lie
// in s is between two arguments: a struct of a slice and an index would be built at each call.)
#[tactic(auto, unfolding(crate::specs::Octets::be32_at))]
pub fn be32_at(s: &[u8], at: usize) -> u32
    requires { at + 4 ≤ length s.now }
    ensures { result ≡ be32_at s.now at }
{
    u32::from_be_bytes([s[at], s[at + 1], s[at + 2], s[at + 3]])
}

// x as 4 bytes, the highest first.
pub fn be32(x: u32) -> [u8; 4]
    ensures { result ≡ be32 x }
{
    x.to_be_bytes()
}

// x as 8 bytes, the highest first.
pub fn be64(x: u64) -> [u8; 8]
    ensures { result ≡ big_endian 8 x }
{
    x.to_be_bytes()
}
