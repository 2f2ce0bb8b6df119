// HMAC (RFC 2104) with any of the hashes, with the chaining words after the two key blocks computed once for a key.
#![tactic(auto)]

ghost use Rattle.std.specs.Prelude.{◌≡◌, ◌+◌, ◌≤◌, ◌<◌, ◌^◌, length, take, replicate};
ghost use Rattle.octets.specs.Octets.{xors, padded};
ghost use Rattle.digest.specs.Chaining.{compress_block};
ghost use Rattle.hash.specs.Hash.{compression_of, digest_of, chain};
ghost use Rattle.hmac.specs.Hmac.{key_block, hmac};
ghost use Rattle.hmac.specs.Keyed.{keyed, finish_keyed};

use hash::Hash;

// The bytes of a block of either hash: a key with more is hashed.
const BLOCK_BYTES: usize = 64;

// The chaining words after the inner and the outer key block.
// (Eight words each, and digests in 32 bytes, of which the front counts with SHA-1: 01's arrays by value, as in hash.)
#[derive(Clone, Copy)]
pub struct Keyed {
    pub inner: [u32; 8],
    pub outer: [u32; 8],
}

// A value, and how many values of HMAC were made for it (02, Wish 6).
#[derive(Clone, Copy)]
pub struct Counted<T> {
    pub value: T,
    pub made: u64,
}

// The bytes of t, and zeros.
// (Like formatting's uuid_field, at another length: each is a copy into zeros, and one over both, in octets, would be another public promise
// for two calls. The bound is on a slice that the caller owns, a digest or a key of at most a block.)
fn zero_pad(t: &[u8]) -> [u8; 64]
    requires { length t.now ≤ 64 }
    ensures { result ≡ padded 64 t.now }
{
    let mut d = [0u8; 64];
    octets::copy_into(&mut d, 0, t);
    d
}

// The key as a block: a longer key is hashed first.
fn key_block(hash: Hash, key: &[u8]) -> [u8; 64]
    requires { length key.now < 2 ^ 61 }
    ensures { result ≡ key_block (digest_of hash) key.now }
{
    if BLOCK_BYTES < key.len() {
        zero_pad(&hash::digest(hash, key)[..hash::size(hash)])
    } else {
        zero_pad(key)
    }
}

// The chaining words after the block b xor p in each byte.
fn after_block(hash: Hash, b: [u8; 64], p: u8) -> [u32; 8]
    ensures { chain hash result ≡ compress_block (compression_of hash) (compression_of hash).initial (xors b (replicate 64 p)) }
{
    let mut x = b;
    let pad = [p; 64];
    octets::xor_into(&mut x, &pad);
    hash::compress_block(hash, hash::start(hash), &x)
}

// The work on the key that all its messages share.
#[tactic(auto, unfolding(crate::specs::Keyed::keyed, crate::specs::Hmac::xor_pad))]
pub fn prepare(hash: Hash, key: &[u8]) -> Keyed
    requires { length key.now < 2 ^ 61 }
    ensures { (chain hash result.inner ≡ keyed (compression_of hash) 0x36 key.now)
        × (chain hash result.outer ≡ keyed (compression_of hash) 0x5c key.now) }
{
    let b = key_block(hash, key);
    Keyed {
        inner: after_block(hash, b, 0x36),
        outer: after_block(hash, b, 0x5c),
    }
}

// The digest of a key block and m, at the front of 32 bytes, from the chaining words s after the block.
// (The bound is RFC 2104's message behind a key block, on a slice that hmac's caller owns: a type for it would be built there for one call.)
fn finish_keyed(hash: Hash, s: [u32; 8], m: &[u8]) -> [u8; 32]
    requires { 64 + length m.now < 2 ^ 61 }
    ensures { take (digest_of hash).size result ≡ finish_keyed (compression_of hash) (chain hash s) m.now }
{
    digest::store(hash::finish_words(hash, s, 64, m, b""))
}

// The HMAC of m under a prepared key, at the front of 32 bytes.
fn hmac_with(hash: Hash, k: Keyed, m: &[u8]) -> [u8; 32]
    requires { 64 + length m.now < 2 ^ 61 }
    ensures { take (digest_of hash).size result
        ≡ finish_keyed (compression_of hash) (chain hash k.outer) (finish_keyed (compression_of hash) (chain hash k.inner) m.now) }
{
    let h = finish_keyed(hash, k.inner, m);
    finish_keyed(hash, k.outer, &h[..hash::size(hash)])
}

// The HMAC of m under the key, at the front of 32 bytes.
pub fn hmac(hash: Hash, key: &[u8], m: &[u8]) -> [u8; 32]
    requires { (length key.now < 2 ^ 61) × (64 + length m.now < 2 ^ 61) }
    ensures { take (digest_of hash).size result ≡ hmac (digest_of hash) key.now m.now }
{
    hmac_with(hash, prepare(hash, key), m)
}
