// The hash functions by name: SHA-1 and SHA-256 (FIPS 180-4). One code for both, over chaining words in an array of eight, of which a
// hash with fewer uses the first. Only the compression functions differ: each is also a type, for code that is generic over them.
// (Eight for both, of which the front counts, and 32 bytes of digest: 01 wants digest and chaining words as arrays by value, and which hash it is,
// the image says as the program runs, so that a size of its own would be a type of its own in every caller up to the C interface. `hash` with the
// words s and the bytes m are the standard's three, of which only s is handed on: a struct of them would be taken apart at each block.)
// (start, compress_words and size match on the hash where it is first known: a dyn value could not be handed out, and code that knows it is
// generic over Compression.)
#![tactic(auto)]

ghost use Rattle.std.specs.Prelude.{◌≡◌, refl, ◌++◌, ◌+◌, ◌/◌, ◌%◌, ◌^◌, ◌≤◌, ◌<◌, length, take};
ghost use Rattle.digest.specs.Chaining as chaining;
ghost use Rattle.digest.specs.Chaining.{LawfulCompression, compress_block, blocks, finish};
ghost use Rattle.sha_1.specs.Sha1 as sha1;
ghost use Rattle.sha_1.proofs.Sha1Laws as sha1_laws;
ghost use Rattle.sha256.specs.Sha256 as sha2;
ghost use Rattle.sha256.proofs.Sha256Laws as sha256_laws;
ghost use Rattle.hash.specs.Hash.{compression_of, digest_of, chain};

#[derive(Clone, Copy, PartialEq, Eq)]
pub enum Hash {
    Sha1,
    Sha256,
}

// A compression function on N chaining words, of which `compression` is the definition.
pub trait Compression<const N: usize> {
    ghost compression: { chaining.Compression };

    fn start() -> [u32; N]
        ensures { result ≡ compression.initial };

    fn compress_words(s: [u32; N], m: [u32; 16]) -> [u32; N]
        ensures { result ≡ compression.compress s.entry m };

    // What each `impl` must prove.
    ghost lawful: { LawfulCompression compression };

    ghost words: { compression.count ≡ N };
}

// The two instances. (Their text is alike but for names, as an impl's is; rt ci admits no impl by a macro.)
pub struct Sha1;

impl Compression<5> for Sha1 {
    ghost compression = { sha1.compression };

    fn start() -> [u32; 5] {
        sha_1::start()
    }

    fn compress_words(s: [u32; 5], m: [u32; 16]) -> [u32; 5]
        ensures { result ≡ sha1.compression.compress s m }
    {
        sha_1::compress_words(s, m)
    }

    ghost lawful = { sha1_laws.lawful };

    ghost words = { refl };
}

pub struct Sha256;

impl Compression<8> for Sha256 {
    ghost compression = { sha2.compression };

    fn start() -> [u32; 8] {
        sha256::start()
    }

    fn compress_words(s: [u32; 8], m: [u32; 16]) -> [u32; 8]
        ensures { result ≡ sha2.compression.compress s m }
    {
        sha256::compress_words(s, m)
    }

    ghost lawful = { sha256_laws.lawful };

    ghost words = { refl };
}

// The length of a digest in bytes.
pub fn size(hash: Hash) -> usize
    ensures { (result ≡ (digest_of hash).size) × (20 ≤ result) × (result ≤ 32) }
{
    match hash {
        Hash::Sha1 => 20,
        Hash::Sha256 => 32,
    }
}

// The first five of eight words.
// (By index, as in widen: std has no conversion between arrays of two lengths that can't fail.)
pub fn narrow(s: [u32; 8]) -> [u32; 5]
    ensures { result ≡ take 5 s }
{
    [s[0], s[1], s[2], s[3], s[4]]
}

// Five words as the first of eight.
pub fn widen(v: [u32; 5]) -> [u32; 8]
    ensures { take 5 result ≡ v }
{
    [v[0], v[1], v[2], v[3], v[4], 0, 0, 0]
}

// The first chaining words.
pub fn start(hash: Hash) -> [u32; 8]
    ensures { chain hash result ≡ (compression_of hash).initial }
{
    match hash {
        Hash::Sha1 => widen(Sha1::start()),
        Hash::Sha256 => Sha256::start(),
    }
}

// One block, as 16 words.
pub fn compress_words(hash: Hash, s: [u32; 8], m: [u32; 16]) -> [u32; 8]
    ensures { chain hash result ≡ (compression_of hash).compress (chain hash s) m }
{
    match hash {
        Hash::Sha1 => widen(Sha1::compress_words(narrow(s), m)),
        Hash::Sha256 => Sha256::compress_words(s, m),
    }
}

// One block, as 64 bytes.
// (64 bytes as a fact: see digest::load.)
pub fn compress_block(hash: Hash, s: [u32; 8], m: &[u8]) -> [u32; 8]
    requires { length m.now ≡ 64 }
    ensures { chain hash result ≡ compress_block (compression_of hash) (chain hash s) m.now }
{
    compress_words(hash, s, digest::load(m))
}

// The whole blocks of m.
fn absorb(hash: Hash, s: [u32; 8], m: &[u8]) -> [u32; 8]
    ensures { chain hash result ≡ blocks (compression_of hash) (chain hash s) m.now (length m.now / 64) }
{
    let mut v = s;
    for block in m.chunks_exact(64) {
        let u = compress_block(hash, v, block);
        v = u;
    }
    v
}

// The last chaining words of a message: n bytes of it, whole blocks, led to s, and the rest is m and then t.
pub fn finish_words(hash: Hash, s: [u32; 8], n: u64, m: &[u8], t: &[u8]) -> [u32; 8]
    requires { (n % 64 ≡ 0) × (length t.now ≤ 4) × (n + length m.now + length t.now < 2 ^ 61) }
    ensures { chain hash result ≡ finish (compression_of hash) (chain hash s) n (m.now ++ t.now) }
{
    let v = absorb(hash, s, m);
    let len = m.len();
    let q = 64 * (len / 64);
    let r = len - q;
    let k = r + t.len();
    let e = (k + 72) / 64 * 64;
    let bits = octets::be64(8 * (n + len as u64 + t.len() as u64));
    let mut b = [0u8; 128];
    octets::copy_into(&mut b, 0, &m[q..]);
    octets::copy_into(&mut b, r, t);
    b[k] = 128;
    octets::copy_into(&mut b, e - 8, &bits);
    absorb(hash, v, &b[..e])
}

// The digest of m, at the front of 32 bytes.
// (The bound is the standard's, on a slice that the caller owns: here, in hmac, pbkdf2 and keyslot a type for it would be built at each call.)
pub fn digest(hash: Hash, m: &[u8]) -> [u8; 32]
    requires { length m.now < 2 ^ 61 }
    ensures { take (digest_of hash).size result ≡ (digest_of hash).hash m.now }
{
    digest::store(finish_words(hash, start(hash), 0, m, b""))
}
