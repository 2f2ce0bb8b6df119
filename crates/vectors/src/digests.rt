// SHA-1 and SHA-256: the examples of FIPS 180 and NIST.
ghost use Rattle.std.specs.Prelude.{◌≤◌, ◌<◌, ◌^◌, length};

use crate::hex;
use hash::Hash;
use std::io;

// Do the digits write the first n bytes of h?
pub fn begins(h: [u8; 32], n: usize, digits: &[u8]) -> bool
    requires { n ≤ 32 }
{
    hex::same(&h[..n], digits)
}

// Do the digits write the hash's digest, which stands at the front of h?
fn is_digest(hash: Hash, h: [u8; 32], digits: &[u8]) -> bool {
    begins(h, hash::size(hash), digits)
}

// A message, no longer than the hash can count, and the digits of its digest.
struct Case {
    name: &'static [u8],
    message: &'static [u8],
    digits: &'static [u8],
    ghost countable: { length message.now < 2 ^ 61 },
}

const SHA1: [Case; 4] = [
    Case {
        name: b"SHA-1, the empty message",
        message: b"",
        digits: b"da39a3ee5e6b4b0d3255bfef95601890afd80709",
    },
    Case {
        name: b"SHA-1, abc",
        message: b"abc",
        digits: b"a9993e364706816aba3e25717850c26c9cd0d89d",
    },
    Case {
        name: b"SHA-1, 448 bits",
        message: b"abcdbcdecdefdefgefghfghighijhijkijkljklmklmnlmnomnopnopq",
        digits: b"84983e441c3bd26ebaae4aa1f95129e5e54670f1",
    },
    Case {
        name: b"SHA-1, 896 bits",
        message: b"abcdefghbcdefghicdefghijdefghijkefghijklfghijklmghijklmn\
            hijklmnoijklmnopjklmnopqklmnopqrlmnopqrsmnopqrstnopqrstu",
        digits: b"a49b2446a02c645bf419f995b67091253a04a259",
    },
];

const SHA256: [Case; 4] = [
    Case {
        name: b"SHA-256, the empty message",
        message: b"",
        digits: b"e3b0c44298fc1c149afbf4c8996fb92427ae41e4649b934ca495991b7852b855",
    },
    Case {
        name: b"SHA-256, abc",
        message: b"abc",
        digits: b"ba7816bf8f01cfea414140de5dae2223b00361a396177a9cb410ff61f20015ad",
    },
    Case {
        name: b"SHA-256, 448 bits",
        message: b"abcdbcdecdefdefgefghfghighijhijkijkljklmklmnlmnomnopnopq",
        digits: b"248d6a61d20638b8e5c026930c3e6039a33ce45964ff2167f6ecedd419db06c1",
    },
    Case {
        name: b"SHA-256, 896 bits",
        message: b"abcdefghbcdefghicdefghijdefghijkefghijklfghijklmghijklmn\
            hijklmnoijklmnopjklmnopqklmnopqrlmnopqrsmnopqrstnopqrstu",
        digits: b"cf5b16a778af8380036ce59e7b0492370b249b11e8f07a51afac45037afee9d1",
    },
];

fn hash_to(rt: &impl Print, hash: Hash, cases: &[Case]) -> io::Result<()> {
    for case in cases {
        let h = hash::digest(hash, case.message);
        testing::line(rt, case.name, is_digest(hash, h, case.digits))?;
    }
    Ok(())
}

pub fn messages(rt: &impl Print) -> io::Result<()> {
    hash_to(rt, Hash::Sha1, &SHA1)?;
    hash_to(rt, Hash::Sha256, &SHA256)
}

// The chaining words after one million a: 15,625 whole blocks, one after the other.
fn blocks_of_a(hash: Hash) -> [u32; 8] {
    let block = [b'a'; 64];
    (0..15625).fold(
        hash::start(hash),
        |v, _| hash::compress_block(hash, v, &block),
    )
}

// (Hash, name and digits stay arguments, here and in splits: two calls, and there const parameters, which no table of cases can give.)
fn one_million(rt: &impl Print, hash: Hash, name: &[u8], digits: &[u8]) -> io::Result<()> {
    let h = digest::store(hash::finish_words(hash, blocks_of_a(hash), 1000000, b"", b""));
    testing::line(rt, name, is_digest(hash, h, digits))
}

pub fn long_messages(rt: &impl Print) -> io::Result<()> {
    one_million(
        rt,
        Hash::Sha1,
        b"SHA-1, one million a",
        b"34aa973cd4c4daa4f61eeb2bdbad27316534016f",
    )?;
    one_million(
        rt,
        Hash::Sha256,
        b"SHA-256, one million a",
        b"cdc76e5c9914fb9281a1c7e284d73e67f1809a48a497200e046d39ccc7112cd0",
    )
}
