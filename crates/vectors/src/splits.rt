// The splitter: values computed once by tools/split_vectors.py, which uses Python's hashlib. The key is the bytes 0, 1, 2, ..
// and the random stripes are the bytes 7, 14, 21, .. modulo 256.
ghost use Rattle.std.specs.Prelude.{◌≡◌, ◌+◌, ◌-◌, ◌*◌, ◌≤◌, length};

use crate::hex;
use hash::Hash;
use std::io;

// H of the key of N bytes.
fn diffuses<const N: usize>(
    rt: &impl Print,
    hash: Hash,
    name: &[u8],
    digits: &[u8],
) -> io::Result<()>
    requires { N ≤ 512 }
{
    let mut block = [0u8; N];
    testing::sequence(&mut block, 0, 1, 256);
    splitter::diffuse_in(&mut block, hash);
    testing::line(rt, name, hex::same(&block, digits))
}

// The key of KEY bytes in n stripes, of which the n - 1 random ones have RANDOM bytes and all have AREA: the last of them is as expected,
// and merged they give the key again.
fn splits<const KEY: usize, const RANDOM: usize, const AREA: usize>(
    rt: &impl Print,
    n: usize,
    hash: Hash,
    name: &[u8],
    digits: &[u8],
) -> io::Result<()>
    requires { (1 ≤ n) × (RANDOM ≡ (n - 1) * KEY) × (AREA ≡ (n - 1) * KEY + KEY) × (AREA ≤ 512) }
{
    let mut key = [0u8; KEY];
    let mut back = [0u8; KEY];
    let mut random = [0u8; RANDOM];
    let mut area = [0u8; AREA];
    testing::sequence(&mut key, 0, 1, 256);
    testing::sequence(&mut random, 7, 7, 256);
    splitter::split_into(&mut area, hash, &key, &random, n);
    splitter::merge_into(&mut back, hash, &area, n);
    let stripes = &area[..];
    let split = hex::same(&stripes[RANDOM..], digits);
    testing::line(rt, name, split && back == key)
}

pub fn diffusion(rt: &impl Print) -> io::Result<()> {
    diffuses::<32>(
        rt,
        Hash::Sha1,
        b"Splitter, SHA-1, H of 32 bytes",
        b"84e066de1e0d3544386085dd64a6451af137c6f0348ec54d3df31b787d1ba9d0",
    )?;
    diffuses::<64>(
        rt,
        Hash::Sha1,
        b"Splitter, SHA-1, H of 64 bytes",
        b"84e066de1e0d3544386085dd64a6451af137c6f0763ce0597e836252b480a8de\
          10feea6c299aadfc50c93f84c57f997aad5b165e26adc93e046f03618780cc49",
    )?;
    diffuses::<64>(
        rt,
        Hash::Sha256,
        b"Splitter, SHA-256, H of 64 bytes",
        b"bff51a6d513395979e3a870c8483769a5a70002e6e32c146c53e1d2edc467002\
          b32f0e0ffb9565b7420f28f7178244f549461806e38b750e2d47de25d70e9049",
    )
}

pub fn sha1_stripes(rt: &impl Print) -> io::Result<()> {
    splits::<32, 0, 32>(
        rt,
        1,
        Hash::Sha1,
        b"Splitter, SHA-1, 32 bytes in 1 stripe",
        b"000102030405060708090a0b0c0d0e0f101112131415161718191a1b1c1d1e1f",
    )?;
    splits::<32, 64, 96>(
        rt,
        3,
        Hash::Sha1,
        b"Splitter, SHA-1, 32 bytes in 3 stripes",
        b"30514da8a3d93ea570118e31369620ab6b52ae9fa8ec78f91a8b62b56eb7accd",
    )?;
    splits::<64, 64, 128>(
        rt,
        2,
        Hash::Sha1,
        b"Splitter, SHA-1, 64 bytes in 2 stripes",
        b"9011903dc4dc01dba1b75725ce2c4b1e1ba391050f2f6890a6df8e62808edb1d\
          cf905f02c0390f6f6b7809193772b42094bc1e0cfa3f8c0c993c6f2b0a61a0a7",
    )?;
    splits::<64, 448, 512>(
        rt,
        8,
        Hash::Sha1,
        b"Splitter, SHA-1, 64 bytes in 8 stripes",
        b"ea6fb1442d7fe7bbe4a953ebd1757836e21d8f55b6c8979783f5b72a8dc5b65d\
          e920fe52f861ffc5c91162e7d3e992d6d5528324a72a801df43a2614e0544181",
    )
}

pub fn sha256_stripes(rt: &impl Print) -> io::Result<()> {
    splits::<32, 64, 96>(
        rt,
        3,
        Hash::Sha256,
        b"Splitter, SHA-256, 32 bytes in 3 stripes",
        b"60ce2c6a0bd3adc341dd5ec03bf64effec890deb17a64685d0f4fceb79eb3852",
    )?;
    splits::<64, 448, 512>(
        rt,
        8,
        Hash::Sha256,
        b"Splitter, SHA-256, 64 bytes in 8 stripes",
        b"cbaaaa6644068ed6d6261beeafd5d5ff79a1137eac6420fa2a73e0a4102ee717\
          e6e59898c78e94bcacc067ba23b1d3e616ffdd4a64d2c12dda503c8545cfbed2",
    )
}
