// What the hash functions share in code: the words of a block, and the bytes of words.
#![tactic(auto)]

ghost use Rattle.std.specs.Prelude.{◌≡◌, length};
ghost use Rattle.digest.specs.Chaining.{digest, words};

// The 16 words of a block.
// (Its 64 bytes are a fact and no `&[u8; 64]`: callers lend parts of longer messages, and the array of one comes by a TryFrom that can fail.)
pub fn load(m: &[u8]) -> [u32; 16]
    requires { length m.now ≡ 64 }
    ensures { result ≡ words m.now 16 }
{
    let mut w = [0u32; 16];
    for (t, x) in w.iter_mut().enumerate() {
        *x = octets::be32_at(m, 4 * t);
    }
    w
}

// The bytes of eight words.
pub fn store(s: [u32; 8]) -> [u8; 32]
    ensures { result ≡ digest s }
{
    let mut d = [0u8; 32];
    for (i, x) in s.iter().enumerate() {
        octets::copy_into(&mut d, 4 * i, &octets::be32(*x));
    }
    d
}
