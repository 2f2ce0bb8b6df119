// The splitter of LUKS 1 with any of the hashes (LUKS 1.2.2, section 2.4), stripe by stripe. With SHA-1 the four pieces of a 64-byte
// block are hashed side by side; all others one by one.
// `length d.old < 2 ^ 32` stands in each contract: a type for such a block would be no plainer, as callers lend parts of longer strings.
// The number of stripes stands beside the slices (count, m, n, with 1 ≤ n): the contracts hold for an empty block too, of which every number of
// stripes has no byte, so that the lengths alone don't say it. d is written, hash and stripes are read: a struct of them has no other use.
#![tactic(auto)]

ghost use Rattle.std.specs.Prelude.{◌≡◌, ◌++◌, ◌+◌, ◌-◌, ◌*◌, ◌≤◌, ◌<◌, ◌^◌, length, take};
ghost use Rattle.octets.specs.Octets.{be32, xors, zeros};
ghost use Rattle.sha_1.specs.Sha1.{sha1};
ghost use Rattle.hash.specs.Hash.{digest_of};
ghost use Rattle.suite.specs.Split.{running, split, merge_from, merge};
ghost use Rattle.lanes.specs.Lanes.{Each, lane};
ghost use Rattle.splitter.specs.Diffuse.{diffuse};
ghost use Rattle.splitter.specs.Fours.{piece_block, across};

use hash::Hash;

// The digest of a piece's number and the piece, at the front of 32 bytes.
// (The digest of either hash in 32 bytes, as in hash; a piece is a part of d, not longer than a digest.)
fn numbered_digest(hash: Hash, piece: &[u8], number: u32) -> [u8; 32]
    requires { length piece.now ≤ 32 }
    ensures { take (digest_of hash).size result ≡ (digest_of hash).hash (be32 number ++ piece.now) }
{
    let mut b = [0u8; 36];
    octets::copy_into(&mut b, 0, &octets::be32(number));
    octets::copy_into(&mut b, 4, piece);
    hash::digest(hash, &b[..4 + piece.len()])
}

// H, in place, piece by piece.
fn diffuse_pieces(d: &mut [u8], hash: Hash)
    requires { length d.old < 2 ^ 32 }
    ensures { d.new ≡ diffuse (digest_of hash) d.old }
{
    let len = d.len();
    let size = hash::size(hash);
    // By the pieces' numbers: after a loop over chunks_mut a proof knows nothing of what was written.
    for i in 0..(len + (size - 1)) / size {
        let at = size * i;
        let n = size.min(len - at);
        let h = numbered_digest(hash, &d[at..at + n], i as u32);
        octets::copy_into(d, at, &h[..n]);
    }
}

// The words at index at of the first three pieces of d, and x for the last.
// (Three words at pieces of 20 bytes and one that isn't: by an index the last would be a case.)
fn across(d: &[u8], at: usize, x: u32) -> [u32; 4]
    requires { at + 44 ≤ length d.now }
    ensures { result ≡ across d.now at x }
{
    [
        octets::be32_at(d, at),
        octets::be32_at(d, at + 20),
        octets::be32_at(d, at + 40),
        x,
    ]
}

// The blocks that are hashed for the four pieces of d, side by side in the first 16 words of w.
fn load_pieces(w: &mut [[u32; 4]; 96], d: &[u8])
    requires { (length w.old ≡ 96) × (length d.now ≡ 64) }
    ensures { (length w.new ≡ 96) × Each (λ i. take 16 (lane i w.new) ≡ piece_block d.now i) }
{
    let numbers = [0u32, 1, 2, 3];
    let one = [0x80000000u32, 0x80000000, 0x80000000, 0];
    let zero = [0u32; 4];
    let bits = [192u32, 192, 192, 64];
    let x = octets::be32_at(d, 60);
    let rows = [
        numbers,
        across(d, 0, x),
        across(d, 4, 0x80000000),
        across(d, 8, 0),
        across(d, 12, 0),
        across(d, 16, 0),
        one,
        zero,
        zero,
        zero,
        zero,
        zero,
        zero,
        zero,
        zero,
        bits,
    ];
    octets::copy_into(w, 0, &rows);
}

// H of a block of 64 bytes with SHA-1, in place: its four pieces side by side.
fn diffuse_64(d: &mut [u8])
    requires { length d.old ≡ 64 }
    ensures { d.new ≡ diffuse sha1 d.old }
{
    let mut w = [[0u32; 4]; 96];
    load_pieces(&mut w, d);
    let b = lanes::store(lanes::compress(&mut w, lanes::broadcast(hash::start(Hash::Sha1))));
    d.copy_from_slice(&b[..64]);
}

// H, in place.
// (The hash is matched where SHA-1 has a way of its own for 64 bytes; the image says which it is as the program runs.)
pub fn diffuse_in(d: &mut [u8], hash: Hash)
    requires { length d.old < 2 ^ 32 }
    ensures { d.new ≡ diffuse (digest_of hash) d.old }
{
    match hash {
        Hash::Sha1 => {
            if d.len() == 64 {
                diffuse_64(d);
            } else {
                diffuse_pieces(d, hash);
            }
        }
        Hash::Sha256 => diffuse_pieces(d, hash),
    }
}

// One stripe: the running block d becomes H(d xor stripe).
fn add_stripe(d: &mut [u8], hash: Hash, stripe: &[u8])
    requires { (length d.old < 2 ^ 32) × (length stripe.now ≡ length d.old) }
    ensures { d.new ≡ diffuse (digest_of hash) (xors d.old stripe.now) }
{
    octets::xor_into(d, stripe);
    diffuse_in(d, hash);
}

// The running block d after count stripes.
pub fn add_stripes(d: &mut [u8], hash: Hash, stripes: &[u8], count: usize)
    requires { (length d.old < 2 ^ 32) × (length stripes.now ≡ count * length d.old) }
    ensures { d.new ≡ running (diffuse (digest_of hash)) (length d.old) d.old count stripes.now }
{
    let l = d.len();
    // By the stripes' numbers: chunks_exact asks that a stripe has a byte, which no caller promises.
    for m in 0..count {
        let at = m * l;
        add_stripe(d, hash, &stripes[at..at + l]);
    }
}

// Merging from the running block d: m stripes more, and the last stripe.
pub fn merge_from(d: &mut [u8], hash: Hash, stripes: &[u8], m: usize)
    requires { (length stripes.now ≡ m * length d.old + length d.old) × (length d.old < 2 ^ 32) }
    ensures { d.new ≡ merge_from (diffuse (digest_of hash)) (length d.old) d.old m stripes.now }
{
    let k = stripes.len() - d.len();
    add_stripes(d, hash, &stripes[..k], m);
    octets::xor_into(d, &stripes[k..]);
}

// The key of n stripes, in d.
pub fn merge_into(d: &mut [u8], hash: Hash, stripes: &[u8], n: usize)
    requires { (1 ≤ n) × (length stripes.now ≡ (n - 1) * length d.old + length d.old) × (length d.old < 2 ^ 32) }
    ensures { d.new ≡ merge (diffuse (digest_of hash)) (length d.old) n stripes.now }
{
    octets::clear(d);
    merge_from(d, hash, stripes, n - 1);
}

// The last stripe, from the key and the m stripes before it, in d.
fn last_stripe(d: &mut [u8], hash: Hash, key: &[u8], random: &[u8], m: usize)
    requires { (length d.old ≡ length key.now) × (length random.now ≡ m * length key.now) × (length key.now < 2 ^ 32) }
    ensures { d.new ≡ xors
        (running (diffuse (digest_of hash)) (length key.now) (zeros (length key.now)) m random.now) key.now }
{
    octets::clear(d);
    add_stripes(d, hash, random, m);
    octets::xor_into(d, key);
}

// The n stripes of a key, in area: the random ones, and the last computed behind them.
pub fn split_into(area: &mut [u8], hash: Hash, key: &[u8], random: &[u8], n: usize)
    requires { (1 ≤ n) × (length area.old ≡ (n - 1) * length key.now + length key.now) × (length random.now ≡ (n - 1) * length key.now)
        × (length key.now < 2 ^ 32) }
    ensures { area.new ≡ split (diffuse (digest_of hash)) (length key.now) n random.now key.now }
{
    octets::copy_into(area, 0, random);
    let at = random.len();
    last_stripe(&mut area[at..], hash, key, random, n - 1);
}
