// PBKDF2-HMAC (RFC 8018) with any of the hashes, two compressions for a value of HMAC. With SHA-1 the blocks of the derived key are made by
// fours, side by side, and what is left of them one by one. The values of HMAC are counted where they are made (02, Wish 6).
#![tactic(auto)]

mod words;

ghost use Rattle.std.specs.Prelude.{◌≡◌, ◌+◌, ◌-◌, ◌*◌, ◌≤◌, ◌<◌, ◌^◌, length, take};
ghost use Rattle.octets.specs.Splice.{splice};
ghost use Rattle.octets.specs.Pieces.{piece_count};
ghost use Rattle.digest.specs.Chaining.{digest};
ghost use Rattle.sha_1.specs.Sha1 as sha1;
ghost use Rattle.hash.specs.Hash.{compression_of, digest_of, chain};
ghost use Rattle.lanes.specs.Lanes.{Each, lane};
ghost use Rattle.pbkdf2.specs.Pbkdf2.{folded, pbkdf2, values_made};
ghost use Rattle.pbkdf2.specs.Words.{last_block, prf_words, first_words, block_words, four_sums, four_blocks, Holds};

use hash::{Hash, Sha1, Sha256};
use hmac::{Counted, Keyed};

// What all blocks of a derived key are made from: the prepared key, the salt and the count.
// (last_block, iterate and put_lanes match on the hash where the words' number becomes a type: the image says which it is as the program runs.
// Results for either hash are eight words or 32 bytes, of which the front counts, as in hash.)
#[derive(Clone, Copy)]
struct Source<'a> {
    key: Keyed,
    salt: &'a [u8],
    count: u32,
    ghost some: { 1 ≤ count },
    ghost short: { length salt.now < 2 ^ 60 },
}

// The last block of a message of one whole block and a digest's words, the first of u.
fn last_block(hash: Hash, u: [u32; 8]) -> [u32; 16]
    ensures { result ≡ last_block (chain hash u) }
{
    match hash {
        Hash::Sha1 => words::last_block(hash::narrow(u)),
        Hash::Sha256 => words::last_block(u),
    }
}

// last_block of SHA-1 in each lane, in the first 16 words of w.
// (The block as it is laid out, row by row: five words, the mark, zeros and the number of bits.)
fn last_blocks(w: &mut [[u32; 4]; 96], u: [[u32; 4]; 5])
    requires { length w.old ≡ 96 }
    ensures { (length w.new ≡ 96) × Each (λ i. take 16 (lane i w.new) ≡ last_block (lane i u)) }
{
    let one = [0x80000000u32; 4];
    let zero = [0u32; 4];
    let bits = [672u32; 4];
    let block = [
        u[0], u[1], u[2], u[3], u[4], one, zero, zero, zero, zero, zero, zero, zero, zero, zero,
        bits,
    ];
    octets::copy_into(w, 0, &block);
}

// prf_words in each lane, in the room w.
fn prf_lanes(
    w: &mut [[u32; 4]; 96],
    inner: [[u32; 4]; 5],
    outer: [[u32; 4]; 5],
    u: [[u32; 4]; 5],
) -> [[u32; 4]; 5]
    requires { length w.old ≡ 96 }
    ensures { (length w.new ≡ 96) × Each (λ i. lane i result ≡ prf_words sha1.compression (lane i inner) (lane i outer) (lane i u)) }
{
    last_blocks(w, u);
    let h = lanes::compress(w, inner);
    last_blocks(w, h);
    lanes::compress(w, outer)
}

impl Source<'_> {
    // The first value for block n.
    fn first_words(&self, hash: Hash, n: u32) -> [u32; 8]
        ensures { chain hash result ≡ first_words (compression_of hash) (chain hash self.now.key.inner) (chain hash self.now.key.outer) self.now.salt.now n }
    {
        let h = hash::finish_words(hash, self.key.inner, 64, self.salt, &octets::be32(n));
        hash::compress_words(hash, self.key.outer, last_block(hash, h))
    }

    // The exclusive or of count values, of which the first is given.
    fn iterate(&self, hash: Hash, first: [u32; 8]) -> Counted<[u32; 8]>
        ensures { (chain hash result.value
            ≡ folded (prf_words (compression_of hash) (chain hash self.now.key.inner) (chain hash self.now.key.outer)) (chain hash first) (self.now.count - 1))
            × (result.made ≡ self.now.count - 1) }
    {
        match hash {
            Hash::Sha1 => {
                let i = hash::narrow(self.key.inner);
                let o = hash::narrow(self.key.outer);
                let s = words::iterate::<5, Sha1>(i, o, hash::narrow(first), self.count);
                Counted {
                    value: hash::widen(s.value),
                    made: s.made,
                }
            }
            Hash::Sha256 => words::iterate::<8, Sha256>(
                self.key.inner,
                self.key.outer,
                first,
                self.count,
            ),
        }
    }

    // Block n of the derived key, T_n, at the front of the bytes.
    fn block(&self, hash: Hash, n: u32) -> Counted<[u8; 32]>
        ensures { (take (digest_of hash).size result.value
            ≡ digest (block_words (compression_of hash) (chain hash self.now.key.inner) (chain hash self.now.key.outer) self.now.salt.now self.now.count n))
            × (result.made ≡ self.now.count) }
    {
        let s = self.iterate(hash, self.first_words(hash, n));
        Counted {
            value: digest::store(s.value),
            made: 1 + s.made,
        }
    }

    // iterate in each lane, and the sums as bytes, one lane after the other.
    fn iterate_lanes(&self, first: [[u32; 4]; 5]) -> Counted<[u8; 80]>
        ensures { (result.value ≡ four_sums (prf_words sha1.compression (take 5 self.now.key.inner) (take 5 self.now.key.outer)) (self.now.count - 1) first)
            × (result.made ≡ 4 * (self.now.count - 1)) }
    {
        let inners = lanes::broadcast(self.key.inner);
        let outers = lanes::broadcast(self.key.outer);
        let mut w = [[0u32; 4]; 96];
        let mut u = first;
        let mut t = first;
        let mut made: u64 = 0;
        for j in 1..self.count {
            let v = prf_lanes(&mut w, inners, outers, u);
            let x = lanes::xor(t, v);
            u = v;
            t = x;
            made += 4;
        }
        Counted {
            value: lanes::store(t),
            made,
        }
    }

    // Blocks n to n + 3 of the derived key, by SHA-1.
    fn four_blocks(&self, n: u32) -> Counted<[u8; 80]>
        requires { n + 3 < 2 ^ 32 }
        ensures { (result.value ≡ four_blocks (take 5 self.now.key.inner) (take 5 self.now.key.outer) self.now.salt.now self.now.count n) × (result.made ≡ 4 * self.now.count) }
    {
        let a = self.first_words(Hash::Sha1, n);
        let b = self.first_words(Hash::Sha1, n + 1);
        let c = self.first_words(Hash::Sha1, n + 2);
        let d = self.first_words(Hash::Sha1, n + 3);
        let s = self.iterate_lanes(lanes::gather(a, b, c, d));
        let bytes = s.value; // (c) tried straight in the literal: the borrow checker doesn't cover an array's field there
        Counted {
            value: bytes,
            made: 4 + s.made,
        }
    }

    // The first blocks of the derived key by SHA-1, groups times four of them, into out, cropped where it ends. How many values were made.
    // (out and its bound are no part of Source, which is lent to be read by all who write; groups is no length of out: put_lanes tells its caller
    // how many blocks are there.)
    fn put_fours(&self, out: &mut [u8], groups: usize) -> u64
        requires { (length out.old ≤ 20 * (2 ^ 32 - 1)) × (4 * groups ≤ piece_count 20 (length out.old)) }
        ensures { Holds sha1.compression (take 5 self.now.key.inner) (take 5 self.now.key.outer) self.now.salt.now self.now.count (4 * groups) out.new
            × (result ≡ self.now.count * (4 * groups)) }
    {
        let mut made: u64 = 0;
        for g in 0..groups {
            let done = 4 * g;
            let t = self.four_blocks((done + 1) as u32);
            put(out, 20 * done, &t.value);
            made += t.made;
        }
        made
    }

    // The blocks that are made in lanes, into out: how many. SHA-256 has no lanes: a derived key has at most two blocks of it.
    fn put_lanes(&self, out: &mut [u8], hash: Hash) -> Counted<usize>
        requires { length out.old ≤ 20 * (2 ^ 32 - 1) }
        ensures { (result.value ≤ piece_count (digest_of hash).size (length out.old))
            × Holds (compression_of hash) (chain hash self.now.key.inner) (chain hash self.now.key.outer) self.now.salt.now self.now.count result.value out.new
            × (result.made ≡ self.now.count * result.value) }
    {
        match hash {
            Hash::Sha1 => {
                let groups = (out.len() + 19) / 20 / 4;
                let made = self.put_fours(out, groups);
                Counted {
                    value: 4 * groups,
                    made,
                }
            }
            Hash::Sha256 => Counted { value: 0, made: 0 },
        }
    }

    // The blocks that are left, one by one. How many values were made in all.
    fn put_rest(&self, out: &mut [u8], hash: Hash, done: Counted<usize>) -> u64
        requires { (length out.old ≤ 20 * (2 ^ 32 - 1)) × (done.value ≤ piece_count (digest_of hash).size (length out.old))
            × Holds (compression_of hash) (chain hash self.now.key.inner) (chain hash self.now.key.outer) self.now.salt.now self.now.count done.value out.old
            × (done.made ≡ self.now.count * done.value) }
        ensures { Holds (compression_of hash) (chain hash self.now.key.inner) (chain hash self.now.key.outer) self.now.salt.now self.now.count
            (piece_count (digest_of hash).size (length out.old)) out.new
            × (result ≡ self.now.count * piece_count (digest_of hash).size (length out.old)) }
    {
        let d = hash::size(hash);
        let blocks = (out.len() + (d - 1)) / d;
        let mut made = done.made;
        for j in done.value..blocks {
            let t = self.block(hash, (j + 1) as u32);
            put(out, d * j, &t.value[..d]);
            made += t.made;
        }
        made
    }
}

// Copies t into out from index at, as much of it as there is room for.
fn put(out: &mut [u8], at: usize, t: &[u8])
    requires { at ≤ length out.old }
    ensures { out.new ≡ splice out.old at (take (length out.old - at) t.now) }
{
    let e = t.len().min(out.len() - at);
    octets::copy_into(out, at, &t[..e]);
}

// The derived key, as long as out, and how many values of HMAC were made for it.
// The contract rules out a number that is rounded up after the product, and one that says a value too few where the count is 1.
// (hash, salt and count and their bounds stand here as every caller has them, plain; inside, Source has them with ghost fields. keyslot, slots and
// formatting call it once each, from a record or an input of their own: a public Source would be built there for that one call.)
pub fn pbkdf2(out: &mut [u8], hash: Hash, password: &[u8], salt: &[u8], count: u32) -> u64
    requires { (length password.now < 2 ^ 61) × (length salt.now < 2 ^ 60) × (1 ≤ count) × (length out.old ≤ 20 * (2 ^ 32 - 1)) }
    ensures { (out.new
        ≡ pbkdf2 (digest_of hash) password.now salt.now count (length out.old))
        × (result ≡ values_made (digest_of hash).size count (length out.old)) }
{
    let source = Source {
        key: hmac::prepare(hash, password),
        salt,
        count,
    };
    let done = source.put_lanes(out, hash);
    source.put_rest(out, hash, done)
}
