// A key slot's area: filling it, and its candidate (LUKS 1.2.2, sections 4.2 and 4.3). Each returns how many values of HMAC it made.
#![tactic(auto)]

ghost use Rattle.std.specs.Prelude.{◌≡◌, false, List, ℕ, ◌+◌, ◌-◌, ◌*◌, ◌%◌, ◌≤◌, ◌<◌, ◌^◌, length, take};
ghost use Rattle.hash.specs.Hash.{digest_of};
ghost use Rattle.pbkdf2.specs.Pbkdf2.{pbkdf2, values_made};
ghost use Rattle.suite.specs.Split.{merge};
ghost use Rattle.suite.specs.Units.{in_units};
ghost use Rattle.splitter.specs.Diffuse.{diffuse};
ghost use Rattle.aes.specs.Planes.{Sliced};
ghost use Rattle.xts.specs.Keys.{Under, unit_decrypt};
ghost use Rattle.rules.specs.Facts.{slot_input, key_material, candidate_of};
ghost use Rattle.profiles.specs.Suites.{aes_xts};

use hash::Hash;
use hmac::Counted;
use xts::{Keys, Schedules};

// What a key slot is filled with: the passphrase, the salt and the count of its derivation, and the random stripes
// (the rules' slot_input).
#[derive(Clone, Copy)]
pub struct SlotInput<'a> {
    pub passphrase: &'a [u8],
    pub salt: &'a [u8; 32],
    pub count: u32,
    pub random: &'a [u8],
}

// The key of l bytes that a passphrase gives, at the front of the bytes.
// (No heap: 64 bytes are room for the longest key of a profile; l is the profile's.)
fn slot_key(hash: Hash, passphrase: &[u8], salt: &[u8], count: u32, l: usize) -> Counted<[u8; 64]>
    requires { (l ≤ 64) × (1 ≤ count) × (length passphrase.now < 2 ^ 61) × (length salt.now < 2 ^ 60) }
    ensures { (take l result.value ≡ pbkdf2 (digest_of hash) passphrase.now salt.now count l)
        × (result.made ≡ values_made (digest_of hash).size count l) }
{
    let mut value = [0u8; 64];
    let made = pbkdf2::pbkdf2(&mut value[..l], hash, passphrase, salt, count);
    Counted { value, made }
}

// Fills an area of n stripes: the key is split into it and enciphered there.
// (n is a profile's number of stripes, which the rules' key_material and candidate_of speak of, here and in all below down to candidate; a quotient of
// two lengths in its place would be a law more and no plainer. How area, key and n go together: see merge_groups.)
// (The arguments stay one by one: a salt of any length is what fill promised; SlotInput has the header's 32 bytes.)
pub fn fill(
    area: &mut [u8],
    hash: Hash,
    key: &[u8],
    passphrase: &[u8],
    salt: &[u8],
    count: u32,
    random: &[u8],
    n: usize,
) -> u64
    requires { (1 ≤ n) × (n * length key.now ≡ length area.old) × (length random.now ≡ (n - 1) * length key.now)
        × (32 ≤ length key.now) × (length key.now ≤ 64)
        × (length key.now % 32 ≡ 0) × (1 ≤ count) × (length passphrase.now < 2 ^ 61) × (length salt.now < 2 ^ 60) }
    ensures { (area.new ≡ key_material (aes_xts (digest_of hash)) (length key.now) n key.now
        (slot_input passphrase.now salt.now count random.now))
        × (result ≡ (aes_xts (digest_of hash)).made count (length key.now)) }
{
    let l = key.len();
    splitter::split_into(area, hash, key, random, n);
    let d = slot_key(hash, passphrase, salt, count, l);
    xts::encrypt_all(area, 0, &d.value[..l]);
    d.made
}

// The data units of a group, numbered from u, deciphered into b.
fn decipher(b: &mut [u8], group: &[u8], u: u64, keys: Schedules<'_>)
    requires { (length b.old ≡ length group.now) × (length group.now % 16 ≡ 0) × (u + length group.now < 2 ^ 64) }
    ensures { (f : ℕ → List ℕ → List ℕ) → Under false keys.entry.rounds keys.entry.blocks.now keys.entry.tweaks.now f
        → b.new ≡ in_units f u group.now }
{
    b.copy_from_slice(group);
    xts::decrypt_sliced(b, u, keys);
}

// The stripes of l bytes in a group of 32 data units.
fn per_group(l: usize) -> usize
    requires { (32 ≤ l) × (l ≤ 64) × (l % 32 ≡ 0) }
    ensures { result * l ≡ 16384 }
{
    if l < 64 { 512 } else { 256 }
}

// The merged decryption of an area, group by group of 32 data units; the last stripe is in the last group. (What d, area and n have to do
// with each other is said in each contract: a struct of a block that is written and an area that is read has no other use.)
fn merge_groups(d: &mut [u8], hash: Hash, area: &[u8], n: usize, keys: Schedules<'_>)
    requires { (1 ≤ n) × (n * length d.old ≡ length area.now) × (32 ≤ length d.old) × (length d.old ≤ 64) × (length d.old % 32 ≡ 0) }
    ensures { (f : ℕ → List ℕ → List ℕ) → Under false keys.entry.rounds keys.entry.blocks.now keys.entry.tweaks.now f
        → d.new ≡ merge (diffuse (digest_of hash)) (length d.old) n (in_units f 0 area.now) }
{
    octets::clear(d);
    let per = per_group(d.len());
    let whole = (area.len() - 1) / 16384;
    let mut b = [0u8; 16384];
    let mut left = n;
    for i in 0..whole {
        let at = 16384 * i;
        let e = at + 16384;
        decipher(&mut b, &area[at..e], 32 * i as u64, keys);
        splitter::add_stripes(d, hash, &b, per);
        left -= per;
    }
    let at = 16384 * whole;
    let last = &mut b[..area.len() - at];
    decipher(last, &area[at..], 32 * whole as u64, keys);
    splitter::merge_from(d, hash, last, left - 1);
}

// The merged decryption of an area under an expanded key, whose schedule of the blocks is sliced in ks. (A function that slices both
// schedules would hold a third on the stack.)
fn merge_sliced(d: &mut [u8], hash: Hash, area: &[u8], n: usize, ks: &[u32; 1920], keys: Keys)
    requires { (1 ≤ n) × (n * length d.old ≡ length area.now) × (32 ≤ length d.old) × (length d.old ≤ 64) × (length d.old % 32 ≡ 0) }
    ensures { Sliced (keys.rounds + 2) keys.blocks ks.now
        → d.new ≡ merge (diffuse (digest_of hash)) (length d.old) n (in_units (unit_decrypt keys) 0 area.now) }
{
    let rounds = keys.rounds;
    let vs = cipher::slice_keys(&keys.tweaks, rounds + 2);
    merge_groups(
        d,
        hash,
        area,
        n,
        Schedules {
            blocks: ks,
            tweaks: &vs,
            rounds,
        },
    );
}

// The merged decryption of an area under an expanded key.
fn merge_units(d: &mut [u8], hash: Hash, area: &[u8], n: usize, keys: Keys)
    requires { (1 ≤ n) × (n * length d.old ≡ length area.now) × (32 ≤ length d.old) × (length d.old ≤ 64) × (length d.old % 32 ≡ 0) }
    ensures { d.new ≡ merge (diffuse (digest_of hash)) (length d.old) n (in_units (unit_decrypt keys) 0 area.now) }
{
    let ks = cipher::slice_keys(&keys.blocks, keys.rounds + 2);
    merge_sliced(d, hash, area, n, &ks, keys);
}

// The candidate of an area of n stripes, in d; the area stays as it is.
pub fn candidate(
    d: &mut [u8],
    hash: Hash,
    area: &[u8],
    n: usize,
    passphrase: &[u8],
    salt: &[u8],
    count: u32,
) -> u64
    requires { (1 ≤ n) × (n * length d.old ≡ length area.now) × (32 ≤ length d.old) × (length d.old ≤ 64) × (length d.old % 32 ≡ 0) × (1 ≤ count)
        × (length passphrase.now < 2 ^ 61) × (length salt.now < 2 ^ 60) }
    ensures { (d.new
        ≡ candidate_of (aes_xts (digest_of hash)) (length d.old) n passphrase.now salt.now count area.now)
        × (result ≡ (aes_xts (digest_of hash)).made count (length d.old)) }
{
    let l = d.len();
    let s = slot_key(hash, passphrase, salt, count, l);
    merge_units(d, hash, area, n, xts::expand(&s.value[..l]));
    s.made
}
