// XTS-AES (IEEE 1619) on data units of whole blocks, in place: 32 blocks at a time, and the first tweaks of 32 data units at a time.
// A data unit has 512 bytes, the last maybe fewer. No index, branch or shift count comes from a key or from data.
#![tactic(auto)]

ghost use Rattle.std.specs.Prelude.{◌≡◌, ℕ, ◌+◌, ◌-◌, ◌*◌, ◌/◌, ◌%◌, ◌^◌, ◌<◌, ◌≤◌, Bool, true, false, List, ◌++◌, length, slice_index};
ghost use Rattle.octets.specs.Octets.{xors};
ghost use Rattle.octets.specs.Splice.{part};
ghost use Rattle.suite.specs.Units.{in_units};
ghost use Rattle.aes.specs.Planes.{column, block, Sliced};
ghost use Rattle.xts.specs.Xts.{little_endian, double, blocks, xts_encrypt, xts_decrypt};
ghost use Rattle.xts.specs.Keys.{tweak_bytes, tweak_at, Firsts, Expanded, Under, cipher_of, unit_run};

mod schedules;

pub use schedules::{Keys, Schedules};

// A tweak: a little-endian number of 16 bytes, in two halves.
#[derive(Clone, Copy)]
pub struct Tweak {
    pub low: u64,
    pub high: u64,
}

// ---- tweaks

// The tweak shifted left by one; a bit shifted out adds 0x87 to the first byte.
fn double(t: Tweak) -> Tweak
    ensures { tweak_bytes result ≡ double (tweak_bytes t) }
{
    let c = t.high >> 63;
    Tweak {
        low: (t.low << 1) ^ (((c << 8) - c) & 0x87),
        high: t.high << 1 | t.low >> 63,
    }
}

// The two columns of a number of eight bytes, the lowest first. (A cast may drop no bits, and the laws speak of remainder and quotient.)
fn columns(x: u64) -> [u32; 2]
    ensures { column (slice_index result 0) ++ column (slice_index result 1) ≡ little_endian 8 x }
{
    [(x % (1 << 32)) as u32, (x >> 32) as u32]
}

// The number of eight bytes, the lowest first: those of the columns a and b.
// (No method of the integers joins two halves.)
fn joined(a: u32, b: u32) -> u64
    ensures { little_endian 8 result ≡ column a ++ column b }
{
    u64::from(a) + (u64::from(b) << 32)
}

// The tweaks of 32 blocks, the first of which is first.
// (Four stores, here and in first_tweaks: the laws of a stored block, stored_here of cipher, speak of them one by one.)
fn tweaks(first: Tweak) -> [u32; 128]
    ensures { (b : ℕ) → b < 32 → block b result ≡ tweak_at b (tweak_bytes first) }
{
    let mut u = [0u32; 128];
    let mut t = first;
    for b in 0..32 {
        let k = 4 * b;
        let [w, x] = columns(t.low);
        let [y, z] = columns(t.high);
        u[k] = w;
        u[k + 1] = x;
        u[k + 2] = y;
        u[k + 3] = z;
        t = double(t);
    }
    u
}

// The first tweaks of 32 data units: their numbers from first on, enciphered with the key schedule of the tweaks.
fn first_tweaks(first: u64, keys: Schedules<'_>) -> [u32; 128]
    ensures { Firsts keys.entry.rounds keys.entry.tweaks.now first result }
{
    let mut q = [0u32; 128];
    for b in 0..32 {
        let k = 4 * b;
        let [w, x] = columns(first.wrapping_add(b as u64));
        q[k] = w;
        q[k + 1] = x;
        q[k + 2] = 0;
        q[k + 3] = 0;
    }
    // A field that is a `&` isn't lent on in place; its copy is.
    let vs = keys.tweaks;
    cipher::encrypt_blocks(&mut q, vs, keys.rounds);
    q
}

// Block b of t, as a tweak.
fn tweak_at(t: &[u32; 128], b: usize) -> Tweak
    requires { b < 32 }
    ensures { tweak_bytes result ≡ block b t.now }
{
    let k = 4 * b;
    Tweak {
        low: joined(t[k], t[k + 1]),
        high: joined(t[k + 2], t[k + 3]),
    }
}

// ---- up to 32 blocks

// The blocks of q with the bytes of s added to them.
// (At most 32 whole blocks, here and in store and run_blocks: a fact of the part of s that is lent, as at the data units below.)
fn load(q: &mut [u32; 128], s: &[u8])
    requires { (length s.now ≤ 512) × (length s.now % 16 ≡ 0) }
    ensures { (b : ℕ) → b < length s.now / 16 → block b q.new ≡ xors (part s.now (b * 16) 16) (block b q.old) }
{
    for j in 0..s.len() / 4 {
        q[j] = cipher::column_at(s, 4 * j) ^ q[j];
    }
}

// The sums of the blocks of q and u, as many as s has, as its bytes.
fn store(s: &mut [u8], q: &[u32; 128], u: &[u32; 128])
    requires { (length s.old ≤ 512) × (length s.old % 16 ≡ 0) }
    ensures { (b : ℕ) → b < length s.old / 16
        → part s.new (b * 16) 16 ≡ xors (block b q.now) (block b u.now) }
{
    for j in 0..s.len() / 4 {
        let at = 4 * j;
        let e = at + 4;
        s[at..e].copy_from_slice(&(q[j] ^ u[j]).to_le_bytes());
    }
}

// A way through the cipher.
trait Direction {
    ghost forward: { Bool };

    // Each block under the sliced key schedule k, of n rounds and the last.
    fn run(q: &mut [u32; 128], k: &[u32], n: usize)
        requires { (n + 2) * 128 ≤ length k.now }
        ensures { (w : List ℕ) → Sliced (n + 2) w k.now → (b : ℕ) → b < 32 → block b q.new ≡ cipher_of forward n w (block b q.old) };
}

// The two ways. (Their text is alike but for names, as an impl's is; rt ci admits no impl by a macro.)
struct Encipher;

impl Direction for Encipher {
    ghost forward = { true };

    fn run(q: &mut [u32; 128], k: &[u32], n: usize) {
        cipher::encrypt_blocks(q, k, n);
    }
}

struct Decipher;

impl Direction for Decipher {
    ghost forward = { false };

    fn run(q: &mut [u32; 128], k: &[u32], n: usize) {
        cipher::decrypt_blocks(q, k, n);
    }
}

// The blocks of s, the first under the tweak t.
fn run_blocks<D: Direction>(s: &mut [u8], t: Tweak, keys: Schedules<'_>)
    requires { (length s.old ≤ 512) × (length s.old % 16 ≡ 0) }
    ensures { (w : List ℕ) → Sliced (keys.entry.rounds + 2) w keys.entry.blocks.now
        → s.new ≡ blocks (cipher_of D.forward keys.entry.rounds w) (length s.old / 16) (tweak_bytes t) s.old }
{
    let u = tweaks(t);
    let mut q = u;
    load(&mut q, s);
    // As in first_tweaks: a copy of the field is lent on.
    let ks = keys.blocks;
    D::run(&mut q, ks, keys.rounds);
    store(s, &q, &u);
}

// ---- data units. (That s has whole blocks and that the numbers fit is said in each contract: s is lent on part by part, and in a struct
// with its number it could not be; callers of the public functions have the two apart.)

// At most 32 data units in place, numbered from first.
fn run_group<D: Direction>(s: &mut [u8], first: u64, keys: Schedules<'_>)
    requires { (length s.old ≤ 16384) × (length s.old % 16 ≡ 0) × (first + length s.old < 2 ^ 64) }
    ensures { (f : ℕ → List ℕ → List ℕ) → Under D.forward keys.entry.rounds keys.entry.blocks.now keys.entry.tweaks.now f
        → s.new ≡ in_units f first s.old }
{
    let t = first_tweaks(first, keys);
    let len = s.len();
    for i in 0..len.div_ceil(512) {
        let at = 512 * i;
        let k = (len - at).min(512);
        let e = at + k;
        run_blocks::<D>(&mut s[at..e], tweak_at(&t, i), keys);
    }
}

// The data units of s in place, numbered from first.
fn run_sliced<D: Direction>(s: &mut [u8], first: u64, keys: Schedules<'_>)
    requires { (length s.old % 16 ≡ 0) × (first + length s.old < 2 ^ 64) }
    ensures { (f : ℕ → List ℕ → List ℕ) → Under D.forward keys.entry.rounds keys.entry.blocks.now keys.entry.tweaks.now f
        → s.new ≡ in_units f first s.old }
{
    let len = s.len();
    for i in 0..len.div_ceil(16384) {
        let at = 16384 * i;
        let k = (len - at).min(16384);
        let e = at + k;
        run_group::<D>(&mut s[at..e], first + 32 * i as u64, keys);
    }
}

// The data units of s in place, numbered from first, under an expanded key.
fn run_units<D: Direction>(s: &mut [u8], first: u64, keys: Keys)
    requires { (length s.old % 16 ≡ 0) × (first + length s.old < 2 ^ 64) }
    ensures { s.new ≡ in_units (unit_run D.forward keys) first s.old }
{
    let n = keys.rounds;
    let ks = cipher::slice_keys(&keys.blocks, n + 2);
    let vs = cipher::slice_keys(&keys.tweaks, n + 2);
    run_sliced::<D>(
        s,
        first,
        Schedules {
            blocks: &ks,
            tweaks: &vs,
            rounds: n,
        },
    );
}

// A key of 32 or 64 bytes, expanded.
// (The key's three bounds stand here, in encrypt_all and decrypt_all, and end here: what follows from them, Keys carries on. A struct of the key's
// bytes would be built from a part of a longer buffer at each call and taken apart here; keyslot says the same of a block that it writes.)
pub fn expand(key: &[u8]) -> Keys
    requires { (32 ≤ length key.now) × (length key.now ≤ 64) × (length key.now % 32 ≡ 0) }
    ensures { Expanded result key.now }
{
    let half = key.len() / 2;
    let blocks = cipher::expand_key(&key[..half]);
    let tweaks = cipher::expand_key(&key[half..]);
    let rounds = half / 4 + 5;
    Keys {
        blocks,
        tweaks,
        rounds,
    }
}

// The data units of s deciphered in place, numbered from first.
pub fn decrypt_sliced(s: &mut [u8], first: u64, keys: Schedules<'_>)
    requires { (length s.old % 16 ≡ 0) × (first + length s.old < 2 ^ 64) }
    ensures { (f : ℕ → List ℕ → List ℕ) → Under false keys.entry.rounds keys.entry.blocks.now keys.entry.tweaks.now f
        → s.new ≡ in_units f first s.old }
{
    run_sliced::<Decipher>(s, first, keys);
}

// The data units of s enciphered in place, numbered from first, with a key of 32 or 64 bytes.
pub fn encrypt_all(s: &mut [u8], first: u64, key: &[u8])
    requires { (length s.old % 16 ≡ 0) × (first + length s.old < 2 ^ 64) × (32 ≤ length key.now) × (length key.now ≤ 64)
        × (length key.now % 32 ≡ 0) }
    ensures { s.new ≡ in_units (xts_encrypt key.now) first s.old }
{
    run_units::<Encipher>(s, first, expand(key));
}

// The data units of s deciphered in place, numbered from first, with a key of 32 or 64 bytes. (Both names are public: payload calls them.)
pub fn decrypt_all(s: &mut [u8], first: u64, key: &[u8])
    requires { (length s.old % 16 ≡ 0) × (first + length s.old < 2 ^ 64) × (32 ≤ length key.now) × (length key.now ≤ 64)
        × (length key.now % 32 ≡ 0) }
    ensures { s.new ≡ in_units (xts_decrypt key.now) first s.old }
{
    run_units::<Decipher>(s, first, expand(key));
}
