// The table of profiles in code, looked up by number and by a header's fields.
#![tactic(auto)]

ghost use Rattle.std.specs.Prelude.{◌≡◌, true, length, nat_eq, is_some, IfSome};
ghost use Rattle.std.specs.List.{find};
ghost use Rattle.rules.specs.Profiles.{number_of, known, profile_at};
ghost use Rattle.profiles.specs.Rows.{hash_of, rows};
ghost use Rattle.profiles.specs.Records.{IsProfile, IsRow, number_found, same_text, has_row};

use hash::Hash;

// A row of the table of profiles. The names are padded with zeros as in a header; digest is the hash that hash names.
// (The number is 01's, by which C's mivrozh_format asks: with_number's clause known speaks of every number, so it is no enum.)
// (01, "Forms for each place", asks for fixed byte strings as names: so they are arrays, and no texts of their own lengths.)
#[derive(Clone, Copy)]
pub struct Profile {
    pub number: u8,
    pub cipher: [u8; 32],
    pub mode: [u8; 32],
    pub hash: [u8; 32],
    pub digest: Hash,
    pub key_bytes: u32,
    pub min_slot_count: u32,
    pub min_checksum_count: u32,
}

const AES: [u8; 32] = *b"aes\0\0\0\0\0\0\0\0\0\0\0\0\0\0\0\0\0\0\0\0\0\0\0\0\0\0\0\0\0";

const XTS_PLAIN64: [u8; 32] = *b"xts-plain64\0\0\0\0\0\0\0\0\0\0\0\0\0\0\0\0\0\0\0\0\0";

const SHA1: [u8; 32] = *b"sha1\0\0\0\0\0\0\0\0\0\0\0\0\0\0\0\0\0\0\0\0\0\0\0\0\0\0\0\0";

const SHA256: [u8; 32] = *b"sha256\0\0\0\0\0\0\0\0\0\0\0\0\0\0\0\0\0\0\0\0\0\0\0\0\0\0";

const PROFILES: [Profile; 4] = [
    Profile {
        number: 1,
        cipher: AES,
        mode: XTS_PLAIN64,
        hash: SHA1,
        digest: Hash::Sha1,
        key_bytes: 32,
        min_slot_count: 1000,
        min_checksum_count: 1000,
    },
    Profile {
        number: 2,
        cipher: AES,
        mode: XTS_PLAIN64,
        hash: SHA1,
        digest: Hash::Sha1,
        key_bytes: 64, // "the same with 64"
        min_slot_count: 1000,
        min_checksum_count: 1000,
    },
    Profile {
        number: 3,
        cipher: AES,
        mode: XTS_PLAIN64,
        hash: SHA256,
        digest: Hash::Sha256, // "sha256"
        key_bytes: 32,
        min_slot_count: 1000,
        min_checksum_count: 1000,
    },
    Profile {
        number: 4,
        cipher: AES,
        mode: XTS_PLAIN64,
        hash: SHA256,
        digest: Hash::Sha256,
        key_bytes: 64, // "the same, 64"
        min_slot_count: 1000,
        min_checksum_count: 1000,
    },
];

// Do two text fields hold one text? A text ends at its first zero byte; a field with none holds nothing.
// (No == serves: what stands behind the zero byte doesn't count.)
fn same_text(field: &[u8], name: &[u8]) -> bool
    requires { length field.now ≡ length name.now }
    ensures { result ≡ same_text field.now name.now }
{
    for (i, b) in name.iter().enumerate() {
        if field[i] != *b {
            return false;
        }
        if *b == 0 {
            return true;
        }
    }
    false // no zero byte
}

impl Profile {
    // Has a header with these text fields and key bytes this profile?
    // (The four fields stay four arguments, here and below, as of the rules' number_of, which of_header's clause names.)
    #[tactic(auto, unfolding(crate::specs::Records::has_row))]
    fn has_row(&self, cipher: &[u8; 32], mode: &[u8; 32], hash: &[u8; 32], key_bytes: u32) -> bool
        ensures { result ≡ has_row cipher.now mode.now hash.now key_bytes self.now }
    {
        same_text(cipher, &self.cipher)
            && same_text(mode, &self.mode)
            && same_text(hash, &self.hash)
            && key_bytes == self.key_bytes
    }
}

// The first of these rows that a header with these text fields and key bytes has.
fn first_fit(
    table: &[Profile],
    cipher: &[u8; 32],
    mode: &[u8; 32],
    hash: &[u8; 32],
    key_bytes: u32,
) -> Option<Profile>
    ensures { result ≡ find (has_row cipher.now mode.now hash.now key_bytes) table.now }
{
    table
        .iter()
        .copied()
        .find(|p| p.has_row(cipher, mode, hash, key_bytes))
}

// The profile that a header with these text fields and key bytes has.
pub fn of_header(
    cipher: &[u8; 32],
    mode: &[u8; 32],
    hash: &[u8; 32],
    key_bytes: u32,
) -> Option<Profile>
    ensures number { number_found result ≡ number_of rows cipher.now mode.now hash.now key_bytes }
    ensures row { IfSome result (λ p. IsRow p.number p) }
{
    first_fit(&PROFILES, cipher, mode, hash, key_bytes)
}

// The first of these rows that has this number, which is 01's, as in with_number.
fn first_numbered(table: &[Profile], number: u8) -> Option<Profile>
    ensures { result ≡ find (λ r. nat_eq r.number number) table.now }
{
    table.iter().copied().find(|p| p.number == number)
}

// The profile with this number.
pub fn with_number(number: u8) -> Option<Profile>
    ensures known { is_some result ≡ known rows number }
    ensures row { IfSome result (IsRow number) }
{
    first_numbered(&PROFILES, number)
}

// The profile with this number, which the table has.
pub fn profile_at(number: u8) -> Profile
    requires { known rows number ≡ true }
    ensures { IsProfile result (profile_at rows number) }
{
    with_number(number).unwrap()
}

// The hash of the profile with this number; SHA-1 where the table has none.
pub fn hash_of(number: u8) -> Hash
    ensures { result ≡ hash_of number }
{
    match with_number(number) {
        Some(profile) => profile.digest,
        None => Hash::Sha1,
    }
}
