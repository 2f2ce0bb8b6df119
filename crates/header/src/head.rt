// What a header says, read off an image with room for one.
ghost use Rattle.std.specs.Prelude.{◌≡◌, ◌+◌, ◌*◌, ◌≤◌, ◌<◌, ◌&&◌, not, eqb, ltb, length, drop, is_some, IfSome};

use crate::offsets::{
    AREA_START, CHECKSUM, CHECKSUM_COUNT, CHECKSUM_SALT, CIPHER, COUNT, HASH, KEY_BYTES, MODE,
    PAYLOAD_START, RECORD_BYTES, RECORDS, SALT, STRIPES,
};
use crate::{ImageSector, Slot, SlotNumber, SlotState};
use hash::Hash;
use profiles::Profile;

// An image with room for a header.
#[derive(Clone, Copy)]
pub struct Head<'a> {
    pub image: &'a [u8],
    pub ghost room: { 1024 ≤ length image.now },
}

// Where the record at index i, counted from 0, begins.
// (That i is below 8 is asked here, below and by entry_at of screens: most come from loops over the eight records, and a type would be built at each turn.)
pub fn record_at(i: usize) -> usize
    requires { i < 8 }
    ensures { result ≡ 208 + i * 48 }
{
    RECORDS + i * RECORD_BYTES
}

impl<'a> Head<'a> {
    ghost use Rattle.octets.specs.Splice.{part};
    ghost use Rattle.rules.specs.Facts.{slot_of, profile_in};
    ghost use Rattle.profiles.specs.Rows.{hash_of, rows};
    ghost use Rattle.profiles.specs.Records.{IsProfile, number_found};
    ghost use Rattle.rules.specs.Checks.{every};
    ghost use Rattle.rules.specs.Header.{slot_ok, inside, apart, all_apart};
    ghost use Rattle.header.specs.Records.{facts_in, Named, IsSlot, are_areas_ok};

    // The 32 bytes of a name or a salt.
    fn field_at(self, at: usize) -> [u8; 32]
        requires { at + 32 ≤ length self.image.now }
        ensures { result ≡ part self.entry.image.now at 32 }
    {
        self.image[at..at + 32].try_into().unwrap()
    }

    // The profile that the header has.
    pub fn profile(self) -> Option<Profile>
        ensures number { number_found result ≡ profile_in rows self.entry.image.now }
        ensures found { is_some result ≡ ltb 0 (profile_in rows self.entry.image.now) }
        ensures row { IfSome result (λ p. IsProfile p (facts_in self.entry.image.now).profile) }
        ensures key { IfSome result (λ p. p.key_bytes ≤ 64) }
    {
        profiles::of_header(
            &self.field_at(CIPHER),
            &self.field_at(MODE),
            &self.field_at(HASH),
            octets::be32_at(self.image, KEY_BYTES),
        )
    }

    // The hash of its profile; SHA-1 where it has none.
    pub fn hash(self) -> Hash
        ensures { result ≡ hash_of (profile_in rows self.entry.image.now) }
    {
        match self.profile() {
            Some(profile) => profile.digest,
            None => Hash::Sha1,
        }
    }

    // The master key's length in bytes, of a header with a profile.
    pub fn key_bytes(self) -> u32
        requires { Named self.image.now }
        ensures { (result ≡ (facts_in self.entry.image.now).profile.key_bytes) × (result ≤ 64) }
    {
        octets::be32_at(self.image, KEY_BYTES)
    }

    // The payload's start.
    #[tactic(auto, unfolding(rules::specs::Facts::facts_of))]
    pub fn payload_at(self) -> ImageSector
        ensures { result.0 ≡ (facts_in self.entry.image.now).payload_at }
    {
        ImageSector(octets::be32_at(self.image, PAYLOAD_START))
    }

    // The master key's checksum.
    pub fn checksum(self) -> [u8; 20]
        ensures { result ≡ (facts_in self.entry.image.now).checksum }
    {
        self.image[CHECKSUM..CHECKSUM_SALT].try_into().unwrap()
    }

    // The checksum's salt.
    #[tactic(auto, unfolding(rules::specs::Facts::facts_of))]
    pub fn checksum_salt(self) -> [u8; 32]
        ensures { result ≡ (facts_in self.entry.image.now).checksum_salt }
    {
        self.field_at(CHECKSUM_SALT)
    }

    // The checksum's count.
    #[tactic(auto, unfolding(rules::specs::Facts::facts_of))]
    pub fn checksum_count(self) -> u32
        ensures { result ≡ (facts_in self.entry.image.now).checksum_count }
    {
        octets::be32_at(self.image, CHECKSUM_COUNT)
    }

    // The record at index i, counted from 0.
    pub fn slot_at(self, i: usize) -> Slot
        requires { i < 8 }
        ensures { IsSlot result (slot_of (facts_in self.entry.image.now) (i + 1)) }
    {
        let at = record_at(i);
        Slot {
            state: SlotState::from(octets::be32_at(self.image, at)),
            count: octets::be32_at(self.image, at + COUNT),
            salt: self.field_at(at + SALT),
            start: ImageSector(octets::be32_at(self.image, at + AREA_START)),
            stripes: octets::be32_at(self.image, at + STRIPES),
        }
    }

    // The record of a slot.
    pub fn slot(self, slot: SlotNumber) -> Slot
        ensures { IsSlot result (slot_of (facts_in self.entry.image.now) slot.number) }
    {
        self.slot_at((slot.number - 1) as usize)
    }

    // Are all eight records in order, and is the checksum's count above 0?
    pub fn records_ok(self) -> bool
        ensures { result ≡ (not (eqb (facts_in self.entry.image.now).checksum_count 0) && every slot_ok (facts_in self.entry.image.now).slot_facts) }
    {
        self.checksum_count() != 0 && self.slots_ok()
    }

    // Are all eight records in order?
    fn slots_ok(self) -> bool
        ensures { result ≡ every slot_ok (facts_in self.entry.image.now).slot_facts }
    {
        for i in 0..8 {
            if !self.slot_at(i).record_ok() {
                return false;
            }
        }
        true
    }

    // Does the image hold all up to the payload, are all eight areas between sector 2 and the payload, and do no two share a byte?
    // (That L is at most 64 is asked here, below and by Slot's methods: L is a plain argument, as of the rules' inside and apart.)
    pub fn areas_ok(self, key_bytes: u32) -> bool
        requires { key_bytes ≤ 64 }
        ensures { result ≡ are_areas_ok key_bytes (facts_in self.entry.image.now) (length self.entry.image.now) }
    {
        self.payload_at().0 as usize <= self.image.len() / 512
            && (self.areas_inside(key_bytes) && self.all_apart(key_bytes))
    }

    // Are all eight areas between sector 2 and the payload?
    fn areas_inside(self, key_bytes: u32) -> bool
        requires { key_bytes ≤ 64 }
        ensures { result ≡ every (inside key_bytes (facts_in self.entry.image.now).payload_at) (facts_in self.entry.image.now).slot_facts }
    {
        let payload = self.payload_at();
        for i in 0..8 {
            if !self.slot_at(i).area_inside(key_bytes, payload) {
                return false;
            }
        }
        true
    }

    // Do no two areas share a byte?
    fn all_apart(self, key_bytes: u32) -> bool
        requires { key_bytes ≤ 64 }
        ensures { result ≡ all_apart key_bytes (facts_in self.entry.image.now).slot_facts }
    {
        for i in 0..8 {
            if !self.apart_from_later(i, key_bytes) {
                return false;
            }
        }
        true
    }

    // Does the area at index i share no byte with a later one?
    fn apart_from_later(self, i: usize, key_bytes: u32) -> bool
        requires { (i < 8) × (key_bytes ≤ 64) }
        ensures { result ≡ every (apart key_bytes (slot_of (facts_in self.entry.image.now) (i + 1))) (drop (i + 1) (facts_in self.entry.image.now).slot_facts) }
    {
        let slot = self.slot_at(i);
        for j in i + 1..8 {
            if !slot.apart(self.slot_at(j), key_bytes) {
                return false;
            }
        }
        true
    }
}
