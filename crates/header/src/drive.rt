// A drive whose header check has passed, and the checks that ask it.
ghost use Rattle.std.specs.Prelude.{◌≡◌, ◌≤◌, IfOk};
ghost use Rattle.header.specs.Records.{HeaderOk};

use crate::check::{ensure, size_ok};
use crate::offsets::{CIPHER, MAGIC, VERSION};
use crate::{Head, LUKS_MAGIC, Refusal, Slot, SlotNumber, VERSION_1};
use hash::Hash;
use profiles::Profile;

// A drive whose header check has passed: all later checks and all work begin here.
#[derive(Clone, Copy)]
pub struct Drive<'a> {
    pub image: &'a [u8],
    pub ghost accepted: { HeaderOk image.now },
}

impl<'a> Drive<'a> {
    ghost use Rattle.rules.specs.Checks.{first};
    ghost use Rattle.rules.specs.Facts.{slot_of, is_enabled, profile_in};
    ghost use Rattle.rules.specs.Header.{header_checks};
    ghost use Rattle.rules.specs.Calls.{key_ok, count_ok, random_ok, filler_ok};
    ghost use Rattle.profiles.specs.Records.{IsProfile};
    ghost use Rattle.profiles.specs.Rows.{hash_of, rows};
    ghost use Rattle.profiles.specs.Suites.{built};
    ghost use Rattle.header.specs.Refusals.{checked};
    ghost use Rattle.header.specs.Records.{facts_in, IsSlot};

    // The header check, refusals 1 to 6.
    pub fn check(image: &'a [u8]) -> Result<Drive<'a>, Refusal>
        ensures number { checked result ≡ first (header_checks built image.now) }
        ensures same { IfOk result (λ d. d.image.now ≡ image.now) }
    {
        ensure(size_ok(image), Refusal::ImageSize)?;
        let head = Head { image };
        ensure(image[MAGIC..VERSION] == LUKS_MAGIC[..], Refusal::Magic)?;
        ensure(image[VERSION..CIPHER] == VERSION_1[..], Refusal::Version)?;
        let profile = head.profile().ok_or(Refusal::NoProfile)?;
        ensure(head.records_ok(), Refusal::BadRecord)?;
        ensure(head.areas_ok(profile.key_bytes), Refusal::BadArea)?;
        Ok(Drive { image })
    }

    // Its header.
    pub fn head(self) -> Head<'a>
        ensures { result.image.now ≡ self.entry.image.now }
    {
        Head { image: self.image }
    }

    // Its profile.
    pub fn profile(self) -> Profile
        ensures { IsProfile result (facts_in self.entry.image.now).profile }
    {
        self.head().profile().unwrap()
    }

    // The master key's length in bytes.
    pub fn key_bytes(self) -> u32
        ensures { (result ≡ (facts_in self.entry.image.now).profile.key_bytes) × (result ≤ 64) }
    {
        self.head().key_bytes()
    }

    // The hash of its profile.
    pub fn hash(self) -> Hash
        ensures { result ≡ hash_of (profile_in rows self.entry.image.now) }
    {
        self.head().hash()
    }

    // The record of a slot.
    pub fn slot(self, slot: SlotNumber) -> Slot
        ensures { IsSlot result (slot_of (facts_in self.entry.image.now) slot.number) }
    {
        self.head().slot(slot)
    }

    // Is the slot enabled?
    pub fn is_enabled(self, slot: SlotNumber) -> bool
        ensures { result ≡ is_enabled (slot_of (facts_in self.entry.image.now) slot.number) }
    {
        self.slot(slot).is_enabled()
    }

    // Is the key as long as the drive's?
    pub fn key_ok(self, key: &[u8]) -> bool
        ensures { result ≡ key_ok (facts_in self.entry.image.now) key.now }
    {
        key.len() == self.key_bytes() as usize
    }

    // Is a slot's count at least the smallest of the drive's profile?
    pub fn count_ok(self, count: u32) -> bool
        ensures { result ≡ count_ok (facts_in self.entry.image.now) count }
    {
        self.profile().min_slot_count <= count
    }

    // Are there (n − 1) × L random bytes, by the slot's n?
    pub fn random_ok(self, slot: SlotNumber, random: &[u8]) -> bool
        ensures { result ≡ random_ok (facts_in self.entry.image.now) slot.number random.now }
    {
        random.len() == (self.slot(slot).stripes as usize - 1) * self.key_bytes() as usize
    }

    // Are there n × L bytes of filler, by the slot's n?
    pub fn filler_ok(self, slot: SlotNumber, filler: &[u8]) -> bool
        ensures { result ≡ filler_ok (facts_in self.entry.image.now) slot.number filler.now }
    {
        filler.len() == self.slot(slot).stripes as usize * self.key_bytes() as usize
    }
}
