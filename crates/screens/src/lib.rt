// The two screens of a drive's key slots: which are enabled, and for service people also their counts, area starts and stripes.
#![tactic(auto)]

ghost use Rattle.std.specs.Prelude.{◌≡◌, map, ◌+◌, ◌<◌};
ghost use Rattle.rules.specs.Facts.{slot_of};
ghost use Rattle.profiles.specs.Suites.{built};
ghost use Rattle.header.specs.Refusals.{checked};
ghost use Rattle.header.specs.Records.{facts_in};
ghost use Rattle.screens.specs.Screens.{details_of, slot_screen, detail_screen, Shows};
ghost use Rattle.screens.specs.Entries.{details_in, bits_shown, details_shown};

use header::{Drive, ImageSector, Refusal};

// What the second screen shows of a slot.
// (enabled is no flag of the others: a disabled slot's count, start and stripes are shown too, as slot_details' contract asks.)
#[derive(Clone, Copy)]
pub struct Entry {
    pub enabled: bool,
    pub count: u32,
    pub start: ImageSector,
    pub stripes: u32,
}

const NO_ENTRY: Entry = Entry {
    enabled: false,
    count: 0,
    start: ImageSector(0),
    stripes: 0,
};

// What the second screen shows of the slot at index i, counted from 0.
fn entry_at(drive: Drive<'_>, i: usize) -> Entry
    requires { i < 8 }
    ensures { details_in result ≡ details_of (slot_of (facts_in drive.entry.image.now) (i + 1)) }
{
    let slot = drive.head().slot_at(i);
    Entry {
        enabled: slot.is_enabled(),
        count: slot.count,
        start: slot.start,
        stripes: slot.stripes,
    }
}

// The entries of the eight slots.
fn all_entries(drive: Drive<'_>) -> [Entry; 8]
    ensures { map details_in result ≡ map details_of (facts_in drive.entry.image.now).slot_facts }
{
    let mut entries = [NO_ENTRY; 8];
    for i in 0..8 {
        entries[i] = entry_at(drive, i);
    }
    entries
}

// The first screen, for station staff: which of the eight slots are enabled.
// The contract rules out a screen that says more of the drive, and one that says enabled by a part of the state.
pub fn slots(image: &[u8]) -> Result<[bool; 8], Refusal>
    ensures { Shows (slot_screen built image.now) (checked result) (bits_shown result) }
{
    let entries = all_entries(Drive::check(image)?);
    Ok(entries.map(|entry| entry.enabled))
}

// The second screen, for service people.
// The contract rules out a screen that shows zeros for a disabled slot's count, and one that shows another field as count.
pub fn slot_details(image: &[u8]) -> Result<[Entry; 8], Refusal>
    ensures { Shows (detail_screen built image.now) (checked result) (details_shown result) }
{
    Ok(all_entries(Drive::check(image)?))
}
