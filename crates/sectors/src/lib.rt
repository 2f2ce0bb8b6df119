// The list of sector writes that add, change and revoke give: how long it is, and its entries in the lent buffer.
#![tactic(auto)]

ghost use Rattle.std.specs.Prelude.{◌≡◌, true, ◌+◌, ◌*◌, ◌≤◌, ◌<◌, length};
ghost use Rattle.octets.specs.Splice.{splice};
ghost use Rattle.rules.specs.Sectors.{sectors_from, encoded, entry_bytes, slot_count};
ghost use Rattle.rules.specs.Calls.{list_ok};
ghost use Rattle.header.specs.Records.{facts_in};
ghost use Rattle.sectors.specs.Areas.{IsArea, Within, writes_of};

use header::{Drive, ImageSector, SlotNumber};

// The bytes of a sector, and of its entry in the list: the number, then these.
const SECTOR: usize = 512;

const ENTRY: usize = 516;

// The sectors that hold an area's n × L bytes: the first, how many, and the payload's start, which they do not pass.
#[derive(Clone, Copy)]
pub struct Area {
    pub start: ImageSector,
    pub sectors: u32,
    pub payload: ImageSector,
}

// The sectors of a slot's area.
pub fn area_of(drive: Drive<'_>, slot: SlotNumber) -> Area
    ensures { IsArea result (facts_in drive.entry.image.now) slot.number × (result.sectors ≤ 500) }
{
    let s = drive.slot(slot);
    let bytes = s.stripes * drive.key_bytes();
    Area {
        start: s.start,
        sectors: bytes.div_ceil(512),
        payload: drive.head().payload_at(),
    }
}

// The bytes of the list of the work on a slot.
pub fn list_bytes(drive: Drive<'_>, slot: SlotNumber) -> usize
    ensures { (result ≡ slot_count (facts_in drive.entry.image.now) slot.number * entry_bytes) × (result ≤ 1048576) }
{
    let a = area_of(drive, slot);
    (a.sectors as usize + 2) * ENTRY
}

// Is the buffer as long as the list of the work on the slot?
pub fn list_ok(drive: Drive<'_>, slot: SlotNumber, list: &[u8]) -> bool
    ensures { result ≡ list_ok (slot_count (facts_in drive.entry.image.now) slot.number) list.now }
{
    list.len() == list_bytes(drive, slot)
}

// One entry, at an offset of the list: the sector's number, then its bytes.
// (List, offset and image stay three arguments, here and below: a struct of them would be made for one call and read once in each.)
fn put_sector(list: &mut [u8], at: usize, image: &[u8], sector: ImageSector)
    requires { (at + entry_bytes ≤ length list.old) × (sector.0 * 512 + 512 ≤ length image.now) }
    ensures { list.new ≡ splice list.old at (encoded (sectors_from image.now sector.0 1)) }
{
    let number = octets::be32(sector.0);
    octets::copy_into(list, at, &number);
    // (A sector's bytes are counted as the clauses count them; a From would be no plainer.)
    let start = sector.0 as usize * SECTOR;
    let end = start + SECTOR;
    octets::copy_into(list, at + 4, &image[start..end]);
}

// The sector at index i of an area, counted from 0.
fn sector_at(area: Area, i: u32) -> ImageSector
    requires { (i < area.sectors) × (area.start.0 + area.sectors ≤ area.payload.0) }
    ensures { result.0 ≡ area.start.0 + i }
{
    ImageSector(area.start.0 + i)
}

// The entries of an area's sectors, rising.
fn put_sectors(list: &mut [u8], at: usize, image: &[u8], area: Area)
    requires { Within area image.now × (at + area.sectors * entry_bytes ≤ length list.old) }
    ensures { list.new ≡ splice list.old at (encoded (sectors_from image.now area.start.0 area.sectors)) }
{
    for i in 0..area.sectors {
        put_sector(list, at + i as usize * ENTRY, image, sector_at(area, i));
    }
}

// The list of the work on a slot: its area's sectors, then sector 1, then sector 0, with the bytes of the image after the work.
pub fn put_list(list: &mut [u8], at: usize, image: &[u8], area: Area)
    requires { Within area image.now × (at + length (encoded (writes_of area image.now)) ≤ length list.old) }
    ensures { list.new ≡ splice list.old at (encoded (writes_of area image.now)) }
{
    let head = at + area.sectors as usize * ENTRY;
    put_sectors(list, at, image, area);
    put_sector(list, head, image, ImageSector(1));
    put_sector(list, head + ENTRY, image, ImageSector(0));
}
