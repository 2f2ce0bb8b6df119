// Drives made by cryptsetup, opened, read, damaged and changed in memory: one line for each thing tried, and ok or FAILED.
// tools/make_drives.sh made them. And one that format made before Wish 4, whose payload begins right after its areas.
#![tactic(auto)]

ghost use Rattle.std.specs.Prelude.{◌≤◌};

mod payloads;

use reports::{Kind, Tried};
use slot_trials::changes;
use std::io;
use std::rt::Files;
use trials::{after, damage, openings, shown};

fn as_it_is(t: &Tried<'_, impl Print>, image: &[u8]) -> io::Result<()> {
    shown::shows(
        t,
        b"screens show slots 1, 2, 4 and 8",
        image,
        &[true, true, false, true, false, false, false, true],
    )?;
    openings::filled_slots(t, image)?;
    openings::wrong_passphrases(t, image)?;
    openings::wrong_slots(t, image)?;
    payloads::whole(t, image)?;
    payloads::parts(t, image)?;
    payloads::refusals(t, image)
}

fn changed(t: &Tried<'_, impl Print>, image: &mut [u8], lists: &mut [u8]) -> io::Result<()> {
    changes::revoking_one(t, image, lists)?;
    after::revoking(t, image)?;
    shown::shows(
        t,
        b"screens show slots 1, 4 and 8",
        image,
        &[true, false, false, true, false, false, false, true],
    )?;
    changes::adding_one(t, image, lists)?;
    after::adding(t, image)?;
    shown::shows(
        t,
        b"screens show slots 1, 4, 7 and 8",
        image,
        &[true, false, false, true, false, false, true, true],
    )
}

fn changed_further(
    t: &Tried<'_, impl Print>,
    image: &mut [u8],
    lists: &mut [u8],
) -> io::Result<()> {
    changes::without_a_list(t, image)?;
    changes::leaving_one(t, image, lists)?;
    after::leaving(t, image)?;
    changes::changing_one(t, image, lists)?;
    after::changing(t, image)?;
    shown::shows(
        t,
        b"screens show slot 3",
        image,
        &[false, false, true, false, false, false, false, false],
    )
}

// The payload is as it was before the changes.
fn written(t: &Tried<'_, impl Print>, image: &mut [u8]) -> io::Result<()> {
    payloads::whole(t, image)?;
    payloads::writes(t, image)?;
    payloads::whole(t, image)
}

// Slots and payload, changed and written.
fn used(t: &Tried<'_, impl Print>, image: &mut [u8], lists: &mut [u8]) -> io::Result<()> {
    changed(t, image, lists)?;
    changed_further(t, image, lists)?;
    written(t, image)
}

// All that is tried of a drive.
fn tried(t: &Tried<'_, impl Print>, image: &mut [u8], lists: &mut [u8]) -> io::Result<()> {
    as_it_is(t, image)?;
    damage::fields(t, image)?;
    damage::lengths(t, image)?;
    used(t, image, lists)
}

// The same without damage, of the drive with the old start: its payload begins where it began, also after all changes.
fn tried_old(t: &Tried<'_, impl Print>, image: &mut [u8], lists: &mut [u8]) -> io::Result<()> {
    as_it_is(t, image)?;
    used(t, image, lists)?;
    let start = reports::be32_at(image, 104);
    t.line(b"payload start 65 after all this", None, start == 65)
}

// Fills the key, the wrong key, the filler and the random stripes; modulo 251 no two units are alike.
fn fill(key: &mut [u8], wrong: &mut [u8], filler: &mut [u8], random: &mut [u8]) {
    testing::sequence(key, 0, 1, 251);
    testing::sequence(wrong, 1, 1, 251);
    testing::sequence(filler, 5, 11, 251);
    testing::sequence(random, 3, 13, 251);
}

// The drive in the file, of IMAGE bytes, with keys of KEY bytes, areas of AREA, of which all stripes but the last have RANDOM, and LISTS bytes
// of room for the lists of two slots. The volume key is the bytes 0, 1, 2, ..
// (Which steps run is asked of the kind: closures handed in by main would say a second time what the kind says.)
fn drive<
    const IMAGE: usize,
    const KEY: usize,
    const AREA: usize,
    const RANDOM: usize,
    const LISTS: usize,
>(rt: &(impl Files + Print), kind: Kind, file: &[u8]) -> io::Result<()>
    requires { (IMAGE ≤ 2072576) × (KEY ≤ 64) × (AREA ≤ 256000) × (RANDOM ≤ 256000) × (LISTS ≤ 518064) }
{
    let mut image = [0u8; IMAGE];
    let mut key = [0u8; KEY];
    let mut wrong = [0u8; KEY];
    let mut filler = [0u8; AREA];
    let mut random = [0u8; RANDOM];
    let mut lists = [0u8; LISTS];
    fill(&mut key, &mut wrong, &mut filler, &mut random);
    let t = Tried {
        rt,
        kind,
        key: &key,
        wrong: &wrong,
        filler: &filler,
        random: &random,
    };
    let n = testing::load(rt, &mut image, file)?;
    t.line(b"is read whole", None, n == Some(IMAGE))?;
    if kind == Kind::OldStart {
        tried_old(&t, &mut image, &mut lists)
    } else {
        tried(&t, &mut image, &mut lists)
    }
}

// 4,000 stripes of 32 or 64 bytes, before 8 units of payload; the drive with the old start has 15 of 32.
fn main(rt: HostRuntime) -> io::Result<()> {
    drive::<1056768, 32, 128000, 127968, 260064>(&rt, Kind::Sha1With256, b"luks1-256.img")?;
    drive::<2072576, 64, 256000, 255936, 518064>(&rt, Kind::Sha1With512, b"luks1-512.img")?;
    drive::<1056768, 32, 128000, 127968, 260064>(
        &rt,
        Kind::Sha256With256,
        b"luks1-sha256-256.img",
    )?;
    drive::<2072576, 64, 256000, 255936, 518064>(
        &rt,
        Kind::Sha256With512,
        b"luks1-sha256-512.img",
    )?;
    drive::<37376, 32, 480, 448, 3096>(&rt, Kind::OldStart, b"luks1-start-65.img")
}
