// What a drive shows after slots were revoked, added and changed: which passphrases open it, and the filler in a revoked slot's area.
use crate::openings;
use crate::openings::Wrong;
use header::Refusal;
use reports::Tried;
use std::io;

// Is the area that begins at this sector the filler?
fn area_is(image: &[u8], sector: u32, filler: &[u8]) -> bool {
    image
        .get(sector as usize * 512..)
        .is_some_and(|area| area.starts_with(filler))
}

const REVOKED: Wrong = Wrong {
    what: b"is disabled",
    slot: 2,
    passphrase: b"second passphrase",
    refusal: Refusal::WrongState,
};

const CHANGED: Wrong = Wrong {
    what: b"is disabled",
    slot: 7,
    passphrase: b"a new passphrase",
    refusal: Refusal::WrongState,
};

// Slot 2 was revoked; the field at 296 is its area's start.
pub fn revoking(t: &Tried<'_, impl Print>, image: &[u8]) -> io::Result<()> {
    let filler = t.filler;
    let filled = area_is(image, reports::be32_at(image, 296), filler);
    t.slot_line(2, b"holds the filler", None, filled)?;
    openings::refused_by_number(t, image, &REVOKED)?;
    openings::refused_by_search(
        t,
        image,
        b"search refuses slot 2's passphrase",
        b"second passphrase",
    )?;
    openings::opens(t, image, 1, b"first passphrase")
}

pub fn adding(t: &Tried<'_, impl Print>, image: &[u8]) -> io::Result<()> {
    openings::opens(t, image, 7, b"a new passphrase")?;
    openings::opens(t, image, 1, b"first passphrase")
}

pub fn leaving(t: &Tried<'_, impl Print>, image: &[u8]) -> io::Result<()> {
    openings::refused_by_search(t, image, b"search refuses slot 8's passphrase", b"8")?;
    openings::opens(t, image, 7, b"a new passphrase")
}

pub fn changing(t: &Tried<'_, impl Print>, image: &[u8]) -> io::Result<()> {
    openings::refused_by_number(t, image, &CHANGED)?;
    openings::refused_by_search(
        t,
        image,
        b"search refuses slot 7's passphrase",
        b"a new passphrase",
    )?;
    openings::opens(t, image, 3, b"a newer passphrase")
}
