// Damaged copies: every call gives the header check's refusal, whatever else it is handed.
use crate::shown;
use header::{PayloadUnit, Refusal, Refused};
use keyslot::SlotInput;
use opening::Opened;
use reports::Tried;
use std::io;

// The number's four bytes at an index, where the image has four there.
// (octets::copy_into asks that the four are there.)
fn put_be32(image: &mut [u8], at: usize, value: u32) {
    if let Some(rest) = image.get_mut(at..) {
        if let Some(four) = rest.first_chunk_mut() {
            *four = value.to_be_bytes();
        }
    }
}

// Is it refused for this, with no value of HMAC made?
fn refuses(answer: Result<Opened, Refused>, refusal: Refusal) -> bool {
    answer.is_err_and(|r| r.refusal == refusal && r.values == 0)
}

fn openings_refuse(image: &[u8], refusal: Refusal) -> bool {
    let numbered = refuses(opening::open_slot(image, 1, b"first passphrase"), refusal);
    let searched = refuses(opening::open(image, b"first passphrase"), refusal);
    numbered && searched
}

// Why calls on nothing are refused.
fn read_none(image: &[u8]) -> Option<Refusal> {
    reports::refusal_of(payload::read(image, b"", PayloadUnit(0), PayloadUnit(0), &mut []))
}

fn write_none(image: &mut [u8]) -> Option<Refusal> {
    reports::refusal_of(payload::write(image, b"", PayloadUnit(0), PayloadUnit(0), b""))
}

fn add_none(image: &mut [u8]) -> Option<Refusal> {
    let none = SlotInput {
        passphrase: b"",
        salt: &[0; 32],
        count: 0,
        random: b"",
    };
    reports::refusal_of(adding::add(image, 3, b"", none, &mut []))
}

fn revoke_none(image: &mut [u8]) -> Option<Refusal> {
    reports::refusal_of(revoking::revoke(image, 1, b"", &mut []))
}

fn changes_refuse(image: &mut [u8], refusal: Refusal) -> bool {
    let revoked = revoke_none(image);
    let read = read_none(image);
    let written = write_none(image);
    let added = add_none(image);
    [revoked, read, written, added] == [Some(refusal); 4]
}

// Do all calls refuse the image for this?
fn all_refuse(image: &mut [u8], refusal: Refusal) -> bool {
    let opened = openings_refuse(image, refusal);
    let screened = shown::screens_refuse(image, refusal);
    let changed = changes_refuse(image, refusal);
    opened && screened && changed
}

// The four bytes at an index, changed to this value, and why the image is then refused.
struct Field {
    what: &'static [u8],
    at: usize,
    value: u32,
    refusal: Refusal,
}

// Slot 1's record is at 208, the free slot 3's at 304.
const FIELDS: [Field; 15] = [
    Field {
        what: b"damaged magic",
        at: 0,
        value: 0x4C554B54,
        refusal: Refusal::Magic,
    },
    Field {
        what: b"version 2",
        at: 4,
        value: 0xBABE0002,
        refusal: Refusal::Version,
    },
    Field {
        what: b"another cipher name",
        at: 8,
        value: 0x61657200,
        refusal: Refusal::NoProfile,
    },
    Field {
        what: b"another cipher mode",
        at: 40,
        value: 0x63746200,
        refusal: Refusal::NoProfile,
    },
    Field {
        what: b"another hash",
        at: 72,
        value: 0x6D643500,
        refusal: Refusal::NoProfile,
    },
    Field {
        what: b"16 key bytes",
        at: 108,
        value: 16,
        refusal: Refusal::NoProfile,
    },
    Field {
        what: b"checksum count 0",
        at: 164,
        value: 0,
        refusal: Refusal::BadRecord,
    },
    Field {
        what: b"payload start inside an area",
        at: 104,
        value: 1801,
        refusal: Refusal::BadArea,
    },
    Field {
        what: b"payload start beyond the image",
        at: 104,
        value: 4049,
        refusal: Refusal::BadArea,
    },
    Field {
        what: b"slot 3 in another state",
        at: 304,
        value: 0x00AC71F2,
        refusal: Refusal::BadRecord,
    },
    Field {
        what: b"slot 1 enabled with count 0",
        at: 212,
        value: 0,
        refusal: Refusal::BadRecord,
    },
    Field {
        what: b"slot 3 with 0 stripes",
        at: 348,
        value: 0,
        refusal: Refusal::BadRecord,
    },
    Field {
        what: b"slot 3 with 4,001 stripes",
        at: 348,
        value: 4001,
        refusal: Refusal::BadRecord,
    },
    Field {
        what: b"slot 3's area at sector 1",
        at: 344,
        value: 1,
        refusal: Refusal::BadArea,
    },
    Field {
        what: b"slot 3's area over slot 1's",
        at: 344,
        value: 9,
        refusal: Refusal::BadArea,
    },
];

// All calls on the image with one field changed; then it is put back.
pub fn fields(t: &Tried<'_, impl Print>, image: &mut [u8]) -> io::Result<()> {
    for field in &FIELDS {
        let kept = reports::be32_at(image, field.at);
        put_be32(image, field.at, field.value);
        let refused = all_refuse(image, field.refusal);
        put_be32(image, field.at, kept);
        t.line(field.what, Some(field.refusal), refused)?;
    }
    Ok(())
}

// The image's first len bytes, and why they are refused.
struct Cut {
    what: &'static [u8],
    len: usize,
    refusal: Refusal,
}

const CUTS: [Cut; 4] = [
    Cut {
        what: b"cut to 512 bytes",
        len: 512,
        refusal: Refusal::ImageSize,
    },
    Cut {
        what: b"cut inside a sector",
        len: 1025,
        refusal: Refusal::ImageSize,
    },
    Cut {
        what: b"cut after the header",
        len: 1024,
        refusal: Refusal::BadArea,
    },
    Cut {
        what: b"cut before the payload",
        len: 1052160,
        refusal: Refusal::BadArea,
    },
];

// All calls on the image, cut.
pub fn lengths(t: &Tried<'_, impl Print>, image: &mut [u8]) -> io::Result<()> {
    for cut in &CUTS {
        let refused = match image.get_mut(..cut.len) {
            Some(front) => all_refuse(front, cut.refusal),
            None => false,
        };
        t.line(cut.what, Some(cut.refusal), refused)?;
    }
    Ok(())
}
