// Openings, by number and by search, held to the known volume key.
use header::{Refusal, Refused};
use opening::Opened;
use reports::Tried;
use std::io;

// Is the slot opened, with this key, which is followed by zeros?
fn gives(answer: Result<Opened, Refused>, slot: u8, key: &[u8]) -> bool {
    let Ok(o) = answer else {
        return false;
    };
    let padded = o
        .key
        .strip_prefix(key)
        .is_some_and(|rest| rest.iter().all(|b| *b == 0));
    o.slot == slot && o.key_length as usize == key.len() && padded
}

// By number and by search.
// (Image, slot and what was tried stay arguments, here and in slot_trials and drives: Tried has what is the same for all that is tried.)
pub fn opens(
    t: &Tried<'_, impl Print>,
    image: &[u8],
    slot: u8,
    passphrase: &[u8],
) -> io::Result<()> {
    let key = t.key;
    let numbered = gives(opening::open_slot(image, slot, passphrase), slot, key);
    t.slot_line(slot, b"opens by number", None, numbered)?;
    let searched = gives(opening::open(image, passphrase), slot, key);
    t.slot_line(slot, b"opens by search", None, searched)
}

// An opening of the slot by this passphrase, and why it is refused.
pub struct Wrong {
    pub what: &'static [u8],
    pub slot: u8,
    pub passphrase: &'static [u8],
    pub refusal: Refusal,
}

pub fn refused_by_number(t: &Tried<'_, impl Print>, image: &[u8], wrong: &Wrong) -> io::Result<()> {
    let refusal = reports::refusal_of(opening::open_slot(image, wrong.slot, wrong.passphrase));
    let expected = Some(wrong.refusal);
    t.slot_line(wrong.slot, wrong.what, expected, refusal == expected)
}

// The passphrase opens no slot.
pub fn refused_by_search(
    t: &Tried<'_, impl Print>,
    image: &[u8],
    what: &[u8],
    passphrase: &[u8],
) -> io::Result<()> {
    let refusal = reports::refusal_of(opening::open(image, passphrase));
    let expected = Some(Refusal::WrongKey);
    t.line(what, expected, refusal == expected)
}

// The slots that cryptsetup filled, with their passphrases. That of slot 4 is longer than a block of the hash.
const FILLED: [(u8, &[u8]); 4] = [
    (1, b"first passphrase"),
    (2, b"second passphrase"),
    (
        4,
        b"a fourth passphrase, which is longer than the sixty-four bytes of a block of SHA-1",
    ),
    (8, b"8"),
];

pub fn filled_slots(t: &Tried<'_, impl Print>, image: &[u8]) -> io::Result<()> {
    for &(slot, passphrase) in &FILLED {
        opens(t, image, slot, passphrase)?;
    }
    Ok(())
}

// Wrong passphrases, an empty one, and one that is too long by one byte.
const PASSPHRASES: [Wrong; 4] = [
    Wrong {
        what: b"refuses a wrong passphrase",
        slot: 1,
        passphrase: b"First passphrase",
        refusal: Refusal::WrongKey,
    },
    Wrong {
        what: b"refuses another slot's passphrase",
        slot: 8,
        passphrase: b"first passphrase",
        refusal: Refusal::WrongKey,
    },
    Wrong {
        what: b"refuses an empty passphrase",
        slot: 1,
        passphrase: b"",
        refusal: Refusal::BadPassphrase,
    },
    Wrong {
        what: b"refuses a passphrase of 513 bytes",
        slot: 1,
        passphrase: &[b'8'; 513],
        refusal: Refusal::BadPassphrase,
    },
];

pub fn wrong_passphrases(t: &Tried<'_, impl Print>, image: &[u8]) -> io::Result<()> {
    for wrong in &PASSPHRASES {
        refused_by_number(t, image, wrong)?;
    }
    refused_by_search(t, image, b"search refuses a wrong passphrase", b"88")
}

const SLOTS: [Wrong; 3] = [
    Wrong {
        what: b"is free",
        slot: 3,
        passphrase: b"first passphrase",
        refusal: Refusal::WrongState,
    },
    Wrong {
        what: b"is no slot",
        slot: 0,
        passphrase: b"first passphrase",
        refusal: Refusal::BadSlot,
    },
    Wrong {
        what: b"is no slot",
        slot: 9,
        passphrase: b"first passphrase",
        refusal: Refusal::BadSlot,
    },
];

pub fn wrong_slots(t: &Tried<'_, impl Print>, image: &[u8]) -> io::Result<()> {
    for wrong in &SLOTS {
        refused_by_number(t, image, wrong)?;
    }
    Ok(())
}
