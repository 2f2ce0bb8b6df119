// Slots revoked, added and changed on the image in memory. There is room for the lists of two slots. Image and room stay two parameters: a call
// is lent both, each to be written, and out of a struct each would be taken again for every call.
// What else a call is handed, and how it is to be refused, stay arguments of revokes and adds too: filler, key and random are the drive's, so no
// constant table of cases has them.
use crate::listed;
use header::Refusal;
use reports::Tried;
use std::io;

// Room for the list of a call that is handed so many bytes for an area, all zeros: 3 entries for one of 480 bytes, which few bytes get on
// every drive, or half the room.
fn room_for(lists: &mut [u8], bytes: usize) -> &mut [u8] {
    let half = lists.len() / 2;
    let room = &mut lists[..if bytes <= 480 { half.min(1548) } else { half }];
    room.fill(0);
    room
}

fn revokes(
    t: &Tried<'_, impl Print>,
    image: &mut [u8],
    lists: &mut [u8],
    what: &[u8],
    slot: u8,
    filler: &[u8],
    expected: Option<Refusal>,
) -> io::Result<()> {
    let list = room_for(lists, filler.len());
    let right = listed::revoked(image, slot, filler, list, expected);
    t.slot_line(slot, what, expected, right)
}

pub fn revoking_one(
    t: &Tried<'_, impl Print>,
    image: &mut [u8],
    lists: &mut [u8],
) -> io::Result<()> {
    let filler = t.filler;
    revokes(
        t,
        image,
        lists,
        b"is free and is not revoked",
        3,
        filler,
        Some(Refusal::WrongState),
    )?;
    revokes(
        t,
        image,
        lists,
        b"is not revoked with short filler",
        2,
        b"short",
        Some(Refusal::BadLength),
    )?;
    revokes(t, image, lists, b"is revoked", 2, filler, None)
}

// Adds a passphrase of ours, with a count of 1,000.
fn adds(
    t: &Tried<'_, impl Print>,
    image: &mut [u8],
    lists: &mut [u8],
    what: &[u8],
    slot: u8,
    key: &[u8],
    random: &[u8],
    expected: Option<Refusal>,
) -> io::Result<()> {
    let list = room_for(lists, random.len());
    let right = listed::added(image, slot, key, random, list, expected);
    t.slot_line(slot, what, expected, right)
}

// Slot 7, whose record lies across a sector's edge, is added. Before that slot 8, and slot 7 with few random bytes or under a wrong key, are
// not added; the wrong key has the volume key's length.
pub fn adding_one(t: &Tried<'_, impl Print>, image: &mut [u8], lists: &mut [u8]) -> io::Result<()> {
    let key = t.key;
    let random = t.random;
    adds(
        t,
        image,
        lists,
        b"is in use and is not added",
        8,
        key,
        random,
        Some(Refusal::WrongState),
    )?;
    adds(
        t,
        image,
        lists,
        b"is not added with few random bytes",
        7,
        key,
        b"few",
        Some(Refusal::BadLength),
    )?;
    adds(
        t,
        image,
        lists,
        b"is not added with a wrong key",
        7,
        t.wrong,
        random,
        Some(Refusal::WrongKey),
    )?;
    adds(t, image, lists, b"is added", 7, key, random, None)
}

// All slots of cryptsetup's are revoked: slot 7 of ours is left, and stays.
pub fn leaving_one(
    t: &Tried<'_, impl Print>,
    image: &mut [u8],
    lists: &mut [u8],
) -> io::Result<()> {
    let filler = t.filler;
    for slot in [1, 4, 8] {
        revokes(t, image, lists, b"is revoked", slot, filler, None)?;
    }
    revokes(
        t,
        image,
        lists,
        b"is the last and is not revoked",
        7,
        filler,
        Some(Refusal::LastSlot),
    )
}

// Changes the passphrase of slot 7 to a new one in the slot, with a count of 1,000.
fn changes_seven(
    t: &Tried<'_, impl Print>,
    image: &mut [u8],
    lists: &mut [u8],
    change: &Change,
) -> io::Result<()> {
    lists.fill(0);
    let expected = change.expected;
    let right = listed::changed(
        image, change.old, change.to, t.filler, t.random, lists, expected,
    );
    t.slot_line(7, change.what, expected, right)
}

// The calls without a list: slots 2 and 7 are as above.
pub fn without_a_list(t: &Tried<'_, impl Print>, image: &mut [u8]) -> io::Result<()> {
    let filler = t.filler;
    let random = t.random;
    let old = b"a new passphrase";
    let none = Some(Refusal::BadBuffer);
    let revoked = listed::revoked(image, 8, filler, &mut [], none);
    t.slot_line(8, b"is not revoked without a list", none, revoked)?;
    let added = listed::added(image, 2, t.key, random, &mut [], none);
    t.slot_line(2, b"is not added without a list", none, added)?;
    let changed = listed::changed(image, old, 2, filler, random, &mut [], none);
    t.slot_line(7, b"is not changed without a list", none, changed)
}

// A change of slot 7's passphrase, and why it is refused, if it is.
struct Change {
    what: &'static [u8],
    old: &'static [u8],
    to: u8,
    expected: Option<Refusal>,
}

// Slot 7 is not changed to itself, nor with a wrong passphrase. It is the only one left, and is changed to slot 3.
const CHANGES: [Change; 3] = [
    Change {
        what: b"is not changed to itself",
        old: b"a new passphrase",
        to: 7,
        expected: Some(Refusal::WrongState),
    },
    Change {
        what: b"is not changed with a wrong passphrase",
        old: b"8",
        to: 3,
        expected: Some(Refusal::WrongKey),
    },
    Change {
        what: b"is changed to slot 3",
        old: b"a new passphrase",
        to: 3,
        expected: None,
    },
];

pub fn changing_one(
    t: &Tried<'_, impl Print>,
    image: &mut [u8],
    lists: &mut [u8],
) -> io::Result<()> {
    for change in &CHANGES {
        changes_seven(t, image, lists, change)?;
    }
    Ok(())
}
