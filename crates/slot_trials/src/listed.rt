// Calls that give a list of sector writes: the list has the slot's sectors as the call left them.
use header::Refusal;
use keyslot::SlotInput;

// Is the entry of a list this sector of the image, its number and its bytes?
fn entry_is(image: &[u8], entry: &[u8], sector: usize) -> bool {
    match (
        entry.split_first_chunk(),
        image.chunks_exact(512).nth(sector),
    ) {
        (Some((number, bytes)), Some(place)) => {
            u32::from_be_bytes(*number) as usize == sector && bytes == place
        }
        _ => false,
    }
}

// Are the list's entries from this one on the sectors of an area that begins at start, rising, and then sectors 1 and 0?
fn entries_are(image: &[u8], list: &[u8], first: usize, start: u32) -> bool {
    let Some(area) = (list.len() / 516).checked_sub(2) else {
        return false;
    };
    let sectors = (start as usize..)
        .take(area.saturating_sub(first))
        .chain([1, 0]);
    let mut entries = list.chunks_exact(516).skip(first.min(area)).zip(sectors);
    entries.all(|(entry, sector)| entry_is(image, entry, sector))
}

// The start of a slot's area, as its record has it.
fn start_of(image: &[u8], slot: u8) -> u32 {
    reports::be32_at(image, 200 + slot as usize * 48)
}

// Has the list, from this entry on, the slot's sectors as they are now?
fn lists_slot(image: &[u8], slot: u8, list: &[u8], first: usize) -> bool {
    entries_are(image, list, first, start_of(image, slot))
}

// Is the slot revoked, and listed, or is it refused as expected?
pub fn revoked(
    image: &mut [u8],
    slot: u8,
    filler: &[u8],
    list: &mut [u8],
    expected: Option<Refusal>,
) -> bool {
    let refusal = reports::refusal_of(revoking::revoke(image, slot, filler, list));
    refusal == expected && (expected.is_some() || lists_slot(image, slot, list, 0))
}

// Adds a passphrase of ours, with a count of 1,000.
pub fn added(
    image: &mut [u8],
    slot: u8,
    key: &[u8],
    random: &[u8],
    list: &mut [u8],
    expected: Option<Refusal>,
) -> bool {
    let input = SlotInput {
        passphrase: b"a new passphrase",
        salt: &[0x73; 32],
        count: 1000,
        random,
    };
    let refusal = reports::refusal_of(adding::add(image, slot, key, input, list));
    refusal == expected && (expected.is_some() || lists_slot(image, slot, list, 0))
}

// Changes the passphrase of slot 7 to a new one in the slot, with a count of 1,000. The list begins with that slot's area.
pub fn changed(
    image: &mut [u8],
    old: &[u8],
    to: u8,
    filler: &[u8],
    random: &[u8],
    lists: &mut [u8],
    expected: Option<Refusal>,
) -> bool {
    let input = SlotInput {
        passphrase: b"a newer passphrase",
        salt: &[0x6b; 32],
        count: 1000,
        random,
    };
    let answer = changing::change(image, 7, old, to, input, filler, lists);
    let refusal = reports::refusal_of(answer);
    let start = start_of(image, to) as usize;
    let begun = lists
        .chunks_exact(516)
        .next()
        .is_some_and(|entry| entry_is(image, entry, start));
    let listed = begun && lists_slot(image, 7, lists, lists.len() / 516 / 2);
    refusal == expected && (expected.is_some() || listed)
}
