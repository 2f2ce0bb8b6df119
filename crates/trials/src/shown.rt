// The two screens of a drive: which slots are enabled, and the records' numbers beside it.
use header::Refusal;
use reports::Tried;
use screens::Entry;
use std::io;

// Has the entry this bit, and the numbers of this record?
fn entry_is(entry: Entry, enabled: bool, record: &[u8]) -> bool {
    entry.enabled == enabled
        && entry.count == reports::be32_at(record, 4)
        && entry.start.0 == reports::be32_at(record, 40)
        && entry.stripes == reports::be32_at(record, 44)
}

// Are these the second screen's bits, beside the numbers of every record? The records stand from 208 on.
fn details_are(image: &[u8], enabled: &[bool; 8]) -> bool {
    let (Ok(entries), Some(records)) = (screens::slot_details(image), image.get(208..592)) else {
        return false;
    };
    let mut shown = entries.iter().zip(enabled).zip(records.chunks_exact(48));
    shown.all(|((entry, bit), record)| entry_is(*entry, *bit, record))
}

// Are both screens refused for this?
pub fn screens_refuse(image: &[u8], refusal: Refusal) -> bool {
    let first = screens::slots(image).is_err_and(|r| r == refusal);
    let second = screens::slot_details(image).is_err_and(|r| r == refusal);
    first && second
}

// Do both screens show these bits?
pub fn shows(
    t: &Tried<'_, impl Print>,
    what: &[u8],
    image: &[u8],
    enabled: &[bool; 8],
) -> io::Result<()> {
    let first = screens::slots(image).is_ok_and(|bits| bits == *enabled);
    t.line(what, None, first && details_are(image, enabled))
}
