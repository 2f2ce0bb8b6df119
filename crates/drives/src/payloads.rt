// The payload of a drive, whose plaintext is known: byte i is 7 i modulo 251.
ghost use Rattle.std.specs.Prelude.{◌≤◌};

use header::{PayloadUnit, Refusal};
use reports::Tried;
use std::io;

// Units from first on, as many as N bytes hold; their plaintext begins with the byte start.
fn reads<const N: usize>(
    t: &Tried<'_, impl Print>,
    image: &[u8],
    what: &[u8],
    first: u64,
    start: u8,
) -> io::Result<()>
    requires { N ≤ 4096 }
{
    let mut buffer = [0u8; N];
    let mut expected = [0u8; N];
    testing::sequence(&mut expected, start, 7, 251);
    let units = N as u64 / 512;
    let r = payload::read(
        image,
        t.key,
        PayloadUnit(first),
        PayloadUnit(units),
        &mut buffer,
    );
    t.line(what, None, r.is_ok() && buffer == expected)
}

pub fn whole(t: &Tried<'_, impl Print>, image: &[u8]) -> io::Result<()> {
    reads::<4096>(t, image, b"payload units 0 to 7 read", 0, 0)
}

pub fn parts(t: &Tried<'_, impl Print>, image: &[u8]) -> io::Result<()> {
    reads::<1024>(t, image, b"payload units 3 and 4 read", 3, 210)?;
    reads::<512>(t, image, b"payload unit 7 read", 7, 239)
}

// A read of units into a buffer of 512 ones that is refused for this, and leaves the buffer as it was.
// (The arguments are those of payload::read.)
fn refused(
    t: &Tried<'_, impl Print>,
    image: &[u8],
    what: &[u8],
    key: &[u8],
    first: u64,
    units: u64,
    refusal: Refusal,
) -> io::Result<()> {
    let mut buffer = [1u8; 512];
    let r = payload::read(
        image,
        key,
        PayloadUnit(first),
        PayloadUnit(units),
        &mut buffer,
    );
    t.line(
        what,
        Some(refusal),
        reports::refusal_of(r) == Some(refusal) && buffer == [1; 512],
    )
}

// Under a short key; of units past the payload's end, and of more than the buffer holds; and under a wrong key of the volume key's length.
pub fn refusals(t: &Tried<'_, impl Print>, image: &[u8]) -> io::Result<()> {
    let key = t.key;
    refused(
        t,
        image,
        b"a read under a short key",
        b"key",
        0,
        1,
        Refusal::KeyLength,
    )?;
    refused(
        t,
        image,
        b"a read past the payload's end",
        key,
        8,
        1,
        Refusal::BadRange,
    )?;
    refused(
        t,
        image,
        b"a read of two units into one",
        key,
        0,
        2,
        Refusal::BadBuffer,
    )?;
    refused(
        t,
        image,
        b"a read under a wrong key",
        t.wrong,
        0,
        1,
        Refusal::WrongKey,
    )
}

// Is unit 5 read, or written?
fn read_unit(buffer: &mut [u8], image: &[u8], key: &[u8]) -> bool {
    payload::read(image, key, PayloadUnit(5), PayloadUnit(1), buffer).is_ok()
}

fn write_unit(image: &mut [u8], key: &[u8], plaintext: &[u8]) -> bool {
    payload::write(image, key, PayloadUnit(5), PayloadUnit(1), plaintext).is_ok()
}

// Is the plaintext written to unit 5, and read back?
fn holds(image: &mut [u8], key: &[u8], plaintext: &[u8; 512]) -> bool {
    let mut back = [0u8; 512];
    let written = write_unit(image, key, plaintext);
    let read = read_unit(&mut back, image, key);
    written && read && back == *plaintext
}

// Unit 5 written and read back; then its old plaintext is written again, and the image is as it was there.
pub fn writes(t: &Tried<'_, impl Print>, image: &mut [u8]) -> io::Result<()> {
    let key = t.key;
    let mut old = [0u8; 512];
    let read = read_unit(&mut old, image, key);
    let written = holds(image, key, &[0x5A; 512]);
    let restored = holds(image, key, &old);
    t.line(
        b"payload unit 5 written, read back, and restored",
        None,
        read && written && restored,
    )
}
