// Read and write: units of the payload, in the clear in the caller's buffer and enciphered in the image.
#![tactic(auto)]

ghost use Rattle.std.specs.Prelude.{◌≡◌, ◌+◌, ◌*◌, ◌/◌, ◌<◌, ◌^◌, eqb, leb, length};
ghost use Rattle.rules.specs.Checks.{first};
ghost use Rattle.rules.specs.Calls.{read, write, range_checks, bytes_read};
ghost use Rattle.rules.specs.Step.{written, writes};
ghost use Rattle.rules.specs.Promises.{Does, DoesRead};
ghost use Rattle.profiles.specs.Suites.{built};
ghost use Rattle.header.specs.Refusals.{checked, answered, values_of};
ghost use Rattle.header.specs.Records.{facts_in, HeaderOk};

use header::check::ensure;
use header::{Drive, ImageSector, PayloadUnit, Refusal, Refused};

// The byte of the image at which a unit of the payload begins. Here alone a unit becomes a place in the image.
// (01, "Forms for each place", asks for this: a From would convert the counts anywhere.)
fn unit_offset(payload: ImageSector, unit: PayloadUnit) -> usize
    requires { payload.0 * 512 + unit.0 * 512 < 2 ^ 64 }
    ensures { result ≡ payload.0 * 512 + unit.0 * 512 }
{
    payload.0 as usize * 512 + unit.0 as usize * 512
}

// The number of the payload's units.
fn payload_units(drive: Drive<'_>) -> PayloadUnit
    ensures { result.0 ≡ length (facts_in drive.entry.image.now).payload / 512 }
{
    let start = unit_offset(drive.head().payload_at(), PayloadUnit(0));
    PayloadUnit(((drive.image.len() - start) / 512) as u64)
}

// Do the units from `from` on end within the payload? Nothing wraps.
fn in_payload(total: PayloadUnit, from: PayloadUnit, units: PayloadUnit) -> bool
    ensures { result ≡ leb (from.0 + units.0) total.0 }
{
    units.0 <= total.0 && from.0 <= total.0 - units.0
}

// Are len bytes the units' own number of bytes? Nothing wraps.
fn holds_units(len: usize, units: PayloadUnit) -> bool
    ensures { result ≡ eqb len (512 * units.0) }
{
    len % 512 == 0 && (len / 512) as u64 == units.0
}

// The checks of read and write that derive nothing, on a drive whose header is accepted.
// (The arguments, here and below, are those of C's mivrozh_read and mivrozh_write, each judged by a check of its own.)
fn range_check(
    drive: Drive<'_>,
    key: &[u8],
    from: PayloadUnit,
    units: PayloadUnit,
    buffer: &[u8],
) -> Result<(), Refusal>
    ensures { checked result ≡ first (range_checks (facts_in drive.entry.image.now) key.now from.0 units.0 buffer.now) }
{
    ensure(drive.key_ok(key), Refusal::KeyLength)?;
    let inside = in_payload(payload_units(drive), from, units);
    let whole = holds_units(buffer.len(), units);
    ensure(inside, Refusal::BadRange)?;
    ensure(whole, Refusal::BadBuffer)?;
    Ok(())
}

// Units of the payload, deciphered into the buffer.
fn read_units(
    buffer: &mut [u8],
    drive: Drive<'_>,
    key: &[u8],
    from: PayloadUnit,
    units: PayloadUnit,
)
    requires { first (range_checks (facts_in drive.image.now) key.now from.0 units.0 buffer.old) ≡ 0 }
    ensures { buffer.new ≡ bytes_read (facts_in drive.entry.image.now) key.now from.0 units.0 }
{
    let at = unit_offset(drive.head().payload_at(), from);
    let end = at + buffer.len();
    octets::copy_into(buffer, 0, &drive.image[at..end]);
    xts::decrypt_all(buffer, from.0, key);
}

// The buffer, copied to units of the payload and enciphered there.
// (HeaderOk stays a clause, as for slots::enable_slot.)
fn write_units(image: &mut [u8], key: &[u8], from: PayloadUnit, units: PayloadUnit, buffer: &[u8])
    requires { HeaderOk image.old × (first (range_checks (facts_in image.old) key.now from.0 units.0 buffer.now) ≡ 0) }
    ensures { image.new ≡ written (writes (facts_in image.old) (write key.now from.0 units.0 buffer.now)) image.old }
{
    let at = unit_offset(Drive { image }.head().payload_at(), from);
    let end = at + buffer.len();
    octets::copy_into(image, at, buffer);
    xts::encrypt_all(&mut image[at..end], from.0, key);
}

// Reads units of the payload, from unit `from` on, into the buffer.
// Its contract rules out a read that counts units from the image's start, and one that is refused and yet changes the buffer.
pub fn read(
    image: &[u8],
    key: &[u8],
    from: PayloadUnit,
    units: PayloadUnit,
    buffer: &mut [u8],
) -> Result<u64, Refused>
    ensures { DoesRead built image.now (read key.now from.0 units.0 buffer.old)
        (answered result) buffer.old buffer.new (values_of result) }
{
    let drive = Drive::check(image)?;
    range_check(drive, key, from, units, buffer)?;
    let test = slots::key_matches(drive, key);
    let values = slots::tested(test)?; // 17: nothing is read
    read_units(buffer, drive, key, from, units);
    Ok(values) // of a read of 0 units too
}

// Writes the buffer to units of the payload, from unit `from` on.
// Its contract rules out a write under a key that was never tried, and one that restarts the count of units at each call.
pub fn write(
    image: &mut [u8],
    key: &[u8],
    from: PayloadUnit,
    units: PayloadUnit,
    buffer: &[u8],
) -> Result<u64, Refused>
    ensures { Does built image.old (write key.now from.0 units.0 buffer.now)
        (answered result) image.new (values_of result) }
{
    let drive = Drive::check(image)?;
    range_check(drive, key, from, units, buffer)?;
    let test = slots::key_matches(drive, key);
    let values = slots::tested(test)?; // 17: nothing is written
    write_units(image, key, from, units, buffer);
    Ok(values) // of a write of 0 units too
}
