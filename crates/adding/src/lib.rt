// Add: the master key is split into a slot's area and enciphered there, and the slot's record enabled.
#![tactic(auto)]

ghost use Rattle.std.specs.Prelude.{◌≡◌, IfOk};
ghost use Rattle.rules.specs.Checks.{first};
ghost use Rattle.rules.specs.Calls.{add, early_checks};
ghost use Rattle.rules.specs.Promises.{DoesListed};
ghost use Rattle.profiles.specs.Suites.{built};
ghost use Rattle.keyslot.specs.Input.{input_of};
ghost use Rattle.header.specs.Refusals.{checked, answered, values_of};
ghost use Rattle.header.specs.Records.{facts_in};

use header::check::ensure;
use header::{Drive, Passphrase, Refusal, Refused, SlotNumber};
use keyslot::SlotInput;

// The slot of an add whose checks that derive nothing pass, on a drive whose header is accepted.
// (The arguments are those of add, each judged by a check of its own.)
fn add_check(
    drive: Drive<'_>,
    slot: u8,
    key: &[u8],
    input: SlotInput<'_>,
    list: &[u8],
) -> Result<SlotNumber, Refusal>
    ensures number { checked result ≡ first (early_checks (facts_in drive.entry.image.now) (add slot key.now (input_of input.entry) list.now)) }
    ensures same { IfOk result (λ k. k.number ≡ slot) }
{
    let SlotInput {
        passphrase,
        count,
        random,
        ..
    } = input;
    let slot = SlotNumber::try_from(slot)?;
    ensure(!drive.is_enabled(slot), Refusal::WrongState)?;
    ensure(drive.key_ok(key), Refusal::KeyLength)?;
    Passphrase::try_from(passphrase)?;
    ensure(drive.count_ok(count), Refusal::LowCount)?;
    ensure(drive.random_ok(slot, random), Refusal::BadLength)?;
    ensure(sectors::list_ok(drive, slot, list), Refusal::BadBuffer)?;
    Ok(slot)
}

// Adds a passphrase for the master key: the slot's area is filled, its record enabled with this salt and count. The list has the
// sector writes of it.
// The contract rules out an add that is accepted and writes nothing, one whose list has the bytes of the image before it, and one that
// does not count its derivation.
// (The arguments are those of C's mivrozh_add, but for the one of what fills the slot.)
pub fn add(
    image: &mut [u8],
    slot: u8,
    key: &[u8],
    input: SlotInput<'_>,
    list: &mut [u8],
) -> Result<u64, Refused>
    ensures { DoesListed built image.old (add slot key.now (input_of input.entry) list.old)
        (answered result) image.new list.old list.new (values_of result) }
{
    let drive = Drive::check(image)?;
    let slot = add_check(drive, slot, key, input, list)?;
    let tested = slots::test_key(drive, key)?;
    let area = sectors::area_of(drive, slot);
    let made = slots::enable_slot(image, slot, key, input);
    sectors::put_list(list, 0, image, area);
    Ok(tested + made)
}
