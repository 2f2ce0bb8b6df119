// Revoke: a slot's area is filled with the caller's filler and its record disabled.
#![tactic(auto)]

ghost use Rattle.std.specs.Prelude.{◌≡◌, IfOk, ◌-◌};
ghost use Rattle.rules.specs.Checks.{first};
ghost use Rattle.rules.specs.Calls.{revoke, early_checks, other_enabled};
ghost use Rattle.rules.specs.Promises.{DoesListed};
ghost use Rattle.profiles.specs.Suites.{built};
ghost use Rattle.header.specs.Refusals.{checked, answered, values_of};
ghost use Rattle.header.specs.Records.{facts_in};

use header::check::ensure;
use header::{Drive, Refusal, Refused, SlotNumber};

// Is a slot other than this one enabled?
fn other_enabled(drive: Drive<'_>, slot: SlotNumber) -> bool
    ensures { result ≡ other_enabled (facts_in drive.entry.image.now).slot_facts (slot.number - 1) }
{
    for number in 1..9u8 {
        if number != slot.number && drive.is_enabled(SlotNumber { number }) {
            return true;
        }
    }
    false
}

// The slot of a revoke whose checks pass, which derive nothing, on a drive whose header is accepted.
fn revoke_check(
    drive: Drive<'_>,
    slot: u8,
    filler: &[u8],
    list: &[u8],
) -> Result<SlotNumber, Refusal>
    ensures number { checked result ≡ first (early_checks (facts_in drive.entry.image.now) (revoke slot filler.now list.now)) }
    ensures same { IfOk result (λ k. k.number ≡ slot) }
{
    let slot = SlotNumber::try_from(slot)?;
    ensure(drive.is_enabled(slot), Refusal::WrongState)?;
    ensure(other_enabled(drive, slot), Refusal::LastSlot)?;
    ensure(drive.filler_ok(slot, filler), Refusal::BadLength)?;
    ensure(sectors::list_ok(drive, slot, list), Refusal::BadBuffer)?;
    Ok(slot)
}

// Revokes a slot: its area is filled, its record disabled, its start and stripes stay. The list has the sector writes of it.
// The contract rules out a revoke that clears the record's start, one that revokes the last slot, and one that leaves the list as it was lent.
// (The arguments are those of C's mivrozh_revoke.)
pub fn revoke(image: &mut [u8], slot: u8, filler: &[u8], list: &mut [u8]) -> Result<u64, Refused>
    ensures { DoesListed built image.old (revoke slot filler.now list.old)
        (answered result) image.new list.old list.new (values_of result) }
{
    let drive = Drive::check(image)?;
    let slot = revoke_check(drive, slot, filler, list)?;
    let area = sectors::area_of(drive, slot);
    slots::disable_slot(image, slot, filler);
    sectors::put_list(list, 0, image, area);
    Ok(0) // a revoke derives nothing
}
