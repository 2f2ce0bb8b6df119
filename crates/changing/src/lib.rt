// Change: a slot is opened with its passphrase, its key added to a second slot under a new one, and the first revoked.
#![tactic(auto)]

ghost use Rattle.std.specs.Prelude.{◌≡◌, ◌&&◌, true, not, IfOk, ◌+◌, ◌^◌, ◌<◌};
ghost use Rattle.rules.specs.Checks.{first};
ghost use Rattle.rules.specs.Facts.{slot_of, is_enabled};
ghost use Rattle.rules.specs.Calls.{change, early_checks, passphrase_ok, key_ok, count_ok, random_ok, filler_ok, list_ok};
ghost use Rattle.rules.specs.Sectors.{slot_count};
ghost use Rattle.rules.specs.Costs.{derivation_cost};
ghost use Rattle.rules.specs.Promises.{DoesListed};
ghost use Rattle.profiles.specs.Suites.{built};
ghost use Rattle.keyslot.specs.Input.{input_of};
ghost use Rattle.header.specs.Refusals.{checked, answered, values_of};
ghost use Rattle.header.specs.Records.{facts_in, HeaderOk};
ghost use Rattle.changing.specs.Moves.{Moves};

use header::check::ensure;
use header::{Drive, Passphrase, Refusal, Refused, SlotNumber};
use keyslot::SlotInput;

// The slots of a change: the key goes from the first to the second.
#[derive(Clone, Copy)]
struct Ends {
    from: SlotNumber,
    to: SlotNumber,
}

impl Ends {
    // Is the first slot enabled, and the second disabled?
    fn states_ok(self, drive: Drive<'_>) -> bool
        ensures { result ≡ (is_enabled (slot_of (facts_in drive.entry.image.now) self.from.number)
            && not (is_enabled (slot_of (facts_in drive.entry.image.now) self.to.number))) }
    {
        drive.is_enabled(self.from) && !drive.is_enabled(self.to)
    }

    // Are there (n − 1) × L random bytes by the second slot's n, and n × L bytes of filler by the first's?
    fn lengths_ok(self, drive: Drive<'_>, random: &[u8], filler: &[u8]) -> bool
        ensures { result ≡ (random_ok (facts_in drive.entry.image.now) self.to.number random.now
            && filler_ok (facts_in drive.entry.image.now) self.from.number filler.now) }
    {
        drive.random_ok(self.to, random) && drive.filler_ok(self.from, filler)
    }

    // Is the buffer as long as the second slot's list and then the first's?
    fn list_ok(self, drive: Drive<'_>, list: &[u8]) -> bool
        ensures { result ≡ list_ok (slot_count (facts_in drive.entry.image.now) self.to.number
            + slot_count (facts_in drive.entry.image.now) self.from.number) list.now }
    {
        list.len() == sectors::list_bytes(drive, self.to) + sectors::list_bytes(drive, self.from)
    }
}

// The slots of a change and the passphrase of the first, where its checks that derive nothing pass on a drive whose header is accepted.
// (The arguments are those of change, each judged by a check of its own.)
fn change_check<'a>(
    drive: Drive<'_>,
    from: u8,
    old: &'a [u8],
    to: u8,
    input: SlotInput<'_>,
    filler: &[u8],
    list: &[u8],
) -> Result<(Ends, Passphrase<'a>), Refusal>
    ensures number { checked result ≡ first (early_checks (facts_in drive.entry.image.now) (change from old.now to
        (input_of input.entry) filler.now list.now)) }
    ensures same { IfOk result (λ a. (a.0.from.number ≡ from) × (a.0.to.number ≡ to) × (a.1.bytes.now ≡ old.now)) }
{
    let SlotInput {
        passphrase,
        count,
        random,
        ..
    } = input;
    let from = SlotNumber::try_from(from)?;
    let to = SlotNumber::try_from(to)?;
    let ends = Ends { from, to };
    ensure(ends.states_ok(drive), Refusal::WrongState)?;
    let old = Passphrase::try_from(old)?;
    Passphrase::try_from(passphrase)?;
    ensure(drive.count_ok(count), Refusal::LowCount)?;
    ensure(ends.lengths_ok(drive, random, filler), Refusal::BadLength)?;
    ensure(ends.list_ok(drive, list), Refusal::BadBuffer)?;
    Ok((ends, old))
}

// Adds the key to the second slot, then revokes the first. The list has the sector writes of both, each with the bytes of the image
// as it then is. How many values of HMAC were made.
// (The arguments are what change was handed; HeaderOk stays a clause, as for slots::enable_slot.)
fn move_key(
    image: &mut [u8],
    ends: Ends,
    key: &[u8],
    input: SlotInput<'_>,
    filler: &[u8],
    list: &mut [u8],
) -> u64
    requires { HeaderOk image.old × (key_ok (facts_in image.old) key.now ≡ true)
        × (passphrase_ok input.passphrase.now ≡ true) × (count_ok (facts_in image.old) input.count ≡ true)
        × (random_ok (facts_in image.old) ends.to.number input.random.now ≡ true) × (filler_ok (facts_in image.old) ends.from.number filler.now ≡ true)
        × (list_ok (slot_count (facts_in image.old) ends.to.number + slot_count (facts_in image.old) ends.from.number) list.old ≡ true) }
    ensures { Moves image.old ends.from.number ends.to.number key.now (input_of input.entry) filler.now image.new list.new
        × (result ≡ derivation_cost (facts_in image.old) input.entry.count) × (result < 2 ^ 34) }
{
    let Ends { from, to } = ends;
    let drive = Drive { image };
    let to_area = sectors::area_of(drive, to);
    let from_area = sectors::area_of(drive, from);
    let half = sectors::list_bytes(drive, to);
    let made = slots::enable_slot(image, to, key, input);
    sectors::put_list(list, 0, image, to_area);
    slots::disable_slot(image, from, filler);
    sectors::put_list(list, half, image, from_area);
    made
}

// Moves the master key from a slot that the old passphrase opens to a disabled slot, under the new passphrase. The list has the
// sector writes of the add and then those of the revoke.
// The contract rules out a change that keeps the first slot, one that says 17 after it has written, one whose list begins with the
// revoke's writes, and one that counts its trial twice and not its derivation.
// (The arguments are those of C's mivrozh_change, but for the one of what fills the second slot.)
pub fn change(
    image: &mut [u8],
    from: u8,
    old: &[u8],
    to: u8,
    input: SlotInput<'_>,
    filler: &[u8],
    list: &mut [u8],
) -> Result<u64, Refused>
    ensures { DoesListed built image.old (change from old.now to (input_of input.entry) filler.now list.old)
        (answered result) image.new list.old list.new (values_of result) }
{
    let drive = Drive::check(image)?;
    let (ends, old) = change_check(drive, from, old, to, input, filler, list)?;
    let trial = slots::try_slot(drive, ends.from, old);
    let values = trial.made;
    let key = trial.value.ok_or(Refused {
        refusal: Refusal::WrongKey,
        values,
    })?;
    let l = drive.key_bytes() as usize;
    let made = move_key(image, ends, &key[..l], input, filler, list);
    Ok(values + made)
}
