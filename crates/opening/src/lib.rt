// Openings: a slot by its number, or the first that opens.
#![tactic(auto)]

ghost use Rattle.std.specs.Prelude.{◌≡◌, IfOk};
ghost use Rattle.rules.specs.Checks.{first};
ghost use Rattle.rules.specs.Calls.{open_slot, open_any, early_checks};
ghost use Rattle.rules.specs.Promises.{DoesOpen};
ghost use Rattle.profiles.specs.Suites.{built};
ghost use Rattle.header.specs.Refusals.{checked, answered};
ghost use Rattle.header.specs.Records.{facts_in};
ghost use Rattle.opening.specs.Opening.{IsFound, slot_in, length_in, key_in, values_in};

use header::check::ensure;
use header::{Drive, Passphrase, Refusal, Refused, SlotNumber};
use hmac::Counted;

// A slot that was opened: its number, the length of the volume key, the key followed by zeros, and how many values of HMAC were made.
// (The length stands beside the key, since there is no heap and C gets 64 bytes.)
#[derive(Clone, Copy)]
pub struct Opened {
    pub slot: u8,
    pub key_length: u8,
    pub key: [u8; 64],
    pub values: u64,
}

// The slot and the passphrase of an opening by number whose checks that derive nothing pass, on a drive whose header is accepted.
fn open_slot_check<'a>(
    drive: Drive<'_>,
    slot: u8,
    passphrase: &'a [u8],
) -> Result<(SlotNumber, Passphrase<'a>), Refusal>
    ensures number { checked result ≡ first (early_checks (facts_in drive.entry.image.now) (open_slot slot passphrase.now)) }
    ensures same { IfOk result (λ p. (p.0.number ≡ slot) × (p.1.bytes.now ≡ passphrase.now)) }
{
    let s = SlotNumber::try_from(slot)?;
    let p = Passphrase::try_from(passphrase)?;
    ensure(drive.is_enabled(s), Refusal::WrongState)?;
    Ok((s, p))
}

// Opens a slot by its number.
// The contract rules out an opening that says 17 and tries nothing, and one that judges the slot by another's state.
// (The arguments are those of C's mivrozh_open_slot.)
pub fn open_slot(image: &[u8], slot: u8, passphrase: &[u8]) -> Result<Opened, Refused>
    ensures { DoesOpen built image.now (open_slot slot passphrase.now)
        (answered result) (slot_in result) (length_in result) (key_in result) (values_in result) }
{
    let drive = Drive::check(image)?;
    let (slot, passphrase) = open_slot_check(drive, slot, passphrase)?;
    let trial = slots::try_slot(drive, slot, passphrase);
    let values = trial.made;
    let key = trial.value.ok_or(Refused {
        refusal: Refusal::WrongKey,
        values,
    })?;
    Ok(Opened {
        slot: slot.number,
        key_length: drive.key_bytes() as u8,
        key,
        values,
    })
}

// Tries the slots in turn, and stops at the first that opens: its number and its key, if there is one.
// (01, "Forms for each place", asks for a loop that yields by break, so the slots are counted by hand.)
fn find_slot(
    drive: Drive<'_>,
    passphrase: Passphrase<'_>,
) -> Counted<Option<(SlotNumber, [u8; 64])>>
    ensures { IsFound result (facts_in drive.entry.image.now) passphrase.entry.bytes.now }
{
    let mut made: u64 = 0;
    let mut number: u8 = 1;
    let value = loop {
        if number == 9 {
            break None;
        }
        let slot = SlotNumber { number };
        let trial = slots::try_slot(drive, slot, passphrase);
        made += trial.made;
        if let Some(key) = trial.value {
            break Some((slot, key));
        }
        number += 1;
    };
    Counted { value, made }
}

// Opens the first slot that the passphrase opens.
// The contract rules out a search that leaves slot 8 out, one that answers with a fixed key, and one that does not count the slot that
// opened.
pub fn open(image: &[u8], passphrase: &[u8]) -> Result<Opened, Refused>
    ensures { DoesOpen built image.now (open_any passphrase.now)
        (answered result) (slot_in result) (length_in result) (key_in result) (values_in result) }
{
    let drive = Drive::check(image)?;
    let search = find_slot(drive, Passphrase::try_from(passphrase)?);
    let values = search.made;
    let (slot, key) = search.value.ok_or(Refused {
        refusal: Refusal::WrongKey,
        values,
    })?;
    Ok(Opened {
        slot: slot.number,
        key_length: drive.key_bytes() as u8,
        key,
        values,
    })
}
