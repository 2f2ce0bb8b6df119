// The slots' work below the calls: a key's checksum tested, a slot tried with a passphrase, a slot enabled and disabled. What derives says
// how many values of HMAC it made; the bounds let a caller add these numbers up in 64 bits.
#![tactic(auto)]

ghost use Rattle.std.specs.Prelude.{◌≡◌, true, ◌+◌, ◌-◌, ◌*◌, ◌^◌, ◌≤◌, ◌<◌, length};
ghost use Rattle.octets.specs.Splice.{splice};
ghost use Rattle.rules.specs.Facts.{slot_of, is_enabled, candidate};
ghost use Rattle.rules.specs.Calls.{passphrase_ok, key_ok, count_ok, random_ok};
ghost use Rattle.rules.specs.Step.{written, record_head, enable_writes, disable_writes};
ghost use Rattle.rules.specs.Costs.{derivation_cost};
ghost use Rattle.keyslot.specs.Input.{input_of};
ghost use Rattle.header.specs.Records.{facts_in, HeaderOk};
ghost use Rattle.header.specs.States.{state_number};
ghost use Rattle.slots.specs.Trials.{tested, IsTest, IsTested, IsTrial};

use header::{Drive, Head, Passphrase, Refusal, Refused, SlotNumber, SlotState, offsets};
use hmac::Counted;
use keyslot::SlotInput;

// Has the key the header's checksum? One derivation of 20 bytes.
// (That the key has at most 64 bytes is asked here and by test_key: callers have it from key_ok or an array of 64, and a type would serve this one test.)
pub fn key_matches(drive: Drive<'_>, key: &[u8]) -> Counted<bool>
    requires { length key.now ≤ 64 }
    ensures { IsTest result (facts_in drive.entry.image.now) key.now }
{
    let head = drive.head();
    let mut sum = [0u8; 20];
    let made = pbkdf2::pbkdf2(
        &mut sum,
        drive.hash(),
        key,
        &head.checksum_salt(),
        head.checksum_count(),
    );
    let expected = head.checksum();
    Counted {
        value: sum == expected,
        made,
    }
}

// What a test of a key says: how many values of HMAC it made, or refusal 17.
pub fn tested(test: Counted<bool>) -> Result<u64, Refused>
    ensures { result ≡ tested test }
{
    if test.value {
        return Ok(test.made);
    }
    Err(Refused {
        refusal: Refusal::WrongKey,
        values: test.made,
    })
}

// The test of the key that a call is given: how many values of HMAC it made, or refusal 17.
pub fn test_key(drive: Drive<'_>, key: &[u8]) -> Result<u64, Refused>
    requires { length key.now ≤ 64 }
    ensures { IsTested result (facts_in drive.entry.image.now) key.now }
{
    tested(key_matches(drive, key))
}

// The candidate of an enabled slot, in d. How many values of HMAC were made.
fn slot_candidate(
    d: &mut [u8],
    drive: Drive<'_>,
    slot: SlotNumber,
    passphrase: Passphrase<'_>,
) -> u64
    requires { (is_enabled (slot_of (facts_in drive.image.now) slot.number) ≡ true)
        × (length d.old ≡ (facts_in drive.image.now).profile.key_bytes) }
    ensures { (d.new ≡ candidate (facts_in drive.entry.image.now) slot.number passphrase.entry.bytes.now)
        × (result ≡ derivation_cost (facts_in drive.entry.image.now) (slot_of (facts_in drive.entry.image.now) slot.number).count)
        × (result < 2 ^ 34) }
{
    let s = drive.slot(slot);
    let n = s.stripes as usize;
    // (A sector's bytes are counted as the clauses count them; a From would be no plainer, here and below.)
    let at = s.start.0 as usize * 512;
    let end = at + n * d.len();
    keyslot::candidate(
        d,
        drive.hash(),
        &drive.image[at..end],
        n,
        passphrase.bytes,
        &s.salt,
        s.count,
    )
}

// Tries a slot: its key, followed by zeros, where it opens. A disabled one costs nothing, an enabled one its derivation and one checksum.
pub fn try_slot(
    drive: Drive<'_>,
    slot: SlotNumber,
    passphrase: Passphrase<'_>,
) -> Counted<Option<[u8; 64]>>
    ensures { IsTrial result (facts_in drive.entry.image.now) slot.number passphrase.entry.bytes.now }
{
    if !drive.is_enabled(slot) {
        return Counted {
            value: None,
            made: 0,
        };
    }
    let l = drive.key_bytes() as usize;
    let mut key = [0u8; 64];
    let derived = slot_candidate(&mut key[..l], drive, slot, passphrase);
    let test = key_matches(drive, &key[..l]);
    Counted {
        value: test.value.then_some(key),
        made: derived + test.made,
    }
}

// The first 40 bytes of a slot's record; its start and stripes stay.
fn record_head(state: SlotState, count: u32, salt: &[u8; 32]) -> [u8; 40]
    ensures { result ≡ record_head (state_number state) count salt.now }
{
    let mut head = [0u8; 40];
    octets::copy_into(&mut head, 0, &octets::be32(state.number()));
    octets::copy_into(&mut head, offsets::COUNT, &octets::be32(count));
    octets::copy_into(&mut head, offsets::SALT, salt);
    head
}

// Writes the head of a slot's record. The salt's length stands in the contract for a caller that only passes the salt on.
fn put_head(image: &mut [u8], slot: SlotNumber, state: SlotState, count: u32, salt: &[u8; 32])
    requires { 1024 ≤ length image.old }
    ensures { (image.new ≡ splice image.old (208 + (slot.number - 1) * 48) (record_head (state_number state) count salt.now))
        × (length salt.now ≡ 32) }
{
    let at = header::head::record_at((slot.number - 1) as usize);
    octets::copy_into(image, at, &record_head(state, count, salt));
}

// Fills the slot's area with the split and enciphered key, and enables its record. How many values of HMAC were made. The salt's length is
// said as in put_head.
// (HeaderOk stays a clause here, in move_key of changing and in write_units of payload: the image is lent to be written, and a Drive only reads one.)
// (Image, key and input stay three arguments: the image is written, the key is the caller's or one just found, and input is keyslot's.)
pub fn enable_slot(image: &mut [u8], slot: SlotNumber, key: &[u8], input: SlotInput<'_>) -> u64
    requires { HeaderOk image.old × (key_ok (facts_in image.old) key.now ≡ true) × (passphrase_ok input.passphrase.now ≡ true)
        × (count_ok (facts_in image.old) input.count ≡ true) × (random_ok (facts_in image.old) slot.number input.random.now ≡ true) }
    ensures { (image.new ≡ written (enable_writes (facts_in image.old) slot.number key.now (input_of input.entry)) image.old)
        × (length input.entry.salt.now ≡ 32) × (result ≡ derivation_cost (facts_in image.old) input.entry.count) × (result < 2 ^ 34) }
{
    let drive = Drive { image };
    let hash = drive.hash();
    let s = drive.slot(slot);
    let at = s.start.0 as usize * 512;
    let n = s.stripes as usize;
    let end = at + n * key.len();
    let SlotInput {
        passphrase,
        salt,
        count,
        random,
    } = input;
    let made = keyslot::fill(
        &mut image[at..end],
        hash,
        key,
        passphrase,
        salt,
        count,
        random,
        n,
    );
    put_head(image, slot, SlotState::Enabled, count, salt);
    made
}

// Fills the slot's area, as far as the filler goes, and disables its record.
pub fn disable_slot(image: &mut [u8], slot: SlotNumber, filler: &[u8])
    requires { (1024 ≤ length image.old)
        × ((slot_of (facts_in image.old) slot.number).start * 512 + length filler.now ≤ length image.old) }
    ensures { image.new ≡ written (disable_writes (facts_in image.old) slot.number filler.now) image.old }
{
    let s = Head { image }.slot(slot);
    octets::copy_into(image, s.start.0 as usize * 512, filler);
    put_head(image, slot, SlotState::Disabled, 0, &[0u8; 32]);
}
