// The fields of a header, each at its offset.
ghost use Rattle.std.specs.Prelude.{◌≡◌, ◌+◌, ◌≤◌, ◌<◌, length};
ghost use mathlib.Core.List.{[], ◌∷◌, map, flatten};
ghost use Rattle.octets.specs.Octets.{zeros, be32, padded};
ghost use Rattle.octets.specs.Splice.{splice};
ghost use Rattle.rules.specs.Layout.{payload_start, slots};
ghost use Rattle.rules.specs.Facts.{disabled};
ghost use Rattle.rules.specs.Header.{magic, version};
ghost use Rattle.rules.specs.Format.{slot_record};
ghost use Rattle.profiles.specs.Suites.{alignment};

use crate::FormatInput;
use header::head::record_at;
use header::layout::Layout;
use header::{SlotState, offsets};
use profiles::Profile;

// Magic, version and the three names.
pub fn put_names(h: &mut [u8; 592], p: Profile)
    ensures { h.new ≡ splice h.old 0 (flatten (magic ∷ version ∷ p.cipher ∷ p.mode ∷ p.hash ∷ [])) }
{
    octets::copy_into(h, offsets::MAGIC, &header::LUKS_MAGIC);
    octets::copy_into(h, offsets::VERSION, &header::VERSION_1);
    octets::copy_into(h, offsets::CIPHER, &p.cipher);
    octets::copy_into(h, offsets::MODE, &p.mode);
    octets::copy_into(h, offsets::HASH, &p.hash);
}

// A number of four bytes.
// (For six fields: octets has the bytes and the copy, and each field would be a call in a call.)
fn put_be32(h: &mut [u8], at: usize, x: u32)
    requires { at + 4 ≤ length h.old }
    ensures { h.new ≡ splice h.old at (be32 x) }
{
    octets::copy_into(h, at, &octets::be32(x));
}

// The UUID, padded with zeros.
// (As hmac's zero_pad: one for any length would be public in octets and ask a bound of it, for these three lines.)
fn uuid_field(uuid: &[u8]) -> [u8; 40]
    requires { length uuid.now ≤ 40 }
    ensures { result ≡ padded 40 uuid.now }
{
    let mut field = [0u8; 40];
    octets::copy_into(&mut field, 0, uuid);
    field
}

// Payload start, key bytes, checksum with its salt and count, and the UUID.
pub fn put_numbers(h: &mut [u8; 592], layout: Layout, input: FormatInput<'_>, sum: &[u8; 20])
    requires { length input.uuid.now ≡ 36 }
    ensures { h.new ≡ splice h.old 104 (flatten (be32 (payload_start alignment layout.stripes layout.key_bytes) ∷ be32 layout.key_bytes
        ∷ sum.now ∷ input.entry.salt.now ∷ be32 input.entry.count ∷ padded 40 input.entry.uuid.now ∷ [])) }
{
    put_be32(h, offsets::PAYLOAD_START, layout.payload_start().0);
    put_be32(h, offsets::KEY_BYTES, layout.key_bytes);
    octets::copy_into(h, offsets::CHECKSUM, sum);
    // (A local, as in header_of.)
    let salt = input.salt;
    octets::copy_into(h, offsets::CHECKSUM_SALT, salt);
    put_be32(h, offsets::CHECKSUM_COUNT, input.count);
    octets::copy_into(h, offsets::UUID, &uuid_field(input.uuid));
}

// The record of slot k, from 0, of a new drive: disabled, count and salt zero.
fn slot_record(layout: Layout, k: usize) -> [u8; 48]
    requires { k < 8 }
    ensures { result ≡ slot_record layout.stripes layout.key_bytes disabled 0 (zeros 32) k }
{
    let mut bytes = [0u8; 48];
    put_be32(&mut bytes, 0, SlotState::Disabled.number());
    put_be32(&mut bytes, offsets::AREA_START, layout.area_start(k).0);
    put_be32(&mut bytes, offsets::STRIPES, layout.stripes);
    bytes
}

// The eight slots' records.
pub fn put_slots(h: &mut [u8; 592], layout: Layout)
    ensures { h.new ≡ splice h.old 208 (flatten (map (slot_record layout.stripes layout.key_bytes disabled 0 (zeros 32)) slots)) }
{
    for k in 0..8 {
        octets::copy_into(h, record_at(k), &slot_record(layout, k));
    }
}
