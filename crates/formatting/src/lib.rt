// Format: the checks in order, then everything before the payload cleared and the header written. An accepted format makes the values of
// HMAC of one checksum.
#![tactic(auto)]

mod checks;
mod fields;

ghost use Rattle.std.specs.Prelude.{◌≡◌, ◌≤◌, length};
ghost use Rattle.rules.specs.Checks.{first};
ghost use Rattle.rules.specs.Format.{format_checks, header_of, formatted};
ghost use Rattle.rules.specs.Promises.{DoesFormat};
ghost use Rattle.profiles.specs.Records.{IsRow};
ghost use Rattle.profiles.specs.Suites.{built};
ghost use Rattle.header.specs.Refusals.{answered, values_of};
ghost use Rattle.formatting.specs.Inputs.{input_of};

use header::Refused;
use header::layout::Layout;
use hmac::Counted;
use profiles::Profile;

// What format is asked for: the profile's number, the stripes of each slot, the key and its checksum's salt and count, and the UUID.
// (The profile is 01's number, as C hands it over: one that the table hasn't is refusal 7, in its turn among the checks.)
#[derive(Clone, Copy)]
pub struct FormatInput<'a> {
    pub profile: u8,
    pub stripes: u32,
    pub key: &'a [u8],
    pub salt: &'a [u8; 32],
    pub count: u32,
    pub uuid: &'a [u8],
}

// The header of a new drive with this profile and layout, and how many values of HMAC were made for it.
fn header_of(p: Profile, layout: Layout, input: FormatInput<'_>) -> Counted<[u8; 592]>
    requires row { IsRow input.profile p }
    requires layout { (layout.stripes ≡ input.stripes) × (layout.key_bytes ≡ p.key_bytes) }
    requires fits { (length input.key.now ≤ 64) × (1 ≤ input.count) × (length input.uuid.now ≡ 36) }
    ensures { (result.value ≡ header_of built (input_of input.entry)) × (result.made ≡ (built.suite_of input.entry.profile).made input.entry.count 20) }
{
    let mut sum = [0u8; 20];
    // (A local: the check makes a slice of a field's &[u8; 32] only so.)
    let salt = input.salt;
    let made = pbkdf2::pbkdf2(&mut sum, p.digest, input.key, salt, input.count);
    let mut h = [0u8; 592];
    crate::fields::put_names(&mut h, p);
    crate::fields::put_numbers(&mut h, layout, input, &sum);
    crate::fields::put_slots(&mut h, layout);
    Counted { value: h, made }
}

// Clears everything before the payload, then writes the header. How many values of HMAC were made.
fn write_drive(image: &mut [u8], p: Profile, input: FormatInput<'_>) -> u64
    requires row { IsRow input.profile p }
    requires accepted { first (format_checks built (input_of input) image.old) ≡ 0 }
    ensures { (image.new ≡ formatted built (input_of input.entry) image.old) × (result ≡ (built.suite_of input.entry.profile).made input.entry.count 20) }
{
    let layout = Layout {
        stripes: input.stripes,
        key_bytes: p.key_bytes,
    };
    let end = layout.payload_start().0 as usize * 512;
    octets::clear(&mut image[..end]);
    let header = header_of(p, layout, input);
    octets::copy_into(image, 0, &header.value);
    header.made
}

// Formats an image: a drive with this key and eight disabled slots, whose payload keeps its bytes.
// The contract rules out a format that accepts and writes nothing, one that turns all away, and one that is refused and yet has a cost.
pub fn format(image: &mut [u8], input: FormatInput<'_>) -> Result<u64, Refused>
    ensures { DoesFormat built (input_of input.entry) image.old (answered result) image.new (values_of result) }
{
    let p = crate::checks::format_check(image, input)?;
    Ok(write_drive(image, p, input))
}
