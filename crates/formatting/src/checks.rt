// What format refuses, in order.
ghost use Rattle.std.specs.Prelude.{◌≡◌, List, ℕ, ◌&&◌, eqb, leb, length, IfOk};
ghost use Rattle.std.specs.List.{list_all};
ghost use Rattle.rules.specs.Checks.{first};
ghost use Rattle.rules.specs.Format.{printable, format_checks};
ghost use Rattle.header.specs.Refusals.{checked};
ghost use Rattle.profiles.specs.Records.{IsRow};
ghost use Rattle.profiles.specs.Suites.{built};
ghost use Rattle.formatting.specs.Inputs.{salted};

use crate::FormatInput;
use header::Refusal;
use header::check::{ensure, size_ok};
use header::layout::Layout;
use profiles::Profile;

// Is the number of stripes 1 to 4,000?
fn stripes_ok(n: u32) -> bool
    ensures { result ≡ (leb 1 n && leb n 4000) }
{
    (1..=4000).contains(&n)
}

// Is each byte 33 to 126?
fn all_printable(bytes: &[u8]) -> bool
    ensures { result ≡ list_all (λ b. leb 33 b && leb b 126) bytes.now }
{
    bytes.iter().all(|b| (33..=126).contains(b))
}

// Is a UUID 36 bytes of 33 to 126?
fn uuid_ok(uuid: &[u8]) -> bool
    ensures { result ≡ (eqb (length uuid.now) 36 && printable uuid.now) }
{
    uuid.len() == 36 && all_printable(uuid)
}

// The checks of format, and the profile that was asked for. The salt is not looked at.
pub fn format_check(image: &[u8], input: FormatInput<'_>) -> Result<Profile, Refusal>
    ensures number { (salt : List ℕ) → checked result ≡ first (format_checks built (salted input.entry salt) image.now) }
    ensures row { IfOk result (IsRow input.entry.profile) }
{
    ensure(size_ok(image), Refusal::ImageSize)?;
    let p = profiles::with_number(input.profile).ok_or(Refusal::UnknownProfile)?;
    ensure(stripes_ok(input.stripes), Refusal::BadStripes)?;
    ensure(input.key.len() == p.key_bytes as usize, Refusal::KeyLength)?;
    ensure(p.min_checksum_count <= input.count, Refusal::LowCount)?;
    ensure(uuid_ok(input.uuid), Refusal::BadUuid)?;
    let layout = Layout {
        stripes: input.stripes,
        key_bytes: p.key_bytes,
    };
    // (A sector's bytes are counted as the clauses count them; a From would be no plainer, here and in write_drive.)
    ensure(
        layout.payload_start().0 as usize * 512 <= image.len(),
        Refusal::ShortImage,
    )?;
    Ok(p)
}
