// The first check of every call.
ghost use Rattle.std.specs.Prelude.{◌≡◌, true, false, IfOk, IfErr};
ghost use Rattle.rules.specs.Header.{size_ok};

use crate::Refusal;

// Is the image at least 1,024 bytes, and whole sectors?
#[tactic(auto, unfolding(rules::specs::Header::size_ok))]
pub fn size_ok(image: &[u8]) -> bool
    ensures { result ≡ size_ok image.now }
{
    1024 <= image.len() && image.len() % 512 == 0
}

// Goes on where a check holds, and refuses where it doesn't.
pub fn ensure(holds: bool, refusal: Refusal) -> Result<(), Refusal>
    ensures passes { IfOk result (λ _. holds ≡ true) }
    ensures refuses { IfErr result (λ r. (r ≡ refusal) × (holds ≡ false)) }
{
    if holds { Ok(()) } else { Err(refusal) }
}
