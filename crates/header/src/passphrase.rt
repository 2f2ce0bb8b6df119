// Passphrases.
ghost use Rattle.std.specs.Prelude.{◌≡◌, true, false, IfOk, IfErr};
ghost use Rattle.rules.specs.Calls.{passphrase_ok};

use crate::Refusal;

// A passphrase of 1 to 512 bytes.
#[derive(Clone, Copy)]
pub struct Passphrase<'a> {
    pub bytes: &'a [u8],
    pub ghost length_ok: { passphrase_ok bytes.now ≡ true },
}

impl<'a> TryFrom<&'a [u8]> for Passphrase<'a> {
    type Error = Refusal;

    #[tactic(auto, unfolding(rules::specs::Calls::passphrase_ok))]
    fn try_from(p: &'a [u8]) -> Result<Passphrase<'a>, Refusal>
        ensures passes { IfOk result (λ _. passphrase_ok p.now ≡ true) }
        ensures same { IfOk result (λ q. q.bytes.now ≡ p.now) }
        ensures refuses { IfErr result (λ r. (r ≡ Refusal.BadPassphrase) × (passphrase_ok p.now ≡ false)) }
    {
        if matches!(p.len(), 1..=512) {
            Ok(Passphrase { bytes: p })
        } else {
            Err(Refusal::BadPassphrase)
        }
    }
}
