// Answers as C has them: the number is returned, and all else is laid in what the caller lends. `capi` has the calls.
// The C interface has no Result and no bool: so each function here returns a number, and lays what a slot is as 1 or 0.
#![tactic(auto)]

ghost use Rattle.std.specs.Prelude.{◌≡◌, ◌∷◌, map};
ghost use Rattle.header.specs.Refusals.{checked, answered, values_of};
ghost use Rattle.opening.specs.Opening.{slot_in, length_in, key_in, values_in};
ghost use Rattle.screens.specs.Entries.{bits_shown, details_shown};

use header::{Refusal, Refused};
use opening::Opened;
use screens::Entry;

// What a call returns as C has it: the number is returned, and how many values it made is laid in `values`.
pub fn lay_values(values: &mut u64, answer: Result<u64, Refused>) -> u8
    ensures { (result ≡ answered answer) × (values.new ≡ values_of answer) }
{
    match answer {
        Ok(made) => {
            *values = made;
            0
        }
        Err(refused) => {
            *values = refused.values;
            u8::from(refused.refusal)
        }
    }
}

// An opening as C has it: the number is returned, slot, key length and the 64 key bytes are laid in the buffer, and the values as above.
// These 66 bytes are the call's answer: zeros where it is refused (01: "refused, all of these are zero").
pub fn lay_opened(opened: &mut [u8; 66], values: &mut u64, answer: Result<Opened, Refused>) -> u8
    ensures { (result ≡ answered answer) × (opened.new ≡ slot_in answer ∷ length_in answer ∷ key_in answer) × (values.new ≡ values_in answer) }
{
    match answer {
        Ok(o) => {
            opened[0] = o.slot;
            opened[1] = o.key_length;
            opened[2..].copy_from_slice(&o.key);
            lay_values(values, Ok(o.values))
        }
        Err(refused) => {
            opened.fill(0);
            lay_values(values, Err(refused))
        }
    }
}

// The first screen: its eight entries are laid in the buffer, 1 for an enabled slot; zeros where it is refused.
pub fn lay_slots(enabled: &mut [u8; 8], screen: Result<[bool; 8], Refusal>) -> u8
    ensures { (result ≡ checked screen) × (enabled.new ≡ bits_shown screen) }
{
    match screen {
        Ok(bits) => {
            *enabled = bits.map(|bit| u8::from(bit));
            0
        }
        Err(refusal) => {
            *enabled = [0; 8]; // none is shown
            u8::from(refusal)
        }
    }
}

// The second screen: a field of its entries to each buffer of eight numbers, zeros where it is refused. (C has four arrays for it.)
pub fn lay_details(
    enabled: &mut [u8; 8],
    counts: &mut [u32; 8],
    starts: &mut [u32; 8],
    stripes: &mut [u32; 8],
    screen: Result<[Entry; 8], Refusal>,
) -> u8
    ensures { (result ≡ checked screen)
        × (enabled.new ≡ map (λ d. d.enabled) (details_shown screen)) × (counts.new ≡ map (λ d. d.count) (details_shown screen))
        × (starts.new ≡ map (λ d. d.start) (details_shown screen)) × (stripes.new ≡ map (λ d. d.stripes) (details_shown screen)) }
{
    match screen {
        Ok(entries) => {
            *enabled = entries.map(|entry| u8::from(entry.enabled));
            *counts = entries.map(|entry| entry.count);
            *starts = entries.map(|entry| entry.start.0);
            *stripes = entries.map(|entry| entry.stripes);
            0
        }
        Err(refusal) => {
            *enabled = [0; 8];
            *counts = [0; 8];
            *starts = [0; 8];
            *stripes = [0; 8];
            u8::from(refusal)
        }
    }
}
