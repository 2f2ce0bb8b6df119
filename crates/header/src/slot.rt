// Slots: their numbers, their records' states, and tests of records and areas.
ghost use Rattle.std.specs.Prelude.{◌≡◌, true, false, ◌+◌, ◌*◌, ◌≤◌, ◌&&◌, ◌||◌, eqb, leb, IfOk, IfErr};
ghost use Rattle.rules.specs.Calls.{slot_number_ok};

use crate::{ImageSector, Refusal};

// The number of a slot, 1 to 8.
// (A number, and no enum of eight: the slots are counted through, and a record's place is reckoned from it.)
#[derive(Clone, Copy)]
pub struct SlotNumber {
    pub number: u8,
    pub ghost in_range: { slot_number_ok number ≡ true },
}

impl TryFrom<u8> for SlotNumber {
    type Error = Refusal;

    #[tactic(auto, unfolding(rules::specs::Calls::slot_number_ok))]
    fn try_from(k: u8) -> Result<SlotNumber, Refusal>
        ensures passes { IfOk result (λ _. slot_number_ok k ≡ true) }
        ensures same { IfOk result (λ s. s.number ≡ k) }
        ensures refuses { IfErr result (λ r. (r ≡ Refusal.BadSlot) × (slot_number_ok k ≡ false)) }
    {
        if matches!(k, 1..=8) {
            Ok(SlotNumber { number: k })
        } else {
            Err(Refusal::BadSlot)
        }
    }
}

// A slot's state as its record says it: "State 0x00AC71F3 is enabled, 0x0000DEAD disabled."
#[derive(Clone, Copy)]
pub enum SlotState {
    Enabled,
    Disabled,
    Unknown(u32),
}

const ENABLED: u32 = 0x00AC71F3;

const DISABLED: u32 = 0x0000DEAD;

impl From<u32> for SlotState {
    ghost use Rattle.header.specs.States.{state_of};

    ghost from_gives = { λ n s. s ≡ state_of n };

    fn from(n: u32) -> SlotState {
        match n {
            ENABLED => SlotState::Enabled,
            DISABLED => SlotState::Disabled,
            _ => SlotState::Unknown(n),
        }
    }
}

impl SlotState {
    ghost use Rattle.header.specs.States.{state_number, is_state_known, is_state_enabled};

    // The number that a record has for the state.
    // (By match: the third variant holds its number, so no discriminant gives it.)
    pub fn number(self) -> u32
        ensures { result ≡ state_number self }
    {
        match self {
            SlotState::Enabled => ENABLED,
            SlotState::Disabled => DISABLED,
            SlotState::Unknown(n) => n,
        }
    }

    // Is it the enabled one?
    pub fn is_enabled(self) -> bool
        ensures { result ≡ is_state_enabled self }
    {
        matches!(self, SlotState::Enabled)
    }

    // Is it one of the two?
    fn is_known(self) -> bool
        ensures { result ≡ is_state_known self }
    {
        !matches!(self, SlotState::Unknown(_))
    }
}

// A slot's record.
#[derive(Clone, Copy)]
pub struct Slot {
    pub state: SlotState,
    pub count: u32,
    pub salt: [u8; 32],
    pub start: ImageSector,
    pub stripes: u32,
}

impl Slot {
    ghost use Rattle.header.specs.States.{is_state_enabled, is_record_ok};

    // Is the slot enabled?
    pub fn is_enabled(self) -> bool
        ensures { result ≡ is_state_enabled self.state }
    {
        self.state.is_enabled()
    }

    // Has the record a known state, 1 to 4,000 stripes and, where it is enabled, a count above 0?
    #[tactic(auto, unfolding(crate::specs::States::is_record_ok))]
    pub fn record_ok(self) -> bool
        ensures { result ≡ is_record_ok self.state self.count self.stripes }
    {
        self.state.is_known()
            && (1 <= self.stripes
                && (self.stripes <= 4000 && (!self.state.is_enabled() || self.count != 0)))
    }

    // Where the slot's area begins, in bytes of the image.
    // (A sector's bytes are counted as the clauses count them; a From would be no plainer, here, below and in Head::areas_ok.)
    fn area_begin(self) -> u64
        ensures { result ≡ self.start.0 * 512 }
    {
        self.start.0 as u64 * 512
    }

    // Where the slot's area of n × L bytes ends, in bytes of the image.
    fn area_end(self, key_bytes: u32) -> u64
        requires { key_bytes ≤ 64 }
        ensures { result ≡ self.start.0 * 512 + self.stripes * key_bytes }
    {
        self.start.0 as u64 * 512 + self.stripes as u64 * key_bytes as u64
    }

    // Does the area begin at sector 2 or later, and end at the payload's start or before?
    pub fn area_inside(self, key_bytes: u32, payload: ImageSector) -> bool
        requires { key_bytes ≤ 64 }
        ensures { result ≡ (leb 2 self.start.0 && leb (self.start.0 * 512 + self.stripes * key_bytes) (payload.0 * 512)) }
    {
        2 <= self.start.0 && self.area_end(key_bytes) <= payload.0 as u64 * 512
    }

    // Do two areas share no byte?
    pub fn apart(self, other: Slot, key_bytes: u32) -> bool
        requires { key_bytes ≤ 64 }
        ensures { result ≡ (leb (self.start.0 * 512 + self.stripes * key_bytes) (other.start.0 * 512)
            || leb (other.start.0 * 512 + other.stripes * key_bytes) (self.start.0 * 512)) }
    {
        self.area_end(key_bytes) <= other.area_begin()
            || other.area_end(key_bytes) <= self.area_begin()
    }
}
