// What a key is expanded to: its key schedules, and these as bit planes.

ghost use Rattle.std.specs.Prelude.{◌+◌, ◌*◌, ◌≤◌, length};

// A key expanded once, for many data units: the key schedules of its halves, for the blocks and for the tweaks, and the number of
// rounds before the last.
// (No heap: 240 bytes are room for the longest schedule; `room` says which part of them rounds stands for.)
#[derive(Clone, Copy)]
pub struct Keys {
    pub blocks: [u8; 240],
    pub tweaks: [u8; 240],
    pub rounds: usize,
    ghost room: { (rounds + 2) * 16 ≤ 240 },
}

// The same schedules sliced, each round key in all lanes.
#[derive(Clone, Copy)]
pub struct Schedules<'a> {
    pub blocks: &'a [u32],
    pub tweaks: &'a [u32],
    pub rounds: usize,
    ghost for_blocks: { (rounds + 2) * 128 ≤ length blocks.now },
    ghost for_tweaks: { (rounds + 2) * 128 ≤ length tweaks.now },
}
