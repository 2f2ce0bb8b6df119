// Where the header's fields begin, in bytes of the image (01, "Header and layout").
pub const MAGIC: usize = 0;

pub const VERSION: usize = 6;

pub const CIPHER: usize = 8;

pub const MODE: usize = 40;

pub const HASH: usize = 72;

pub const PAYLOAD_START: usize = 104;

pub const KEY_BYTES: usize = 108;

pub const CHECKSUM: usize = 112;

pub const CHECKSUM_SALT: usize = 132;

pub const CHECKSUM_COUNT: usize = 164;

pub const UUID: usize = 168;

// The slots' records, one behind the other, and the fields of each.
pub const RECORDS: usize = 208;

pub const RECORD_BYTES: usize = 48;

pub const COUNT: usize = 4;

pub const SALT: usize = 8;

pub const AREA_START: usize = 40;

pub const STRIPES: usize = 44;
