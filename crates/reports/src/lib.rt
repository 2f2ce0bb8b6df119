// What is tried of a drive, and one line for each thing found: the drive, what was tried, and ok or FAILED.
#![tactic(auto)]

use header::{Refusal, Refused};
use std::fmt::{Display, Formatter, Write};
use std::{fmt, io};

// A kind of drive: its hash and the bits of its volume key. The last one's payload begins right after its areas.
#[derive(Clone, Copy, PartialEq, Eq)]
pub enum Kind {
    Sha1With256,
    Sha1With512,
    Sha256With256,
    Sha256With512,
    OldStart,
}

// (By match: each kind has a text of its own, which no derive writes.)
impl Display for Kind {
    fn fmt<W: Write>(&self, f: &mut Formatter<W>) -> fmt::Result {
        f.write_str(match self {
            Kind::Sha1With256 => "sha1, 256-bit drive",
            Kind::Sha1With512 => "sha1, 512-bit drive",
            Kind::Sha256With256 => "sha256, 256-bit drive",
            Kind::Sha256With512 => "sha256, 512-bit drive",
            Kind::OldStart => "payload start 65, sha1, 256-bit drive",
        })
    }
}

// What is tried of a drive: where its lines go, its kind, its volume key and a wrong key of the same length, and filler and random stripes for an area.
#[derive(Drop)]
pub struct Tried<'a, P> {
    pub rt: &'a P,
    pub kind: Kind,
    pub key: &'a [u8],
    pub wrong: &'a [u8],
    pub filler: &'a [u8],
    pub random: &'a [u8],
}

impl<P: Print> Tried<'_, P> {
    // What was tried of the drive, and the refusal that it is to have, if any.
    // (What was tried, the refusal and the verdict stay three arguments, here and below: a struct would be made at each call and read once.)
    pub fn line(&self, what: &[u8], refusal: Option<Refusal>, ok: bool) -> io::Result<()> {
        print!(self.rt; "{}: ", self.kind)?;
        end(self.rt, what, refusal, ok)
    }

    // The same, of a slot.
    pub fn slot_line(
        &self,
        slot: u8,
        what: &[u8],
        refusal: Option<Refusal>,
        ok: bool,
    ) -> io::Result<()> {
        print!(self.rt; "{}: slot {slot} ", self.kind)?;
        end(self.rt, what, refusal, ok)
    }
}

// The end of a line: a refusal is shown by its number in 01. (What was tried is bytes, as testing::line writes it.)
fn end(rt: &impl Print, what: &[u8], refusal: Option<Refusal>, ok: bool) -> io::Result<()> {
    rt.write_all(what)?;
    if let Some(refusal) = refusal {
        print!(rt; " ({})", u8::from(refusal))?;
    }
    testing::line(rt, b"", ok)
}

// Why a call was refused, if it was.
pub fn refusal_of<T: Copy>(answer: Result<T, Refused>) -> Option<Refusal> {
    answer.err().map(|refused| refused.refusal)
}

// The four bytes at an index, as one number; 0 where the image has no four there, since every index has an answer.
// (octets::be32_at asks that the four are there.)
pub fn be32_at(image: &[u8], at: usize) -> u32 {
    image
        .get(at..)
        .and_then(|rest| rest.first_chunk())
        .map_or(0, |four| u32::from_be_bytes(*four))
}
