// HMAC: the seven test cases of RFC 2202 with SHA-1, and those of RFC 4231 with SHA-256.
ghost use Rattle.std.specs.Prelude.{◌+◌, ◌≤◌, ◌<◌, ◌^◌, length};

use crate::digests;
use hash::Hash;
use std::io;

// A key and a text, no longer than the hash can count, and the digits of the first bytes of their HMAC.
struct Case {
    hash: Hash,
    name: &'static [u8],
    key: &'static [u8],
    text: &'static [u8],
    bytes: usize,
    digits: &'static [u8],
    ghost countable: { (length key.now < 2 ^ 61) × (64 + length text.now < 2 ^ 61) },
    ghost within: { bytes ≤ 32 },
}

// All bytes of the HMAC but in case 5 of RFC 4231, which is cut to 128 bits.
const CASES: [Case; 14] = [
    Case {
        hash: Hash::Sha1,
        name: b"HMAC-SHA-1, RFC 2202 case 1",
        key: &[0x0b; 20],
        text: b"Hi There",
        bytes: 20,
        digits: b"b617318655057264e28bc0b6fb378c8ef146be00",
    },
    Case {
        hash: Hash::Sha1,
        name: b"HMAC-SHA-1, RFC 2202 case 2",
        key: b"Jefe",
        text: b"what do ya want for nothing?",
        bytes: 20,
        digits: b"effcdf6ae5eb2fa2d27416d5f184df9c259a7c79",
    },
    Case {
        hash: Hash::Sha1,
        name: b"HMAC-SHA-1, RFC 2202 case 3",
        key: &[0xaa; 20],
        text: &[0xdd; 50],
        bytes: 20,
        digits: b"125d7342b9ac11cd91a39af48aa17b4f63f175d3",
    },
    Case {
        hash: Hash::Sha1,
        name: b"HMAC-SHA-1, RFC 2202 case 4",
        key: b"\x01\x02\x03\x04\x05\x06\x07\x08\x09\x0a\x0b\x0c\x0d\x0e\x0f\x10\x11\x12\x13\x14\x15\x16\x17\x18\x19",
        text: &[0xcd; 50],
        bytes: 20,
        digits: b"4c9007f4026250c6bc8414f9bf50c86c2d7235da",
    },
    Case {
        hash: Hash::Sha1,
        name: b"HMAC-SHA-1, RFC 2202 case 5",
        key: &[0x0c; 20],
        text: b"Test With Truncation",
        bytes: 20,
        digits: b"4c1a03424b55e07fe7f27be1d58bb9324a9a5a04",
    },
    Case {
        hash: Hash::Sha1,
        name: b"HMAC-SHA-1, RFC 2202 case 6",
        key: &[0xaa; 80],
        text: b"Test Using Larger Than Block-Size Key - Hash Key First",
        bytes: 20,
        digits: b"aa4ae5e15272d00e95705637ce8a3b55ed402112",
    },
    Case {
        hash: Hash::Sha1,
        name: b"HMAC-SHA-1, RFC 2202 case 7",
        key: &[0xaa; 80],
        text: b"Test Using Larger Than Block-Size Key and Larger Than One Block-Size Data",
        bytes: 20,
        digits: b"e8e99d0f45237d786d6bbaa7965c7808bbff1a91",
    },
    Case {
        hash: Hash::Sha256,
        name: b"HMAC-SHA-256, RFC 4231 case 1",
        key: &[0x0b; 20],
        text: b"Hi There",
        bytes: 32,
        digits: b"b0344c61d8db38535ca8afceaf0bf12b881dc200c9833da726e9376c2e32cff7",
    },
    Case {
        hash: Hash::Sha256,
        name: b"HMAC-SHA-256, RFC 4231 case 2",
        key: b"Jefe",
        text: b"what do ya want for nothing?",
        bytes: 32,
        digits: b"5bdcc146bf60754e6a042426089575c75a003f089d2739839dec58b964ec3843",
    },
    Case {
        hash: Hash::Sha256,
        name: b"HMAC-SHA-256, RFC 4231 case 3",
        key: &[0xaa; 20],
        text: &[0xdd; 50],
        bytes: 32,
        digits: b"773ea91e36800e46854db8ebd09181a72959098b3ef8c122d9635514ced565fe",
    },
    Case {
        hash: Hash::Sha256,
        name: b"HMAC-SHA-256, RFC 4231 case 4",
        key: b"\x01\x02\x03\x04\x05\x06\x07\x08\x09\x0a\x0b\x0c\x0d\x0e\x0f\x10\x11\x12\x13\x14\x15\x16\x17\x18\x19",
        text: &[0xcd; 50],
        bytes: 32,
        digits: b"82558a389a443c0ea4cc819899f2083a85f0faa3e578f8077a2e3ff46729665b",
    },
    Case {
        hash: Hash::Sha256,
        name: b"HMAC-SHA-256, RFC 4231 case 5",
        key: &[0x0c; 20],
        text: b"Test With Truncation",
        bytes: 16,
        digits: b"a3b6167473100ee06e0c796c2955552b",
    },
    Case {
        hash: Hash::Sha256,
        name: b"HMAC-SHA-256, RFC 4231 case 6",
        key: &[0xaa; 131],
        text: b"Test Using Larger Than Block-Size Key - Hash Key First",
        bytes: 32,
        digits: b"60e431591ee0b67f0d8a26aacbf5b77f8e0bc6213728c5140546040f0ee37f54",
    },
    Case {
        hash: Hash::Sha256,
        name: b"HMAC-SHA-256, RFC 4231 case 7",
        key: &[0xaa; 131],
        text: b"This is a test using a larger than block-size key and a larger than block-size data. \
            The key needs to be hashed before being used by the HMAC algorithm.",
        bytes: 32,
        digits: b"9b09ffa71b942fcb27635fbcd5b0e944bfdc63644f0713938a7f51535c3a35e2",
    },
];

pub fn rfc2202_and_4231(rt: &impl Print) -> io::Result<()> {
    let cases = &CASES[..];
    for case in cases {
        let h = hmac::hmac(case.hash, case.key, case.text);
        let right = digests::begins(h, case.bytes, case.digits);
        testing::line(rt, case.name, right)?;
    }
    Ok(())
}
