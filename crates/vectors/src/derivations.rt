// PBKDF2: the test vectors of RFC 6070 with HMAC-SHA-1, and of RFC 7914, section 11, with HMAC-SHA-256, each with how many values of HMAC it makes.
ghost use Rattle.std.specs.Prelude.{◌≤◌, ◌<◌, ◌^◌, length};

use crate::hex;
use hash::Hash;
use std::io;

// A passphrase and a salt, no longer than the hash can count, how many values of HMAC are made for the derived key, and its bytes and digits.
struct Case {
    hash: Hash,
    name: &'static [u8],
    password: &'static [u8],
    salt: &'static [u8],
    count: u32,
    values: u64,
    bytes: usize,
    digits: &'static [u8],
    ghost countable: { (length password.now < 2 ^ 61) × (length salt.now < 2 ^ 60) },
    ghost counted: { 1 ≤ count },
    ghost within: { bytes ≤ 64 },
}

const CASES: [Case; 8] = [
    Case {
        hash: Hash::Sha1,
        name: b"PBKDF2, RFC 6070, 1 iteration",
        password: b"password",
        salt: b"salt",
        count: 1,
        values: 1,
        bytes: 20,
        digits: b"0c60c80f961f0e71f3a9b524af6012062fe037a6",
    },
    Case {
        hash: Hash::Sha1,
        name: b"PBKDF2, RFC 6070, 2 iterations",
        password: b"password",
        salt: b"salt",
        count: 2,
        values: 2,
        bytes: 20,
        digits: b"ea6c014dc72d6f8ccd1ed92ace1d41f0d8de8957",
    },
    Case {
        hash: Hash::Sha1,
        name: b"PBKDF2, RFC 6070, 4096 iterations",
        password: b"password",
        salt: b"salt",
        count: 4096,
        values: 4096,
        bytes: 20,
        digits: b"4b007901b765489abead49d926f721d065a429c1",
    },
    Case {
        hash: Hash::Sha1,
        name: b"PBKDF2, RFC 6070, 16777216 iterations",
        password: b"password",
        salt: b"salt",
        count: 16777216,
        values: 16777216,
        bytes: 20,
        digits: b"eefe3d61cd4da4e4e9945b3d6ba2158c2634e984",
    },
    Case {
        hash: Hash::Sha1,
        name: b"PBKDF2, RFC 6070, 25 bytes",
        password: b"passwordPASSWORDpassword",
        salt: b"saltSALTsaltSALTsaltSALTsaltSALTsalt",
        count: 4096,
        values: 8192,
        bytes: 25,
        digits: b"3d2eec4fe41c849b80c8d83662c0e44a8b291a964cf2f07038",
    },
    Case {
        hash: Hash::Sha1,
        name: b"PBKDF2, RFC 6070, zero bytes inside",
        password: b"pass\0word",
        salt: b"sa\0lt",
        count: 4096,
        values: 4096,
        bytes: 16,
        digits: b"56fa6aa75548099dcc37d7f03425e0c3",
    },
    Case {
        hash: Hash::Sha256,
        name: b"PBKDF2, RFC 7914, 1 iteration",
        password: b"passwd",
        salt: b"salt",
        count: 1,
        values: 2,
        bytes: 64,
        digits: b"55ac046e56e3089fec1691c22544b605f94185216dde0465e68b9d57c20dacbc\
            49ca9cccf179b645991664b39d77ef317c71b845b1e30bd509112041d3a19783",
    },
    Case {
        hash: Hash::Sha256,
        name: b"PBKDF2, RFC 7914, 80000 iterations",
        password: b"Password",
        salt: b"NaCl",
        count: 80000,
        values: 160000,
        bytes: 64,
        digits: b"4ddcd8f60b98be21830cee5ef22701f9641a4418d04c0414aeff08876b34ab56\
            a1d425a1225833549adb841b51c9b3176a272bdebba1d078478f62b397f33c8d",
    },
];

pub fn rfc6070_and_7914(rt: &impl Print) -> io::Result<()> {
    let cases = &CASES[..];
    for case in cases {
        let mut room = [0u8; 64];
        let key = &mut room[..case.bytes];
        let made = pbkdf2::pbkdf2(key, case.hash, case.password, case.salt, case.count);
        let right = hex::same(key, case.digits) && made == case.values;
        testing::line(rt, case.name, right)?;
    }
    Ok(())
}
