// What the test programs share: bytes that are made and not stored, a file read whole, and the line of a verdict.
#![tactic(auto)]

ghost use Rattle.std.specs.Prelude.{◌≡◌, ◌≤◌, length, IfOk, IfSome};
ghost use Rattle.std.specs.Io.{ReadsAtMost};

use std::fs::File;
use std::io;
use std::io::{ErrorKind, Read};
use std::rt::Files;

// Fills s with first, first + by, first + 2 by, .. modulo m.
pub fn sequence(s: &mut [u8], first: u8, by: u8, m: u32)
    requires { (1 ≤ m) × (m ≤ 256) }
{
    let mut value = first as u32 % m;
    for byte in s {
        *byte = value as u8;
        value = (value + by as u32) % m;
    }
}

// Reads until s is full or the input ends. The number of bytes read.
fn read_full(input: &mut impl Read, s: &mut [u8]) -> io::Result<usize>
    ensures { ReadsAtMost result s.new }
{
    // A while: how far a read gets is the input's to say, and std's read_exact refuses an input that ends before s is full.
    let mut done: usize = 0;
    while done < s.len() {
        let n = input.read(&mut s[done..])?;
        if n == 0 {
            break;
        }
        done += n;
    }
    Ok(done)
}

// Reads the file into s. The number of its bytes, or None if s has no room for all of them. After None or an error some bytes of s may be
// the file's. A name that is no text is refused: std opens no other.
pub fn load(rt: &impl Files, s: &mut [u8], name: &[u8]) -> io::Result<Option<usize>>
    ensures within { IfOk result (λ r. IfSome r (λ n. n ≤ length s.new)) }
    ensures room { length s.new ≡ length s.old }
{
    let name = str::from_utf8(name).map_err(|_| io::Error::from(ErrorKind::InvalidInput))?;
    let mut file = File::open(rt, name)?;
    let n = read_full(&mut file, s)?;
    let rest = read_full(&mut file, &mut [0])?;
    Ok((rest == 0).then_some(n))
}

// One line: what was tried, in bytes as a file may have them, and ok or FAILED.
// (Written as it is: bytes of a file may be no text, and have no Display.)
pub fn line(rt: &impl Print, what: &[u8], ok: bool) -> io::Result<()> {
    let verdict = if ok { "ok" } else { "FAILED" };
    rt.write_all(what)?;
    println!(rt; ": {verdict}")
}
