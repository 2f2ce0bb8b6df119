// Official vectors of the primitives, run against the code: one line for each, its name and ok or FAILED.
#![tactic(auto)]

use std::io;

mod blocks;
mod derivations;
mod digests;
mod hex;
mod hmacs;
mod splits;
mod units;

fn main(rt: HostRuntime) -> io::Result<()> {
    digests::messages(&rt)?;
    digests::long_messages(&rt)?;
    hmacs::rfc2202_and_4231(&rt)?;
    derivations::rfc6070_and_7914(&rt)?;
    blocks::fips197(&rt)?;
    units::annex_b(&rt)?;
    splits::diffusion(&rt)?;
    splits::sha1_stripes(&rt)?;
    splits::sha256_stripes(&rt)
}
