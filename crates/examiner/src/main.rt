//! Reads a sheet from standard input, examines what it describes, and prints the listing, or the sheet's fault.
#![tactic(auto)]

use desk::docket::handle;
use register::register::Register;
use std::io::Read;

// A state for each place can be kept.
const PLACES: u16 = 1024;

fn main(rt: HostRuntime) -> anyhow::Result<()> {
    let mut sheet = Vec::new(rt.alloc());
    rt.stdin().read_to_end(&mut sheet)?;
    let mut register = Register::new();
    handle(&rt, rt.alloc(), &mut register, PLACES, sheet.as_slice())
}
