//! Examples: calls that must be refused, and then the cases of standard input, a line each: `s` and a sheet to be examined,
//! or `j` and a finding to be judged, after the number of places; all in hexadecimal.
#![tactic(auto)]

use calls::print_calls;
use cases::print_case;
use std::io::Read;

mod calls;
mod cases;

fn main(rt: HostRuntime) -> anyhow::Result<()> {
    let heap = rt.alloc();
    let mut text = Vec::new(heap);
    rt.stdin().read_to_end(&mut text)?;
    print_calls(&rt, heap)?;
    for line in text.as_slice().split_inclusive(|b| *b == b'\n') {
        if let Some(case) = line.strip_suffix(b"\n") {
            print_case(&rt, heap, case)?;
        }
    }
    Ok(())
}
