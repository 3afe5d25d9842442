//! A case: a sheet to be examined, or a finding to be judged.
ghost use Rattle.std.specs.Prelude.{◌<◌};

use bodies::kind::Kind;
use desk::docket::handle;
use desk::judging::judge_in_trees;
use listing::lines::FaultLine;
use register::register::Register;
use std::alloc::{AllocError, Global};

fn digit(b: u8) -> u8
    ensures { result < 16 }
{
    match b {
        b'0'..=b'9' => b - b'0',
        b'a'..=b'f' => b - b'a' + 10,
        _ => 0,
    }
}

// The bytes that a text of hexadecimal digits tells. The kit's `hex` would refuse a text that this takes: what is no digit is 0.
fn bytes_of(heap: Global, text: &[u8]) -> Result<Vec<u8>, AllocError> {
    let (pairs, _) = text.as_chunks::<2>();
    let mut bytes = Vec::new(heap);
    for [high, low] in pairs {
        bytes.push(digit(*high) * 16 + digit(*low))?;
    }
    Ok(bytes)
}

// Judges a finding in two trees of so many places.
// `Kind` is another crate's: `Display` would need a type of this one around it.
fn print_judged(rt: &impl Print, heap: Global, places: u16, finding: &[u8]) -> anyhow::Result<()> {
    match judge_in_trees(heap, places, places, finding)? {
        Ok(verdict) => {
            let number = verdict.number();
            let kind = match verdict.kind() {
                Kind::Breach => "breach",
                Kind::Closed => "closed",
            };
            println!(rt; "docket {number} {kind}")?;
        }
        Err(fault) => rt.println(FaultLine::of(&fault))?,
    }
    Ok(())
}

// Prints the answer to a case.
pub(crate) fn print_case(rt: &impl Print, heap: Global, line: &[u8]) -> anyhow::Result<()> {
    let [what, digits @ ..] = line else {
        return Ok(());
    };
    let bytes = bytes_of(heap, digits)?;
    let Some((places, given)) = bytes.as_slice().split_first_chunk::<2>() else {
        return Ok(());
    };
    let places = u16::from_be_bytes(*places);
    match *what {
        b's' => {
            let mut register = Register::new();
            handle(rt, heap, &mut register, places, given)
        }
        // All else is judged.
        _ => print_judged(rt, heap, places, given),
    }
}
