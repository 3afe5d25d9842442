//! Reads sheets from standard input, each ended by `~`, and prints a line for each: what it describes, or its fault.
#![tactic(auto)]

use sheets::arrangement::{Arrangement, Handshake, Tokens};
use sheets::line::Line;
use sheets::read::read;
use std::io::Read;

// Stands after each sheet.
const END: u8 = b'~';

// Printed by functions: the types are another crate's, and `Display` would need a type of this one around each.
fn print_line(rt: &HostRuntime, line: &Line) -> anyhow::Result<()> {
    print!(rt; " agent")?;
    for act in line.as_slice() {
        let sign = act.sign;
        let token = act.token;
        print!(rt; " {sign}{token}")?;
    }
    Ok(())
}

fn print_tokens(rt: &HostRuntime, tokens: &Tokens) -> anyhow::Result<()> {
    print!(rt; " tokens")?;
    for line in tokens.lines.as_slice() {
        print_line(rt, line)?;
    }
    let breach = tokens.breach;
    println!(rt; " breach {breach}")?;
    Ok(())
}

fn print_handshake(rt: &HostRuntime, handshake: &Handshake) -> anyhow::Result<()> {
    let i = handshake.initiators;
    let r = handshake.responders;
    let m = handshake.capacity;
    let lowe = handshake.lowe;
    println!(rt; " handshake {i} {r} {m} {lowe}")?;
    Ok(())
}

fn answer(rt: &HostRuntime, sheet: &[u8]) -> anyhow::Result<()> {
    let docket = match read(sheet) {
        Ok(docket) => docket,
        Err(fault) => return Ok(println!(rt; "{fault}")?),
    };
    let number = docket.number;
    print!(rt; "docket {number}")?;
    match docket.arrangement {
        Arrangement::Handshake(handshake) => print_handshake(rt, &handshake),
        Arrangement::Tokens(tokens) => print_tokens(rt, &tokens),
    }
}

fn main(rt: HostRuntime) -> anyhow::Result<()> {
    let mut bytes = Vec::new(rt.alloc());
    rt.stdin().read_to_end(&mut bytes)?;
    let mut sheets = bytes.as_slice().split(|b| *b == END);
    // No sheet is after the last `~`.
    sheets.next_back();
    for sheet in sheets {
        answer(&rt, sheet)?;
    }
    Ok(())
}

#[cfg(test)]
mod tests {
    use faults::Fault;
    use sheets::read::read;
    use std::test::Fail;

    // The sheet of examples/zero.sheet: the number of its docket is out of range.
    #[test]
    fn zero_is_out_of_range(rt: HostRuntime) -> Result<(), Fail> {
        match read(b"docket 0\n") {
            Ok(_) => Err(Fail::new("docket 0 was read")),
            Err(fault) => {
                assert!(rt; fault.number() == 3);
                assert!(rt; fault.place() == 7);
                Ok(())
            }
        }
    }
}
