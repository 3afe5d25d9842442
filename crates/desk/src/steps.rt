//! The steps of a run, and their lines.
use bodies::size::LABEL_BYTES;
use handshake::model::Protocol;
use handshake::rule::letter;
use listing::lines::{InstructionLine, RuleLine};
use meaning::model::Model;
use sheets::arrangement::Arrangement;
use sheets::names::Names;
use std::str::from_utf8;
use tokens::model::TokenStore;
use tokens::steps::instruction;

// A step: its number from 1, its label, and the states before and after it.
#[derive(Drop)]
struct Step<S> {
    number: usize,
    label: usize,
    from: S,
    next: S,
}

// Hands on each step of a run of any model, from the bytes of each label.
fn each_step<M: Model, F: Fn(Step<M::State>) -> anyhow::Result<()>>(
    model: &M,
    labels: &[u8],
    tell: F,
) -> anyhow::Result<()>
    requires { F.IsAlwaysCallable tell }
{
    let (pairs, _) = labels.as_chunks::<LABEL_BYTES>();
    let mut from = model.start();
    for (number, pair) in (1..).zip(pairs) {
        let label = usize::from(u16::from_be_bytes(*pair));
        let mut next = from;
        let _possible = model.step(&from, label, &mut next);
        tell(Step {
            number,
            label,
            from,
            next,
        })?;
        from = next;
    }
    Ok(())
}

fn print_instructions(
    rt: &impl Print,
    store: &TokenStore,
    names: &Names,
    labels: &[u8],
) -> anyhow::Result<()> {
    each_step(store, labels, |at| {
        if let Some(act) = instruction(&store.program, &at.from, at.label)
            && let Some(name) = names.text(act.token)
        {
            rt.println(InstructionLine {
                step: at.number,
                label: at.label,
                sign: act.sign,
                name: from_utf8(name)?,
            })?;
        }
        Ok(())
    })
}

fn print_rules(rt: &impl Print, protocol: &Protocol, labels: &[u8]) -> anyhow::Result<()> {
    each_step(protocol, labels, |at| {
        if let Some(letter) = letter(at.label) {
            rt.println(RuleLine {
                step: at.number,
                label: at.label,
                letter,
                known: at.next.known_count(),
            })?;
        }
        Ok(())
    })
}

// Prints a line for each step of a run.
pub(crate) fn print_steps(
    rt: &impl Print,
    arrangement: Arrangement,
    names: &Names,
    labels: &[u8],
) -> anyhow::Result<()> {
    match arrangement {
        Arrangement::Handshake(arrangement) => print_rules(rt, &Protocol { arrangement }, labels),
        Arrangement::Tokens(program) => {
            print_instructions(rt, &TokenStore { program }, names, labels)
        }
    }
}
