//! Puts 65,535 states in rising order in each table, and again, and prints how many comparisons a put makes.
#![tactic(auto)]

use mark::Mark;
use meaning::table::{Placed, Table};
use std::alloc::{AllocError, Global};
use std::io;
use tables::{Scatter, Tree, put_both};

mod mark;

// As many states as a table can have places.
const STATES: u16 = 65535;

// An index that is half full at the end.
const INDEX_SLOTS: usize = 131070;

// A slot for the root, and two for each state.
const TREE_LINKS: usize = 131071;

// What a row of puts cost: comparisons in all, and of the put that made most.
#[derive(Clone, Copy, Debug, PartialEq, Eq)]
struct Cost {
    all: usize,
    most: usize,
}

impl Cost {
    fn new() -> Cost {
        Cost { all: 0, most: 0 }
    }

    fn count(&mut self, made: usize) {
        self.all = self.all.saturating_add(made);
        self.most = self.most.max(made);
    }

    // A function and no `Display`: the line begins with what was put, which is no part of a cost.
    fn print(&self, rt: &impl Print, what: &str) -> io::Result<()> {
        let puts = usize::from(STATES);
        let whole = self.all / puts;
        let hundredths = self.all % puts * 100 / puts;
        let most = self.most;
        println!(rt; "{what}: {whole}.{hundredths:02} comparisons a put, at most {most}")
    }
}

// The memory of a table with a place for each state, and of the answers to a row.
// Tables allocate nothing, so each program makes the memory that it lends.
#[derive(Drop)]
struct Memory {
    entries: Vec<Mark>,
    slots: Vec<u32>,
    answers: Vec<Placed>,
}

impl Memory {
    fn new(heap: Global, slots: usize) -> Result<Memory, AllocError> {
        let entries = vec![in heap; Mark { number: 0 }; usize::from(STATES)]?;
        let slots = vec![in heap; 0u32; slots]?;
        let answers = vec![in heap; Placed::Exhausted; usize::from(STATES)]?;
        Ok(Memory {
            entries,
            slots,
            answers,
        })
    }
}

// The states in rising order.
fn row(heap: Global) -> Result<Vec<Mark>, AllocError> {
    (0..STATES).map(|number| Mark { number }).collect(heap)
}

// Puts a row of states in a table, and counts what each put compares.
fn put_all<T: Table<State = Mark>, F: Fn(&T, &Mark) -> usize>(
    table: &mut T,
    row: &[Mark],
    probes: F,
) -> Cost
    requires { F.IsAlwaysCallable probes }
{
    let mut cost = Cost::new();
    for s in row {
        cost.count(probes(table, s));
        let _placed = table.put(s);
    }
    cost
}

// Puts the row twice in each table, and once more in both.
fn measure(rt: &impl Print, row: &[Mark], one: &mut Memory, two: &mut Memory) -> io::Result<()> {
    let mut scatter = Scatter::new(one.entries.as_mut_slice(), one.slots.as_mut_slice());
    let mut tree = Tree::new(two.entries.as_mut_slice(), two.slots.as_mut_slice());
    put_all(&mut scatter, row, |t, s| t.probes(s)).print(rt, "scattering table, new states")?;
    put_all(&mut scatter, row, |t, s| t.probes(s)).print(rt, "scattering table, held states")?;
    put_all(&mut tree, row, |t, s| t.probes(s)).print(rt, "search tree, new states")?;
    put_all(&mut tree, row, |t, s| t.probes(s)).print(rt, "search tree, held states")?;
    let first = one.answers.as_mut_slice();
    let second = two.answers.as_mut_slice();
    let both = put_both(&mut scatter, &mut tree, row, first, second);
    println!(rt; "put once more in both: {both}")
}

fn main(rt: HostRuntime) -> io::Result<()> {
    let heap = rt.alloc();
    let marks = row(heap)?;
    let mut one = Memory::new(heap, INDEX_SLOTS)?;
    let mut two = Memory::new(heap, TREE_LINKS)?;
    measure(&rt, marks.as_slice(), &mut one, &mut two)
}
