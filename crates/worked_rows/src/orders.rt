// Sessions whose labels are worked out in several orders, one of them of one's own.
ghost use Rattle.std.specs.Prelude.{◌≤◌, ◌<◌};

use crate::circuits::Circuit;
use crate::running::lines_ended;
use bench_cli::run;
use bench_io::{MemorySink, MemorySource};
use propagation_agenda::{Newest, Oldest, Picker, Seeded};
use std::alloc::Global;
use std::test::Fail;

// The lines of the circuits, and of what goes on, goes back and asks, so many times.
fn session(alloc: Global, times: usize) -> Result<Vec<u8>, Fail> {
    let mut text = Vec::from_slice(alloc, Circuit::Orders.lines())?;
    for _time in 0..times {
        text.extend_from_slice(Circuit::Mixed.lines())?;
    }
    Ok(text)
}

// Chooses what came last, and keeps the most that waited at once.
#[derive(Clone, Copy, Debug)]
struct Watching {
    most: usize,
}

impl Picker for Watching {
    fn pick(&mut self, waiting: usize) -> usize
        requires { 1 ≤ waiting }
        ensures { result < waiting }
    {
        self.most = self.most.max(waiting);
        waiting - 1
    }
}

// What a session writes whose labels are worked out in the order of the picker.
fn picked<P: Picker>(alloc: Global, picker: &mut P, text: &[u8]) -> Result<MemorySink, Fail> {
    let mut source = MemorySource::new(Vec::from_slice(alloc, text)?, 1024, Vec::new(alloc));
    let mut sink = MemorySink::open(alloc, 100_000, Vec::new(alloc))?;
    run(alloc, picker, &mut source, &mut sink);
    Ok(sink)
}

// Whether it is this.
fn is_written<P: Picker>(
    alloc: Global,
    picker: &mut P,
    text: &[u8],
    wanted: &[u8],
) -> Result<bool, Fail> {
    let sink = picked(alloc, picker, text)?;
    Ok(sink.held() == wanted)
}

// In every order of propagation the replies are the same.
#[test]
fn in_every_order(rt: HostRuntime) -> Result<(), Fail> {
    let alloc = rt.alloc();
    let text = session(alloc, 8)?;
    let oldest = picked(alloc, &mut Oldest, &text)?;
    assert!(rt; lines_ended(oldest.held()) > 300);
    assert!(rt; is_written(alloc, &mut Newest, &text, oldest.held())?);
    let mut watching = Watching { most: 0 };
    assert!(rt; is_written(alloc, &mut watching, &text, oldest.held())?);
    assert!(rt; watching.most >= 2);
    for seed in [0, 1, 2, 3, 4, 42, 4_294_967_295] {
        let mut seeded = Seeded::new(seed);
        assert!(rt;
            is_written(alloc, &mut seeded, &text, oldest.held())?,
            "{seed}"
        );
    }
    Ok(())
}
