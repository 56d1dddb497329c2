// The words of the command line, and the numbers of statuses.

use crate::running::{NEVER, ran};
use bench_cli::Status;
use std::alloc::Global;
use std::test::Fail;

// What is said where the words ask for nothing that there is.
const USAGE: &[u8] = b"usage: gde run | run order N | make N SEED | audit\n";

// Whether the word brings this about, where the first read fails, or the write that is counted.
fn has_usage(
    alloc: Global,
    word: &str,
    faults: (u64, u64),
    status: Status,
    written: &[u8],
) -> Result<bool, Fail> {
    let (ended, sink) = ran(alloc, word, b"net A 8\n", 7, faults)?;
    Ok(ended == status && sink.held() == written)
}

#[test]
fn other_words(rt: HostRuntime) -> Result<(), Fail> {
    let alloc = rt.alloc();
    for word in ["", "Run", "run ", "runs", "make"] {
        assert!(rt;
            has_usage(alloc, word, (1, NEVER), Status::Usage, USAGE)?,
            "{word}"
        );
        assert!(rt;
            has_usage(alloc, word, (NEVER, 1), Status::WriteFault, b"")?,
            "{word}"
        );
    }
    Ok(())
}

#[test]
fn numbers_of_statuses(rt: HostRuntime) {
    let statuses = [
        Status::Done,
        Status::SomeRefused,
        Status::Usage,
        Status::ReadFault,
        Status::WriteFault,
        Status::TooMuch,
        Status::NoMemory,
    ];
    for (i, status) in statuses.iter().enumerate() {
        assert!(rt; usize::from(status.number()) == i);
    }
}
