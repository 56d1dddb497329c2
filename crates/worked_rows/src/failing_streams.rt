// Sessions whose reads and writes fail, each in turn.
ghost use Rattle.std.specs.Prelude.{◌<◌};

use crate::running::{NEVER, lines_ended, ran};
use bench_cli::Status;
use std::alloc::Global;
use std::process::Abort;
use std::test::Fail;

// The lines of a session, and their replies. The last line has no newline.
const SESSION: [(&[u8], &[u8]); 9] = [
    (b"net A 8", b"ok\n"),
    (b"net B 8", b"ok\n"),
    (b"net Z 8", b"ok\n"),
    (b"# Z is the sum", b""),
    (b"add S A B Z", b"ok\n"),
    (b"", b""),
    (b"measure A 5", b"ok\n"),
    (b"measure B 7", b"ok\n"),
    (b"label Z", b"Z=12 {S;A,B}\nok\n"),
];

// The bytes of the session.
fn session(alloc: Global) -> Result<Vec<u8>, Fail> {
    let mut text = Vec::new(alloc);
    for (i, (line, _)) in SESSION.iter().enumerate() {
        let newline: &[u8] = if i == 0 { b"" } else { b"\n" };
        text.extend_from_slice(newline)?;
        text.extend_from_slice(line)?;
    }
    Ok(text)
}

// The replies to its first lines.
fn replies_to(alloc: Global, lines: usize) -> Result<Vec<u8>, Fail> {
    let mut replies = Vec::new(alloc);
    for (_, reply) in SESSION.iter().take(lines) {
        replies.extend_from_slice(reply)?;
    }
    Ok(replies)
}

// Whether the run ends with the status where the read fails, with the replies to the first lines.
fn is_read(
    alloc: Global,
    text: &[u8],
    piece: usize,
    read: u64,
    lines: usize,
    status: Status,
) -> Result<bool, Fail>
    requires { 0 < piece }
{
    let want = replies_to(alloc, lines)?;
    let (ended, sink) = ran(alloc, "run", text, piece, (read, NEVER))?;
    Ok(ended == status && sink.held() == want.as_slice())
}

// Lets each read of pieces of this size fail in turn, and then none.
fn reads_fail(rt: &impl Abort, alloc: Global, text: &[u8], piece: usize) -> Result<(), Fail>
    requires { 0 < piece }
{
    let last = text.len().div_ceil(piece);
    for read in 0..last + 1 {
        let given = read.saturating_mul(piece).min(text.len());
        let lines = lines_ended(&text[..given]);
        let fault = Status::ReadFault;
        assert!(rt;
            is_read(alloc, text, piece, read as u64 + 1, lines, fault)?,
            "piece {piece}, read {read}"
        );
    }
    let after = last as u64 + 2;
    assert!(rt;
        is_read(alloc, text, piece, after, SESSION.len(), Status::Done)?,
        "piece {piece}"
    );
    Ok(())
}

#[test]
fn each_read_fails_in_turn(rt: HostRuntime) -> Result<(), Fail> {
    let text = session(rt.alloc())?;
    reads_fail(&rt, rt.alloc(), &text, 1)?;
    reads_fail(&rt, rt.alloc(), &text, 7)?;
    reads_fail(&rt, rt.alloc(), &text, 1024)
}

// How much was written before the write failed, if it failed; and all that was written stands first in the replies.
fn written_before(
    alloc: Global,
    text: &[u8],
    piece: usize,
    write: u64,
    replies: &[u8],
) -> Result<Option<usize>, Fail>
    requires { 0 < piece }
{
    let (status, sink) = ran(alloc, "run", text, piece, (NEVER, write))?;
    let held = sink.held();
    match status {
        Status::WriteFault if replies.starts_with(held) => Ok(Some(held.len())),
        Status::Done if held == replies => Ok(None),
        _ => Err("another status, or other replies".into()),
    }
}

// Lets each write fail in turn, up to the last, where the session is read in pieces of this size.
fn writes_fail(
    rt: &impl Abort,
    alloc: Global,
    text: &[u8],
    replies: &[u8],
    piece: usize,
) -> Result<(), Fail>
    requires { 0 < piece }
{
    let mut len = 0;
    for write in 1..100 {
        let Some(written) = written_before(alloc, text, piece, write, replies)? else {
            // Seven lines have a reply, and each is at least one write.
            assert!(rt; 7 < write, "there are {write} writes");
            return Ok(());
        };
        assert!(rt; write == 1 || len < written, "write {write}");
        len = written;
    }
    assert!(rt; false, "there are more writes");
    Ok(())
}

#[test]
fn each_write_fails_in_turn(rt: HostRuntime) -> Result<(), Fail> {
    let text = session(rt.alloc())?;
    let replies = replies_to(rt.alloc(), SESSION.len())?;
    writes_fail(&rt, rt.alloc(), &text, &replies, 1)?;
    writes_fail(&rt, rt.alloc(), &text, &replies, 7)?;
    writes_fail(&rt, rt.alloc(), &text, &replies, 1024)
}
