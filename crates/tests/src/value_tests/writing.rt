//! Sinks that gather small pieces, and one over a writer.
use scripted::ScriptSink;
use std::alloc::Global;
use std::test::Fail;
use values::{Fault, Gathered, MemSink, Sink, Value, WriteSink, write_all, write_literal};

/// Writes a piece so many times.
fn fill<S: Sink>(out: &mut S, piece: &[u8], count: u32) -> Result<(), Fault> {
    for _ in 0..count {
        write_all(out, piece)?;
    }
    Ok(())
}

/// What becomes of pieces of ten bytes that are gathered for a sink.
#[derive(Clone, Copy, Debug)]
struct Gathering {
    /// How many bytes the sink takes at a call, and in all.
    step: usize,
    room: usize,
    pieces: u32,
    /// Whether each piece is taken, and whether the rest is.
    taken: bool,
    finished: bool,
    /// How many bytes the sink then has, how often it failed, and how often it was called at most.
    bytes: usize,
    failures: u64,
    calls: u64,
}

const GATHERINGS: [Gathering; 3] = [
    Gathering {
        step: 1_000_000,
        room: 1_000_000,
        pieces: 10_000,
        taken: true,
        finished: true,
        bytes: 100_000,
        failures: 0,
        calls: 2,
    },
    Gathering {
        step: 7,
        room: 70_000,
        pieces: 7_001,
        taken: true,
        finished: false,
        bytes: 70_000,
        failures: 1,
        calls: 10_010,
    },
    Gathering {
        step: 7,
        room: 70_000,
        pieces: 20_000,
        taken: false,
        finished: false,
        bytes: 70_000,
        failures: 2,
        calls: 10_010,
    },
];

/// Whether the pieces are gathered as a row says.
fn gathers(alloc: Global, row: &Gathering) -> Result<bool, Fault> {
    let sink = ScriptSink::in_steps(alloc, row.step, row.room);
    let mut gathered = Gathered::new(alloc, sink)?;
    let filled = fill(&mut gathered, b"0123456789", row.pieces);
    let (out, ended) = gathered.finish();
    let ends = (filled.is_ok(), ended.is_ok()) == (row.taken, row.finished);
    let counts = (out.as_slice().len(), out.failures()) == (row.bytes, row.failures);
    Ok(ends && counts && out.calls() <= row.calls)
}

#[test]
fn gathered_pieces(rt: HostRuntime) -> Result<(), Fail> {
    for row in &GATHERINGS {
        assert!(rt; gathers(rt.alloc(), row)?, "{row:?}");
    }
    Ok(())
}

/// What a sink has of a long piece between two short ones.
fn write_around(alloc: Global, long: &[u8]) -> Result<MemSink, Fault> {
    let mut gathered = Gathered::new(alloc, MemSink::new(alloc))?;
    let before = fill(&mut gathered, b"ab", 1);
    let middle = fill(&mut gathered, long, 1);
    let after = fill(&mut gathered, b"cd", 1);
    let (out, ended) = gathered.finish();
    before.and(middle).and(after).and(ended)?;
    Ok(out)
}

#[test]
fn pieces_in_their_place(rt: HostRuntime) -> Result<(), Fail> {
    let out = write_around(rt.alloc(), &[b'x'; 70_000])?;
    assert_eq!(rt; out.as_slice().len(), 70_004);
    assert!(rt; out.as_slice().starts_with(b"abx") && out.as_slice().ends_with(b"xcd"));
    Ok(())
}

#[test]
fn a_writer(rt: HostRuntime) -> Result<(), Fail> {
    let mut out = WriteSink::new(Vec::<u8>::new(rt.alloc()));
    write_literal(&Value::Int(7), &mut out)?;
    let mut full = [0u8; 2];
    let mut out = WriteSink::new(full.as_mut_slice());
    assert_eq!(rt;
        write_literal(&Value::Int(-12), &mut out),
        Err(Fault::WriteFailed)
    );
    Ok(())
}
