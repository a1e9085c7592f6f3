//! Sources and sinks that fail on demand.
use pager::Source;
use scripted::{ReadScript, ScriptSink, ScriptSource};
use std::alloc::{AllocError, Global};
use std::test::Fail;
use values::write_all;

/// What three reads of two bytes give, where the second fails and the third finds other bytes.
fn three_reads(source: &mut ScriptSource, alloc: Global) -> Result<Vec<(bool, bool)>, AllocError> {
    let mut read = [0u8; 2];
    let mut seen = Vec::new(alloc);
    for _ in 0..3 {
        let done = source.read_at(1, &mut read).is_ok();
        seen.push((done, read == *b"bc"))?;
    }
    Ok(seen)
}

#[test]
fn scripts(rt: HostRuntime) -> Result<(), Fail> {
    let alloc = rt.alloc();
    let (bytes, later) = (
        Vec::from_slice(alloc, b"abc")?,
        Vec::from_slice(alloc, b"xyz")?,
    );
    let mut source = ScriptSource::changing(bytes, later, 3, ReadScript::At(2));
    let seen = three_reads(&mut source, alloc)?;
    let wanted = [(true, true), (false, true), (true, false)];
    assert_eq!(rt; seen.as_slice(), wanted.as_slice());
    let counts = (source.reads(), source.failures(), source.len());
    assert_eq!(rt; counts, (3, 1, Ok(3)));
    let mut source = source.with_script(ReadScript::From(1));
    assert!(rt; source.read_at(0, &mut [0u8; 2]).is_err() && source.reads() == 1);
    assert!(rt; source.with_script(ReadScript::Length).len().is_err());
    let mut sink = ScriptSink::in_steps(alloc, 2, 5);
    assert!(rt;
        write_all(&mut sink, b"abcdefg").is_err() && sink.as_slice() == b"abcde".as_slice()
    );
    assert_eq!(rt; (sink.calls(), sink.failures()), (4, 1));
    Ok(())
}
