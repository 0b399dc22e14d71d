use crate::{
    DiskFiles, FileFault, Files, Gate, MemFiles, MemSink, OpenGate, Sink, SinkFault, Status,
    StdSink,
};
use std::alloc::Global;
use std::collections::BTreeMap;
use std::test::Fail;
use std::{fs, process};

/// A store in memory that holds the file `a` with five bytes, and fails at these calls.
fn five_bytes(alloc: Global, failing: &[u64]) -> Result<MemFiles, Fail> {
    let mut files = BTreeMap::new(alloc);
    let _ = files.insert(
        String::from_str(alloc, "a")?,
        Vec::from_slice(alloc, b"12345".as_slice())?,
    )?;
    Ok(MemFiles::new(alloc, files, Vec::from_slice(alloc, failing)?))
}

#[test]
fn a_store_in_memory_reads_and_writes(rt: HostRuntime) -> Result<(), Fail> {
    let alloc = rt.alloc();
    let mut files = five_bytes(alloc, [].as_slice())?;
    assert_eq!(rt;
        files.read_file(alloc, "a", 5),
        Ok(Vec::from_slice(alloc, b"12345".as_slice())?)
    );
    assert_eq!(rt; files.read_file(alloc, "a", 4), Err(FileFault::TooLong));
    assert_eq!(rt; files.read_file(alloc, "b", 5), Err(FileFault::Failed));
    assert_eq!(rt; files.write_file(alloc, "b", b"xy".as_slice()), Ok(()));
    assert_eq!(rt; files.held("b"), Some(b"xy".as_slice()));
    assert_eq!(rt; files.held("a"), Some(b"12345".as_slice()));
    Ok(())
}

#[test]
fn a_store_in_memory_fails_where_told(rt: HostRuntime) -> Result<(), Fail> {
    let alloc = rt.alloc();
    let mut files = five_bytes(alloc, [1, 2].as_slice())?;
    assert!(rt; files.read_file(alloc, "a", 5).is_ok());
    assert_eq!(rt; files.read_file(alloc, "a", 5), Err(FileFault::Failed));
    assert_eq!(rt;
        files.write_file(alloc, "a", b"".as_slice()),
        Err(FileFault::Failed)
    );
    assert_eq!(rt; files.held("a"), Some(b"12345".as_slice()));
    assert!(rt; files.write_file(alloc, "a", b"".as_slice()).is_ok());
    Ok(())
}

#[test]
fn a_sink_in_memory_fails_where_told(rt: HostRuntime) -> Result<(), Fail> {
    let alloc = rt.alloc();
    let mut sink = MemSink::new(alloc, Vec::from_slice(alloc, [1].as_slice())?);
    assert_eq!(rt; sink.put(b"ab".as_slice()), Ok(()));
    assert_eq!(rt; sink.put(b"".as_slice()), Ok(()));
    assert_eq!(rt; sink.put(b"cd".as_slice()), Err(SinkFault::Failed));
    assert_eq!(rt; sink.put(b"ef".as_slice()), Ok(()));
    assert_eq!(rt; sink.bytes(), b"abef".as_slice());
    Ok(())
}

#[test]
fn the_files_of_the_system_are_reached(rt: HostRuntime) -> Result<(), Fail> {
    let alloc = rt.alloc();
    let name = format!(in alloc; "outer_world_test_{}", process::id(rt.process()))?;
    let mut files = DiskFiles::new(&rt);
    assert_eq!(rt;
        files.read_file(alloc, name.as_str(), 5),
        Err(FileFault::Failed)
    );
    assert_eq!(rt;
        files.write_file(alloc, name.as_str(), b"12345".as_slice()),
        Ok(())
    );
    let whole = files.read_file(alloc, name.as_str(), 5);
    let longer = files.read_file(alloc, name.as_str(), 4);
    fs::remove_file(&rt, name.as_str())?;
    assert_eq!(rt; whole, Ok(Vec::from_slice(alloc, b"12345".as_slice())?));
    assert_eq!(rt; longer, Err(FileFault::TooLong));
    Ok(())
}

#[test]
fn the_streams_take_pieces(rt: HostRuntime) {
    assert_eq!(rt;
        StdSink::out(&rt).put(b"a piece on standard output\n".as_slice()),
        Ok(())
    );
    assert_eq!(rt;
        StdSink::err(&rt).put(b"a piece on standard error\n".as_slice()),
        Ok(())
    );
}

#[test]
fn an_open_gate_lets_pass(_rt: HostRuntime) {
    OpenGate.enter(0, u64::MAX);
}

#[test]
fn a_status_has_its_number(rt: HostRuntime) {
    assert_eq!(rt; Status::Done.number(), 0);
    assert_eq!(rt; Status::Deep.number(), 9);
}
