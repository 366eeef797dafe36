//! The outside called directly: places in memory, real files and streams, and faults in mid-stream.
ghost use Rattle.std.specs.Prelude.{◌≡◌, ◌≤◌, [], IfOk};

use spd_edge::{
    Failed, FileIn, FileOut, MemIn, MemOut, MemPlace, Open, Place, ReadAll, ReaderIn, RealPlace,
    Sink, Source, StdErr, StdIn, StdOut, WriterOut, read_all, write_all_of,
};
use std::alloc::AllocError;
use std::fs::File;
use std::io::Write;
use std::test::Fail;
use std::{fs, io};

fn mem_in(rt: &HostRuntime, bytes: &[u8], most: usize, fail: &[u64]) -> Result<MemIn, Fail>
    requires { 1 ≤ most }
    ensures { IfOk result (λ input. input.faults ≡ 0) }
{
    let bytes = bytes.to_vec(rt.alloc())?;
    Ok(MemIn::new(bytes, most, fail.to_vec(rt.alloc())?))
}

fn mem_out(rt: &HostRuntime, room: usize, most: usize, fail: &[u64]) -> Result<MemOut, Fail>
    requires { 1 ≤ most }
    ensures faults { IfOk result (λ output. output.faults ≡ 0) }
    ensures taken { IfOk result (λ output. output.taken ≡ []) }
{
    let fail = fail.to_vec(rt.alloc())?;
    Ok(MemOut::new(rt.alloc(), room, most, fail)?)
}

#[test]
fn reads_up_to_the_limit(rt: HostRuntime) -> Result<(), Fail> {
    let no_calls: &[u64] = &[];
    let cases = [
        (4, 2, no_calls, Err(ReadAll::TooLong)),
        (5, 2, no_calls, Ok(b"hello".as_slice())),
        (usize::MAX, 9, no_calls, Ok(b"hello".as_slice())),
        (5, 1, [1].as_slice(), Err(ReadAll::Fault)),
        (5, 1, [5].as_slice(), Err(ReadAll::Fault)),
        (5, 1, [6].as_slice(), Ok(b"hello".as_slice())),
    ];
    for (limit, most, fail, want) in cases {
        let mut input = mem_in(&rt, b"hello", most, fail)?;
        match (read_all(rt.alloc(), &mut input, limit), want) {
            (Ok(bytes), Ok(want)) => assert_eq!(rt; bytes.as_slice(), want),
            (Err(e), Err(want)) => assert_eq!(rt; e, want),
            _ => assert!(rt; false, "at limit {limit}"),
        }
    }
    Ok(())
}

#[test]
fn reads_many_chunks(rt: HostRuntime) -> Result<(), Fail> {
    let bytes = vec![in rt.alloc(); 7u8; 100_000]?;
    let mut input = MemIn::new(bytes, 70_000, Vec::new(rt.alloc()));
    let all = read_all(rt.alloc(), &mut input, 100_000)?;
    assert_eq!(rt; all.len(), 100_000);
    assert!(rt; all.iter().all(|&byte| byte == 7));
    Ok(())
}

#[test]
fn writes_until_a_write_fails(rt: HostRuntime) -> Result<(), Fail> {
    let cases = [(99, [2].as_slice()), (8, [].as_slice())];
    for (room, fail) in cases {
        let mut output = mem_out(&rt, room, 4, fail)?;
        assert_eq!(rt; write_all_of(&mut output, b"hello world!"), Err(Failed));
        assert_eq!(rt; output.taken(), b"hello wo".as_slice());
    }
    let mut output = mem_out(&rt, 12, 5, &[])?;
    assert_eq!(rt; write_all_of(&mut output, b"hello world!"), Ok(()));
    assert_eq!(rt; output.taken(), b"hello world!".as_slice());
    Ok(())
}

/// What a place in memory reads under a name, where `hello` was put under `a`: nothing where the name
/// isn't opened.
fn read_put(
    rt: &HostRuntime,
    name: &[u8],
    fail: &[u64],
) -> Result<Option<Result<Vec<u8>, ReadAll>>, Fail> {
    let mut place = MemPlace::new(rt.alloc());
    place.put_in(b"a", mem_in(rt, b"hello", 3, fail)?)?;
    match place.open_in(name) {
        Ok(mut input) => {
            let read = read_all(rt.alloc(), &mut input, 9);
            place.close_in(name, input);
            Ok(Some(read))
        }
        Err(Open::Failed) => Ok(None),
        Err(Open::Memory) => Err(Fail::from(AllocError)),
    }
}

#[test]
fn opens_what_was_put(rt: HostRuntime) -> Result<(), Fail> {
    let read = read_put(&rt, b"a", &[])?.ok_or("not opened")?;
    assert_eq!(rt; read?.as_slice(), b"hello".as_slice());
    let failed = read_put(&rt, b"a", &[0])?.ok_or("not opened")?;
    assert!(rt; matches!(failed, Err(ReadAll::Fault)));
    assert!(rt; read_put(&rt, b"b", &[])?.is_none());
    Ok(())
}

/// The fault count of an output that was put under `a` and that was written to under a name, and what it
/// took: nothing where the name isn't opened.
fn write_put(rt: &HostRuntime, name: &[u8], fail: &[u64]) -> Result<Option<(u64, Vec<u8>)>, Fail> {
    let mut place = MemPlace::new(rt.alloc());
    place.put_out(b"a", mem_out(rt, 99, 4, fail)?)?;
    let mut output = match place.open_out(name) {
        Ok(output) => output,
        Err(Open::Failed) => return Ok(None),
        Err(Open::Memory) => return Err(Fail::from(AllocError)),
    };
    let _ = write_all_of(&mut output, b"hello world!");
    let faults = output.faults();
    place.close_out(name, output);
    match place.taken(name) {
        Some(taken) => Ok(Some((faults, taken.to_vec(rt.alloc())?))),
        None => Err(Fail::from("not closed")),
    }
}

#[test]
fn keeps_what_outputs_took(rt: HostRuntime) -> Result<(), Fail> {
    let cases = [
        ([].as_slice(), 0, b"hello world!".as_slice()),
        ([2].as_slice(), 1, b"hello wo".as_slice()),
    ];
    for (fail, want_faults, want) in cases {
        let (faults, taken) = write_put(&rt, b"a", fail)?.ok_or("not opened")?;
        assert_eq!(rt; faults, want_faults);
        assert_eq!(rt; taken.as_slice(), want);
    }
    assert!(rt; write_put(&rt, b"b", &[])?.is_none());
    Ok(())
}

/// What a place of its own reads under a name: nothing where the name isn't opened.
fn read_real(rt: &HostRuntime, name: &[u8], limit: usize) -> Result<Option<Vec<u8>>, ReadAll> {
    let mut place = RealPlace::new(*rt);
    match place.open_in(name) {
        Ok(mut input) => {
            let read = read_all(rt.alloc(), &mut input, limit);
            place.close_in(name, input);
            Ok(Some(read?))
        }
        Err(Open::Failed) => Ok(None),
        Err(Open::Memory) => Err(ReadAll::Memory),
    }
}

#[test]
fn opens_real_files(rt: HostRuntime) -> Result<(), Fail> {
    let path = "spd_edge-test-file";
    fs::write(&rt, path, "hello")?;
    let whole = read_real(&rt, path.as_bytes(), 5);
    let short = read_real(&rt, path.as_bytes(), 4);
    fs::remove_file(&rt, path)?;
    assert_eq!(rt; whole?.ok_or("not opened")?.as_slice(), b"hello".as_slice());
    assert!(rt; matches!(short, Err(ReadAll::TooLong)));
    assert!(rt; matches!(read_real(&rt, b"no such file", 5), Ok(None)));
    assert!(rt; matches!(read_real(&rt, b".", 5), Err(ReadAll::Fault)));
    Ok(())
}

#[test]
fn opens_standard_input(rt: HostRuntime) -> Result<(), Fail> {
    let mut place = RealPlace::new(rt);
    let mut input = place.open_in(b"-")?;
    assert_eq!(rt; input.read(&mut []), Ok(0));
    place.close_in(b"-", input);
    Ok(())
}

#[test]
fn reads_real_streams(rt: HostRuntime) -> Result<(), Fail> {
    let mut file: FileIn = ReaderIn::new(
        b"zero".to_vec(rt.alloc())?,
        File::open(&rt, "/dev/zero")?,
    );
    let mut buf = [1; 10];
    assert_eq!(rt; file.read(&mut buf), Ok(10));
    assert_eq!(rt; buf, [0; 10]);
    let mut stdin: StdIn = ReaderIn::new(b"-".to_vec(rt.alloc())?, rt.stdin());
    assert_eq!(rt; stdin.read(&mut []), Ok(0));
    Ok(())
}

/// Writes some bytes to the output of a name, which a place of its own opens.
fn write_real(rt: &HostRuntime, name: &[u8], bytes: &[u8]) -> Result<Result<(), Failed>, Open> {
    let mut place = RealPlace::new(*rt);
    let mut output = place.open_out(name)?;
    let written = write_all_of(&mut output, bytes);
    place.close_out(name, output);
    Ok(written)
}

#[test]
fn writes_real_files(rt: HostRuntime) -> Result<(), Fail> {
    let path = "spd_edge-test-output";
    fs::write(&rt, path, "longer than what follows")?;
    let written = write_real(&rt, path.as_bytes(), b"hello");
    let read = read_real(&rt, path.as_bytes(), 99);
    fs::remove_file(&rt, path)?;
    assert_eq!(rt; written?, Ok(()));
    assert_eq!(rt; read?.ok_or("not opened")?.as_slice(), b"hello".as_slice());
    assert_eq!(rt; write_real(&rt, b"-", b"out\n")?, Ok(()));
    assert_eq!(rt; write_real(&rt, b"/dev/full", b"lost")?, Err(Failed));
    assert!(rt; matches!(write_real(&rt, b".", b"lost"), Err(Open::Failed)));
    Ok(())
}

#[test]
fn writes_real_streams(rt: HostRuntime) -> Result<(), Fail> {
    let mut stdout: StdOut = WriterOut::new(Vec::new(rt.alloc()), rt.stdout());
    assert_eq!(rt; write_all_of(&mut stdout, b"out\n"), Ok(()));
    let mut stderr: StdErr = WriterOut::new(Vec::new(rt.alloc()), rt.stderr());
    assert_eq!(rt; write_all_of(&mut stderr, b"err\n"), Ok(()));
    let full = fs::OpenOptions::new().write(true).open(&rt, "/dev/full")?;
    let mut full: FileOut = WriterOut::new(b"full".to_vec(rt.alloc())?, full);
    assert_eq!(rt; write_all_of(&mut full, b"lost"), Err(Failed));
    Ok(())
}

/// A writer whose second flush fails.
#[derive(Drop)]
struct FailsToFlush {
    flushes: u8,
}

impl Write for FailsToFlush {
    fn write(&mut self, buf: &[u8]) -> io::Result<usize> {
        Ok(buf.len().min(4))
    }

    fn flush(&mut self) -> io::Result<()> {
        self.flushes = self.flushes.saturating_add(1);
        if self.flushes == 2 {
            return Err(io::Error::from(io::ErrorKind::Other));
        }
        Ok(())
    }
}

#[test]
fn counts_a_flush_that_fails(rt: HostRuntime) -> Result<(), Fail> {
    let mut output = WriterOut::new(Vec::new(rt.alloc()), FailsToFlush { flushes: 0 });
    assert_eq!(rt; output.write(b"hello"), Ok(4));
    assert_eq!(rt; output.write(b"hello"), Err(Failed));
    assert_eq!(rt; output.write(b"hello"), Ok(4));
    Ok(())
}
