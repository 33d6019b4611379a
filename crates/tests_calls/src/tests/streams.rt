//! Counted readers and writers whose calls do what a script says.

ghost use Rattle.std.specs.Prelude.{◌≡◌, ◌<◌};
ghost use Rattle.bpfspec_output.specs.Streams.{failures_of};

use crate::tests::asserts::assert_same;
use bpfspec_output::{Counted, DeviceFault, Sink, Source};
use std::alloc::Global;
use std::io;
use std::io::{ErrorKind, Read, Write};
use std::process::Abort;
use std::test::Fail;

/// What a call of a scripted stream does.
#[derive(Clone, Copy)]
enum Turn {
    /// It fails.
    Fails,
    /// It moves as many bytes as it can, at most this many.
    Moves(usize),
}

/// The next call's turn. Calls after the end of the script move all that they can.
fn next_turn(script: &mut &[Turn]) -> Turn {
    match script.split_first() {
        Some((turn, rest)) => {
            *script = rest;
            *turn
        }
        None => Turn::Moves(usize::MAX),
    }
}

/// A reader of std over these bytes.
#[derive(Drop)]
struct ScriptedReader<'a> {
    script: &'a [Turn],
    rest: &'a [u8],
}

impl Read for ScriptedReader<'_> {
    fn read(&mut self, buffer: &mut [u8]) -> io::Result<usize> {
        match next_turn(&mut self.script) {
            Turn::Fails => Err(io::Error::from(ErrorKind::BrokenPipe)),
            Turn::Moves(most) => {
                let room = buffer.len().min(most);
                self.rest.read(&mut buffer[..room])
            }
        }
    }
}

/// A writer of std.
#[derive(Drop)]
struct ScriptedWriter<'a> {
    script: &'a [Turn],
    taken: Vec<u8>,
}

impl Write for ScriptedWriter<'_> {
    fn write(&mut self, piece: &[u8]) -> io::Result<usize> {
        match next_turn(&mut self.script) {
            Turn::Fails => Err(io::Error::from(ErrorKind::BrokenPipe)),
            Turn::Moves(most) => {
                let n = piece.len().min(most);
                self.taken.extend_from_slice(&piece[..n])?;
                Ok(n)
            }
        }
    }

    fn flush(&mut self) -> io::Result<()> {
        Ok(())
    }
}

fn reader<'a>(script: &'a [Turn], bytes: &'a [u8]) -> Counted<ScriptedReader<'a>>
    ensures { failures_of result ≡ 0 }
{
    Counted::new(ScriptedReader {
        script,
        rest: bytes,
    })
}

fn writer<'a>(alloc: Global, script: &'a [Turn]) -> Counted<ScriptedWriter<'a>>
    ensures { failures_of result ≡ 0 }
{
    Counted::new(ScriptedWriter {
        script,
        taken: Vec::new(alloc),
    })
}

const SCRIPT: [Turn; 6] = [
    Turn::Moves(3),
    Turn::Fails,
    Turn::Moves(2),
    Turn::Fails,
    Turn::Fails,
    Turn::Moves(1),
];

/// Asserts what a call of this turn answered, and how many calls have failed by then.
fn is_reported(
    rt: &impl Abort,
    turn: Turn,
    outcome: Result<usize, DeviceFault>,
    before: u64,
    failures: u64,
)
    requires { before < 6 }
{
    let wanted = match turn {
        Turn::Fails => (Err(DeviceFault), before + 1),
        Turn::Moves(n) => (Ok(n), before),
    };
    assert_same(rt, (outcome, failures), wanted);
}

#[test]
fn a_read_fails_only_where_the_reader_does(rt: HostRuntime) {
    let mut source = reader(&SCRIPT, b"eightish");
    for turn in SCRIPT {
        let mut buffer = [0; 8];
        let before = source.failures();
        assert!(rt; before < 6);
        let outcome = source.read(&mut buffer);
        is_reported(&rt, turn, outcome, before, source.failures());
    }
    assert_same(&rt, source.into_inner().rest, b"sh".as_slice());
}

#[test]
fn a_write_fails_only_where_the_writer_does(rt: HostRuntime) {
    let mut sink = writer(rt.alloc(), &SCRIPT);
    for turn in SCRIPT {
        let before = sink.failures();
        assert!(rt; before < 6);
        let outcome = sink.write(b"eightish");
        is_reported(&rt, turn, outcome, before, sink.failures());
    }
    assert_same(
        &rt,
        sink.into_inner().taken.as_slice(),
        b"eigeie".as_slice(),
    );
}

#[test]
fn a_write_that_takes_nothing_fails(rt: HostRuntime) {
    let mut sink = writer(rt.alloc(), &[Turn::Moves(0), Turn::Moves(0)]);
    let refused = sink.write(b"eightish");
    is_reported(&rt, Turn::Fails, refused, 0, sink.failures());
    let empty = sink.write(b"");
    assert_same(&rt, (empty, sink.failures()), (Ok(0), 1));
}
