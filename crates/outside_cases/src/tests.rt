ghost use Rattle.std.specs.Prelude.{◌≡◌, IfOk, vec_len};
ghost use Rattle.outside_io.specs.Ends.{IsUnlinked};

use outside_io::*;
use std::alloc::{AllocError, Global};
use std::io;
use std::io::{ErrorKind, Read, Write};
use std::process::Abort;
use std::test::Fail;

#[test]
fn a_source_in_memory_gives_chunks_and_fails_where_told(rt: HostRuntime) -> Result<(), Fail> {
    let alloc = rt.alloc();
    let bytes = b"abcdef".to_vec(alloc)?;
    let failing = [1].to_vec(alloc)?;
    let mut source = SourceMem::new(bytes, 2, failing);
    let mut buf = [0u8; 4];
    let cases: [(&str, usize, Result<&[u8], Failed>); 6] = [
        ("a chunk", 4, Ok(b"ab")),
        ("a listed read takes nothing", 4, Err(Failed)),
        ("less room than a chunk", 1, Ok(b"c")),
        ("a chunk again", 4, Ok(b"de")),
        ("what is left", 4, Ok(b"f")),
        ("the end", 4, Ok(b"")),
    ];
    for (why, room, want) in cases {
        let given = source.read(&mut buf[..room]).map(|n| &buf[..n]);
        assert!(rt; given == want, "{why}");
    }
    Ok(())
}

#[test]
fn a_sink_in_memory_keeps_pieces_and_fails_where_told(rt: HostRuntime) -> Result<(), Fail> {
    let alloc = rt.alloc();
    let mut sink = SinkMem::new(alloc, [1].to_vec(alloc)?);
    assert_eq!(rt; sink.write(b"ab"), Ok(2));
    assert_eq!(rt;
        sink.write(b"cd"),
        Err(Failed),
        "a listed write holds nothing more"
    );
    assert_eq!(rt; sink.write(b""), Ok(0));
    assert_eq!(rt; sink.write(b"ef"), Ok(2));
    assert_eq!(rt; sink.held(), b"abef".as_slice());
    Ok(())
}

#[test]
fn a_source_is_read_whole(rt: HostRuntime) -> Result<(), Fail> {
    let alloc = rt.alloc();
    let bytes = b"twenty-six letters, or so".to_vec(alloc)?;
    let mut source = SourceMem::new(bytes, 8, Vec::new(alloc));
    let mut out = b"before: ".to_vec(alloc)?;
    assert_eq!(rt; read_whole(&mut source, &mut out), Ok(Taken::End));
    assert_eq!(rt;
        out.as_slice(),
        b"before: twenty-six letters, or so".as_slice()
    );
    Ok(())
}

#[test]
fn a_read_that_fails_midway_leaves_the_output(rt: HostRuntime) -> Result<(), Fail> {
    let alloc = rt.alloc();
    let bytes = b"twenty-six letters, or so".to_vec(alloc)?;
    let mut source = SourceMem::new(bytes, 8, [1].to_vec(alloc)?);
    let mut out = b"before: ".to_vec(alloc)?;
    assert_eq!(rt; read_whole(&mut source, &mut out), Err(ReadBad::Fault));
    assert_eq!(rt; out.as_slice(), b"before: ".as_slice());
    // The next call goes on after the first chunk.
    assert_eq!(rt; read_whole(&mut source, &mut out), Ok(Taken::End));
    assert_eq!(rt; out.as_slice(), b"before: ix letters, or so".as_slice());
    Ok(())
}

#[test]
fn an_input_past_the_most_is_cut_there(rt: HostRuntime) -> Result<(), Fail> {
    let alloc = rt.alloc();
    for (bytes, want) in [(0, Taken::End), (1, Taken::Past), (2, Taken::Past)] {
        let input = zeros(alloc, MAX_INPUT + bytes)?;
        let mut source = SourceMem::new(input, 1_000_000, Vec::new(alloc));
        let mut out = Vec::new(alloc);
        assert_eq!(rt; read_whole(&mut source, &mut out), Ok(want));
        assert_eq!(rt; out.len(), MAX_INPUT);
    }
    Ok(())
}

// A function of its own, so that no goal spells out so long a list.
fn zeros(alloc: Global, count: usize) -> Result<Vec<u8>, AllocError>
    ensures { IfOk result (λ bytes. vec_len bytes ≡ count) }
{
    vec![in alloc; 0u8; count]
}

#[test]
fn a_piece_is_written_whole_or_the_sink_fails(rt: HostRuntime) -> Result<(), Fail> {
    let alloc = rt.alloc();
    let mut sink = SinkMem::new(alloc, Vec::new(alloc));
    assert_eq!(rt; write_whole(&mut sink, b"all of it"), Ok(()));
    assert_eq!(rt; sink.held(), b"all of it".as_slice());
    let mut broken = SinkMem::new(alloc, [0].to_vec(alloc)?);
    assert_eq!(rt; write_whole(&mut broken, b"all of it"), Err(Failed));
    assert_eq!(rt; broken.held(), b"".as_slice());
    Ok(())
}

#[test]
fn a_missing_wire_refuses_each_link(rt: HostRuntime) {
    for role in [Role::Listen, Role::Connect] {
        let mut wire = NoWire::new();
        let refused = refuses(&mut wire, role);
        assert!(rt; refused);
    }
}

// At a wire's bound alone.
fn refuses<W: Wire>(wire: &mut W, role: Role) -> bool
    requires { IsUnlinked (W.ends wire.old) }
{
    let refused = wire.link(role, 7000).is_err();
    refused && !wire.linked(0) && !wire.linked(1)
}

// A reader and a writer that handle a byte at a time, and are broken after two.
#[derive(Drop)]
struct Broken(u8);

impl Broken {
    fn step(&mut self) -> io::Result<()> {
        if self.0 >= 2 {
            return Err(io::Error::from(ErrorKind::BrokenPipe));
        }
        self.0 += 1;
        Ok(())
    }
}

impl Read for Broken {
    fn read(&mut self, buf: &mut [u8]) -> io::Result<usize> {
        self.step()?;
        match buf {
            [] => Ok(0),
            [first, ..] => {
                *first = b'x';
                Ok(1)
            }
        }
    }
}

impl Write for Broken {
    fn write(&mut self, buf: &[u8]) -> io::Result<usize> {
        self.step()?;
        Ok(buf.len().min(1))
    }

    fn flush(&mut self) -> io::Result<()> {
        Ok(())
    }
}

#[test]
fn standard_input_is_a_source(rt: HostRuntime) -> Result<(), Fail> {
    let alloc = rt.alloc();
    // What the process is given is not the test's to say: only a read that wants nothing is certain.
    assert_eq!(rt; StdinSource::new(rt.stdin()).read(&mut []), Ok(0));

    let mut out = Vec::new(alloc);
    assert_eq!(rt;
        read_whole(&mut StdinSource::new(b"piped".as_slice()), &mut out),
        Ok(Taken::End)
    );
    assert_eq!(rt; out.as_slice(), b"piped".as_slice());
    assert_eq!(rt;
        read_whole(&mut StdinSource::new(Broken(0)), &mut out),
        Err(ReadBad::Fault)
    );
    assert_eq!(rt; out.as_slice(), b"piped".as_slice());
    Ok(())
}

#[test]
fn standard_output_is_a_sink(rt: HostRuntime) {
    assert_eq!(rt;
        write_whole(&mut StdoutSink::new(rt.stdout()), b"written whole\n"),
        Ok(())
    );

    assert_eq!(rt; write_whole(&mut StdoutSink::new(Broken(0)), b"ok"), Ok(()));
    assert_eq!(rt;
        write_whole(&mut StdoutSink::new(Broken(0)), b"not ok"),
        Err(Failed)
    );
}

#[test]
fn a_pair_in_memory_carries_bytes_both_ways(rt: HostRuntime) {
    let alloc = rt.alloc();
    let mut wire = WireMem::new(alloc, Vec::new(alloc), Vec::new(alloc));
    talk(&rt, &mut wire);
    assert_eq!(rt; wire.sent(0), b"hello".as_slice());
    assert_eq!(rt; wire.sent(1), b"good day".as_slice());
}

#[test]
fn a_pair_of_sockets_carries_bytes_both_ways(rt: HostRuntime) {
    let mut wire = TcpWire::new(&rt);
    talk(&rt, &mut wire);
}

fn talk<W: Wire>(rt: &impl Abort, wire: &mut W)
    requires { IsUnlinked (W.ends wire.old) }
{
    assert_eq!(rt; wire.link_pair(), Ok(()));
    assert!(rt; wire.linked(0) && wire.linked(1));
    let mut buf = [0u8; 8];
    assert_eq!(rt; wire.write(0, b"hello"), Ok(5));
    assert_eq!(rt; wire.read(1, &mut buf[..5]), Ok(5));
    assert_eq!(rt; &buf[..5], b"hello".as_slice());
    assert_eq!(rt; wire.write(1, b"good day"), Ok(8));
    assert_eq!(rt; wire.read(0, &mut buf), Ok(8));
    assert_eq!(rt; buf.as_slice(), b"good day".as_slice());
    wire.shut(0);
    assert_eq!(rt; wire.read(1, &mut buf), Ok(0), "the other end was shut");
    wire.shut(1);
    assert!(rt; !wire.linked(0) && !wire.linked(1));
}

#[test]
fn a_wire_in_memory_has_a_peer_and_fails_where_told(rt: HostRuntime) -> Result<(), Fail> {
    let alloc = rt.alloc();
    let mut wire = WireMem::new(alloc, b"abc".to_vec(alloc)?, [0, 3].to_vec(alloc)?);
    hear(&rt, &mut wire);
    assert_eq!(rt; wire.sent(0), b"xy".as_slice());
    Ok(())
}

// Of the calls that are numbered, 0 and 3 fail.
fn hear<W: Wire>(rt: &impl Abort, wire: &mut W)
    requires { IsUnlinked (W.ends wire.old) }
{
    assert_eq!(rt; wire.link(Role::Listen, 7000), Err(Failed));
    assert_eq!(rt; wire.link(Role::Listen, 7000), Ok(()));
    assert!(rt; wire.linked(0) && !wire.linked(1));
    let mut buf = [0u8; 2];
    assert_eq!(rt; wire.read(0, &mut buf), Ok(2));
    assert_eq!(rt; buf.as_slice(), b"ab".as_slice());
    assert_eq!(rt;
        wire.read(0, &mut buf),
        Err(Failed),
        "a listed call takes nothing"
    );
    assert_eq!(rt; wire.read(0, &mut buf), Ok(1));
    assert_eq!(rt; wire.read(0, &mut buf), Ok(0), "the peer's bytes ended");
    assert_eq!(rt; wire.write(0, b"xy"), Ok(2));
    wire.shut(0);
    assert_eq!(rt;
        wire.link(Role::Connect, 7000),
        Ok(()),
        "the peer's bytes come anew"
    );
    assert!(rt; wire.linked(0));
    assert_eq!(rt; wire.read(0, &mut buf), Ok(2));
    wire.shut(0);
}

#[test]
fn a_missing_wire_links_nothing(rt: HostRuntime) {
    let mut wire = NoWire::new();
    assert_eq!(rt; wire.link(Role::Connect, 7000), Err(Failed));
    assert_eq!(rt; wire.link_pair(), Err(Failed));
}
