//! A wire over TCP.

ghost use Rattle.std.specs.Prelude.{◌≡◌, ◌+◌, ◌≤◌, ◌<◌, None, min, length, false, IfOk, is_some};
ghost use Rattle.outside_io.specs.Faults.{last_count};
ghost use Rattle.outside_io.specs.TcpWire.{TcpWireData, socket_end};

use crate::failed::Failed;
use crate::link::{Asked, Role};
use crate::wire::Wire;
use std::io;
use std::io::{ErrorKind, Read, Write};
use std::marker::Model;
use std::net::{Ipv4Addr, Net, OpenListener, OpenStream, SocketAddr, TcpListener, TcpStream};

/// A wire over TCP sockets of 127.0.0.1. To listen is to accept one connection; a pair is a connection of
/// this process to itself, at a free port. Each error is counted and answered as a fault.
///
/// It tells no bytes. Its calls wait for the peer, however long that takes.
#[derive(Drop)]
pub struct TcpWire<N: Net + Drop> {
    net: N,
    first: Option<N::Stream>,
    second: Option<N::Stream>,
    asked: Asked,
    asks: u64,
    faults: u64,
}

impl<N: Net + Drop> Model for TcpWire<N> {
    ghost Value = { TcpWireData };

    ghost view = { λ w. record {
      first = is_some w.first;
      second = is_some w.second;
      asked = w.asked;
      asks = w.asks;
      faults = w.faults;
    } };
}

impl<N: Net + Drop> TcpWire<N> {
    /// No link was asked for so far.
    pub fn new(net: N) -> TcpWire<N>
        ensures { result ≡ record { first = false; second = false; asked = Asked.Nothing; asks = 0; faults = 0 } }
    {
        TcpWire {
            net,
            first: None,
            second: None,
            asked: Asked::Nothing,
            asks: 0,
            faults: 0,
        }
    }

    fn keep_asked(&mut self, asked: Asked)
        ensures { self.new ≡ record self.old {
          asked = asked;
          asks = min (self.old.asks + 1) last_count;
        } }
    {
        self.asked = asked;
        self.asks = self.asks.saturating_add(1);
    }

    // Counts a fault.
    fn fault(&mut self) -> Failed
        ensures counted { self.new ≡ record self.old { faults = min (self.old.faults + 1) last_count } }
        ensures later { self.old.faults ≤ self.new.faults }
    {
        self.faults = self.faults.saturating_add(1);
        Failed
    }
}

fn local(port: u16) -> SocketAddr {
    SocketAddr::from((Ipv4Addr::LOCALHOST, port))
}

fn open_to_peer<N: Net>(net: &N, role: Role, port: u16) -> io::Result<N::Stream> {
    match role {
        Role::Listen => {
            let listener = TcpListener::bind(net, local(port))?;
            let (stream, _) = listener.accept()?;
            Ok(stream)
        }
        Role::Connect => TcpStream::connect(net, local(port)),
    }
}

// The system keeps a connection for the listener until it is accepted, so that one thread can do both.
fn open_pair<N: Net>(net: &N) -> io::Result<(N::Stream, N::Stream)> {
    let listener = TcpListener::bind(net, local(0))?;
    let port = listener.local_addr()?.port();
    let second = TcpStream::connect(net, local(port))?;
    let (first, caller) = listener.accept()?;
    // Another process may have connected first.
    if second.local_addr()? != caller {
        return Err(io::Error::from(ErrorKind::ConnectionRefused));
    }
    Ok((first, second))
}

fn read_from<R: Read>(stream: &mut Option<R>, buf: &mut [u8]) -> Result<usize, Failed>
    ensures kept { is_some stream.new ≡ is_some stream.old }
    ensures bound { IfOk result (λ n. n ≤ length buf.new) }
{
    let Some(stream) = stream else {
        return Err(Failed);
    };
    match stream.read(buf) {
        Ok(given) => Ok(given),
        Err(_) => Err(Failed),
    }
}

fn write_to<K: Write>(stream: &mut Option<K>, piece: &[u8]) -> Result<usize, Failed>
    ensures kept { is_some stream.new ≡ is_some stream.old }
    ensures bound { IfOk result (λ n. n ≤ length piece.now) }
    ensures some { IfOk result (λ n. 0 < length piece.now → 0 < n) }
{
    let Some(stream) = stream else {
        return Err(Failed);
    };
    match stream.write(piece) {
        Ok(taken) if taken > 0 || piece.is_empty() => Ok(taken),
        Ok(_) | Err(_) => Err(Failed),
    }
}

impl<N: Net + Drop> Wire for TcpWire<N> {
    ghost ends = { socket_end };

    ghost peer = { λ _. None };

    ghost asked = { λ w. w.asked };

    ghost asks = { λ w. w.asks };

    ghost faults = { λ w. w.faults };

    fn link(&mut self, role: Role, port: u16) -> Result<(), Failed> {
        self.keep_asked(Asked::Peer(role, port));
        match open_to_peer(&self.net, role, port) {
            Ok(stream) => {
                self.first = Some(stream);
                Ok(())
            }
            Err(_) => Err(self.fault()),
        }
    }

    fn link_pair(&mut self) -> Result<(), Failed> {
        self.keep_asked(Asked::Pair);
        match open_pair(&self.net) {
            Ok((first, second)) => {
                self.first = Some(first);
                self.second = Some(second);
                Ok(())
            }
            Err(_) => Err(self.fault()),
        }
    }

    fn linked(&self, end: u8) -> bool {
        match end {
            0 => self.first.is_some(),
            1 => self.second.is_some(),
            _ => false,
        }
    }

    fn read(&mut self, end: u8, buf: &mut [u8]) -> Result<usize, Failed> {
        let given = match end {
            0 => read_from(&mut self.first, buf),
            _ => read_from(&mut self.second, buf),
        };
        match given {
            Ok(given) => Ok(given),
            Err(Failed) => Err(self.fault()),
        }
    }

    fn write(&mut self, end: u8, piece: &[u8]) -> Result<usize, Failed> {
        let taken = match end {
            0 => write_to(&mut self.first, piece),
            _ => write_to(&mut self.second, piece),
        };
        match taken {
            Ok(taken) => Ok(taken),
            Err(Failed) => Err(self.fault()),
        }
    }

    fn shut(&mut self, end: u8) {
        match end {
            0 => self.first = None,
            1 => self.second = None,
            _ => {}
        }
    }
}
