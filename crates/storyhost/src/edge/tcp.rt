//! Links over the system's loopback TCP: what is trusted, since nothing is told of their content.
ghost use Rattle.std.specs.Prelude.{◌≡◌, false, None};
ghost use Rattle.std.specs.Io.{ReadsAtMost, WritesAtMost};

use super::greeting::{Caller, ENOUGH, caller_of};
use super::log::Log;
use super::parting::Parting;
use super::patience::{Patience, pause};
use host_serve::{Door, Next, Served};
use line_talk::{Got, Link, Put, Sink, Source};
use std::io::{self, Eprint, ErrorKind, Read, Write};
use std::net::{Ipv4Addr, Net, SocketAddr, SocketAddrV4, TcpListener, TcpStream};
use std::sync::Wait;
use std::sync::atomic::{AtomicU64, Ordering};
use std::time::Clock;

/// The system's numbers for a machine or a program that has all the files open that it may have,
/// and for one that has no room for a connection.
const MACHINE_IS_FULL: i32 = 23;

const PROGRAM_IS_FULL: i32 = 24;

const NO_ROOM: i32 = 105;

/// The first bytes of a connection, until they tell who is calling.
#[derive(Drop)]
struct Head {
    bytes: [u8; ENOUGH],
    /// How many of them were read.
    count: usize,
    is_client: bool,
}

impl Head {
    fn new() -> Head {
        Head {
            bytes: [0; ENOUGH],
            count: 0,
            is_client: false,
        }
    }

    /// How many bytes may be read, at most so many: those that were looked at, as long as they
    /// don't tell who is calling. It fails where that is no client.
    fn admit(&mut self, stream: &TcpStream, most: usize) -> io::Result<usize> {
        if self.is_client {
            return Ok(most);
        }
        let Some(room) = self.bytes.get_mut(self.count..) else {
            return Ok(most);
        };
        let seen = stream.peek(room)?;
        let end = self.count.saturating_add(seen).min(ENOUGH);
        match caller_of(&self.bytes[..end]) {
            Caller::Other => Err(ErrorKind::InvalidData.into()),
            Caller::Unknown if seen > 0 => {
                let count = seen.min(most);
                self.count = self.count.saturating_add(count);
                Ok(count)
            }
            Caller::Unknown | Caller::Client => {
                self.is_client = true;
                Ok(most)
            }
        }
    }
}

/// Reads bytes of a client.
fn read_once(stream: &mut TcpStream, head: &mut Head, into: &mut [u8]) -> io::Result<usize>
    ensures bound { ReadsAtMost result into.new }
{
    let most = head.admit(stream, into.len())?.min(into.len());
    stream.read(&mut into[..most])
}

/// The same, however often the program is stopped for a while.
fn read_on(stream: &mut TcpStream, head: &mut Head, into: &mut [u8]) -> io::Result<usize>
    ensures bound { ReadsAtMost result into.new }
{
    for _ in 0..u64::MAX {
        match read_once(stream, head, into) {
            Err(error) if error.kind() == ErrorKind::Interrupted => {}
            answer => return answer,
        }
    }
    Err(ErrorKind::Interrupted.into())
}

/// Writes bytes, however often the program is stopped for a while.
fn write_on(stream: &mut TcpStream, piece: &[u8]) -> io::Result<usize>
    ensures bound { WritesAtMost result piece.now }
{
    for _ in 0..u64::MAX {
        match stream.write(piece) {
            Err(error) if error.kind() == ErrorKind::Interrupted => {}
            answer => return answer,
        }
    }
    Err(ErrorKind::Interrupted.into())
}

/// A link over a connection. Each error counts as a fault of its side, and so do a write that takes
/// nothing, and a read of a link that isn't a client's.
pub struct Connection {
    stream: TcpStream,
    head: Head,
    /// Which of its door's links it is, from 1.
    number: u64,
    taken: u64,
    ended: bool,
    read_faults: u64,
    write_faults: u64,
    /// Why a read or a write failed last.
    cause: Option<io::Error>,
}

impl Connection {
    fn new(stream: TcpStream, number: u64) -> Connection
        ensures taken { result.taken ≡ 0 }
        ensures ended { result.ended ≡ false }
        ensures read_faults { result.read_faults ≡ 0 }
        ensures write_faults { result.write_faults ≡ 0 }
    {
        Connection {
            stream,
            head: Head::new(),
            number,
            taken: 0,
            ended: false,
            read_faults: 0,
            write_faults: 0,
            cause: None,
        }
    }

    /// Closes it, and says why a read or a write failed last.
    fn close(self) -> Option<io::Error> {
        let Connection {
            stream,
            head: _,
            number: _,
            taken: _,
            ended: _,
            read_faults: _,
            write_faults: _,
            cause,
        } = self;
        drop(stream);
        cause
    }
}

impl Source for Connection {
    ghost use Rattle.line_talk.specs.Streams.{SinkState};

    ghost source = { λ c. record {
      left = None;
      taken = c.taken;
      ended = c.ended;
      faults = c.read_faults;
    } };

    ghost failing_reads = { λ _. None };

    ghost Beside = { SinkState };

    ghost beside = { λ c. record { held = None; faults = c.write_faults } };

    fn read(&mut self, into: &mut [u8]) -> Got {
        match read_on(&mut self.stream, &mut self.head, into) {
            Ok(0) => {
                self.ended = true;
                Got::End
            }
            Ok(count) => {
                self.taken = self.taken.saturating_add(count as u64);
                Got::Bytes(count)
            }
            Err(error) => {
                self.cause = Some(error);
                self.read_faults = self.read_faults.saturating_add(1);
                Got::Failed
            }
        }
    }
}

impl Sink for Connection {
    ghost use Rattle.line_talk.specs.Streams.{SourceState};

    ghost sink = { λ c. record { held = None; faults = c.write_faults } };

    ghost failing_writes = { λ _. None };

    ghost Beside = { SourceState };

    ghost beside = { λ c. record {
      left = None;
      taken = c.taken;
      ended = c.ended;
      faults = c.read_faults;
    } };

    fn write(&mut self, piece: &[u8]) -> Put {
        if piece.is_empty() {
            return Put::Took(0);
        }
        match write_on(&mut self.stream, piece) {
            Ok(count) if count > 0 => return Put::Took(count),
            Ok(_) => {}
            Err(error) => self.cause = Some(error),
        }
        self.write_faults = self.write_faults.saturating_add(1);
        Put::Failed
    }
}

impl Link for Connection {
    ghost Lent = { Unit {0} };

    ghost lent = { λ _. tt };

    ghost read_keeps = { λ old new same. (same, λ i. tt) };

    ghost write_keeps = { λ old new same. (same, λ i. tt) };
}

/// All links of a door were taken.
#[derive(Drop)]
pub struct AllTaken(());

/// Why a door of TCP failed.
#[derive(Drop)]
pub struct AcceptFault(pub io::Error);

/// A door on a port of 127.0.0.1, for so many links.
#[derive(Drop)]
pub struct TcpDoor<'r, R> {
    log: &'r Log<'r, R>,
    listener: TcpListener,
    port: u16,
    patience: Patience,
    /// How many calls for a link have begun.
    calls: AtomicU64,
    links: u32,
}

impl<'r, R: Net<Listener = TcpListener, Stream = TcpStream>> TcpDoor<'r, R> {
    /// Listens on this port, or on a free one where it is 0.
    pub fn open(
        log: &'r Log<'r, R>,
        port: u16,
        links: u32,
        patience: Patience,
    ) -> io::Result<TcpDoor<'r, R>> {
        let address = SocketAddr::V4(SocketAddrV4::new(Ipv4Addr::LOCALHOST, port));
        let listener = TcpListener::bind(log.rt(), address)?;
        let port = listener.local_addr()?.port();
        Ok(TcpDoor {
            log,
            listener,
            port,
            patience,
            calls: AtomicU64::new(0),
            links,
        })
    }
}

impl<'r, R> TcpDoor<'r, R> {
    /// The port on which it listens.
    pub fn port(&self) -> u16 {
        self.port
    }
}

/// Lets a connection be ended that keeps its worker for nothing. It goes on where a wish isn't met.
fn prepare(stream: &TcpStream, patience: Patience) {
    let _ = stream.set_nodelay(true);
    let _ = stream.set_read_timeout(Some(patience.idle));
    let _ = stream.set_write_timeout(Some(patience.deaf));
}

/// The fault is one of the connection that was to come, and not of the door.
fn is_of_connection(kind: ErrorKind) -> bool {
    matches!(
        kind,
        ErrorKind::ConnectionAborted
            | ErrorKind::ConnectionReset
            | ErrorKind::HostUnreachable
            | ErrorKind::NetworkUnreachable
            | ErrorKind::NetworkDown
            | ErrorKind::TimedOut
    )
}

/// The system has no room for one more connection now, and may have it later.
fn is_want(error: &io::Error) -> bool {
    error.kind() == ErrorKind::OutOfMemory
        || matches!(
            error.raw_os_error(),
            Some(MACHINE_IS_FULL | PROGRAM_IS_FULL | NO_ROOM)
        )
}

impl<'r, R: Clock + Eprint + Sync> Door for TcpDoor<'r, R> {
    type Conn = Connection;

    type End = AllTaken;

    type Fault = AcceptFault;

    ghost gives = { λ _ _. Unit {0} };

    ghost shuts = { λ _ _. Unit {0} };

    ghost fails = { λ _ _. Unit {0} };

    fn next<W: Wait>(&self, rt: &W) -> Next<TcpDoor<'r, R>> {
        let before = self.calls.fetch_add(1, Ordering::SeqCst);
        if before >= u64::from(self.links) {
            return Next::Shut(AllTaken(()));
        }
        let number = before.saturating_add(1);
        let mut is_full = false;
        for _ in rt.forever() {
            match self.listener.accept() {
                Ok((stream, _)) => {
                    prepare(&stream, self.patience);
                    self.log
                        .tell_of_link(format_args!("link {number} is taken"));
                    return Next::Link(Connection::new(stream, number));
                }
                Err(error) if is_of_connection(error.kind()) => {}
                Err(error) if is_want(&error) => {
                    if !is_full {
                        self.log
                            .tell(format_args!("link {number} has to wait: {error}"));
                        is_full = true;
                    }
                    pause(self.log.rt());
                }
                Err(error) => return Next::Failed(AcceptFault(error)),
            }
        }
        unreachable!()
    }

    fn hang_up<W: Wait>(&self, _rt: &W, link: Connection, why: &Served) {
        let parting = Parting {
            number: link.number,
            how: *why,
            error: link.close(),
            patience: self.patience,
        };
        match why {
            Served::End => self.log.tell_of_link(parting),
            _ => self.log.tell(parting),
        }
    }
}
