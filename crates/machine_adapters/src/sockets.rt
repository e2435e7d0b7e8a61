//! Sockets of this machine as links.

ghost use Rattle.std.specs.Prelude.{◌≡◌, ◌≤◌, length};
ghost use Rattle.std.specs.Result.{IsErrOf};
ghost use Rattle.basil_types.specs.Causes.{HasLinkCause};
ghost use Rattle.basil_types.specs.declared.links.LinkFail.TheVariants as fails;

use basil_types::links::{LinkFail, Links};
use std::alloc::Global;
use std::io::{self, Read, Write};
use std::net::{Net, OpenListener, OpenStream, Shutdown, TcpListener, TcpStream};
use std::time::Duration;

/// The most bytes of a carried frame that are under way at once.
const PIECE: usize = 4096;

/// How many seconds a read or a write waits for a peer that connected. A node serves one peer after another, so it is
/// the shorter time.
const FOR_AN_ASKER: u64 = 5;

/// How many seconds a read or a write waits for a peer that was connected to.
const FOR_A_NODE: u64 = 20;

/// Connections of this machine, one at a time, and a pair of ends of its own for what is carried. A read or a write that
/// waits too long for its peer fails. It counts its faults, and doesn't tell what came over it.
#[derive(Drop)]
pub struct SocketLinks<'a, R: Net> {
    net: &'a R,
    alloc: Global,
    listener: Option<R::Listener>,
    stream: Option<R::Stream>,
    pair: Option<(R::Stream, R::Stream)>,
    faults: u64,
}

/// From now on a read or a write of the stream that waits longer fails. A system that can't do that waits on.
fn wait_at_most<S: OpenStream>(stream: &S, seconds: u64) {
    let longest = Some(Duration::from_secs(seconds));
    let _ = stream.set_read_timeout(longest);
    let _ = stream.set_write_timeout(longest);
}

/// Both ends of one connection of this machine.
fn both_ends<R: Net>(net: &R) -> io::Result<(R::Stream, R::Stream)> {
    let listener = TcpListener::bind(net, "127.0.0.1:0")?;
    let near = TcpStream::connect(net, listener.local_addr()?)?;
    let (far, _) = listener.accept()?;
    Ok((near, far))
}

/// Carries a frame from one end to the other, piece by piece, so that neither end waits for itself.
fn carry_through<S: Read + Write>(
    near: &mut S,
    far: &mut S,
    frame: &[u8],
    given: &mut [u8],
) -> io::Result<()>
    requires { length frame.now ≤ length given.old }
{
    let mut done = 0usize;
    while done < frame.len() {
        let end = done + (frame.len() - done).min(PIECE);
        near.write_all(&frame[done..end])?;
        far.read_exact(&mut given[done..end])?;
        done = end;
    }
    Ok(())
}

impl<'a, R: Net> SocketLinks<'a, R> {
    /// No connection is open, and nothing has failed.
    pub fn new(net: &'a R, alloc: Global) -> SocketLinks<'a, R>
        ensures { result.faults ≡ 0 }
    {
        SocketLinks {
            net,
            alloc,
            listener: None,
            stream: None,
            pair: None,
            faults: 0,
        }
    }
}

impl<R: Net> SocketLinks<'_, R> {
    /// A call fails, and is counted.
    fn fail<T>(&mut self) -> Result<T, LinkFail>
        ensures failed { IsErrOf result fails.Failed }
        ensures cause { HasLinkCause self.old.faults self.new.faults result }
    {
        self.faults = self.faults.saturating_add(1);
        Err(LinkFail::Failed)
    }

    /// The pair of ends is there, or it couldn't be made.
    fn make_pair(&mut self) -> io::Result<()>
        ensures { self.new.faults ≡ self.old.faults }
    {
        if self.pair.is_none() {
            self.pair = Some(both_ends(self.net)?);
        }
        Ok(())
    }

    /// Whether a frame went through the pair of ends. A pair that failed is let go.
    fn has_carried(&mut self, frame: &[u8], given: &mut [u8]) -> bool
        requires { length frame.now ≤ length given.old }
        ensures { self.new.faults ≡ self.old.faults }
    {
        if self.make_pair().is_err() {
            return false;
        }
        let carried = match &mut self.pair {
            Some((near, far)) => carry_through(near, far, frame, given).is_ok(),
            None => false,
        };
        if !carried {
            self.pair = None;
        }
        carried
    }
}

impl<R: Net> Links for SocketLinks<'_, R> {
    ghost use Rattle.std.specs.Prelude.{None};

    ghost told = { λ _. None };

    ghost faults = { λ s. s.faults };

    fn carry(&mut self, frame: &[u8], given: &mut Vec<u8>) -> Result<(), LinkFail> {
        let mut came = Vec::new(self.alloc);
        if came.resize(frame.len(), 0).is_err() {
            return Err(LinkFail::NoMemory);
        }
        if !self.has_carried(frame, came.as_mut_slice()) {
            return self.fail();
        }
        *given = came;
        Ok(())
    }

    fn open(&mut self, address: &str) -> Result<(), LinkFail> {
        match TcpStream::connect(self.net, address) {
            Ok(stream) => {
                wait_at_most(&stream, FOR_A_NODE);
                self.stream = Some(stream);
                Ok(())
            }
            Err(_) => self.fail(),
        }
    }

    fn listen(&mut self, address: &str) -> Result<(), LinkFail> {
        match TcpListener::bind(self.net, address) {
            Ok(listener) => {
                self.listener = Some(listener);
                Ok(())
            }
            Err(_) => self.fail(),
        }
    }

    fn accept(&mut self) -> Result<(), LinkFail> {
        let accepted = match &self.listener {
            Some(listener) => listener.accept().ok(),
            None => None,
        };
        match accepted {
            Some((stream, _)) => {
                wait_at_most(&stream, FOR_AN_ASKER);
                self.stream = Some(stream);
                Ok(())
            }
            None => self.fail(),
        }
    }

    fn read(&mut self, buf: &mut [u8]) -> Result<usize, LinkFail> {
        match &mut self.stream {
            Some(stream) => match stream.read(buf) {
                Ok(count) => Ok(count),
                Err(_) => self.fail(),
            },
            None => self.fail(),
        }
    }

    fn write(&mut self, bytes: &[u8]) -> Result<(), LinkFail> {
        match &mut self.stream {
            Some(stream) => match stream.write_all(bytes) {
                Ok(()) => Ok(()),
                Err(_) => self.fail(),
            },
            None => self.fail(),
        }
    }

    fn close(&mut self) {
        if let Some(stream) = &self.stream {
            let _ = stream.shutdown(Shutdown::Both);
        }
        self.stream = None;
    }
}
