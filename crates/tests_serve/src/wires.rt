//! Both ends of a connection.

use std::alloc::Global;
use std::io::{self, Read, Write};
use std::net::{Net, Shutdown, SocketAddr, TcpListener, TcpStream};

/// Sends the bytes over a connection of their own, and gives what comes until it is closed. It
/// closes its own side where it says so.
pub(crate) fn exchange<N: Net<Stream = TcpStream>>(
    net: &N,
    alloc: Global,
    relay: SocketAddr,
    sent: &[u8],
    is_shut: bool,
) -> io::Result<Vec<u8>> {
    let mut socket = TcpStream::connect(net, relay)?;
    socket.write_all(sent)?;
    if is_shut {
        socket.shutdown(Shutdown::Write)?;
    }
    let mut came = Vec::new(alloc);
    let _ended = socket.read_to_end(&mut came);
    Ok(came)
}

/// Takes a connection, and reads a head and then as many bytes of a body as the caller awaits.
pub(crate) fn take_post(
    alloc: Global,
    listener: &TcpListener,
    body: usize,
) -> io::Result<(TcpStream, Vec<u8>)> {
    let (mut socket, _peer) = listener.accept()?;
    let mut came = Vec::new(alloc);
    let mut part = [0; 1024];
    for _ in 0..1000 {
        if let Some(end) = end_of_head(came.as_slice())
            && came.len().saturating_sub(end) >= body
        {
            break;
        }
        let count = socket.read(&mut part)?;
        if count == 0 {
            break;
        }
        came.extend_from_slice(&part[..count])?;
    }
    Ok((socket, came))
}

// Where the bytes after a head begin.
fn end_of_head(bytes: &[u8]) -> Option<usize> {
    let at = bytes
        .windows(4)
        .position(|it| it == b"\r\n\r\n".as_slice())?;
    Some(at + 4)
}
