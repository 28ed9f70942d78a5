// Sockets that are connected to a bus.

use crate::address::Address;
use endpoints::Link;
use std::io;
use std::net::{Net, TcpListener, TcpStream, ToSocketAddrs};
use std::os::unix::net::{SocketAddr, SocketAddrExt, UnixStream};
use std::time::Duration;

/// How long a host may take to accept, in seconds.
const CONNECT_SECONDS: u64 = 10;

/// A connection to the first of some addresses where a bus listens; `None` where none does.
pub fn connect<R>(rt: &R, addresses: &[Address]) -> Option<Link>
where
    R: Net<Listener = TcpListener, Stream = TcpStream>,
{
    for address in addresses {
        if let Ok(Some(link)) = open(rt, address) {
            return Some(link);
        }
    }
    None
}

/// A connection to a bus; `None` where there is no socket for the address.
fn open<R>(rt: &R, address: &Address) -> io::Result<Option<Link>>
where
    R: Net<Listener = TcpListener, Stream = TcpStream>,
{
    match address {
        Address::Path(path) => {
            let stream = UnixStream::connect(rt, path.as_str())?;
            Ok(Some(Link::Unix(stream)))
        }
        Address::Abstract(name) => {
            let place = SocketAddr::from_abstract_name(name.as_slice())?;
            let stream = UnixStream::connect_addr(rt, &place)?;
            Ok(Some(Link::Unix(stream)))
        }
        Address::Tcp { host, port } => open_tcp(rt, host.as_str(), *port),
        Address::Other => Ok(None),
    }
}

/// A connection to the first of a host's addresses that accepts.
fn open_tcp<R>(rt: &R, host: &str, port: u16) -> io::Result<Option<Link>>
where
    R: Net<Listener = TcpListener, Stream = TcpStream>,
{
    let limit = Duration::from_secs(CONNECT_SECONDS);
    for address in (host, port).to_socket_addrs(rt)? {
        if let Ok(stream) = TcpStream::connect_timeout(rt, &address, limit) {
            return Ok(Some(Link::Tcp(stream)));
        }
    }
    Ok(None)
}
