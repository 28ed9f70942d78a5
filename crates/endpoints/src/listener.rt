// Listening sockets.

ghost use Rattle.std.specs.Prelude.{◌≡◌, IfOk};
ghost use Rattle.endpoints.specs.Address.{place_of};
ghost use Rattle.endpoints.specs.Transports.{IsTakenFor, transport_of_place, transport_of_listener, transport_of_link};

use crate::address::Address;
use crate::escapes::{unescape, unescaped_bytes};
use crate::link::Link;
use crate::socket_file::SocketFile;
use std::alloc::Global;
use std::fs::{File, Files};
use std::io;
use std::io::ErrorKind;
use std::net::{Net, TcpListener, TcpStream};
use std::os::unix::net::{SocketAddr, SocketAddrExt, UnixListener};

/// A socket that accepts.
#[derive(Drop)]
pub enum Listener {
    Tcp(TcpListener),
    Unix(UnixListener, Option<SocketFile>),
}

impl Listener {
    /// Listens at an address that names a socket: in a folder, or at the user's place, whoever calls chooses a path first.
    ///
    /// # Errors
    ///
    /// `Unsupported` where the address names no socket, and what the system refuses.
    pub fn bind<R>(rt: &R, alloc: Global, address: Address<'_>) -> io::Result<Listener>
    where
        R: Files<File = File> + Net<Listener = TcpListener, Stream = TcpStream>,
        ensures { IfOk result (λ listener. transport_of_listener listener ≡ transport_of_place (place_of address.entry)) }
    {
        match address {
            Address::Tcp { host, port } => {
                let host = unescape(alloc, host)?;
                Ok(Listener::Tcp(TcpListener::bind(rt, (host.as_str(), port))?))
            }
            Address::Unix { path } => {
                let path = unescape(alloc, path)?;
                let (listener, file) = SocketFile::bind(rt, alloc, path.as_str())?;
                Ok(Listener::Unix(listener, Some(file)))
            }
            Address::Abstract { name } => {
                let name = unescaped_bytes(alloc, name)?;
                let place = SocketAddr::from_abstract_name(name.as_slice())?;
                Ok(Listener::Unix(UnixListener::bind_addr(rt, &place)?, None))
            }
            Address::Folder { .. } | Address::Runtime => {
                Err(io::Error::from(ErrorKind::Unsupported))
            }
        }
    }

    /// The address with the port that was taken in place of port 0.
    pub fn address<'a>(&self, asked: Address<'a>) -> io::Result<Address<'a>>
        ensures { IfOk result (λ taken. IsTakenFor (place_of asked.entry) (place_of taken)) }
    {
        match (self, asked) {
            (Listener::Tcp(listener), Address::Tcp { host, port: _ }) => {
                let port = listener.local_addr()?.port();
                Ok(Address::Tcp { host, port })
            }
            _ => Ok(asked),
        }
    }

    /// The next connection, waited for. Small writes on it aren't held back, where the system grants that.
    pub fn accept(&self) -> io::Result<Link>
        ensures { IfOk result (λ link. transport_of_link link ≡ transport_of_listener self.now) }
    {
        match self {
            Listener::Tcp(listener) => {
                let (stream, _) = listener.accept()?;
                let _ = stream.set_nodelay(true);
                Ok(Link::Tcp(stream))
            }
            Listener::Unix(listener, _) => Ok(Link::Unix(listener.accept()?.0)),
        }
    }

    /// Whether only this machine reaches it.
    pub fn is_local(&self) -> io::Result<bool> {
        match self {
            Listener::Tcp(listener) => Ok(listener.local_addr()?.ip().is_loopback()),
            Listener::Unix(_, _) => Ok(true),
        }
    }

    /// The number of the user that alone reaches it, but for root, if that is so: of a path in a folder of this process's
    /// user that nobody else enters.
    pub fn only_user<R: Files>(&self, rt: &R) -> Option<u32> {
        match self {
            Listener::Unix(_, Some(file)) => file.only_user(rt),
            _ => None,
        }
    }

    /// Stops listening, and removes the file of a Unix socket, if it is still the one that was made.
    pub fn close<R: Files>(self, rt: &R) {
        if let Listener::Unix(listener, file) = self {
            drop(listener);
            if let Some(file) = file {
                file.remove(rt);
            }
        }
    }
}
