// What one client sends, the other gets, stamped.

use crate::announced::{Announced, Announcer};
use crate::client::{S1_STAMPED, talk};
use command_line::Output;
use serve_command::serve;
use std::alloc::Global;
use std::fs;
use std::fs::{File, Files};
use std::net::{Net, TcpListener, TcpStream};
use std::os::unix::net::UnixStream;
use std::process::Abort;
use std::random::RandomSource;
use std::rt::Env;
use std::sync::Wait;
use std::thread::{Threads, join};
use std::time::{Clock, Duration};

const GUID: &str = "0123456789abcdef0123456789abcdef";

/// No test waits for ever.
const PATIENCE: u64 = 10;

fn connect_tcp<R: Net<Stream = TcpStream> + Abort>(rt: &R, port: u16) -> TcpStream {
    let stream = TcpStream::connect(rt, ("127.0.0.1", port)).expect(rt, "a connection");
    stream
        .set_read_timeout(Some(Duration::from_secs(PATIENCE)))
        .expect(rt, "a time limit");
    stream
}

fn connect_unix<R: Net + Abort>(rt: &R, path: &str) -> UnixStream {
    let stream = UnixStream::connect(rt, path).expect(rt, "a connection");
    stream
        .set_read_timeout(Some(Duration::from_secs(PATIENCE)))
        .expect(rt, "a time limit");
    stream
}

fn over_tcp<R: Net<Stream = TcpStream> + Wait + Abort>(rt: &R, announced: &Announced) -> [u8; 80] {
    let port = announced.port(rt).expect(rt, "a port");
    let mut first = connect_tcp(rt, port);
    let mut second = connect_tcp(rt, port);
    talk(rt, &mut first, &mut second)
}

fn over_unix<R: Net + Wait + Abort>(rt: &R, announced: &Announced, path: &str) -> [u8; 80] {
    announced.wait(rt);
    let mut first = connect_unix(rt, path);
    let mut second = connect_unix(rt, path);
    talk(rt, &mut first, &mut second)
}

/// A server of two connections, which may have to write this line, and its two clients: over TCP, unless a path is given.
fn serve_two<R>(rt: &R, alloc: Global, listen: &str, path: Option<&str>, line: Option<&str>)
where
    R: Files<File = File>
        + Env
        + Net<Listener = TcpListener, Stream = TcpStream>
        + Threads
        + Wait
        + Clock
        + RandomSource
        + Sync
        + Alloc
        + Abort,
{
    let announced = Announced::new(alloc);
    let mut out = Output::new(Announcer { rt, to: &announced });
    let mut err = Output::new(Vec::new(alloc));
    // At a Unix socket the bus's own user gets in anyhow.
    let admitting = match path {
        Some(_) => "--nofork",
        None => "--allow-external",
    };
    let words = [
        "--listen",
        listen,
        "--guid",
        GUID,
        "--connections",
        "2",
        admitting,
    ];
    let (got, status) = join(
        rt,
        || match path {
            Some(path) => over_unix(rt, &announced, path),
            None => over_tcp(rt, &announced),
        },
        || serve(rt, alloc, words.as_slice(), &mut out, &mut err),
    );
    assert_eq!(rt; got, *S1_STAMPED);
    assert_eq!(rt; status, 0);
    if let Some(line) = line {
        assert!(rt; announced.is(rt, line));
    }
}

#[test]
fn two_clients_over_tcp(rt: HostRuntime) {
    serve_two(&rt, rt.alloc(), "tcp:host=127.0.0.1,port=0", None, None);
}

#[test]
fn a_port_before_its_host(rt: HostRuntime) {
    serve_two(&rt, rt.alloc(), "tcp:port=0,host=127%2e0.0.1", None, None);
}

#[test]
fn two_clients_over_unix(rt: HostRuntime) {
    let path = "two clients.sock";
    let line = "listening unix:path=two%20clients.sock,guid=0123456789abcdef0123456789abcdef\n";
    serve_two(
        &rt,
        rt.alloc(),
        "unix:path=two clients%2esock",
        Some(path),
        Some(line),
    );
}

#[test]
fn an_address_with_the_id_of_another_bus(rt: HostRuntime) {
    let path = "told.sock";
    let line = "listening unix:path=told.sock,guid=0123456789abcdef0123456789abcdef\n";
    serve_two(
        &rt,
        rt.alloc(),
        "unix:path=told.sock,guid=fedcba9876543210fedcba9876543210",
        Some(path),
        Some(line),
    );
}

#[test]
fn a_bus_of_no_address(rt: HostRuntime) {
    let announced = Announced::new(rt.alloc());
    let mut out = Output::new(Announcer {
        rt: &rt,
        to: &announced,
    });
    let mut err = Output::new(Vec::new(rt.alloc()));
    let words = [
        "--nofork",
        "--print-address",
        "--session",
        "--connections",
        "2",
    ];
    let (got, status) = join(
        &rt,
        || {
            let path = announced.path(&rt, rt.alloc()).expect(&rt, "a path");
            over_unix(&rt, &announced, path.as_str())
        },
        || serve(&rt, rt.alloc(), words.as_slice(), &mut out, &mut err),
    );
    assert_eq!(rt; got, *S1_STAMPED);
    assert_eq!(rt; status, 0);
    let path = announced.path(&rt, rt.alloc()).expect(&rt, "a path");
    let folder = path.as_str().trim_end_matches("/bus");
    assert!(rt; fs::metadata(&rt, folder).is_err());
}

fn over_both<R: Net<Stream = TcpStream> + Wait + Abort>(
    rt: &R,
    announced: &Announced,
    path: &str,
) -> [u8; 80] {
    let port = announced.port(rt).expect(rt, "a port");
    let mut first = connect_unix(rt, path);
    let mut second = connect_tcp(rt, port);
    talk(rt, &mut first, &mut second)
}

#[test]
fn a_client_at_each_of_two_addresses(rt: HostRuntime) {
    let announced = Announced::new(rt.alloc());
    let mut out = Output::new(Announcer {
        rt: &rt,
        to: &announced,
    });
    let mut err = Output::new(Vec::new(rt.alloc()));
    let words = [
        "--listen=unix:path=both.sock",
        "--listen=tcp:host=127.0.0.1,port=0",
        "--allow-external",
        "--connections=2",
        "--log",
    ];
    let (got, status) = join(
        &rt,
        || over_both(&rt, &announced, "both.sock"),
        || serve(&rt, rt.alloc(), words.as_slice(), &mut out, &mut err),
    );
    assert_eq!(rt; got, *S1_STAMPED);
    assert_eq!(rt; status, 0);
    assert!(rt; fs::symlink_metadata(&rt, "both.sock").is_err());
    let log = err.writer.as_slice();
    assert!(rt; log.starts_with(b"dbusfan: :1.1 came\ndbusfan: :1.2 came\n"));
}
