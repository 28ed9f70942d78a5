// What the words of `serve` are answered.

use command_line::Output;
use serve_command::serve;
use std::alloc::Global;
use std::fs;
use std::fs::{DirBuilder, File, Files, Permissions};
use std::net::{Net, TcpListener, TcpStream};
use std::os::unix::fs::{DirBuilderExt, PermissionsExt, symlink};
use std::os::unix::net::UnixListener;
use std::process::Abort;
use std::random::RandomSource;
use std::rt::Env;
use std::sync::Wait;
use std::thread::Threads;
use std::time::Clock;

const GUID: &str = "0123456789abcdef0123456789abcdef";

// The words end at once with this status, with this first line of the error and with this sentence below it.
fn expect_error<R>(rt: &R, alloc: Global, words: &[&str], status: u8, line: &str, sentence: &str)
where
    R: Files<File = File>
        + Env
        + Net<Listener = TcpListener, Stream = TcpStream>
        + Threads
        + Wait
        + Clock
        + RandomSource
        + Sync
        + Alloc
        + Abort,
{
    let mut out = Output::new(Vec::new(alloc));
    let mut err = Output::new(Vec::new(alloc));
    assert_eq!(rt; serve(rt, alloc, words, &mut out, &mut err), status);
    assert!(rt; out.writer.is_empty());
    let text = std::str::from_utf8(err.writer.as_slice()).expect(rt, "a text");
    let (first, second) = text.split_once('\n').expect(rt, "two lines");
    assert_eq!(rt; first, line);
    assert_eq!(rt; second.trim_end(), sentence);
}

#[test]
fn words_that_are_no_row(rt: HostRuntime) {
    let rows: [(&[&str], &str); 29] = [
        (&["--verbose"], "  unknown option --verbose"),
        (&["--verbose=1"], "  unknown option --verbose"),
        (&["bus"], "  bus is no option"),
        (&["--listen"], "  --listen has no value"),
        (&["--guid", GUID, "--guid", GUID], "  --guid is given twice"),
        (&["--session=1"], "  --session takes no value"),
        (&["--quiet=yes"], "  --quiet takes no value"),
        (&["--until-closed=1"], "  --until-closed takes no value"),
        (
            &["--log", "--nofork", "--quiet"],
            "  --log and --quiet exclude one another",
        ),
        (
            &["--listen=unix:path=/a", "--listen", "unix:path=/a"],
            "  --listen unix:path=/a is given twice",
        ),
        (
            &["--listen", "tcp:host=a,port=0", "--listen", "tcp:port=1"],
            "  --listen tcp:port=1, at 4: host and port are wanted, once each, the port as a number up to 65535",
        ),
        (
            &["--allow-external=yes"],
            "  --allow-external takes no value",
        ),
        (
            &["--guid", "0123456789abcdef0123456789abcdeg"],
            "  --guid 0123456789abcdef0123456789abcdeg: 32 hexadecimal digits are wanted",
        ),
        (
            &["--connections", "0"],
            "  --connections 0: a number from 1 to 4294967295 is wanted",
        ),
        (
            &["--limit", "rulez=5"],
            "  --limit rulez=5: there is no such limit; there are rules, all-rules, instructions, all-instructions, names, all-names, claims, calls, messages, bytes, unfinished, silence, clients, newcomers, hello",
        ),
        (
            &["--limit=rules=1", "--limit=rules=0"],
            "  --limit rules=0: a number of rules and programs from 1 to 4294967295 is wanted",
        ),
        (
            &["--limit", "silence=2s"],
            "  --limit silence=2s: a number of seconds from 1 to 4294967295 is wanted",
        ),
        (
            &["--limit", "clients=4097"],
            "  --limit clients=4097: a number of clients from 1 to 4096 is wanted",
        ),
        (
            &["--limit", "names"],
            "  --limit names: NAME=N is wanted, NAME one of rules, all-rules, instructions, all-instructions, names, all-names, claims, calls, messages, bytes, unfinished, silence, clients, newcomers, hello",
        ),
        (
            &["--print-address", "2"],
            "  --print-address 2: the number of an open descriptor is wanted",
        ),
        (
            &["--listen", "unix:path="],
            "  --listen unix:path=, at 10: the value is empty",
        ),
        (
            &["--listen", "unix:pth=/bus"],
            "  --listen unix:pth=/bus, at 5: this transport has no such key",
        ),
        (
            &[
                "--listen",
                "unix:guid=0123456789abcdef0123456789abcdef,path=/bus",
            ],
            "  --listen unix:guid=0123456789abcdef0123456789abcdef,path=/bus, at 5: an id comes last, with 32 hexadecimal digits",
        ),
        (
            &["--listen", "unix:path=/bus,guid=0123"],
            "  --listen unix:path=/bus,guid=0123, at 15: an id comes last, with 32 hexadecimal digits",
        ),
        (
            &[
                "--listen",
                "tcp:host=a,guid=0123456789abcdef0123456789abcdef",
            ],
            "  --listen tcp:host=a,guid=0123456789abcdef0123456789abcdef, at 4: host and port are wanted, once each, the port as a number up to 65535",
        ),
        (
            &[
                "--listen=unix:path=/a",
                "--listen",
                "unix:path=/a,guid=0123456789abcdef0123456789abcdef",
            ],
            "  --listen unix:path=/a,guid=0123456789abcdef0123456789abcdef is given twice",
        ),
        (
            &["--listen", "unix:path=a%2"],
            "  --listen unix:path=a%2, at 11: two hexadecimal digits are wanted after %",
        ),
        (
            &["--listen", "tcp:port=1,host=;"],
            "  --listen tcp:port=1,host=;, at 16: one address alone is taken",
        ),
        (
            &["--listen=tcp:host=127.0.0.1,port=65536"],
            "  --listen tcp:host=127.0.0.1,port=65536, at 4: host and port are wanted, once each, the port as a number up to 65535",
        ),
    ];
    let alloc = rt.alloc();
    for (words, sentence) in rows {
        let sentence = format!(in alloc; "{sentence}; see dbusfan serve --help").expect(
            &rt, "memory",
        );
        expect_error(&rt, alloc, words, 3, "dbusfan: usage", sentence.as_str());
    }
}

fn expect_refused<R>(rt: &R, alloc: Global, listen: &str, reason: &str)
where
    R: Files<File = File>
        + Env
        + Net<Listener = TcpListener, Stream = TcpStream>
        + Threads
        + Wait
        + Clock
        + RandomSource
        + Sync
        + Alloc
        + Abort,
{
    let sentence = format!(in alloc; "  {listen}: {reason}").expect(rt, "memory");
    let words = ["--listen", listen];
    expect_error(
        rt,
        alloc,
        words.as_slice(),
        4,
        "dbusfan: socket",
        sentence.as_str(),
    );
}

#[test]
fn places_that_cannot_be_bound(rt: HostRuntime) {
    let alloc = rt.alloc();
    expect_refused(
        &rt,
        alloc,
        "unix:path=no/such/folder/bus.sock",
        "the folder that it is to be in isn't there",
    );
    fs::write(&rt, "plain", "text").expect(&rt, "a file");
    expect_refused(
        &rt,
        alloc,
        "unix:path=plain",
        "a file is there that is no socket",
    );
    expect_refused(
        &rt,
        alloc,
        "unix:path=plain/bus",
        "a file stands where a folder is wanted",
    );
    expect_refused(&rt, alloc, "unix:path=.", "a folder is there");
    let _other = UnixListener::bind(&rt, "other.sock").expect(&rt, "a socket");
    expect_refused(&rt, alloc, "unix:path=other.sock", "a bus answers there");
    let lock = File::create(&rt, "taken.sock.lock").expect(&rt, "a file");
    lock.lock().expect(&rt, "the lock");
    expect_refused(&rt, alloc, "unix:path=taken.sock", "a bus is there");
    let reached = ["--listen", "tcp:host=0.0.0.0,port=0"];
    expect_error(
        &rt,
        alloc,
        reached.as_slice(),
        4,
        "dbusfan: socket",
        "  an address that other machines reach is taken with --allow-external or --allow-anonymous alone",
    );
    let other = TcpListener::bind(&rt, "127.0.0.1:0").expect(&rt, "a port");
    let port = other.local_addr().expect(&rt, "an address").port();
    let listen = format!(in alloc; "tcp:host=127.0.0.1,port={port}").expect(&rt, "memory");
    expect_refused(
        &rt,
        alloc,
        listen.as_str(),
        "a program listens at that port",
    );
}

#[test]
fn seventeen_addresses(rt: HostRuntime) {
    let words = ["--listen=tcp:host=127.0.0.1,port=0"; 17];
    expect_error(
        &rt,
        rt.alloc(),
        words.as_slice(),
        3,
        "dbusfan: usage",
        "  --listen is given more than 16 times; see dbusfan serve --help",
    );
}

// Where a later address can't be bound, no file is left of those before it.
#[test]
fn a_second_address_that_cannot_be_bound(rt: HostRuntime) {
    let words = [
        "--listen",
        "unix:path=first.sock",
        "--listen",
        "unix:path=none/second.sock",
    ];
    expect_error(
        &rt,
        rt.alloc(),
        words.as_slice(),
        4,
        "dbusfan: socket",
        "  unix:path=none/second.sock: the folder that it is to be in isn't there",
    );
    assert!(rt; fs::symlink_metadata(&rt, "first.sock").is_err());
    assert!(rt; fs::symlink_metadata(&rt, "first.sock.lock").is_err());
}

#[test]
fn what_others_put_beside_a_path(rt: HostRuntime) {
    let alloc = rt.alloc();
    let reason = "the file .lock or the folder .d beside it isn't this user's alone";
    fs::create_dir(&rt, "entered.sock.d").expect(&rt, "a folder");
    fs::set_permissions(&rt, "entered.sock.d", Permissions::from_mode(0o755)).expect(&rt, "a mode");
    expect_refused(&rt, alloc, "unix:path=entered.sock", reason);
    DirBuilder::new()
        .mode(0o700)
        .create(&rt, "private")
        .expect(&rt, "a folder");
    symlink(&rt, "private", "folder.sock.d").expect(&rt, "a link");
    expect_refused(&rt, alloc, "unix:path=folder.sock", reason);
    symlink(&rt, "made", "lock.sock.lock").expect(&rt, "a link");
    expect_refused(&rt, alloc, "unix:path=lock.sock", reason);
    assert!(rt;
        fs::symlink_metadata(&rt, "made").is_err(),
        "nothing is made through a link"
    );
}
