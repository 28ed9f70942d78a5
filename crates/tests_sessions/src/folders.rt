// Who alone reaches a socket.

use endpoints::{Address, Listener, own_user};
use std::fs::DirBuilder;
use std::os::unix::fs::DirBuilderExt;

#[test]
fn only_user_of_a_folder(rt: HostRuntime) {
    let alloc = rt.alloc();
    let user = own_user(&rt).expect(&rt, "a user");
    let cases = [
        ("own", 0o700, "own/bus", Some(user)),
        ("open", 0o755, "open/bus", None),
    ];
    for (folder, mode, path, only) in cases {
        let made = DirBuilder::new().mode(mode).create(&rt, folder);
        made.expect(&rt, "a folder");
        let address = Address::Unix { path };
        let listener = Listener::bind(&rt, alloc, address).expect(&rt, "a socket");
        assert_eq!(rt; listener.only_user(&rt), only);
        listener.close(&rt);
    }
    let address = Address::Tcp {
        host: "127.0.0.1",
        port: 0,
    };
    let listener = Listener::bind(&rt, alloc, address).expect(&rt, "a port");
    assert_eq!(rt; listener.only_user(&rt), None);
    listener.close(&rt);
}
