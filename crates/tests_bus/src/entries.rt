// Entries of two connections. A failure ends the test at once, so that a test has one way out.

use crate::fixture::{KEY, S1};
use crate::state::{compile, read_message};
use bpf_code::Ins;
use bpf_verify::{Verified, verify};
use entry_table::{AskedTexts, Attachment, Entry, EntryTable, Filter};
use match_rule::Rule;
use std::alloc::Global;
use std::mem::forget;
use std::process::Abort;
use summary::Edition;

fn new_table<R: Abort>(rt: &R, alloc: Global) -> EntryTable {
    EntryTable::new(alloc, KEY).expect(rt, "a table")
}

// `ret #1`
fn one<R: Abort>(rt: &R, alloc: Global) -> Verified {
    let mut code = Vec::new(alloc);
    code.push(Ins {
        code: 0x06,
        jt: 0,
        jf: 0,
        k: 1,
    })
    .expect(rt, "memory");
    match verify(code) {
        Ok(program) => program,
        Err(_) => panic!(rt; "ret #1 is a program"),
    }
}

fn add<R: Abort>(rt: &R, alloc: Global, table: &mut EntryTable, connection: u64, text: &str) {
    let filter = Filter::Rule(compile(rt, alloc, text));
    assert!(rt; !table.is_full());
    let _ = table.add(connection, filter);
}

// The id of the new entry.
fn attach<R: Abort>(rt: &R, alloc: Global, table: &mut EntryTable, asked: AskedTexts) -> u32 {
    let attached = Attachment::new(alloc, Edition::One, one(rt, alloc), asked);
    let filter = Filter::Attached(attached.expect(rt, "an attachment"));
    assert!(rt; !table.is_full());
    table.add(1, filter)
}

// Messages with this member, to paths in the namespace.
fn asked<R: Abort>(rt: &R, alloc: Global, member: &str, namespace: &str) -> AskedTexts {
    let mut asked = AskedTexts::none();
    asked.member = Some(text(rt, alloc, member));
    asked.path_namespace = Some(text(rt, alloc, namespace));
    asked
}

fn text<R: Abort>(rt: &R, alloc: Global, text: &str) -> String {
    let mut copy = String::new(alloc);
    copy.push_str(text).expect(rt, "memory");
    copy
}

// The entries that S1 is offered to have these ids.
fn expect_offered<R: Abort>(rt: &R, alloc: Global, table: &EntryTable, wanted: &[u32]) {
    let view = read_message(rt, &S1);
    let mut ids = Vec::new(alloc);
    for entry in table.entries_for(&view, view.sender()) {
        ids.push(entry.id).expect(rt, "memory");
    }
    ids.sort().expect(rt, "memory");
    assert_eq!(rt; ids.as_slice(), wanted);
}

fn expect_found<R: Abort>(rt: &R, alloc: Global, table: &EntryTable) {
    let same = Rule::read(alloc, " member=c,").expect(rt, "a rule");
    assert_eq!(rt; table.find_rule(1, &same), Some(1));
    assert_eq!(rt; table.find_rule(2, &same), None);
    assert!(rt; table.has_attachment(1, 4) && !table.has_attachment(1, 1));
}

fn expect_entry<R: Abort>(rt: &R, entry: Option<Entry>, id: u32) {
    let entry = entry.expect(rt, "an entry");
    assert_eq!(rt; entry.id, id);
    forget(entry);
}

fn remove<R: Abort>(rt: &R, table: &mut EntryTable) {
    expect_entry(rt, table.remove(1, 1), 1);
    expect_entry(rt, table.remove_oldest(2), 2);
    table.remove_all(2);
}

#[test]
fn entries_of_two_connections(rt: HostRuntime) {
    let alloc = rt.alloc();
    let mut table = new_table(&rt, alloc);
    add(&rt, alloc, &mut table, 1, "member='c'");
    add(&rt, alloc, &mut table, 2, "member='d'");
    add(&rt, alloc, &mut table, 2, "path='/a'");
    assert_eq!(rt; attach(&rt, alloc, &mut table, AskedTexts::none()), 4);
    expect_offered(&rt, alloc, &table, &[1, 3, 4]);
    expect_found(&rt, alloc, &table);
    remove(&rt, &mut table);
    expect_offered(&rt, alloc, &table, &[4]);
    assert_eq!(rt; table.last_id(), 4);
    forget(table);
}

// S1 is a signal of the member c from /a.
#[test]
fn programs_for_some_messages(rt: HostRuntime) {
    let alloc = rt.alloc();
    let mut table = new_table(&rt, alloc);
    let _ = attach(&rt, alloc, &mut table, asked(&rt, alloc, "d", "/a"));
    let _ = attach(&rt, alloc, &mut table, asked(&rt, alloc, "c", "/a"));
    let _ = attach(&rt, alloc, &mut table, asked(&rt, alloc, "c", "/a/b"));
    let _ = attach(&rt, alloc, &mut table, asked(&rt, alloc, "c", "/"));
    let _ = attach(&rt, alloc, &mut table, AskedTexts::none());
    expect_offered(&rt, alloc, &table, &[2, 4, 5]);
    forget(table);
}

// Some entry of the connection goes; its id.
fn take_any<R: Abort>(rt: &R, table: &mut EntryTable, connection: u64) -> u32 {
    match table.remove_any(connection) {
        Some(entry) => entry.id,
        None => panic!(rt; "an entry was wanted"),
    }
}

#[test]
fn entries_go_in_any_order(rt: HostRuntime) {
    let alloc = rt.alloc();
    let mut table = new_table(&rt, alloc);
    add(&rt, alloc, &mut table, 1, "member='c'");
    add(&rt, alloc, &mut table, 2, "member='d'");
    add(&rt, alloc, &mut table, 2, "path='/a'");
    let ids = [take_any(&rt, &mut table, 2), take_any(&rt, &mut table, 2)];
    assert!(rt; ids == [2, 3] || ids == [3, 2]);
    assert!(rt; table.remove_any(2).is_none());
    expect_offered(&rt, alloc, &table, &[1]);
    forget(table);
}
