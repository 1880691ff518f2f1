//! The numbers of clients.

use arb_core::ClientId;
use std::process::Abort;
use test_parts::thread;

/// The thread of an application, whose index, application and number are these.
fn is_numbered(rt: &impl Abort, app: u8, number: u8, index: usize) {
    let client = thread(app, number);
    let given = (client.index(), client.app_no(), client.thread_no());
    assert_eq!(rt; given, (index, Some(app), Some(number)));
}

#[test]
fn clients_are_numbered(rt: HostRuntime) {
    is_numbered(&rt, 0, 0, 0);
    is_numbered(&rt, 0, 31, 31);
    is_numbered(&rt, 1, 0, 32);
    is_numbered(&rt, 15, 31, 511);
    let none = (
        ClientId::app(16, 0),
        ClientId::app(0, 32),
        ClientId::app(255, 255),
    );
    assert_eq!(rt; none, (None, None, None));
    let clock = ClientId::clock();
    let given = (clock.index(), clock.app_no(), clock.thread_no());
    assert_eq!(rt; given, (512, None, None));
}
