//! Malicious input, devices that fail, and callers that go at any moment: a table each.
use crate::connections::{first_wrong_front, first_wrong_read, first_wrong_write};
use crate::cuts::first_wrong_cut;
use crate::feeds::is_stopped_once;
use crate::input::{COUNTS, SHORT_FRAGMENT, are_handles_apart};
use crate::keepers::fail_in_order;
use crate::launches::faults_have_codes;
use crate::links::first_wrong_child;
use crate::rows::GROUPS;
use crate::rundowns::first_wrong_rundown;
use crate::runs::first_otherwise;
use crate::serving::SERVERS;
use std::test::*;
use svcctl_words::Sheet;
use test_books::comes_to;

#[test]
fn any_input_is_answered_or_refused(rt: HostRuntime) {
    let alloc = rt.alloc();
    let mut sheet = Sheet::new(alloc, GROUPS);
    let otherwise = first_otherwise(&rt, alloc, &mut sheet, &[COUNTS]);
    let are_apart = are_handles_apart(&rt, alloc, &mut sheet);
    drop(sheet);
    assert_eq!(rt; otherwise, None);
    assert!(rt; are_apart);
    assert!(rt; comes_to(&rt, alloc, &SHORT_FRAGMENT));
    assert_eq!(rt; first_wrong_front(&rt, alloc), None);
}

#[test]
fn a_keeper_that_fails_or_is_cut_leaves_what_was_whole(rt: HostRuntime) {
    let alloc = rt.alloc();
    let mut sheet = Sheet::new(alloc, GROUPS);
    let are_in_order = fail_in_order(&rt, alloc, &mut sheet);
    drop(sheet);
    assert!(rt; are_in_order);
    assert_eq!(rt; first_wrong_cut(alloc), None);
}

#[test]
fn a_device_that_fails_ends_what_uses_it(rt: HostRuntime) {
    let alloc = rt.alloc();
    assert_eq!(rt; first_wrong_read(&rt, alloc), None);
    assert_eq!(rt; first_wrong_write(&rt, alloc), None);
    assert_eq!(rt; first_wrong_child(&rt, alloc), None);
    assert!(rt; is_stopped_once(&rt, alloc));
}

#[test]
fn a_start_or_a_port_that_fails_has_its_code(rt: HostRuntime) {
    let alloc = rt.alloc();
    let mut sheet = Sheet::new(alloc, GROUPS);
    let otherwise = first_otherwise(&rt, alloc, &mut sheet, SERVERS);
    drop(sheet);
    assert_eq!(rt; otherwise, None);
    assert!(rt; faults_have_codes(&rt, alloc));
}

#[test]
fn a_caller_goes_after_any_step(rt: HostRuntime) {
    let alloc = rt.alloc();
    let mut sheet = Sheet::new(alloc, GROUPS);
    let place = first_wrong_rundown(&rt, alloc, &mut sheet);
    drop(sheet);
    assert_eq!(rt; place, None);
}
