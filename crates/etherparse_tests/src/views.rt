//! The traits of both views, what they print, and that what a view returns outlives it.

use crate::shared::{IPV6_ASCENDING, WITH_OPTIONS, assert_clones, assert_equal};
use etherparse::{Ipv4Header, Ipv4HeaderSlice, Ipv6Header, Ipv6HeaderSlice};
use std::alloc::Global;
use std::fmt::Debug;
use std::process::Abort;

// What a view returns, for as long as the bytes live that it was read from.
fn shown_ipv4(packet: &[u8]) -> Option<(&[u8], &[u8])> {
    let view = Ipv4HeaderSlice::from_slice(packet).ok()?;
    Some((view.slice(), view.options()))
}

fn shown_ipv6(packet: &[u8]) -> Option<&[u8]> {
    let view = Ipv6HeaderSlice::from_slice(packet).ok()?;
    Some(view.slice())
}

#[test]
fn what_a_view_returns_outlives_it(rt: HostRuntime) {
    let seen = (shown_ipv4(&WITH_OPTIONS), shown_ipv6(&IPV6_ASCENDING));
    let ipv4 = Some((WITH_OPTIONS.as_slice(), [148, 4, 0, 5].as_slice()));
    assert_equal(&rt, seen, (ipv4, Some(IPV6_ASCENDING.as_slice())));
}

// Asserts that a view is equal to its copy and its clone, and what `{:?}` prints for it. The bounds
// are the traits that it has.
fn assert_copies<T: Copy + Debug + Drop + Eq>(rt: &impl Abort, alloc: Global, view: T, text: &str) {
    let copy = view;
    assert_equal(rt, copy, view);
    assert_clones(rt, alloc, &view, text);
}

#[test]
fn views_are_copied_and_printed(rt: HostRuntime) {
    let bytes = Ipv4Header::default().to_bytes();
    let view = Ipv4HeaderSlice::from_slice(&bytes).expect(&rt, "a view");
    let text =
        "Ipv4HeaderSlice { slice: [69, 0, 0, 0, 0, 0, 64, 0, 0, 255, 0, 0, 0, 0, 0, 0, 0, 0, 0, 0] }";
    assert_copies(&rt, rt.alloc(), view, text);
    let bytes = Ipv6Header::default().to_bytes();
    let view = Ipv6HeaderSlice::from_slice(&bytes).expect(&rt, "a view");
    let text = "Ipv6HeaderSlice { slice: [96, 0, 0, 0, 0, 0, 255, 0, \
        0, 0, 0, 0, 0, 0, 0, 0, 0, 0, 0, 0, 0, 0, 0, 0, \
        0, 0, 0, 0, 0, 0, 0, 0, 0, 0, 0, 0, 0, 0, 0, 0] }";
    assert_copies(&rt, rt.alloc(), view, text);
}
