//! A turn of few bytes, and one of many.
use super::{Turn, Way};
use std::time::Duration;

#[test]
fn bytes_explain_waiting(rt: HostRuntime) {
    let (second, patience) = (Duration::from_secs(1), Duration::from_secs(3));
    let mut turn = Turn::new(Way::Coming);
    turn.add(1, second);
    let few = (
        turn.is_too_slow(second, patience),
        turn.is_too_slow(second + second, patience),
    );
    turn.add(8191, second + second);
    let many = (
        turn.is_too_slow(second, patience),
        turn.is_too_slow(second + second, patience),
    );
    assert_eq!(rt; (few, many), ((false, true), (false, true)));
}
