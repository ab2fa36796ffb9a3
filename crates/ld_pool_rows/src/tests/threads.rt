// The types whose values may go from thread to thread.

use ld_base::{Ask, Entry, History, Reply, Stint, Tally, Text};
use ld_core::Core;
use ld_pool::Pool;
use ld_rates::RatesState;

// Says so of a type.
fn may_cross<T: Send + Sync>() -> bool {
    true
}

/// What threads ask of a pool, what it replies, what it records, and what it consists of.
#[test]
fn types_cross_threads(rt: HostRuntime) {
    assert!(rt; may_cross::<Ask>() && may_cross::<Reply>() && may_cross::<Stint>());
    assert!(rt; may_cross::<Tally>() && may_cross::<Entry>() && may_cross::<History>());
    assert!(rt; may_cross::<Text>() && may_cross::<Pool>());
    assert!(rt; may_cross::<RatesState>() && may_cross::<Core>());
}
