// What the named rules order.
use ordering::class::{Class, Mask};
use ordering::named::NamedRule;
use ordering::rule::OrderingRule;

#[test]
fn loads_and_stores(rt: HostRuntime) {
    assert!(rt; NamedRule::Sc.ordered(Class::Store, Class::Load));
    assert!(rt; !NamedRule::Tso.ordered(Class::Store, Class::Load));
    assert!(rt; NamedRule::Tso.ordered(Class::Store, Class::Store));
    assert!(rt; !NamedRule::Pso.ordered(Class::Store, Class::Store));
    assert!(rt; NamedRule::Pso.ordered(Class::Load, Class::Store));
    assert!(rt; !NamedRule::Rmo.ordered(Class::Load, Class::Load));
}

#[test]
fn a_barrier_between_stores_and_loads(rt: HostRuntime) {
    let barrier = Class::Barrier(Mask {
        load_load: false,
        store_load: true,
        load_store: false,
        store_store: false,
    });
    assert!(rt; NamedRule::Rmo.ordered(Class::Store, barrier));
    assert!(rt; NamedRule::Rmo.ordered(barrier, Class::Load));
    assert!(rt; !NamedRule::Rmo.ordered(Class::Load, barrier));
    assert!(rt; !NamedRule::Rmo.ordered(barrier, Class::Store));
    assert!(rt; !NamedRule::Sc.ordered(Class::Load, barrier));
    assert!(rt; !NamedRule::Sc.ordered(barrier, barrier));
}
