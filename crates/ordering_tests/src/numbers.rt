// The numbers of classes, and the names of rules.
use ordering::class::{Class, Mask, UnknownClass};
use ordering::named::{NamedRule, UnknownName};

#[test]
fn classes_by_number(rt: HostRuntime) {
    let stores_apart = Mask {
        load_load: false,
        store_load: false,
        load_store: false,
        store_store: true,
    };
    assert_eq!(rt; Class::try_from(0), Ok(Class::Load));
    assert_eq!(rt; Class::try_from(1), Ok(Class::Store));
    assert_eq!(rt; Class::try_from(10), Ok(Class::Barrier(stores_apart)));
    assert_eq!(rt; Class::try_from(18), Err(UnknownClass));
    assert_eq!(rt; Class::try_from(u64::MAX), Err(UnknownClass));
}

#[test]
fn numbers_of_classes(rt: HostRuntime) {
    let all = Mask {
        load_load: true,
        store_load: true,
        load_store: true,
        store_store: true,
    };
    let loads_first = Mask {
        load_load: true,
        store_load: false,
        load_store: true,
        store_store: false,
    };
    assert_eq!(rt; u64::from(Class::Load), 0);
    assert_eq!(rt; u64::from(Class::Store), 1);
    assert_eq!(rt; u64::from(Class::Barrier(loads_first)), 7);
    assert_eq!(rt; u64::from(Class::Barrier(all)), 17);
}

#[test]
fn rules_by_name(rt: HostRuntime) {
    assert_eq!(rt; "sc".parse(), Ok(NamedRule::Sc));
    assert_eq!(rt; "tso".parse(), Ok(NamedRule::Tso));
    assert_eq!(rt; "pso".parse(), Ok(NamedRule::Pso));
    assert_eq!(rt; "rmo".parse(), Ok(NamedRule::Rmo));
    assert_eq!(rt; "TSO".parse::<NamedRule>(), Err(UnknownName));
    assert_eq!(rt; "ts".parse::<NamedRule>(), Err(UnknownName));
    assert_eq!(rt; "".parse::<NamedRule>(), Err(UnknownName));
}
