// What a table of bytes orders.
use ordering::bytes::ByteTable;
use ordering::class::{Class, Mask};
use ordering::rule::OrderingRule;

#[test]
fn a_short_table(rt: HostRuntime) {
    let table = ByteTable { bytes: &[0, 5, 0] };
    let empty = Class::Barrier(Mask {
        load_load: false,
        store_load: false,
        load_store: false,
        store_store: false,
    });
    assert!(rt; !table.ordered(Class::Load, Class::Load));
    assert!(rt; table.ordered(Class::Load, Class::Store));
    assert!(rt; !table.ordered(Class::Load, empty));
    assert!(rt; table.ordered(Class::Store, Class::Load));
}

#[test]
fn a_whole_table(rt: HostRuntime) {
    let mut bytes = [0; 324];
    bytes[18] = 255;
    bytes[323] = 1;
    let table = ByteTable { bytes: &bytes };
    let all = Class::Barrier(Mask {
        load_load: true,
        store_load: true,
        load_store: true,
        store_store: true,
    });
    assert!(rt; table.ordered(Class::Store, Class::Load));
    assert!(rt; table.ordered(all, all));
    assert!(rt; !table.ordered(Class::Load, Class::Store));
    assert!(rt; !table.ordered(all, Class::Load));
}
