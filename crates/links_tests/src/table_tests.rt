use links::swap::{SwapError, is_outside};
use links::table::{ENTRIES, Table};

const N: usize = 1024;

// The blocks of `n` that three addresses reach.
fn reached(table: &Table, n: usize, addresses: [usize; 3]) -> [usize; 3] {
    let [a, b, c] = addresses;
    [table.reach(n, a), table.reach(n, b), table.reach(n, c)]
}

// The bytes of the first two entries.
fn two_entries(table: &Table) -> [u8; 8] {
    let [a, b, c, d, e, f, g, h, ..] = table.bytes();
    [a, b, c, d, e, f, g, h]
}

#[test]
fn a_new_table_links_nothing(rt: HostRuntime) {
    let table = Table::new();
    assert_eq!(rt; table.used(), 0);
    assert!(rt; !table.is_full());
    assert_eq!(rt; table.partner(N, 5), None);
    for byte in table.bytes() {
        assert_eq!(rt; byte, 0);
    }
}

#[test]
fn a_swap_exchanges_two_addresses(rt: HostRuntime) {
    let mut table = Table::new();
    assert!(rt; table.swap(N, 5, 7).is_ok());
    assert_eq!(rt; table.used(), 1);
    assert_eq!(rt; table.partner(N, 7), Some(5));
    assert_eq!(rt; reached(&table, N, [5, 6, 7]), [7, 6, 5]);
    assert_eq!(rt; two_entries(&table), [0x80, 0x05, 0x00, 0x07, 0, 0, 0, 0]);
}

#[test]
fn a_second_swap_retires_the_first(rt: HostRuntime) {
    let mut table = Table::new();
    assert!(rt; table.swap(N, 5, 7).is_ok());
    assert!(rt; table.swap(N, 5, 9).is_ok());
    assert_eq!(rt; table.partner(N, 7), None);
    assert_eq!(rt; reached(&table, N, [5, 7, 9]), [9, 7, 5]);
    assert_eq!(rt;
        two_entries(&table),
        [0xc0, 0x05, 0x00, 0x07, 0x80, 0x05, 0x00, 0x09]
    );
}

#[test]
fn addresses_of_a_swap_exist_and_differ(rt: HostRuntime) {
    assert!(rt; is_outside(N, 1024, 3));
    assert!(rt; is_outside(N, 3, 1024));
    assert!(rt; is_outside(N, 5, 5));
    assert!(rt; !is_outside(N, 1023, 0));
}

#[test]
fn a_linked_address_is_taken(rt: HostRuntime) {
    let mut table = Table::new();
    assert!(rt; table.swap(N, 5, 7).is_ok());
    assert!(rt; table.is_taken(7, 8));
    assert!(rt; table.is_taken(8, 5));
    assert!(rt; table.is_taken(5, 7));
    assert!(rt; !table.is_taken(5, 8));
}

#[test]
fn a_refused_swap_leaves_the_table(rt: HostRuntime) {
    let mut table = Table::new();
    assert!(rt; table.swap(N, 5, 7).is_ok());
    assert_eq!(rt; table.swap(N, 7, 8), Err(SwapError::Linked));
    assert_eq!(rt; table.swap(N, 1024, 8), Err(SwapError::Outside));
    assert_eq!(rt; table.used(), 1);
    assert_eq!(rt; two_entries(&table), [0x80, 0x05, 0x00, 0x07, 0, 0, 0, 0]);
}

#[test]
fn a_full_table_takes_no_swap(rt: HostRuntime) {
    let mut table = Table::new();
    for second in 1..=20 {
        assert!(rt; table.swap(N, 0, second).is_ok());
    }
    assert!(rt; table.is_full());
    assert_eq!(rt; table.used(), ENTRIES);
    assert_eq!(rt; table.allows(N, 0, 21), Err(SwapError::Full));
    assert_eq!(rt; table.swap(N, 0, 21), Err(SwapError::Full));
    assert_eq!(rt; reached(&table, N, [0, 20, 21]), [20, 0, 21]);
}

#[test]
fn a_link_not_wholly_below_n_exchanges_nothing(rt: HostRuntime) {
    let mut table = Table::new();
    assert!(rt; table.swap(N, 3, 700).is_ok());
    assert!(rt; table.swap(N, 4, 5).is_ok());
    assert_eq!(rt; table.partner(700, 3), None);
    assert_eq!(rt; reached(&table, 700, [3, 700, 4]), [3, 700, 5]);
    assert_eq!(rt; reached(&table, 701, [3, 700, 4]), [700, 3, 5]);
}
