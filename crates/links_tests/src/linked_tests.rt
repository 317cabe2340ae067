use arrays::array::{Array, PAGE};
use arrays::error::ArrayError;
use arrays::memory::Memory;
use linked::linked::Linked;
use links::table::Table;

// Two blocks of one page: two lives of four bytes and two pages.
const TWO_BLOCKS: usize = 2 * (4 + PAGE);

#[test]
fn a_linked_array_shows_the_reached_block(rt: HostRuntime) {
    let mut bytes = [0; TWO_BLOCKS];
    let mut memory = Memory::new(&mut bytes, 2, 1);
    memory.renew(1);
    let mut linked = Linked::new(memory, Table::new());
    assert!(rt; linked.swap(0, 1).is_ok());
    assert!(rt; linked.program(0, 0, &[0x0f; PAGE]).is_ok());
    let (memory, table) = linked.into_parts();
    assert_eq!(rt; table.reach(2, 0), 1);
    let mut area = [0; PAGE];
    assert!(rt; memory.read(0, 0, &mut area).is_ok());
    assert_eq!(rt; area[0], 0xff);
    assert!(rt; memory.read(1, 0, &mut area).is_ok());
    assert_eq!(rt; area[PAGE - 1], 0x0f);
}

#[test]
fn a_linked_array_wears_the_reached_block(rt: HostRuntime) {
    let mut bytes = [0; TWO_BLOCKS];
    let mut memory = Memory::new(&mut bytes, 2, 1);
    memory.renew(1);
    let mut linked = Linked::new(memory, Table::new());
    assert!(rt; linked.swap(0, 1).is_ok());
    assert!(rt; linked.erase(0).is_ok());
    assert_eq!(rt; linked.erase(0), Err(ArrayError::Worn));
    assert!(rt; linked.erase(1).is_ok());
    assert_eq!(rt; linked.erase(2), Err(ArrayError::Absent));
    assert_eq!(rt; linked.read(0, 1, &mut [0; PAGE]), Err(ArrayError::Absent));
}
