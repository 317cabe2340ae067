// What program and erase leave in the bytes of an array of 2 blocks of 2 pages: lives at 0, pages from byte 8 on.
use arrays::array::{Array, PAGE};
use arrays::memory::Memory;
use std::test::Fail;

const LENGTH: usize = 8_456;

// Where page 1 of block 1 begins.
const LAST: usize = 6_344;

#[test]
fn bytes_after_program_and_erase(rt: HostRuntime) -> Result<(), Fail> {
    let mut bytes = [0u8; LENGTH];
    let mut new = [0xffu8; PAGE];
    let mut array = Memory::new(&mut bytes, 2, 2);
    array.renew(258);
    new[5] = 0x0f;
    assert!(rt; array.program(1, 1, &new).is_ok());
    new[5] = 0xf1;
    assert!(rt; array.program(1, 1, &new).is_ok());
    assert!(rt; array.erase(0).is_ok());
    assert!(rt; bytes[0..4] == [0, 0, 1, 1], "life 257 of block 0");
    assert!(rt; bytes[4..8] == [0, 0, 1, 2], "life 258 of block 1");
    assert!(rt; bytes[LAST + 5] == 0x01, "old AND new");
    assert!(rt;
        bytes[8] == 0xff
            && bytes[LAST - 1] == 0xff
            && bytes[LAST + 4] == 0xff
            && bytes[LAST + 6] == 0xff
    );
    Ok(())
}
