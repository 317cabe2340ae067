use crate::script::Line::*;
use crate::script::{Line, right_lines};
use arrays::memory::Memory;
use card::card::Card;
use std::test::Fail;

// At life 1 an erase finishes and the next program sets P-FAIL.
const LAST_LIFE: [Line<'static>; 6] = [
    High(&[0x01, 0xa0, 0x00], 0),
    High(&[0x06], 0),
    High(&[0xd8, 0, 0, 0], 0),
    Shows(&[0x05, 0xc0], 0x03),
    Step(15),
    Step(14),
];

const THEN_WORN: [Line<'static>; 9] = [
    Step(0),
    Shows(&[0x05, 0xc0], 0x00),
    High(&[0x06], 0),
    High(&[0x10, 0, 0, 0], 0),
    Step(3),
    Step(2),
    Step(1),
    Step(0),
    Shows(&[0x05, 0xc0], 0x08),
];

// A page with 0Fh at its first byte, and an erase of its block that a power cycle drops.
const PROGRAMMED: [Line<'static>; 8] = [
    High(&[0x01, 0xa0, 0x00], 0),
    High(&[0x06], 0),
    High(&[0x02, 0, 0, 0x0f], 0),
    High(&[0x10, 0, 0, 0], 0),
    Step(3),
    Step(2),
    Step(1),
    Step(0),
];

const DROPPED: [Line<'static>; 4] = [Step(1), Power, Step(0), Shows(&[0x03, 0, 0, 0], 0x0f)];

// Steps of an erase that are not its last, from this many left on.
fn steps_down(from: u8) -> [Line<'static>; 1] {
    [Step(from)]
}

#[test]
fn the_last_erase_of_a_block(rt: HostRuntime) -> Result<(), Fail> {
    let mut main = vec![in rt.alloc(); 0u8; 16_912]?;
    let mut otp = vec![in rt.alloc(); 0u8; 33_796]?;
    let mut main = Memory::new(&mut main, 4, 2);
    main.renew(1);
    let mut card = Card::new(main, Memory::new(&mut otp, 1, 16));
    assert_eq!(rt; right_lines(&mut card, &LAST_LIFE), LAST_LIFE.len());
    for left in (1..14u8).rev() {
        assert_eq!(rt; right_lines(&mut card, &steps_down(left)), 1);
    }
    assert_eq!(rt; right_lines(&mut card, &THEN_WORN), THEN_WORN.len());
    Ok(())
}

#[test]
fn a_power_cycle_drops_an_erase(rt: HostRuntime) -> Result<(), Fail> {
    let mut main = vec![in rt.alloc(); 0u8; 16_912]?;
    let mut otp = vec![in rt.alloc(); 0u8; 33_796]?;
    let mut main = Memory::new(&mut main, 4, 2);
    main.renew(3);
    let mut card = Card::new(main, Memory::new(&mut otp, 1, 16));
    assert_eq!(rt; right_lines(&mut card, &PROGRAMMED), PROGRAMMED.len());
    assert_eq!(rt;
        right_lines(&mut card, &[High(&[0x06], 0), High(&[0xd8, 0, 0, 0], 0)]),
        2
    );
    for left in (2..16u8).rev() {
        assert_eq!(rt; right_lines(&mut card, &steps_down(left)), 1);
    }
    assert_eq!(rt; right_lines(&mut card, &DROPPED), DROPPED.len());
    Ok(())
}
