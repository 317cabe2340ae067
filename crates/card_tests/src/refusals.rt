use crate::script::Line::*;
use crate::script::{Line, right_lines};
use arrays::memory::Memory;
use card::card::Card;
use std::alloc::Global;
use std::test::Fail;

// The frame, the counter, the pin and the registers.
const FRONT: [Line<'static>; 22] = [
    High(&[], 2),
    High(&[0xa9], 2),
    High(&[0x06, 0x00], 3),
    High(&[0x10, 0, 0, 0], 9),
    High(&[0x01, 0xa0, 0x00], 0),
    High(&[0x06], 0),
    High(&[0x10, 0, 0, 0], 0),
    Shows(&[0x05, 0xc0], 0x03),
    High(&[0xff], 4),
    High(&[0x05, 0xd0], 6),
    Step(3),
    Step(2),
    Step(1),
    Step(0),
    High(&[0x01, 0xa0, 0x02], 0),
    Low(&[0x01, 0xa0, 0x00], 5),
    High(&[0x32, 0, 0, 0], 5),
    High(&[0x01, 0xa0, 0x80], 0),
    Low(&[0x01, 0xa0, 0x00], 7),
    High(&[0x01, 0xa0, 0x01], 0),
    High(&[0x01, 0xa0, 0x00], 7),
    High(&[0x01, 0xb0, 0x20], 8),
];

// The latch, the rows and the links.
const BACK: [Line<'static>; 22] = [
    High(&[0x02, 0, 0, 0x55], 9),
    High(&[0x01, 0xb0, 0x40], 0),
    High(&[0x13, 0, 0, 12], 10),
    High(&[0x06], 0),
    High(&[0x10, 0, 0, 1], 11),
    Shows(&[0x05, 0xc0], 0x08),
    High(&[0xff], 0),
    High(&[0x06], 0),
    High(&[0xd8, 0, 0, 0], 11),
    Shows(&[0x05, 0xc0], 0x04),
    High(&[0x01, 0xa0, 0x00], 0),
    High(&[0xa1, 0, 5, 0, 1], 12),
    High(&[0xa1, 0, 1, 0, 1], 12),
    High(&[0xa1, 0, 0, 0, 1], 0),
    Step(1),
    Step(0),
    High(&[0xa1, 0, 2, 0, 1], 13),
    High(&[0xa1, 0, 1, 0, 2], 13),
    High(&[0x01, 0xa0, 0x7c], 0),
    High(&[0xa1, 0, 2, 0, 3], 15),
    Power,
    Shows(&[0x05, 0xa0], 0x7c),
];

// 4 blocks of 2 pages and an OTP array of `otp_pages` pages, all lives 3.
fn play_on_new(
    heap: Global,
    otp_pages: usize,
    otp_length: usize,
    lines: &[Line<'_>],
) -> Result<usize, Fail> {
    let mut main = vec![in heap; 0u8; 16_912]?;
    let mut otp = vec![in heap; 0u8; otp_length]?;
    let mut main = Memory::new(&mut main, 4, 2);
    let mut otp = Memory::new(&mut otp, 1, otp_pages);
    main.renew(3);
    otp.renew(3);
    let mut card = Card::new(main, otp);
    Ok(right_lines(&mut card, lines))
}

#[test]
fn refusals_of_a_small_card(rt: HostRuntime) -> Result<(), Fail> {
    let heap = rt.alloc();
    assert_eq!(rt; play_on_new(heap, 16, 33_796, &FRONT)?, FRONT.len());
    assert_eq!(rt; play_on_new(heap, 16, 33_796, &BACK)?, BACK.len());
    Ok(())
}

#[test]
fn an_unfit_card_refuses_with_1(rt: HostRuntime) -> Result<(), Fail> {
    assert_eq!(rt;
        play_on_new(
            rt.alloc(),
            8,
            16_900,
            &[High(&[], 1), High(&[0x9f, 0], 1), Step(0), Power],
        )?,
        4
    );
    Ok(())
}

// The swaps 0, 1 and 0, 2 and so on, of which the table takes 20.
const SWAPS: [Line<'static>; 9] = [
    High(&[0xa1, 0, 0, 0, 1], 0),
    Step(1),
    Step(0),
    High(&[0xa1, 0, 0, 0, 2], 0),
    Step(1),
    Step(0),
    High(&[0xa1, 0, 0, 0, 3], 0),
    Step(1),
    Step(0),
];

#[test]
fn a_full_table_refuses_with_14(rt: HostRuntime) -> Result<(), Fail> {
    let heap = rt.alloc();
    let mut main = vec![in heap; 0u8; 16_912]?;
    let mut otp = vec![in heap; 0u8; 33_796]?;
    let mut card = Card::new(Memory::new(&mut main, 4, 2), Memory::new(&mut otp, 1, 16));
    assert_eq!(rt; right_lines(&mut card, &[High(&[0x01, 0xa0, 0x00], 0)]), 1);
    for _ in 0..6 {
        assert_eq!(rt; right_lines(&mut card, &SWAPS), 9);
    }
    assert_eq!(rt; right_lines(&mut card, &SWAPS), 6, "20 of 21 swaps");
    assert_eq!(rt;
        right_lines(
            &mut card,
            &[High(&[0xa1, 0, 0, 0, 3], 14), Shows(&[0x05, 0xc0], 0x40)],
        ),
        2
    );
    Ok(())
}
