use crate::bench_card::Deed::*;
use crate::bench_card::{Deed, deed_after};
use arrays::array::PAGE;
use arrays::memory::Memory;
use card::card::Card;
use faults::fault::Fault;
use std::alloc::Global;
use std::test::Fail;

// What a fault tells: place, code, number, row and column.
#[derive(Clone, Copy, PartialEq)]
struct Told(&'static str, u8, u8, u16, usize);

// What someone else sends before, whether /WP is low, the deed, and its fault if it is to tell one.
#[derive(Clone, Copy)]
struct Case(&'static [u8], bool, Deed, Option<Told>);

// A load, which leaves the card BUSY.
const LOAD: &[u8] = &[0x13, 0, 0, 0];

const OTP_MODE: &[u8] = &[0x01, 0xb0, 0x40];

const CASES: [Case; 18] = [
    Case(LOAD, false, Open, Some(Told("counter", 0xff, 4, 0, 0))),
    Case(
        &[0x01, 0xa0, 0x7e],
        true,
        Open,
        Some(Told("pin", 0x01, 5, 0, 0)),
    ),
    Case(
        &[0x01, 0xa0, 0x01],
        false,
        Open,
        Some(Told("register", 0x01, 7, 0, 0)),
    ),
    Case(
        &[0x01, 0xa0, 0x80],
        true,
        Open,
        Some(Told("register", 0x01, 7, 0, 0)),
    ),
    Case(LOAD, false, Write(3), Some(Told("counter", 0x06, 4, 3, 0))),
    Case(
        &[0x01, 0xa0, 0x02],
        true,
        Write(1),
        Some(Told("pin", 0x02, 5, 1, 0)),
    ),
    Case(
        &[0x01, 0xa0, 0x7c],
        false,
        Write(3),
        Some(Told("address", 0x10, 11, 3, 0)),
    ),
    Case(
        OTP_MODE,
        false,
        Write(1),
        Some(Told("address", 0x10, 11, 1, 0)),
    ),
    Case(
        OTP_MODE,
        false,
        Write(300),
        Some(Told("address", 0x10, 10, 300, 0)),
    ),
    Case(LOAD, false, Check(3), Some(Told("counter", 0x13, 4, 3, 0))),
    Case(
        OTP_MODE,
        false,
        Check(300),
        Some(Told("address", 0x13, 10, 300, 0)),
    ),
    Case(&[0x06], false, Check(3), Some(Told("job", 0x03, 18, 3, 7))),
    Case(
        LOAD,
        false,
        Seal(0xfc),
        Some(Told("counter", 0x01, 4, 0, 0)),
    ),
    Case(
        &[0x01, 0xa0, 0x02],
        true,
        Seal(0xfc),
        Some(Told("pin", 0x01, 5, 0, 0)),
    ),
    Case(
        &[0x01, 0xa0, 0x01],
        false,
        Seal(0xfc),
        Some(Told("register", 0x01, 7, 0, 0)),
    ),
    Case(
        &[0x01, 0xa0, 0x80],
        true,
        Seal(0xfc),
        Some(Told("register", 0x01, 7, 0, 0)),
    ),
    Case(&[0x06], true, Seal(0x80), None),
    Case(&[0x06], true, Open, None),
];

fn as_told(fault: Fault) -> Told {
    Told(
        fault.place().as_str(),
        fault.code(),
        fault.number(),
        fault.row,
        fault.column(),
    )
}

// Does a new card of 4 blocks of 2 pages tell the fault? The page differs from a blank one in columns 7 and 9.
fn holds(heap: Global, life: u32, otp_pages: usize, case: Case) -> Result<bool, Fail> {
    let mut main = vec![in heap; 0u8; 16_912]?;
    let mut otp = vec![in heap; 0u8; 4 + PAGE * 16]?;
    let mut page = [0xff; PAGE];
    page[7] = 0;
    page[9] = 0;
    let mut main = Memory::new(&mut main, 4, 2);
    main.renew(life);
    let mut card = Card::new(main, Memory::new(&mut otp, 1, otp_pages));
    let Case(before, low, deed, fault) = case;
    Ok(
        deed_after(&mut card, before, low, deed, &page)
            .err()
            .map(as_told)
            == fault,
    )
}

#[test]
fn faults_at_each_transaction(rt: HostRuntime) -> Result<(), Fail> {
    for (i, case) in CASES.iter().enumerate() {
        assert!(rt; holds(rt.alloc(), 3, 16, *case)?, "case {i}");
    }
    Ok(())
}

#[test]
fn a_worn_block_and_an_unfit_card(rt: HostRuntime) -> Result<(), Fail> {
    let worn = Case(&[0x06], false, Write(3), Some(Told("job", 0x05, 17, 3, 0)));
    assert!(rt; holds(rt.alloc(), 0, 16, worn)?);
    let unfit = Case(&[0x06], false, Open, Some(Told("card", 0xff, 1, 0, 0)));
    assert!(rt; holds(rt.alloc(), 3, 8, unfit)?);
    Ok(())
}
