use crate::bench_card::{give_up, send, try_check, try_seal};
use arrays::array::PAGE;
use arrays::memory::Memory;
use card::card::Card;
use card::store_card::StoreCard;
use faults::fault::Fault;
use job::opened::open;
use rules::refusal::outcome_number;
use std::process::Abort;
use std::test::Fail;

// SR-1 as 05h gives it.
fn sr1<C: StoreCard>(card: &mut C) -> u8 {
    let mut area = [0];
    let _ = card.transact(&[0x05, 0xa0], false, &mut area);
    area[0]
}

// The number of a fault, 0 for none: what is expected stands in numbers.
fn number(answer: Result<(), Fault>) -> u8 {
    match answer {
        Ok(()) => 0,
        Err(fault) => fault.number(),
    }
}

// Opens a job, writes and checks; the numbers of both.
fn write_and_check<C: StoreCard>(
    card: &mut C,
    bytes: &[u8],
    area: &mut [u8],
) -> Result<(u8, u8), Fault> {
    let job = open(card, false)?;
    let written = number(job.write(card, false, 3, bytes));
    let checked = number(try_check(job, card, false, 3, bytes, area));
    Ok((written, checked))
}

// Opens a job, leaves the card BUSY and checks; the number of the check's fault, and of giving the job up.
fn check_while_busy<C: StoreCard>(card: &mut C, area: &mut [u8]) -> Result<(u8, u8), Fault> {
    let job = open(card, false)?;
    send(card, &[0x13, 0, 0, 0]);
    match job.check(card, false, 0, &[0xff; PAGE], area) {
        Ok(job) => Ok((0, outcome_number(job.give_up(card, false)))),
        Err((job, fault)) => Ok((fault.number(), outcome_number(job.give_up(card, false)))),
    }
}

// Opens, checks the blank page at row 0 and seals; SR-1 then.
fn sealed_sr1<C: StoreCard>(card: &mut C, byte: u8, area: &mut [u8]) -> Result<u8, Fault> {
    let job = open(card, false)?;
    match job.check(card, false, 0, &[0xff; PAGE], area) {
        Ok(job) => {
            try_seal(job, card, false, byte)?;
            Ok(sr1(card))
        }
        Err((job, fault)) => Err(give_up(job, card, false, fault)),
    }
}

// What a whole job does to areas of right and wrong length.
fn areas_hold<C: StoreCard>(rt: &impl Abort, card: &mut C) {
    let mut area = [7; PAGE];
    assert!(rt; write_and_check(card, &[0; 2111], &mut area) == Ok((16, 16)));
    assert!(rt; area[0] == 7 && sr1(card) == 0x7c, "16 alters nothing");
    let mut short = [7; 5];
    assert!(rt; write_and_check(card, &[0; PAGE], &mut short) == Ok((0, 16)));
    assert!(rt; short[0] == 7);
    assert!(rt; write_and_check(card, &[1; PAGE], &mut area) == Ok((0, 18)));
    assert!(rt; area[0] == 0 && area[2111] == 0, "old AND new");
    assert!(rt; check_while_busy(card, &mut area) == Ok((4, 4)));
    assert!(rt; area[0] == 0xff && area[2111] == 0xff, "13h was refused");
}

// A seal by a byte, what it refuses, and one by another byte after a power cycle.
fn seals_hold<C: StoreCard>(rt: &impl Abort, card: &mut C) {
    let mut area = [0; PAGE];
    assert_eq!(rt; sealed_sr1(card, 0xfc, &mut area), Ok(0x7d));
    assert_eq!(rt; send(card, &[0x01, 0xa0, 0x00]), 7);
    assert_eq!(rt; send(card, &[0x06]), 0);
    assert_eq!(rt; send(card, &[0x10, 0, 0, 0]), 11);
    card.power_cycle();
    assert_eq!(rt; sealed_sr1(card, 0x80, &mut area), Ok(0x01));
}

#[test]
fn whole_jobs(rt: HostRuntime) -> Result<(), Fail> {
    let heap = rt.alloc();
    let mut main = vec![in heap; 0u8; 16_912]?;
    let mut otp = vec![in heap; 0u8; 33_796]?;
    let mut main = Memory::new(&mut main, 4, 2);
    main.renew(3);
    let mut card = Card::new(main, Memory::new(&mut otp, 1, 16));
    areas_hold(&rt, &mut card);
    card.power_cycle();
    seals_hold(&rt, &mut card);
    Ok(())
}
