// A list of calls on a new card of 4 blocks of 2 pages, with a log of whole answers and one of numbers.
use arrays::memory::Memory;
use play::call::Answer::*;
use play::call::{Answer, Call};
use play::log::Entry;
use play::play::play;
use rules::refusal::Refusal;
use std::alloc::Global;
use std::test::Fail;

// Identifies, is refused for want of the latch, loads row 0, steps and cycles power.
const CALLS: [Call<'static>; 5] = [
    Call::Transaction {
        sent: &[0x9f, 0],
        low: false,
    },
    Call::Transaction {
        sent: &[0x10, 0, 0, 0],
        low: false,
    },
    Call::Transaction {
        sent: &[0x13, 0, 0, 0],
        low: false,
    },
    Call::Step,
    Call::PowerCycle,
];

const ANSWERS: [Answer; 5] = [
    Driven(3),
    Refused(Refusal::LatchClear),
    Driven(0),
    Left(0),
    Powered,
];

// What the calls leave in an area of four bytes, or none if the log did not fit.
fn played<E: Entry + Drop>(heap: Global, log: &mut [E]) -> Result<Option<[u8; 4]>, Fail> {
    let mut main = vec![in heap; 0u8; 16_912]?;
    let mut otp = vec![in heap; 0u8; 33_796]?;
    let mut area = [0; 4];
    let main = Memory::new(&mut main, 4, 2);
    let otp = Memory::new(&mut otp, 1, 16);
    match play(main, otp, &CALLS, &mut area, log) {
        Ok(_card) => Ok(Some(area)),
        Err(_unplayed) => Ok(None),
    }
}

#[test]
fn a_log_of_answers(rt: HostRuntime) -> Result<(), Fail> {
    let mut log = [Powered; 5];
    assert_eq!(rt; played(rt.alloc(), &mut log)?, Some([0xff; 4]));
    assert!(rt; log == ANSWERS);
    Ok(())
}

#[test]
fn a_log_of_numbers(rt: HostRuntime) -> Result<(), Fail> {
    let mut log = [7; 5];
    assert_eq!(rt; played(rt.alloc(), &mut log)?, Some([0xff; 4]));
    assert_eq!(rt; log, [0, 9, 0, 0, 0]);
    Ok(())
}

#[test]
fn a_log_of_another_length(rt: HostRuntime) -> Result<(), Fail> {
    let mut log = [7; 4];
    assert_eq!(rt; played(rt.alloc(), &mut log)?, None);
    assert_eq!(rt; log, [7; 4]);
    Ok(())
}
