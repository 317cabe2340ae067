#![tactic(auto)]

// One whole visit at a bench, and a second one that is given up, printed as a report that a technician files.
mod conduct;
mod traffic;

use arrays::array::{Array, PAGE};
use arrays::dump::Dump;
use arrays::memory::Memory;
use bench::calibration::Calibration;
use bench::compare::{Equal, Test};
use card::card::Card;
use card::store_card::StoreCard;
use conduct::{Order, Stopped, calibrate, inspect};
use deeds::deed::check;
use faults::fault::Fault;
use rules::refusal::Refusal;
use std::io;
use traffic::{Attempt, EXCHANGE, HOSTILE};

// The sizes of this program's own card; another program may have others.
const BLOCKS: usize = 4;

const PAGES: usize = 2;

const LIFE: u32 = 3;

const BYTES: usize = 16_912;

const OTP_BYTES: usize = 33_796;

// Page 0 at address 1, and at address 3, with which it is exchanged in the end.
const ROW: u16 = 2;

const NEW_ROW: u16 = 6;

// Seals every address, with WP-E.
const SEAL: u8 = 0xfe;

// The calibration of the bench, and one that its page does not hold.
const GOOD: Calibration = Calibration {
    zero: 1_250,
    span: 48_000,
};

const WRONG: Calibration = Calibration {
    zero: 1_244,
    span: 50_000,
};

fn print_outcome<T: Drop>(
    rt: &HostRuntime,
    name: &str,
    outcome: Result<T, Refusal>,
) -> io::Result<()> {
    match outcome {
        Ok(_) => println!(rt; "  {name}: taken"),
        Err(refusal) => {
            let (number, place) = (refusal.number(), refusal.place().as_str());
            println!(rt; "  {name}: refused, {number} ({place})")
        }
    }
}

fn print_fault(rt: &HostRuntime, fault: Fault) -> io::Result<()> {
    let (number, place) = (fault.number(), fault.place().as_str());
    println!(rt; "  fault {number} ({place})")?;
    let (code, row, column) = (fault.code(), fault.row, fault.column());
    println!(rt; "  code {code}, row {row}, column {column}")
}

fn print_end(rt: &HostRuntime, end: Result<(), Stopped>) -> io::Result<()> {
    let Err(stopped) = end else {
        return println!(rt; "  opened, written, checked, sealed");
    };
    print_fault(rt, stopped.fault)?;
    match stopped.given_up {
        Some(outcome) => print_outcome(rt, "given up", outcome),
        None => Ok(()),
    }
}

// SR-1 as 05h gives it: one transaction, which the tests of a job make for themselves.
fn sr1<C: StoreCard>(card: &mut C) -> u8 {
    let mut area = [0];
    let _ = card.transact(&[0x05, 0xa0], false, &mut area);
    area[0]
}

// Makes the transaction, and the steps that it may wait for if it is taken.
fn attempt<C: StoreCard>(card: &mut C, low: bool, sent: &[u8]) -> Result<usize, Refusal> {
    let outcome = card.transact(sent, low, &mut []);
    for _ in 0..16 {
        card.step();
    }
    outcome
}

// Reads the page at the row, and counts the bytes that are as they were written.
fn bytes_kept<C: StoreCard>(card: &mut C, row: u16, written: &[u8], area: &mut [u8]) -> usize {
    let _ = check(card, false, row, written, area);
    Equal::count(written, area)
}

fn print_page<C: StoreCard>(
    rt: &HostRuntime,
    card: &mut C,
    when: &str,
    written: &[u8],
    area: &mut [u8],
) -> io::Result<()> {
    let equal = bytes_kept(card, ROW, written, area);
    println!(rt; "page after {when}\n  {equal} of {PAGE} bytes as written")
}

// Makes each attempt and prints what becomes of it.
fn attempt_all<C: StoreCard>(
    rt: &HostRuntime,
    card: &mut C,
    low: bool,
    attempts: &[Attempt],
) -> io::Result<()> {
    for named in attempts {
        print_outcome(rt, named.name, attempt(card, low, named.sent))?;
    }
    Ok(())
}

// The first visit: the page is written, checked and sealed, and then attacked.
fn first_visit<C: StoreCard>(
    rt: &HostRuntime,
    card: &mut C,
    sent: &[u8],
    area: &mut [u8],
) -> io::Result<()> {
    println!(rt; "first visit: calibrate row {ROW}")?;
    let order = Order {
        row: ROW,
        bytes: sent,
        byte: SEAL,
    };
    print_end(rt, calibrate(card, order, area))?;
    println!(rt; "  SR-1: {}", sr1(card))?;
    println!(rt; "bus traffic against the seal, /WP high")?;
    attempt_all(rt, card, false, &HOSTILE)?;
    println!(rt; "bus traffic against the seal, /WP low")?;
    attempt_all(rt, card, true, &HOSTILE)?;
    print_page(rt, card, "the traffic", sent, area)?;
    card.power_cycle();
    print_page(rt, card, "a power cycle", sent, area)?;
    println!(rt; "  SR-1: {}", sr1(card))
}

// The second visit finds another calibration than it expects, and is given up.
fn second_visit<C: StoreCard>(
    rt: &HostRuntime,
    card: &mut C,
    expected: &[u8],
    area: &mut [u8],
) -> io::Result<()> {
    println!(rt; "second visit: check row {ROW}")?;
    let order = Order {
        row: ROW,
        bytes: expected,
        byte: SEAL,
    };
    print_end(rt, inspect(card, order, area))?;
    println!(rt; "  SR-1: {}", sr1(card))
}

// Exchanges two addresses, as for a worn block, and reads the page at its new address.
fn replace_block<C: StoreCard>(
    rt: &HostRuntime,
    card: &mut C,
    written: &[u8],
    area: &mut [u8],
) -> io::Result<()> {
    println!(rt; "blocks 1 and 3 are exchanged")?;
    attempt_all(rt, card, false, &EXCHANGE)?;
    let equal = bytes_kept(card, NEW_ROW, written, area);
    println!(rt; "  row {NEW_ROW}: {equal} of {PAGE} bytes as written")
}

// Reads the page in the bytes of the main array, as a dump, and prints the calibration that it holds, or here that it holds none.
fn print_dump(rt: &HostRuntime, bytes: &[u8], area: &mut [u8]) -> io::Result<()> {
    let _ = Dump::new(bytes, BLOCKS, PAGES).read(1, 0, area);
    println!(rt; "dump of block 1, page 0")?;
    match Calibration::in_page(area) {
        Some(found) => println!(rt; "  zero {}, span {}", found.zero, found.span),
        None => println!(rt; "  no calibration"),
    }
}

fn main(rt: HostRuntime) -> anyhow::Result<()> {
    let mut good = [0xff; PAGE];
    let mut wrong = [0xff; PAGE];
    let mut area = [0; PAGE];
    let mut bytes = [0; BYTES];
    let mut otp = [0; OTP_BYTES];
    GOOD.stamp(&mut good)?;
    WRONG.stamp(&mut wrong)?;
    println!(rt; "store card, {BLOCKS} blocks of {PAGES} pages, new")?;
    let mut main = Memory::new(&mut bytes, BLOCKS, PAGES);
    main.renew(LIFE);
    let mut card = Card::new(main, Memory::new(&mut otp, 1, 16));
    first_visit(&rt, &mut card, &good, &mut area)?;
    second_visit(&rt, &mut card, &wrong, &mut area)?;
    replace_block(&rt, &mut card, &good, &mut area)?;
    print_dump(&rt, &bytes, &mut area)?;
    Ok(())
}
