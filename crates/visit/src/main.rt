#![tactic(auto)]

// One task at a bench array, from its first step to its last, printed as a report that a technician can read.
use arrays::array::{Array, PAGE};
use arrays::dump::Dump;
use arrays::memory::Memory;
use bench::calibration::Calibration;
use bench::compare::{Equal, Risen, Test};
use bench::steps::{program_and_read, wear_out};
use bench::words::word;
use card::card::Card;
use card::store_card::StoreCard;
use linked::linked::Linked;
use links::table::Table;
use rules::refusal::outcome_number;
use std::io;

// The sizes of this program's own card; another program may have others.
const BLOCKS: usize = 4;

const PAGES: usize = 2;

const LIFE: u32 = 3;

const BYTES: usize = 16_912;

const OTP_BYTES: usize = 33_796;

// The address whose block is worn out, and the one that it is exchanged with.
const FIRST: u16 = 1;

const SECOND: u16 = 2;

// The calibration of the bench, and one that is programmed over it without an erase.
const GOOD: Calibration = Calibration {
    zero: 1_250,
    span: 48_000,
};

const HASTY: Calibration = Calibration {
    zero: 1_244,
    span: 50_000,
};

// Programs page 0 of a block and prints what it holds then, a calibration or here that there is none, beside what it held.
fn program<A: Array>(
    rt: &HostRuntime,
    array: &mut A,
    block: usize,
    sent: &[u8],
    held: &[u8],
    read: &mut [u8],
) -> io::Result<()> {
    let (programmed, shown) = program_and_read(array, block, 0, sent, read);
    println!(rt; "program address {block}, page 0: {}", word(programmed))?;
    println!(rt; "read it back: {}", word(shown))?;
    match Calibration::in_page(read) {
        Some(found) => println!(rt; "  zero {}, span {}", found.zero, found.span)?,
        None => println!(rt; "  no calibration")?,
    }
    let equal = Equal::count(sent, read);
    let risen = Risen::count(held, read);
    println!(rt; "  {equal} of {PAGE} bytes as sent; a bit rose in {risen}")
}

// Erases a block until it is worn, and shows that it takes nothing more.
fn wear(rt: &HostRuntime, array: &mut Memory<'_>, block: usize, sent: &[u8]) -> io::Result<()> {
    let erases = wear_out(array, block);
    let then = word(array.erase(block));
    println!(rt; "erase address {block}: done {erases} times, then {then}")?;
    println!(rt;
        "program address {block}, page 0: {}",
        word(array.program(block, 0, sent))
    )?;
    println!(rt;
        "program address {BLOCKS}, page 0: {}",
        word(array.program(BLOCKS, 0, sent))
    )
}

// Exchanges two addresses, and prints which block the first one reaches then.
fn exchange<A: Array>(
    rt: &HostRuntime,
    array: &mut Linked<A>,
    first: u16,
    second: u16,
) -> io::Result<()> {
    let done = match array.swap(first, second) {
        Ok(()) => "done",
        Err(_) => "refused",
    };
    println!(rt; "swap addresses {first} and {second}: {done}")?;
    let block = array.table.reach(BLOCKS, usize::from(first));
    println!(rt; "  address {first} reaches block {block}")
}

// Reads a page of the same bytes through a dump array.
fn dump(
    rt: &HostRuntime,
    bytes: &[u8],
    block: usize,
    sent: &[u8],
    read: &mut [u8],
) -> io::Result<()> {
    let mut dump = Dump::new(bytes, BLOCKS, PAGES);
    let shown = word(dump.read(block, 0, read));
    println!(rt; "read block {block}, page 0 through a dump: {shown}")?;
    let programmed = word(dump.program(block, 0, sent));
    println!(rt; "program it through the dump: {programmed}")?;
    let equal = Equal::count(sent, read);
    println!(rt; "{equal} of {PAGE} bytes equal")
}

// Sends to a card, with /WP high and no area, and prints what becomes of it.
fn send<C: StoreCard>(rt: &HostRuntime, card: &mut C, name: &str, sent: &[u8]) -> io::Result<()> {
    let outcome = outcome_number(card.transact(sent, false, &mut []));
    println!(rt; "{name}: outcome {outcome}")
}

// Makes a new card over the array, under the law of sealed calibration, and tries to write to its sealed rows.
fn seal<M: Array, O: Array>(rt: &HostRuntime, main: M, otp: O) -> io::Result<()>
where
    M: Drop,
    O: Drop,
{
    let mut card = Card::new(main, otp);
    send(rt, &mut card, "new card, write enable", &[0x06])?;
    send(
        rt,
        &mut card,
        "program row 4, which is sealed",
        &[0x10, 0, 0, 4],
    )
}

fn main(rt: HostRuntime) -> anyhow::Result<()> {
    let heap = rt.alloc();
    let blank = vec![in heap; 0xffu8; PAGE]?;
    let mut sent = vec![in heap; 0xffu8; PAGE]?;
    let mut again = vec![in heap; 0xffu8; PAGE]?;
    let mut read = vec![in heap; 0u8; PAGE]?;
    let mut over = vec![in heap; 0u8; PAGE]?;
    let mut bytes = vec![in heap; 0u8; BYTES]?;
    let mut otp = vec![in heap; 0u8; OTP_BYTES]?;
    GOOD.stamp(&mut sent)?;
    HASTY.stamp(&mut again)?;
    let worn = usize::from(FIRST);
    let mut array = Memory::new(&mut bytes, BLOCKS, PAGES);
    array.renew(LIFE);
    let (n, p) = (array.blocks(), array.pages());
    println!(rt; "new array: {n} blocks of {p} pages, life {LIFE} each")?;
    program(&rt, &mut array, worn, &sent, &blank, &mut read)?;
    program(&rt, &mut array, worn, &again, &read, &mut over)?;
    wear(&rt, &mut array, worn, &sent)?;
    let mut array = Linked::new(array, Table::new());
    exchange(&rt, &mut array, FIRST, SECOND)?;
    program(&rt, &mut array, worn, &sent, &blank, &mut over)?;
    let main = Memory::new(&mut bytes, BLOCKS, PAGES);
    seal(&rt, main, Memory::new(&mut otp, 1, 16))?;
    dump(&rt, &bytes, usize::from(SECOND), &sent, &mut read)?;
    Ok(())
}
