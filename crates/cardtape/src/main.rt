#![tactic(auto)]

// Replays a tape of calls from standard input on one new card, and prints an answer for each line.
use arrays::memory::Memory;
use card::card::Card;
use card::store_card::StoreCard;
use replay::reader::Reader;
use std::io;
use std::io::{BufWriter, Read, Write};
use tape::text::Text;

// The sizes of this program's own card; another program may have others.
const BLOCKS: usize = 4;

const PAGES: usize = 2;

const BYTES: usize = 16_912;

const OTP_PAGES: usize = 16;

const OTP_BYTES: usize = 33_796;

const LIFE: u32 = 3;

// How much is read at a time.
const CHUNK: usize = 65_536;

// Prints an answer, if there is one.
fn print<W: Write>(output: &mut W, answer: Option<Text>) -> io::Result<()> {
    let Some(text) = answer else {
        return Ok(());
    };
    output.write_all(text.as_bytes())?;
    output.write_all(b"\n")
}

// Reads some of a tape and replays it, and answers whether it has not ended.
fn replay_some<C: StoreCard, R: Read, W: Write>(
    reader: &mut Reader<C>,
    input: &mut R,
    chunk: &mut [u8],
    output: &mut W,
) -> io::Result<bool> {
    let count = input.read(chunk)?;
    for byte in &chunk[..count] {
        print(output, reader.read(*byte))?;
    }
    Ok(count != 0)
}

// Replays standard input to its end.
fn replay_all<C: StoreCard>(
    rt: &HostRuntime,
    reader: &mut Reader<C>,
    chunk: &mut [u8],
) -> io::Result<()> {
    let mut input = rt.stdin();
    let mut output = BufWriter::new(rt.alloc(), rt.stdout())?;
    // Counted, since every loop is proved to end, and input need not.
    for _ in 0..u64::MAX {
        if !replay_some(reader, &mut input, chunk, &mut output)? {
            break;
        }
    }
    print(&mut output, reader.finish())?;
    output.flush()
}

fn main(rt: HostRuntime) -> anyhow::Result<()> {
    let heap = rt.alloc();
    let mut bytes = vec![in heap; 0u8; BYTES]?;
    let mut otp_bytes = vec![in heap; 0u8; OTP_BYTES]?;
    let mut chunk = vec![in heap; 0u8; CHUNK]?;
    let mut main = Memory::new(&mut bytes, BLOCKS, PAGES);
    main.renew(LIFE);
    let mut otp = Memory::new(&mut otp_bytes, 1, OTP_PAGES);
    otp.renew(LIFE);
    let mut reader = Reader::new(Card::new(main, otp));
    replay_all(&rt, &mut reader, &mut chunk)?;
    Ok(())
}
