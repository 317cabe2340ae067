ghost use Rattle.std.specs.Prelude.{◌≡◌, ◌∷◌, length};
ghost use Rattle.deeds.specs.Sequences.{beginning, programming, programming_by, fetching};

use acts::act::Act;
use acts::perform::perform_all;
use arrays::array::PAGE;
use card::store_card::StoreCard;
use faults::fault::Cause;

const FRAME: usize = 3 + PAGE;

// 02h at column 0 with the bytes of a page.
fn load_frame(page: &[u8; PAGE]) -> [u8; FRAME]
    ensures { result ≡ 0x02 ∷ 0 ∷ 0 ∷ page.now }
{
    let mut frame = [0; FRAME];
    frame[0] = 0x02;
    frame[3..].copy_from_slice(page);
    frame
}

// Resets the card, reads SR-1 into the area and clears it.
pub(crate) fn begin<C: StoreCard>(card: &mut C, low: bool, area: &mut [u8]) -> Result<(), Cause>
    ensures chip { C.chip card.new ≡ (beginning (C.chip card.old) low area.old).chip }
    ensures answer { result ≡ (beginning (C.chip card.old) low area.old).answer }
    ensures area { area.new ≡ (beginning (C.chip card.old) low area.old).area }
{
    perform_all(
        card,
        low,
        &[
            Act::Send(&[0xff]),
            Act::Read(&[0x05, 0xa0]),
            Act::Send(&[0x01, 0xa0, 0]),
        ],
        area,
    )
}

// The sequence of `program`, with the two frames that it loads and programs by.
fn program_by<'a, C: StoreCard>(
    card: &mut C,
    low: bool,
    load: &'a [u8],
    execute: &'a [u8],
    area: &mut [u8],
) -> Result<(), Cause>
    ensures chip { C.chip card.new ≡ (programming_by (C.chip card.old) low load.now execute.now area.old).chip }
    ensures answer { result ≡ (programming_by (C.chip card.old) low load.now execute.now area.old).answer }
    ensures area { area.new ≡ (programming_by (C.chip card.old) low load.now execute.now area.old).area }
{
    perform_all(
        card,
        low,
        &[
            Act::Send(&[0x06]),
            Act::Send(load),
            Act::Send(execute),
            Act::Settle,
            Act::Read(&[0x05, 0xc0]),
        ],
        area,
    )
}

// Programs a page at the row, and reads SR-3 into the area.
pub(crate) fn program<C: StoreCard>(
    card: &mut C,
    low: bool,
    row: u16,
    page: &[u8; PAGE],
    area: &mut [u8],
) -> Result<(), Cause>
    ensures chip { C.chip card.new ≡ (programming (C.chip card.old) low row page.now area.old).chip }
    ensures answer { result ≡ (programming (C.chip card.old) low row page.now area.old).answer }
    ensures area { area.new ≡ (programming (C.chip card.old) low row page.now area.old).area }
{
    let [high, lower] = row.to_be_bytes();
    program_by(card, low, &load_frame(page), &[0x10, 0, high, lower], area)
}

// Reads the page at the row into the area.
pub(crate) fn fetch<C: StoreCard>(
    card: &mut C,
    low: bool,
    row: u16,
    area: &mut [u8],
) -> Result<(), Cause>
    ensures chip { C.chip card.new ≡ (fetching (C.chip card.old) low row area.old).chip }
    ensures answer { result ≡ (fetching (C.chip card.old) low row area.old).answer }
    ensures area { area.new ≡ (fetching (C.chip card.old) low row area.old).area }
{
    let [high, lower] = row.to_be_bytes();
    perform_all(
        card,
        low,
        &[
            Act::Send(&[0x13, 0, high, lower]),
            Act::Settle,
            Act::Read(&[0x03, 0, 0, 0]),
        ],
        area,
    )
}
