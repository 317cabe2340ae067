// Sizes that do not fit make an empty array: N and P answer 0 and every call "absent".
use arrays::array::{Array, PAGE};
use arrays::dump::Dump;
use arrays::error::ArrayError;
use arrays::memory::Memory;
use std::alloc::Global;
use std::process::Abort;
use std::test::Fail;

// N, P and a length; each of the first two rows of a kind would fit but for one number.
const UNFIT: [(usize, usize, usize); 11] = [
    (3, 1, 6_348),
    (2_048, 1, 4_333_568),
    (0, 1, 0),
    (1, 0, 4),
    (0, 0, 0),
    (1, 3, 6_340),
    (1, 128, 270_340),
    (1, 1, 2_115),
    (1, 1, 2_117),
    (4, 2, 16_908),
    (1, 1, 0),
];

fn all_absent<A: Array>(array: &mut A, area: &mut [u8]) -> bool {
    let sizes = array.blocks() == 0 && array.pages() == 0;
    let read = array.read(0, 0, area) == Err(ArrayError::Absent);
    let program = array.program(0, 0, area) == Err(ArrayError::Absent);
    let erase = array.erase(0) == Err(ArrayError::Absent);
    sizes && read && program && erase
}

fn try_all(rt: &impl Abort, heap: Global, sizes: &[(usize, usize, usize)]) -> Result<(), Fail> {
    for (blocks, pages, length) in sizes {
        let mut bytes = vec![in heap; 0xffu8; *length]?;
        let mut area = vec![in heap; 7u8; PAGE]?;
        assert!(rt;
            all_absent(&mut Memory::new(&mut bytes, *blocks, *pages), &mut area),
            "memory"
        );
        assert!(rt;
            all_absent(&mut Dump::new(&bytes, *blocks, *pages), &mut area),
            "dump"
        );
        assert!(rt;
            area.len() == PAGE && area[0] == 7 && area[PAGE - 1] == 7,
            "the area is as it was"
        );
    }
    Ok(())
}

#[test]
fn unfit_arrays_are_empty(rt: HostRuntime) -> Result<(), Fail> {
    try_all(&rt, rt.alloc(), &UNFIT)
}
