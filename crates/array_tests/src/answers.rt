// A table through absent, each of its causes, worn and done, on the smallest and the largest array and one between.
use arrays::array::Array;
use arrays::dump::Dump;
use arrays::error::ArrayError;
use arrays::memory::Memory;
use std::alloc::Global;
use std::process::Abort;
use std::test::Fail;

type Answer = Result<(), ArrayError>;

const DONE: Answer = Ok(());

const WORN: Answer = Err(ArrayError::Worn);

const ABSENT: Answer = Err(ArrayError::Absent);

// The life of each block, a block and page that are called with so many bytes, and what read, program and erase answer.
#[derive(Clone, Copy)]
struct Case(u32, usize, usize, usize, [Answer; 3]);

// Of 1 block of 1 page: each cause of absent alone, then beside life 0; erase asks neither page nor size.
const SMALLEST: [Case; 9] = [
    Case(1, 0, 0, 2_112, [DONE, DONE, DONE]),
    Case(0, 0, 0, 2_112, [DONE, WORN, WORN]),
    Case(1, 1, 0, 2_112, [ABSENT, ABSENT, ABSENT]),
    Case(1, 0, 1, 2_112, [ABSENT, ABSENT, DONE]),
    Case(1, 0, 0, 2_111, [ABSENT, ABSENT, DONE]),
    Case(1, 0, 0, 2_113, [ABSENT, ABSENT, DONE]),
    Case(1, 0, 0, 0, [ABSENT, ABSENT, DONE]),
    Case(0, 0, 1, 2_112, [ABSENT, ABSENT, WORN]),
    Case(0, 1, 0, 2_112, [ABSENT, ABSENT, ABSENT]),
];

// Of 4 blocks of 2 pages.
const BETWEEN: [Case; 2] = [
    Case(3, 3, 1, 2_112, [DONE, DONE, DONE]),
    Case(3, 4, 1, 2_112, [ABSENT, ABSENT, ABSENT]),
];

// Of 1,024 blocks of 64 pages.
const LARGEST: [Case; 3] = [
    Case(4_294_967_295, 1_023, 63, 2_112, [DONE, DONE, DONE]),
    Case(1, 1_024, 0, 2_112, [ABSENT, ABSENT, ABSENT]),
    Case(1, 0, 64, 2_112, [ABSENT, ABSENT, DONE]),
];

// What read, program and erase answer.
fn answers<A: Array>(array: &mut A, block: usize, page: usize, area: &mut [u8]) -> [Answer; 3] {
    [
        array.read(block, page, area),
        array.program(block, page, area),
        array.erase(block),
    ]
}

// A dump array answers "worn" to program and erase where a memory array carries them out.
fn try_case(bytes: &mut [u8], blocks: usize, pages: usize, case: Case, area: &mut [u8]) -> bool {
    let Case(life, block, page, _, [read, program, erase]) = case;
    let mut array = Memory::new(bytes, blocks, pages);
    array.renew(life);
    let memory = array.blocks() == blocks
        && array.pages() == pages
        && answers(&mut array, block, page, area) == [read, program, erase];
    let mut array = Dump::new(bytes, blocks, pages);
    memory
        && array.blocks() == blocks
        && array.pages() == pages
        && answers(&mut array, block, page, area) == [read, program.and(WORN), erase.and(WORN)]
}

fn try_all(
    rt: &impl Abort,
    heap: Global,
    what: &str,
    blocks: usize,
    pages: usize,
    length: usize,
    cases: &[Case],
) -> Result<(), Fail> {
    let mut bytes = vec![in heap; 0u8; length]?;
    for case in cases {
        let mut area = vec![in heap; 0u8; case.3]?;
        assert!(rt;
            try_case(&mut bytes, blocks, pages, *case, &mut area),
            "{what}"
        );
    }
    Ok(())
}

#[test]
fn arrays_answer(rt: HostRuntime) -> Result<(), Fail> {
    let heap = rt.alloc();
    try_all(&rt, heap, "1 block of 1 page", 1, 1, 2_116, &SMALLEST)?;
    try_all(&rt, heap, "4 blocks of 2 pages", 4, 2, 16_912, &BETWEEN)?;
    try_all(
        &rt,
        heap,
        "1,024 blocks of 64 pages",
        1_024,
        64,
        138_416_128,
        &LARGEST,
    )
}
