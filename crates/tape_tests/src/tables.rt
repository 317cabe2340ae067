// Lines that are no record, each by one fault.
pub(crate) const NO_RECORDS: [&[u8]; 44] = [
    b"",
    b" ",
    b"XX",
    b"S",
    b"st",
    b"pw",
    b"STX",
    b" ST",
    b"ST ",
    b"ST\r",
    b"PW\0",
    b"PW\xff",
    b"\xd3T",
    b"TX",
    b"TX 1 00",
    b"tx 1 00 06",
    b"TS 1 00 06",
    b"TX\t1 00 06",
    b"TX  1 00 06",
    b"TX1 00 06",
    b"TX 2 00 06",
    b"TX / 00 06",
    b"TX 01 00 06",
    b"TX 1  00 06",
    b"TX 100 06",
    b"TX 1 0 06",
    b"TX 1 000 06",
    b"TX 1 /0 06",
    b"TX 1 0: 06",
    b"TX 1 A0 06",
    b"TX 1 65 06",
    b"TX 1 70 06",
    b"TX 1 99 06",
    b"TX 1 00  06",
    b"TX 1 0006",
    b"TX 1 00 06 ",
    b"TX 1 00 06\r",
    b"TX 1 00 6",
    b"TX 1 00 060",
    b"TX 1 00 0 6",
    b"TX 1 00 9f",
    b"TX 1 00 0G",
    b"TX 1 00 /0:0",
    b"TX 1 00 \xc3\xa9",
];

// A transaction as a line, and what it asks for.
pub(crate) struct Transaction {
    pub(crate) line: &'static [u8],
    pub(crate) low: bool,
    pub(crate) area_length: usize,
    pub(crate) sent: &'static [u8],
}

pub(crate) const TRANSACTIONS: [Transaction; 6] = [
    Transaction {
        line: b"TX 1 04 9F00",
        low: false,
        area_length: 4,
        sent: &[0x9f, 0x00],
    },
    Transaction {
        line: b"TX 0 04 9F00",
        low: true,
        area_length: 4,
        sent: &[0x9f, 0x00],
    },
    Transaction {
        line: b"TX 1 00 ",
        low: false,
        area_length: 0,
        sent: &[],
    },
    Transaction {
        line: b"TX 0 64 A9",
        low: true,
        area_length: 64,
        sent: &[0xa9],
    },
    Transaction {
        line: b"TX 1 59 0123456789",
        low: false,
        area_length: 59,
        sent: &[0x01, 0x23, 0x45, 0x67, 0x89],
    },
    Transaction {
        line: b"TX 1 10 ABCDEFFEDCBA",
        low: false,
        area_length: 10,
        sent: &[0xab, 0xcd, 0xef, 0xfe, 0xdc, 0xba],
    },
];

// An answer to a transaction: outcome, driven count and area, and the text.
pub(crate) const ANSWERS: [(u8, u8, &[u8], &[u8]); 6] = [
    (0, 3, &[0xef, 0xba, 0x21, 0xff], b"0 3 EFBA21FF"),
    (0, 1, &[0x00], b"0 1 00"),
    (2, 0, &[], b"2 0"),
    (15, 0, &[0xff, 0x0f], b"15 0 FF0F"),
    (0, 64, &[0x9a], b"0 64 9A"),
    (255, 100, &[0x10], b"255 100 10"),
];

pub(crate) const NUMBERS: [(u8, &[u8]); 7] = [
    (0, b"0"),
    (9, b"9"),
    (10, b"10"),
    (15, b"15"),
    (99, b"99"),
    (100, b"100"),
    (255, b"255"),
];
