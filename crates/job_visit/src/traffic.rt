// A transaction with its name.
#[derive(Clone, Copy)]
pub(crate) struct Attempt {
    pub name: &'static str,
    pub sent: &'static [u8],
}

// What tries to alter a sealed card: each is made with /WP high, then with /WP low.
pub(crate) const HOSTILE: [Attempt; 10] = [
    Attempt {
        name: "write enable",
        sent: &[0x06],
    },
    Attempt {
        name: "load the buffer with 00h",
        sent: &[0x02, 0, 0, 0, 0, 0],
    },
    Attempt {
        name: "program row 2",
        sent: &[0x10, 0, 0, 2],
    },
    Attempt {
        name: "write enable",
        sent: &[0x06],
    },
    Attempt {
        name: "erase the block of row 2",
        sent: &[0xd8, 0, 0, 2],
    },
    Attempt {
        name: "swap addresses 1 and 2",
        sent: &[0xa1, 0, 1, 0, 2],
    },
    Attempt {
        name: "clear SR-1",
        sent: &[0x01, 0xa0, 0x00],
    },
    Attempt {
        name: "set SR1-L in SR-2",
        sent: &[0x01, 0xb0, 0x20],
    },
    Attempt {
        name: "load by four lanes",
        sent: &[0x32, 0, 0, 0],
    },
    Attempt {
        name: "reset",
        sent: &[0xff],
    },
];

// What exchanges two addresses of a card that is not locked.
pub(crate) const EXCHANGE: [Attempt; 2] = [
    Attempt {
        name: "clear SR-1",
        sent: &[0x01, 0xa0, 0x00],
    },
    Attempt {
        name: "swap addresses 1 and 3",
        sent: &[0xa1, 0, 1, 0, 3],
    },
];
