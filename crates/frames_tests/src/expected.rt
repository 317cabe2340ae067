use frames::frame::{Flags, Frame};
use frames::instruction::{Instruction, RowOperation, Simple};
use frames::refusal::FrameRefusal;

// The bytes that the tests send after the code: no two are equal, and those of a column pass 12 bits.
pub(crate) const AFTER: [u8; 7] = [0x91, 0x43, 0x65, 0x87, 0xa9, 0xcb, 0xed];

fn load(refill: bool, data: &[u8]) -> Instruction<'_> {
    Instruction::LoadBuffer {
        refill,
        column: 0x143,
        data,
    }
}

fn at_row(operation: RowOperation) -> Instruction<'static> {
    Instruction::AtRow {
        operation,
        row: 0x4365,
    }
}

// What a code with these bytes after it asks for, of whose sent bytes `data` come after the third, and the right count of sent bytes, where `count` were sent.
fn asked(code: u8, count: usize, data: &[u8]) -> Option<(Instruction<'_>, usize)> {
    let read_buffer = Instruction::ReadBuffer { column: 0x143 };
    let found = match code {
        0x01 | 0x1f => (
            Instruction::WriteRegister {
                address: 0x91,
                value: 0x43,
            },
            3,
        ),
        0x02 | 0x32 => (load(true, data), count.max(4)),
        0x03 | 0x0b | 0x3b | 0x6b | 0xbb => (read_buffer, 4),
        0x04 => (Instruction::Plain(Simple::DisableWrite), 1),
        0x05 | 0x0f => (Instruction::ReadRegister { address: 0x91 }, 2),
        0x06 => (Instruction::Plain(Simple::EnableWrite), 1),
        0x0c | 0x3c | 0x6c | 0xbc => (read_buffer, 6),
        0x10 => (at_row(RowOperation::Program), 4),
        0x13 => (at_row(RowOperation::Fetch), 4),
        0x34 | 0x84 => (load(false, data), count.max(4)),
        0x9f => (Instruction::Plain(Simple::Identify), 2),
        0xa1 => (
            Instruction::Swap {
                first: 0x9143,
                second: 0x6587,
            },
            5,
        ),
        0xa5 => (Instruction::Plain(Simple::ListLinks), 2),
        0xd8 => (at_row(RowOperation::Erase), 4),
        0xeb => (read_buffer, 5),
        0xff => (Instruction::Plain(Simple::Reset), 1),
        _ => return None,
    };
    Some(found)
}

fn flags(code: u8) -> Flags {
    let write = matches!(code, 0x01 | 0x02 | 0x10 | 0x1f | 0x84 | 0xa1 | 0xd8);
    let quad = matches!(code, 0x32 | 0x34 | 0x6b | 0x6c | 0xeb);
    Flags { write, quad }
}

// What `decode` should answer for a code and the sent bytes, which it begins unless none were sent.
pub(crate) fn expected(code: u8, sent: &[u8]) -> Result<Frame<'_>, FrameRefusal> {
    let data = match sent {
        [_, _, _, data @ ..] => data,
        _ => &[],
    };
    let Some((instruction, right)) = asked(code, sent.len(), data) else {
        return Err(FrameRefusal::UnlistedCode);
    };
    if sent.is_empty() {
        Err(FrameRefusal::UnlistedCode)
    } else if sent.len() == right {
        Ok(Frame {
            instruction,
            flags: flags(code),
        })
    } else {
        Err(FrameRefusal::WrongCount)
    }
}
