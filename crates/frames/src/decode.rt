ghost use Rattle.std.specs.Prelude.{◌≡◌, ◌%◌, ◌≤◌, length, drop, slice_index};
ghost use Rattle.frames.specs.Coverage.{needed};
ghost use Rattle.frames.specs.Frames.{word, told_as, decoded};
ghost use Rattle.frames.specs.Views.{values, frame_values, Shown, Borrowed};

use crate::frame::Frame;
use crate::instruction::Instruction;
use crate::line::{Group, Line};
use crate::refusal::FrameRefusal;
use crate::table::find;

// Two bytes as a number, the high one first.
fn word_of(high: u8, low: u8) -> u16
    ensures { result ≡ word high low }
{
    u16::from_be_bytes([high, low])
}

// A column is the low 12 bits.
fn column_of(high: u8, low: u8) -> u16
    ensures { result ≡ word high low % 4096 }
{
    word_of(high, low) % 4096
}

// The instruction of a group, of whose bytes enough were sent.
fn instruction_of(group: Group, sent: &[u8]) -> Instruction<'_>
    requires { needed group ≤ length sent.now }
    ensures { values result ≡ told_as group sent.now }
{
    match (group, sent) {
        (Group::Plain(simple), _) => Instruction::Plain(simple),
        (Group::ReadRegister, [_, address, ..]) => Instruction::ReadRegister { address: *address },
        (Group::WriteRegister, [_, address, value, ..]) => Instruction::WriteRegister {
            address: *address,
            value: *value,
        },
        (Group::Swap, [_, a_high, a_low, b_high, b_low, ..]) => Instruction::Swap {
            first: word_of(*a_high, *a_low),
            second: word_of(*b_high, *b_low),
        },
        (Group::AtRow(operation), [_, _dummy, high, low, ..]) => Instruction::AtRow {
            operation,
            row: word_of(*high, *low),
        },
        (Group::LoadBuffer { refill }, [_, high, low, data @ ..]) => Instruction::LoadBuffer {
            refill,
            column: column_of(*high, *low),
            data,
        },
        (Group::ReadBuffer, [_, high, low, ..]) => Instruction::ReadBuffer {
            column: column_of(*high, *low),
        },
        _ => unreachable(),
    }
}

// The frame that the sent bytes make, or why they make none.
pub fn decode(sent: &[u8]) -> Result<Frame<'_>, FrameRefusal>
    ensures frame { frame_values result ≡ decoded sent.now }
    ensures shown { Shown result sent.now }
    ensures borrowed { Borrowed result sent.now }
{
    let line = sent.first().and_then(|code| find(*code));
    let Line(_, group, count, flags) = line.ok_or(FrameRefusal::UnlistedCode)?;
    if !count.allows(sent.len()) {
        return Err(FrameRefusal::WrongCount);
    }
    let instruction = instruction_of(group, sent);
    Ok(Frame { instruction, flags })
}
