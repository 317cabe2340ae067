ghost use Rattle.std.specs.Prelude.{◌≡◌, true};
ghost use Rattle.frames.specs.Instructions.{first, line_of};
ghost use Rattle.frames.specs.Coverage.{all_cover, Covered};

use crate::frame::Flags;
use crate::instruction::RowOperation::*;
use crate::instruction::Simple::*;
use crate::line::Count::*;
use crate::line::Group::*;
use crate::line::Line;

const TABLE: [Line; 27] = [
    Line(0xff, Plain(Reset), Exactly(1), Flags::NONE),
    Line(0x06, Plain(EnableWrite), Exactly(1), Flags::NONE),
    Line(0x04, Plain(DisableWrite), Exactly(1), Flags::NONE),
    Line(0x9f, Plain(Identify), Exactly(2), Flags::NONE),
    Line(0xa5, Plain(ListLinks), Exactly(2), Flags::NONE),
    Line(0x05, ReadRegister, Exactly(2), Flags::NONE),
    Line(0x0f, ReadRegister, Exactly(2), Flags::NONE),
    Line(0x01, WriteRegister, Exactly(3), Flags::WRITE),
    Line(0x1f, WriteRegister, Exactly(3), Flags::WRITE),
    Line(0xa1, Swap, Exactly(5), Flags::WRITE),
    Line(0x10, AtRow(Program), Exactly(4), Flags::WRITE),
    Line(0xd8, AtRow(Erase), Exactly(4), Flags::WRITE),
    Line(0x13, AtRow(Fetch), Exactly(4), Flags::NONE),
    Line(0x02, LoadBuffer { refill: true }, AtLeast(4), Flags::WRITE),
    Line(0x32, LoadBuffer { refill: true }, AtLeast(4), Flags::QUAD),
    Line(0x84, LoadBuffer { refill: false }, AtLeast(4), Flags::WRITE),
    Line(0x34, LoadBuffer { refill: false }, AtLeast(4), Flags::QUAD),
    Line(0x03, ReadBuffer, Exactly(4), Flags::NONE),
    Line(0x0b, ReadBuffer, Exactly(4), Flags::NONE),
    Line(0x3b, ReadBuffer, Exactly(4), Flags::NONE),
    Line(0x6b, ReadBuffer, Exactly(4), Flags::QUAD),
    Line(0xbb, ReadBuffer, Exactly(4), Flags::NONE),
    Line(0xeb, ReadBuffer, Exactly(5), Flags::QUAD),
    Line(0x0c, ReadBuffer, Exactly(6), Flags::NONE),
    Line(0x3c, ReadBuffer, Exactly(6), Flags::NONE),
    Line(0x6c, ReadBuffer, Exactly(6), Flags::QUAD),
    Line(0xbc, ReadBuffer, Exactly(6), Flags::NONE),
];

// The first of the lines with the code.
#[tactic(auto, using(crate::proofs::Covering::first_covers))]
fn among(lines: &[Line], code: u8) -> Option<Line>
    requires { all_cover lines.now ≡ true }
    ensures line { result ≡ first code lines.now }
    ensures covered { Covered result }
{
    lines.iter().find(|line| line.0 == code).copied()
}

// The line of a code, if the code is listed.
pub(crate) fn find(code: u8) -> Option<Line>
    ensures line { result ≡ line_of code }
    ensures covered { Covered result }
{
    among(&TABLE, code)
}
