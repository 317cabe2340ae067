ghost use Rattle.std.specs.Prelude.{◌≡◌};
ghost use Rattle.frames.specs.Views.{values};
ghost use Rattle.rules.specs.Asked.{taken_while_busy};

use frames::instruction::{Instruction, Simple};

// Is it taken while an operation is pending?
pub fn taken_while_busy(instruction: Instruction<'_>) -> bool
    ensures { result ≡ taken_while_busy (values instruction.entry) }
{
    matches!(
        instruction,
        Instruction::Plain(Simple::Identify) | Instruction::ReadRegister { .. }
    )
}
