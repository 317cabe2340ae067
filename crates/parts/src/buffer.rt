ghost use Rattle.std.specs.Prelude.{◌≡◌, ◌+◌, ◌≤◌, length};
ghost use Rattle.std.proofs.Math.Seq.{paste};
ghost use Rattle.rules.specs.Effects.{put};

// Writes the first `count` bytes of the data over those from the column on.
fn overwrite(buffer: &mut [u8], column: usize, data: &[u8], count: usize)
    requires { (column + count ≤ length buffer.old) × (count ≤ length «data».now) }
    ensures { buffer.new ≡ paste buffer.old column «data».now count }
{
    buffer[column..column + count].copy_from_slice(&data[..count]);
}

// Writes the data from the column on; what passes the end of the buffer is dropped.
pub fn put(buffer: &mut [u8], column: u16, data: &[u8])
    ensures { buffer.new ≡ put column «data».now buffer.old }
{
    let column = usize::from(column);
    if column < buffer.len() {
        let count = data.len().min(buffer.len() - column);
        overwrite(buffer, column, data, count);
    }
}
