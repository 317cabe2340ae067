ghost use Rattle.std.specs.Prelude.{◌≡◌, min, [], length, drop, replicate};
ghost use Rattle.rules.specs.Calls.{area_of};
ghost use Rattle.parts.specs.Values.{identity};

// Copies `count` bytes to the front of the area, as many as it takes, and sets the rest to FFh.
fn show(area: &mut [u8], bytes: &[u8], count: usize)
    requires { count ≡ min (length area.old) (length bytes.now) }
    ensures { area.new ≡ area_of (length area.old) bytes.now }
{
    area[..count].copy_from_slice(&bytes[..count]);
    area[count..].fill(0xff);
}

// Drives the bytes, as many as the area takes, and tells how many those are.
pub fn drive(area: &mut [u8], bytes: &[u8]) -> usize
    ensures count { result ≡ min (length area.old) (length bytes.now) }
    ensures after { area.new ≡ area_of (length area.old) bytes.now }
{
    let count = area.len().min(bytes.len());
    show(area, bytes, count);
    count
}

// The bytes from the column on.
fn from_column(bytes: &[u8], column: usize) -> &[u8]
    ensures { result.now ≡ drop column bytes.now }
{
    bytes.get(column..).unwrap_or(&[])
}

// Drives the bytes from the column on.
pub fn drive_from(area: &mut [u8], bytes: &[u8], column: u16) -> usize
    ensures count { result ≡ min (length area.old) (length (drop column bytes.now)) }
    ensures after { area.new ≡ area_of (length area.old) (drop column bytes.now) }
{
    drive(area, from_column(bytes, usize::from(column)))
}

// Drives nothing.
pub fn silence(area: &mut [u8]) -> usize
    ensures count { result ≡ min (length area.old) 0 }
    ensures after { area.new ≡ area_of (length area.old) [] }
{
    drive(area, &[])
}

// Drives the maker and the device.
pub fn identify(area: &mut [u8]) -> usize
    ensures count { result ≡ min (length area.old) (length identity) }
    ensures after { area.new ≡ area_of (length area.old) identity }
{
    drive(area, &[0xef, 0xba, 0x21])
}

// Drives the byte as often as the area takes it.
pub fn flood(area: &mut [u8], byte: u8) -> usize
    ensures count { result ≡ min (length area.old) (length (replicate (length area.old) byte)) }
    ensures after { area.new ≡ area_of (length area.old) (replicate (length area.old) byte) }
{
    area.fill(byte);
    area.len()
}
