ghost use Rattle.std.specs.Prelude.{◌≡◌, length, bit_and};
ghost use Rattle.std.specs.Simd.Lanes.{zip2};

// Turns each byte of `page` into itself AND the byte of `bytes` at its place.
pub(crate) fn and_into(page: &mut [u8], bytes: &[u8])
    requires { length page.old ≡ length bytes.now }
    ensures { page.new ≡ zip2 bit_and page.old bytes.now }
{
    // The page by index, since after `page.iter_mut().zip(bytes)` a proof knows none of its bytes.
    for (i, byte) in bytes.iter().enumerate() {
        page[i] &= *byte;
    }
}
