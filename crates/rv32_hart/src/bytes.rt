// Numbers of one, two or four bytes among the bytes of a memory, the low byte first.
ghost use Rattle.std.specs.Prelude.{◌≡◌, ◌+◌, ◌^◌, ◌<◌, ◌≤◌, length};
ghost use Rattle.rv32_hart.specs.Bytes.{IsSize, number_in, with_number};

/// The number of `size` bytes from `at` on.
#[inline]
pub fn number_of(bytes: &[u8], at: usize, size: u8) -> u32
    requires size { IsSize size }
    requires within { at + size ≤ length bytes.now }
    ensures same { result ≡ number_in bytes.now at size }
    ensures below { result < 256 ^ size }
{
    match size {
        1 => u32::from(bytes[at]),
        2 => u32::from(bytes[at]) + 256 * u32::from(bytes[at + 1]),
        _ => {
            u32::from(bytes[at])
                + 256
                    * (u32::from(bytes[at + 1])
                        + 256 * (u32::from(bytes[at + 2]) + 256 * u32::from(bytes[at + 3])))
        }
    }
}

/// Puts the low `size` bytes of `value` at `at` and after it.
#[inline]
pub fn put_number(bytes: &mut [u8], at: usize, size: u8, value: u32)
    requires size { IsSize size }
    requires within { at + size ≤ length bytes.old }
    ensures { bytes.new ≡ with_number bytes.old at size value }
{
    match size {
        1 => bytes[at] = (value % 256) as u8,
        2 => {
            bytes[at] = (value % 256) as u8;
            bytes[at + 1] = (value / 256 % 256) as u8;
        }
        _ => {
            bytes[at] = (value % 256) as u8;
            bytes[at + 1] = (value / 256 % 256) as u8;
            bytes[at + 2] = (value / 256 / 256 % 256) as u8;
            bytes[at + 3] = (value / 256 / 256 / 256 % 256) as u8;
        }
    }
}
