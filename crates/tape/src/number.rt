// Numbers of the tape file, little-endian. What is missing at a file's end counts 0.
ghost use Rattle.std.specs.Prelude.{◌≡◌, ◌+◌, ◌*◌, ◌<◌, ◌^◌};
ghost use Rattle.tape.specs.File.{le32 as le32_of};

// A u32 as a place, by `as`: the library has no `From` between them.
pub fn long(x: u32) -> usize
    ensures value { result ≡ x }
    ensures upper_bound { result < 2 ^ 32 }
{
    x as usize
}

// The number of two bytes, the lower first.
pub fn pair(a: u8, z: u8) -> u16
    ensures { result ≡ a + 256 * z }
{
    u16::from(a) + 256 * u16::from(z)
}

// The number of four bytes, the lowest first.
pub fn quad(a: u8, e: u8, i: u8, o: u8) -> u32
    ensures { result ≡ a + 256 * e + 65536 * (i + 256 * o) }
{
    u32::from(pair(a, e)) + 65536 * u32::from(pair(i, o))
}

// The number of the first four bytes; what is missing counts 0.
pub fn le32(s: &[u8]) -> u32
    ensures { result ≡ le32_of s.now }
{
    quad(
        parts::byte_at(s, 0),
        parts::byte_at(s, 1),
        parts::byte_at(s, 2),
        parts::byte_at(s, 3),
    )
}

// A u16 as a length.
pub fn short(x: u16) -> usize
    ensures value { result ≡ x }
    ensures upper_bound { result < 2 ^ 16 }
{
    usize::from(x)
}
