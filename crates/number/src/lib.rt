// Whole numbers as a sheet needs them: the greatest common divisor, the least common multiple, and
// little-endian numbers read from lent bytes. Definitions: specs/Divide.antt and specs/Little.antt.
#![tactic(auto)]

ghost use Rattle.std.specs.Prelude.{◌≡◌, ◌+◌, ◌≤◌, ◌<◌, length, get_or};
ghost use Rattle.number.specs.Divide.{gcd, lcm};
ghost use Rattle.number.specs.Little.{le16, le32};

// The greatest common divisor of a and b, by Euclid's rule: the second number falls at each call.
pub fn gcd_of(a: u32, b: u32) -> u32
    ensures { result ≡ gcd a b }
{
    if b == 0 { a } else { gcd_of(b, a % b) }
}

// The least common multiple of a and b, which are small enough that their product fits.
pub fn lcm_of(a: u32, b: u32) -> u32
    requires { (0 < a) × (a ≤ 65535) × (b ≤ 65535) }
    ensures { result ≡ lcm a b }
{
    a / gcd_of(a, b) * b
}

// The byte at `at`.
pub fn read_byte(bytes: &[u8], at: usize) -> usize
    requires { at < length bytes.now }
    ensures { (result ≡ get_or bytes.now at 0) × (result < 256) }
{
    usize::from(bytes[at])
}

// The two bytes from `at` on, as a number; this and the next are two, as `le16` and `le32` are.
pub fn read_le16(bytes: &[u8], at: usize) -> u32
    requires { at + 2 ≤ length bytes.now }
    ensures { (result ≡ le16 bytes.now at) × (result < 65536) }
{
    u32::from(u16::from_le_bytes([bytes[at], bytes[at + 1]]))
}

// The four bytes from `at` on, as a number.
pub fn read_le32(bytes: &[u8], at: usize) -> u32
    requires { at + 4 ≤ length bytes.now }
    ensures { result ≡ le32 bytes.now at }
{
    u32::from_le_bytes([bytes[at], bytes[at + 1], bytes[at + 2], bytes[at + 3]])
}
