// Signed numbers as the formats and the times of the journey have them: zigzag codes, a difference wrapped to 32
// bits, a bounded sum.
#![tactic(auto)]

ghost use Rattle.std.specs.Prelude.{◌≡◌, ◌<◌, ◌+ℤ◌, ◌-ℤ◌};
ghost use Rattle.std.specs.Int.Signed.{mag};
ghost use Rattle.formats.specs.Number.{zig, zag};
ghost use Rattle.basics.specs.Integers.{wrap32};

// The zigzag code of z: 2z, or -2z-1 below zero.
pub fn to_zigzag(z: i64) -> u64
    ensures { result ≡ zig z }
{
    if z < 0 {
        2 * (-1 - z) as u64 + 1
    } else {
        2 * z as u64
    }
}

// The number whose zigzag code is n.
pub fn from_zigzag(n: u64) -> i64
    ensures { result ≡ zag n }
{
    let half = (n / 2) as i64;
    if n % 2 == 0 { half } else { -1 - half }
}

// How much later t is than u, wrapped to 32 bits.
pub fn difference(t: i64, u: i64) -> i32
    ensures { result ≡ wrap32 (t -ℤ u) }
{
    let low = t.wrapping_sub(u).cast_unsigned() % 4294967296;
    (low as u32).cast_signed()
}

// t moved by d.
pub fn sum(t: i64, d: i32) -> i64
    requires { mag t < 4611686018427387904 }
    ensures { result ≡ t +ℤ d }
{
    t + i64::from(d)
}
