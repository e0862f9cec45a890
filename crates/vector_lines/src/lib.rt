// Hexadecimal digits, for the programs that run files of vectors.
#![tactic(auto)]

ghost use Rattle.std.specs.Prelude.{◌≡◌, ◌-◌, ◌≤◌, ◌<◌, IfSome, Some};

// The value of a hexadecimal digit; no byte but '0' to '9' and 'a' to 'f' is one.
pub fn digit(c: u8) -> Option<u8>
    ensures below_ten { 48 ≤ c → c ≤ 57 → result ≡ Some (c - 48) }
    ensures from_ten { 97 ≤ c → c ≤ 102 → result ≡ Some (c - 87) }
    ensures bound { IfSome result (λ d. d < 16) }
{
    match c {
        b'0'..=b'9' => Some(c - b'0'),
        b'a'..=b'f' => Some(c - b'a' + 10),
        _ => None,
    }
}
