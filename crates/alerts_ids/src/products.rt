// Product codes and their lines. No card depends on them.
ghost use Rattle.std.specs.Prelude.{◌≡◌, ◌+◌, ◌-◌, ◌*◌, ◌≤◌, ◌<◌, length, drop};
ghost use Rattle.alerts.specs.Text.{upper};
ghost use Rattle.alerts.specs.Applies.{name_of, products, decimal_value, code_number, line_name, idfm_product_to_short};
ghost use Rattle.alerts_ids.specs.Promises.Products.{rows, Wrote, name_in, Named};

// Byte by byte, since a name has at most three: for the library's copy the host would have to bring `memcpy`.
fn write_name(out: &mut [u8], name: &[u8]) -> usize
    requires { length name.now ≤ length out.old }
    ensures { Wrote name.now result out.old out.new }
{
    for i in 0..name.len() {
        out[i] = name[i];
    }
    name.len()
}

// The name of the row at `at`.
fn row_name(table: &[u8], at: usize, out: &mut [u8]) -> usize
    requires { (at + 9 ≤ length table.now) × (3 ≤ length out.old) }
    ensures { Wrote (name_in table.now at) result out.old out.new }
{
    let from = at + 6;
    let to = at + 9;
    write_name(out, crate::trim_end(&table[from..to]))
}

// The line of a code, by a table of n rows: six bytes of code, and three of name filled with spaces.
fn line_of(table: &[u8], n: usize, code: &[u8], out: &mut [u8]) -> Option<usize>
    requires { (9 * n ≤ length table.now) × (3 ≤ length out.old) }
    ensures { Named (name_of (upper code.now) (rows n table.now)) result out.old
        out.new }
{
    let mut at = 0;
    let mut left = n;
    while 0 < left {
        let e = at + 6;
        if crate::same_ignoring_case(code, &table[at..e]) {
            return Some(row_name(table, at, out));
        }
        at += 9;
        left -= 1;
    }
    None
}

// A line's number in decimal.
fn number_name(k: u64, out: &mut [u8]) -> usize
    requires { (k < 20) × (3 ≤ length out.old) }
    ensures { Wrote (line_name k) result out.old out.new }
{
    if k < 10 {
        let one = [(48 + k) as u8];
        return write_name(out, &one);
    }
    let two = [49, (38 + k) as u8];
    write_name(out, &two)
}

fn value(b: u8) -> u64
    ensures value { result ≡ b - 48 }
    ensures bounded { result ≤ 207 }
{
    if b < 48 {
        return 0;
    }
    (b - 48) as u64
}

fn joined(a: u64, b: u64, c: u64, d: u64, e: u64) -> u64
    requires { (a ≤ 207) × (b ≤ 207) × (c ≤ 207) × (d ≤ 207) × (e ≤ 207) }
    ensures { result ≡ 10000 * a + 1000 * b + 100 * c + 10 * d + e }
{
    10000 * a + 1000 * b + 100 * c + 10 * d + e
}

// The number that the digits from 1 to 5 are.
fn digits_value(p: &[u8]) -> u64
    requires { length p.now ≡ 6 }
    ensures { result ≡ decimal_value 0 (drop 1 p.now) }
{
    joined(
        value(p[1]),
        value(p[2]),
        value(p[3]),
        value(p[4]),
        value(p[5]),
    )
}

// The number of a product code; 0 where a text is none.
fn code_number(code: &[u8]) -> u64
    ensures { result ≡ code_number (upper code.now) }
{
    if code.len() != 6 {
        return 0;
    }
    if crate::is_code(code) {
        return digits_value(code);
    }
    0
}

// By the table, where the code's number is none of those that are worked out.
fn listed(code: &[u8], out: &mut [u8]) -> Option<usize>
    requires { 3 ≤ length out.old }
    ensures { Named (name_of (upper code.now) products) result out.old out.new }
{
    line_of(
        b"C01742A  C01743B  C01727C  C01728D  C01729E  C01389T1 C01390T2 C01391T3aC01679T3b",
        9,
        code,
        out,
    )
}

// C01371 to C01384 are the lines 1 to 14, without a gap.
pub fn idfm_product_to_short(code: &[u8], out: &mut [u8]) -> Option<usize>
    requires { 3 ≤ length out.old }
    ensures { Named (idfm_product_to_short code.now) result out.old out.new }
{
    let n = code_number(code);
    if 1371 <= n {
        if n <= 1384 {
            return Some(number_name(n - 1370, out));
        }
    }
    listed(code, out)
}
