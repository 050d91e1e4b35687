// Numbers in decimal digits, shortest, at a place of an output that has room for them.
ghost use Rattle.std.specs.Prelude.{◌≡◌, ◌≤◌, ◌++◌, length, decimal};
ghost use Rattle.std.specs.Fmt.{signed_decimal};
ghost use Rattle.listing.specs.Puts.{Puts, Room};

// Writes a text, and answers the place after it.
pub(crate) fn put_text(text: &[u8], output: &mut [u8], at: usize) -> usize
    requires { Room text.now at output.old }
    ensures { Puts text.now at output.old output.new result }
{
    let end = at + text.len();
    output[at..end].copy_from_slice(text);
    end
}

// How many digits a number has.
pub(crate) fn number_len(n: u64) -> usize
    ensures value { result ≡ length (decimal n) }
    ensures small { result ≤ 20 }
{
    let mut left = n;
    let mut count = 1;
    while left >= 10 {
        left /= 10;
        count += 1;
    }
    count
}

pub(crate) fn put_number(n: u64, output: &mut [u8], at: usize) -> usize
    requires { Room (decimal n) at output.old }
    ensures { Puts (decimal n) at output.old output.new result }
{
    if n < 10 {
        output[at] = b'0' + n as u8;
        return at + 1;
    }
    let last = put_number(n / 10, output, at);
    output[last] = b'0' + (n % 10) as u8;
    last + 1
}

// Writes a text, and a number after it.
pub(crate) fn put_field(text: &[u8], n: u64, output: &mut [u8], at: usize) -> usize
    requires { Room (text.now ++ decimal n) at output.old }
    ensures { Puts (text.now ++ decimal n) at output.old output.new result }
{
    let digits = put_text(text, output, at);
    put_number(n, output, digits)
}

// The length of a number with its sign, if that is a minus, and the writing of it.
pub(crate) fn integer_len(n: i64) -> usize
    ensures value { result ≡ length (signed_decimal n) }
    ensures small { result ≤ 21 }
{
    if n >= 0 {
        return number_len(n as u64);
    }
    1 + number_len(n.unsigned_abs())
}

pub(crate) fn put_integer(n: i64, output: &mut [u8], at: usize) -> usize
    requires { Room (signed_decimal n) at output.old }
    ensures { Puts (signed_decimal n) at output.old output.new result }
{
    if n >= 0 {
        return put_number(n as u64, output, at);
    }
    let digits = put_text(b"-", output, at);
    put_number(n.unsigned_abs(), output, digits)
}
