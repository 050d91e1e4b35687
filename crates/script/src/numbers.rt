// Numbers of one to ten decimal digits.
ghost use Rattle.std.specs.Prelude.{◌≡◌, ◌^◌, ◌<◌, IfOk};
ghost use Rattle.std.specs.Option.{ok_or};
ghost use Rattle.std.specs.Result.{result_map_both};
ghost use Rattle.std.specs.Fn.{FnOnceReturnsAt};
ghost use Rattle.script.specs.Numbers.{number_of, minus, unsigned, with_sign};

use refusal::Refusal;

// A number has one digit at least, and this many at most.
const MOST_DIGITS: usize = 10;

// No `parse`, which takes a plus in front, and no fold: its closure does not see the count of digits that bounds the sum, and would test
// for what cannot come.
pub(crate) fn number(text: &[u8]) -> Result<usize, Refusal>
    ensures value { result ≡ ok_or (number_of text.now) Refusal.NotOfAForm }
    ensures small { IfOk result (λ n. n < 10 ^ 10) }
{
    if text.is_empty() || text.len() > MOST_DIGITS {
        return Err(Refusal::NotOfAForm);
    }
    let mut n = 0;
    for b in text {
        if !b.is_ascii_digit() {
            return Err(Refusal::NotOfAForm);
        }
        n = n * 10 + usize::from(*b - b'0');
    }
    Ok(n)
}

// What `read` makes of a text, or of what follows a minus in front of it, with that sign.
pub(crate) fn signed<F: FnOnce(&[u8]) -> Result<usize, Refusal>>(
    text: &[u8],
    read: F,
) -> Result<i64, Refusal>
    requires callable { F.IsAlwaysCallable read }
    requires small { (r : _) → FnOnceReturnsAt F.FnOnce read (unsigned text.now) r → IfOk r (λ n. n < 2 ^ 63) }
    ensures { (r : _) × FnOnceReturnsAt F.FnOnce read (unsigned text.now) r × (result ≡ result_map_both (with_sign (minus text.now)) (λ why. why) r) }
{
    match text.strip_prefix(b"-") {
        Some(digits) => Ok(-(read(digits)? as i64)),
        None => Ok(read(text)? as i64),
    }
}
