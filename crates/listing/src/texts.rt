// Texts that grow by a part at a time.
ghost use Rattle.std.specs.Prelude.{◌≡◌, ◌+◌, ◌≤◌, ◌++◌, length};
ghost use Rattle.arrayvec.specs.ArrayVec.{array_vec_len};

use arrayvec::ArrayVec;
use itoa::{Buffer, Integer};

// Adds a part to a text, which lies in the value itself, so that no memory can lack. `write!` would not do: no contract says
// that it succeeds where there is room.
pub(crate) fn add<const N: usize>(text: &mut ArrayVec<u8, N>, part: &[u8])
    requires { array_vec_len text.old + length part.now ≤ N }
    ensures text { text.new.items ≡ text.old.items ++ part.now }
    ensures len { array_vec_len text.new ≡ array_vec_len text.old + length part.now }
{
    text.try_extend_from_slice(part).unwrap();
}

// Adds a number in decimal digits, shortest.
pub(crate) fn add_number<I: Integer, const N: usize>(text: &mut ArrayVec<u8, N>, n: I)
    requires { array_vec_len text.old + I.MAX_STR_LEN ≤ N }
    ensures text { text.new.items ≡ text.old.items ++ I.text n }
    ensures len { array_vec_len text.new ≤ array_vec_len text.old + I.MAX_STR_LEN }
{
    add(text, Buffer::new().format(n).as_bytes());
}

// Adds a part, and a number after it.
pub(crate) fn add_field<I: Integer, const N: usize>(text: &mut ArrayVec<u8, N>, part: &[u8], n: I)
    requires { array_vec_len text.old + length part.now + I.MAX_STR_LEN ≤ N }
    ensures text { text.new.items ≡ text.old.items ++ (part.now ++ I.text n) }
    ensures len { array_vec_len text.new ≤ array_vec_len text.old + length part.now + I.MAX_STR_LEN }
{
    add(text, part);
    add_number(text, n);
}
