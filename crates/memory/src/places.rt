// Where a location lies in a row of buckets that double in size.
ghost use Rattle.std.specs.Prelude.{◌≡◌};
ghost use Rattle.memory.specs.Buckets.{Placed, bucket_of};

// The bucket of a location, and the offset in it. By leading zeros, and not by `ilog2`: so the definition has it, word for word.
pub fn place(at: usize) -> (usize, usize)
    ensures bucket { result.0 ≡ bucket_of at }
    ensures placed { Placed at result.0 result.1 }
{
    let bucket = 63 - (at / 8 + 1).leading_zeros() as usize;
    (bucket, at - 8 * ((1 << bucket) - 1))
}
