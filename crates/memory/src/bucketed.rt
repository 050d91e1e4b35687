// The bucketed memory: six buckets, each twice as large as the one before.
ghost use Rattle.std.specs.Prelude.{◌≡◌};
ghost use Rattle.memory.specs.Buckets.{six};
ghost use Rattle.memory.specs.Shown.{sizes};

use crate::bucket::Bucket;
use crate::places::place;
use crate::{Memory, Swapped};
use refusal::Refusal;
use std::alloc::{AllocError, Global};

// The sum of the sizes, written out: it is asked for in every load and swap.
const LEN: usize = 504;

const SIZES: [usize; 6] = [8, 16, 32, 64, 128, 256];

// The buckets are in a Vec, since a proof knows no element of an array after a get_mut of it.
#[derive(Drop)]
pub struct BucketedMemory {
    buckets: Vec<Bucket>,
    ghost ok: { sizes buckets.items ≡ six },
}

impl BucketedMemory {
    ghost use Rattle.std.specs.Prelude.{replicate, IfOk};
    ghost use Rattle.memory.specs.Buckets.{all_shut, count_open, ShutAreZero};
    ghost use Rattle.memory.specs.Bucketed.{bucketed_words, open_flags};

    // All storage is had here, so that no swap can lack memory.
    pub fn new(heap: Global) -> Result<BucketedMemory, AllocError>
        ensures { IfOk result (λ m. (bucketed_words m ≡ replicate 504 0) × (open_flags m ≡ all_shut)) }
    {
        let made = SIZES.try_map(|size| Bucket::new(heap, size))?;
        let buckets = Vec::from_array(heap, made)?;
        Ok(BucketedMemory { buckets })
    }

    // How many buckets are open. The words of the others are 0.
    pub fn open_buckets(&self) -> usize
        ensures count { result ≡ count_open (open_flags self.now) }
        ensures shut { ShutAreZero (open_flags self.now) (bucketed_words self.now) }
    {
        self.buckets.iter().filter(|b| b.is_open()).count()
    }
}

impl Memory for BucketedMemory {
    ghost use Rattle.memory.specs.Bucketed.{bucketed_words, open_flags};
    ghost use Rattle.memory.specs.Buckets.{Opens};
    ghost use Rattle.memory.specs.Words.{Swaps};

    ghost words = { bucketed_words };

    fn len(&self) -> usize {
        LEN
    }

    fn load(&self, at: usize) -> Result<u64, Refusal> {
        if at >= LEN {
            return Err(Refusal::NoSuchLocation);
        }
        let (bucket, offset) = place(at);
        Ok(self.buckets[bucket].load(offset))
    }

    fn swap(&mut self, at: usize, old: u64, new: u64) -> Result<Swapped, Refusal>
        ensures swaps { Swaps (bucketed_words self.old) at old new result (bucketed_words self.new) }
        ensures opens { Opens (open_flags self.old) at result (open_flags self.new) }
    {
        if at >= LEN {
            return Err(Refusal::NoSuchLocation);
        }
        let (bucket, offset) = place(at);
        Ok(self.buckets[bucket].swap(offset, old, new))
    }
}
