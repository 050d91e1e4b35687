// A word's four parts: form × 2^50 + k × 2^41 + j × 2^32 + value.
ghost use Rattle.std.specs.Prelude.{◌≡◌};
ghost use Rattle.descriptor_words.specs.Words.{packed, form_part, by_part, through_part, value_part};

const FORM: u64 = 1 << 50;

const BY: u64 = 1 << 41;

const THROUGH: u64 = 1 << 32;

// A field of a number has nine bits.
const NUMBERS: u64 = 512;

pub fn pack(form: u8, by: u16, through: u16, value: u32) -> u64
    ensures { result ≡ packed form by through value }
{
    u64::from(form) * FORM + u64::from(by) * BY + u64::from(through) * THROUGH + u64::from(value)
}

pub fn form_in(word: u64) -> u64
    ensures { result ≡ form_part word }
{
    word / FORM
}

pub fn by_in(word: u64) -> u16
    ensures { result ≡ by_part word }
{
    (word / BY % NUMBERS) as u16
}

pub fn through_in(word: u64) -> u16
    ensures { result ≡ through_part word }
{
    (word / THROUGH % NUMBERS) as u16
}

pub fn value_in(word: u64) -> u32
    ensures { result ≡ value_part word }
{
    (word % THROUGH) as u32
}
