// The first line of a script.
ghost use Rattle.std.specs.Prelude.{◌≡◌};
ghost use Rattle.std.specs.Option.{ok_or};
ghost use Rattle.refusal.specs.declared.Refusal.TheVariants.{NotOfAForm};
ghost use Rattle.script.specs.Headers.{container_of, memory_of, kind_of, header_of};

use crate::fields::cut;
use crate::numbers::number;
use refusal::Refusal;

#[derive(Clone, Copy)]
pub enum ContainerChoice {
    Descriptor,
    Lock,
}

#[derive(Clone, Copy)]
pub enum MemoryChoice {
    Flat,
    Bucketed,
}

#[derive(Clone, Copy)]
pub enum KindChoice {
    Numbers,
    Points,
}

#[derive(Clone, Copy)]
pub struct Header {
    pub container: ContainerChoice,
    pub memory: MemoryChoice,
    pub kind: KindChoice,
    pub capacity: usize,
    pub threads: usize,
}

// Three impls, and not one: each type has letters of its own.
impl TryFrom<char> for ContainerChoice {
    type Error = Refusal;

    ghost try_from_gives = { λ letter r. r ≡ ok_or (container_of letter) NotOfAForm };

    fn try_from(letter: char) -> Result<Self, Refusal> {
        match letter {
            'd' => Ok(ContainerChoice::Descriptor),
            'g' => Ok(ContainerChoice::Lock),
            _ => Err(Refusal::NotOfAForm),
        }
    }
}

impl TryFrom<char> for MemoryChoice {
    type Error = Refusal;

    ghost try_from_gives = { λ letter r. r ≡ ok_or (memory_of letter) NotOfAForm };

    fn try_from(letter: char) -> Result<Self, Refusal> {
        match letter {
            'f' => Ok(MemoryChoice::Flat),
            'b' => Ok(MemoryChoice::Bucketed),
            _ => Err(Refusal::NotOfAForm),
        }
    }
}

impl TryFrom<char> for KindChoice {
    type Error = Refusal;

    ghost try_from_gives = { λ letter r. r ≡ ok_or (kind_of letter) NotOfAForm };

    fn try_from(letter: char) -> Result<Self, Refusal> {
        match letter {
            'n' => Ok(KindChoice::Numbers),
            'p' => Ok(KindChoice::Points),
            _ => Err(Refusal::NotOfAForm),
        }
    }
}

pub(crate) fn read_header(line: &[u8]) -> Result<Header, Refusal>
    ensures { result ≡ ok_or (header_of line.now) Refusal.NotOfAForm }
{
    let (letters, rest) = cut(line, b' ')?;
    let (capacity, threads) = cut(rest, b' ')?;
    let [container, memory, kind] = letters else {
        return Err(Refusal::NotOfAForm);
    };
    Ok(Header {
        container: ContainerChoice::try_from(char::from(*container))?,
        memory: MemoryChoice::try_from(char::from(*memory))?,
        kind: KindChoice::try_from(char::from(*kind))?,
        capacity: number(capacity)?,
        threads: number(threads)?,
    })
}
