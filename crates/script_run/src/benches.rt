// The header's letters choose the kind of item, the memory and the container; then the script is played on a bench of that make.
ghost use Rattle.std.specs.Prelude.{◌≡◌, []};
ghost use Rattle.vector.specs.Meaning.{unset};
ghost use Rattle.stepping.specs.History.{Led};
ghost use Rattle.script_run.specs.Calls.{calls_of};
ghost use Rattle.script_run.specs.Outcomes.{RunOf, Done, LacksOnly};
ghost use Rattle.script_run.specs.Scripts.{ByContainer, ByMemory, ScriptRun, AsksForBench};

use crate::lines::play_script;
use descriptor_vector::DescriptorVector;
use items::{Kind, Numbers, Point, Points};
use listing::{WriteItem, list};
use lock_vector::LockVector;
use memory::{BucketedMemory, FlatMemory, Memory};
use script::{ContainerChoice, Fault, KindChoice, MemoryChoice, ReadItem, Script, open};
use std::alloc::{AllocError, Global};
use stepping::Running;
use vector::{Container, Over};

// Plays a script on a bench just made, and lists its log.
fn play<C: Container + Drop, K: Kind<Item = T>, T: ReadItem + WriteItem + Copy>(
    mut bench: Running<C, K>,
    script: Script,
    output: &mut [u8],
) -> Result<usize, Fault>
    ensures { (start : C) → (C.Container.shows start).meaning ≡ unset → Led C.Container K.Kind start [] bench → RunOf C.Container K.Kind T.WriteItem.text (C.Container.shows start).words (calls_of T.ReadItem.reads script.entry) output.old result output.new }
{
    let verdict = play_script(&mut bench, script);
    let closed = bench.close();
    verdict?;
    list(closed.records(), output).map_err(Fault::whole)
}

// The container is made over the memory, and the bench over the container. Heap, script and output stay parameters: each is used
// at another depth, and a struct of them would be taken apart at once.
fn on_container<M: Memory, C: Over<M> + Drop, K: Kind<Item = T>, T: ReadItem + WriteItem + Copy>(
    heap: Global,
    memory: M,
    script: Script,
    output: &mut [u8],
) -> Result<Result<usize, Fault>, AllocError>
    ensures { Done result (λ o. RunOf C.Container K.Kind T.WriteItem.text (M.words memory) (calls_of T.ReadItem.reads script.entry) output.old o output.new) (output.new ≡ output.old) }
{
    let bench = Running::<C, K>::new(heap, C::over(memory))?;
    Ok(play(bench, script, output))
}

// On the container that the header names.
fn on_memory<M: Memory + Drop, K: Kind<Item = T>, T: ReadItem + WriteItem + Copy>(
    heap: Global,
    memory: M,
    script: Script,
    output: &mut [u8],
) -> Result<Result<usize, Fault>, AllocError>
    ensures { Done result (λ o. ByContainer M.words (M.words memory) K.Kind T.WriteItem.text (calls_of T.ReadItem.reads script.entry) output.old o output.new script.entry.header.container) (output.new ≡ output.old) }
{
    match script.header.container {
        ContainerChoice::Descriptor => {
            on_container::<M, DescriptorVector<M>, K, T>(heap, memory, script, output)
        }
        ContainerChoice::Lock => on_container::<M, LockVector<M>, K, T>(
            heap, memory, script, output,
        ),
    }
}

// Over the memory that the header names.
fn with_kind<K: Kind<Item = T>, T: ReadItem + WriteItem + Copy>(
    heap: Global,
    script: Script,
    output: &mut [u8],
) -> Result<Result<usize, Fault>, AllocError>
    ensures { Done result (λ o. ByMemory K.Kind T.WriteItem.text (calls_of T.ReadItem.reads script.entry) script.entry.header.container output.old o output.new script.entry.header.memory) (output.new ≡ output.old) }
{
    match script.header.memory {
        MemoryChoice::Flat => on_memory::<FlatMemory, K, T>(
            heap,
            FlatMemory::new(heap)?,
            script,
            output,
        ),
        MemoryChoice::Bucketed => {
            on_memory::<BucketedMemory, K, T>(heap, BucketedMemory::new(heap)?, script, output)
        }
    }
}

// Plays a script: its listing is written to the output, which is the caller's, and its length answered; or the first fault is
// answered, and nothing written. Only memory for the bench can lack.
pub fn run_script(
    heap: Global,
    bytes: &[u8],
    output: &mut [u8],
) -> Result<Result<usize, Fault>, AllocError>
    ensures done { Done result (λ o. ScriptRun bytes.now output.old o output.new) (output.new ≡ output.old) }
    ensures lacks { LacksOnly result (AsksForBench bytes.now) }
{
    // A fault is an answer here, which `?` would not hand on.
    match open(bytes) {
        Err(fault) => Ok(Err(fault)),
        Ok(script) => match script.header.kind {
            KindChoice::Numbers => with_kind::<Numbers, i32>(heap, script, output),
            KindChoice::Points => with_kind::<Points, Point>(heap, script, output),
        },
    }
}
