// Records at the end of the log.
ghost use Rattle.std.specs.Prelude.{◌≡◌, ◌++◌, take, Ok, vec_capacity};
ghost use Rattle.std.specs.Option.{option_to_list};
ghost use Rattle.stepping.specs.Log.{step_records};

use crate::Record;
use vector::Stepped;

// A bench made over a container not yet set up has room for all its records, so that the test never fails. It stays, since a bench may
// be made over any container, and none says that it has no more open operations than numbers given: what has no room is left out.
pub(crate) fn append<T: Copy>(log: &mut Vec<Record<T>>, more: Option<Record<T>>)
    ensures items { log.new.items ≡ take (vec_capacity log.old) (log.old.items ++ option_to_list more) }
    ensures capacity { vec_capacity log.new ≡ vec_capacity log.old }
{
    if let Some(last) = more
        && log.len() < log.capacity()
    {
        log.push_reserved(last);
    }
}

// The records of a step: its effect precedes its end.
pub(crate) fn append_step<T: Copy>(log: &mut Vec<Record<T>>, done: Stepped<T>)
    ensures items { log.new.items ≡ take (vec_capacity log.old) (log.old.items ++ step_records (Ok done)) }
    ensures capacity { vec_capacity log.new ≡ vec_capacity log.old }
{
    let effect = done.effect.map(|number| Record::Effect(number));
    let end = done
        .end
        .map(|ended| Record::End(ended.number, ended.answer));
    append(log, effect);
    append(log, end);
}
