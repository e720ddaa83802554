ghost use Rattle.std.specs.Prelude.{◌≡◌, ◌≤◌, Result, length, take};
ghost use Rattle.std.specs.Fn.{FnReturnsAt};
ghost use Rattle.camel_reading.specs.Reading.{AnswersAs, ReadsInto, ReadsList, each_of};

use crate::fault::Fault;
use std::alloc::Global;

/// What `read` returns for each item, in their order, or the first fault. It takes one block of memory, with room for
/// no more.
pub fn read_each<S, T: Drop, W: Fault, F: Fn(&S) -> Result<T, W>>(
    alloc: Global,
    items: &[S],
    read: F,
) -> Result<Vec<T>, W>
    requires { F.IsAlwaysCallable read }
    ensures { (value_of : S → Result T W) → AnswersAs W.is_out_of_memory (FnReturnsAt F.Fn read) value_of
        → ReadsList W.is_out_of_memory result (each_of value_of items.now) }
{
    let Ok(mut values) = Vec::with_capacity(alloc, items.len()) else {
        return Err(W::out_of_memory());
    };
    for item in items {
        let Ok(()) = values.push(read(item)?) else {
            return Err(W::out_of_memory());
        };
    }
    Ok(values)
}

/// Writes what `read` returns for each item, in their order, into the first places of a room, up to the first fault. It
/// takes no memory.
pub fn read_into<S, T: Copy + Drop, W: Fault, F: Fn(&S) -> Result<T, W>>(
    items: &[S],
    read: F,
    room: &mut [T],
) -> Result<(), W>
    requires callable { F.IsAlwaysCallable read }
    requires room { length items.now ≤ length room.old }
    ensures len { length room.new ≡ length room.old }
    ensures values { (value_of : S → Result T W) → AnswersAs W.is_out_of_memory (FnReturnsAt F.Fn read) value_of
        → ReadsInto W.is_out_of_memory result (take (length items.now) room.new) (each_of value_of items.now) }
{
    for at in 0..items.len() {
        room[at] = read(&items[at])?;
    }
    Ok(())
}
