//! Room for lists that grow by one, operation by operation, as long as a session goes on.

ghost use Rattle.std.specs.Prelude.{◌≡◌, ◌<◌, ◌≤◌, OnOk, OnErr, vec_len, vec_capacity};

use op_name::Memory;

/// Makes room for one more. A full list grows by an eighth: doubled, it would leave up to half of its memory without use.
pub fn reserve_one<T>(list: &mut Vec<T>) -> Result<(), Memory>
    ensures items { list.new.items ≡ list.old.items }
    ensures room { OnOk result (vec_len list.new < vec_capacity list.new) }
    ensures full { OnErr result (vec_capacity list.old ≤ vec_len list.old) }
{
    let len = list.len();
    if len < list.capacity() {
        return Ok(());
    }
    list.reserve_exact(len / 8 + 8)?;
    Ok(())
}
