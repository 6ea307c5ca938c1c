//! Adding to a list that has room.

ghost use Rattle.std.specs.Prelude.{◌≡◌, ◌+◌, ◌<◌, ◌≤◌, [], ◌++◌, length};
ghost use Rattle.std.specs.List.{cons_option};
ghost use Rattle.std.specs.Vec.{vec_capacity};

/// Adds an item, if there is one. There is room for it.
pub(crate) fn put_some<T: Copy>(items: &mut Vec<T>, item: Option<T>)
    requires { length items.old.items < vec_capacity items.old }
    ensures items { items.new.items ≡ items.old.items ++ cons_option item [] }
    ensures few { length items.new.items ≤ length items.old.items + 1 }
    ensures room { vec_capacity items.old ≤ vec_capacity items.new }
{
    if let Some(item) = item {
        items.push_reserved(item);
    }
}
