ghost use Rattle.std.specs.Prelude.{◌≡◌, ◌≤◌, ◌<◌, [], ◌∷◌, ◌++◌, vec_capacity, vec_len};

/// Puts in an item for which there is room. Takes no memory.
pub fn push_reserved<X: Drop>(items: &mut Vec<X>, item: X)
    requires { vec_len items.old < vec_capacity items.old }
    ensures added { items.new.items ≡ items.old.items ++ item ∷ [] }
    ensures room { vec_capacity items.old ≤ vec_capacity items.new }
{
    if items.push(item).is_err() {
        unreachable!()
    }
}
