// Items in a fixed number of places.
ghost use Rattle.std.specs.Prelude.{◌≡◌, ◌-◌, ◌++◌, length, take, replicate};

// The items in N places: items past the N-th are left out, and `blank` stands in the places that are left.
pub fn in_places<T: Copy, const N: usize>(items: &[T], blank: T) -> [T; N]
    ensures { result ≡ take N items.now ++ replicate (N - length items.now) blank }
{
    std::array::from_fn(|k| items.get(k).copied().unwrap_or(blank))
}
