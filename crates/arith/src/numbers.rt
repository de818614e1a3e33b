ghost use Rattle.std.specs.Prelude.{◌≡◌, slice_index};

/// The number at a place, 0 where there is none.
pub fn number_at(numbers: &[u64], place: usize) -> u64
    ensures { result ≡ slice_index numbers.now place }
{
    numbers.get(place).copied().unwrap_or(0)
}
