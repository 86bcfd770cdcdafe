//! One value at several places.
ghost use Rattle.std.specs.Prelude.{◌≡◌, ◌<◌, length, All};
ghost use Rattle.graph_cycles.specs.code.Sets.{set_all};

/// Writes the value at each of these places.
pub(crate) fn set_all<T: Copy>(items: &mut [T], places: &[u32], value: T)
    requires { All (λ place. place < length items.old) places.now }
    ensures { items.new ≡ set_all places.now value items.old }
{
    for place in places {
        items[*place as usize] = value;
    }
}
