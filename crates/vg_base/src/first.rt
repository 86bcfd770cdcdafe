//! The first of several faults, by the order of their type: for faults of documents and of sets of documents alike.
ghost use Rattle.std.specs.Prelude.{◌≡◌, ◌++◌, List};
ghost use Rattle.vg_base.specs.First as spec;
ghost use Rattle.vg_base.specs.First.{IsFirst};

/// The sooner of the fault that was found before and one more, where there are any.
/// So passes over a text compose: the first of both lists is the sooner of both firsts.
pub fn sooner<F: Ord + Drop>(found: Option<F>, more: Option<F>) -> Option<F>
    ensures value { result ≡ spec.sooner F.cmp found more }
    ensures joins { (fs gs : List F) → IsFirst F.cmp fs found → IsFirst F.cmp gs more → IsFirst F.cmp (fs ++ gs) result }
{
    match (found, more) {
        (None, more) => more,
        (found, None) => found,
        (Some(f), Some(g)) => { if f.cmp(&g).is_gt() { Some(g) } else { Some(f) } }
    }
}

/// The first of the faults.
pub fn first_of<F: Ord + Copy>(faults: &[F]) -> Option<F>
    ensures { IsFirst F.cmp faults.now result }
{
    let mut first = None;
    for fault in faults {
        first = sooner(first, Some(*fault));
    }
    first
}
