//! Short ways to a fault.
ghost use Rattle.std.specs.Prelude.{◌≡◌, Err};
ghost use Rattle.vg_base.specs.declared.refused.Refused.TheVariants as refused;
ghost use Rattle.tag_script.specs.declared.tag_kind.TagKind.TheVariants as tag;

use crate::refused::RunRefused;
use crate::tag_kind::TagKind;

/// The fault of a value that isn't of the kind that is needed.
pub(crate) fn kind_fault<T>() -> Result<T, RunRefused>
    ensures { result ≡ Err (refused.Fault tag.Kind) }
{
    Err(RunRefused::Fault(TagKind::Kind))
}
