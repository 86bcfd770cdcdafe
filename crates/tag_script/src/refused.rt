use crate::tag_kind::TagKind;
use vg_base::Refused;

/// Why a script has no environment after it.
pub type RunRefused = Refused<TagKind>;
