//! Whether a text is spelled so.
ghost use Rattle.std.specs.Prelude.{◌≡◌, true, bytes_eq};
ghost use Rattle.std.specs.List.{list_all};
ghost use Rattle.script_reader.specs.Roles.{is_small};

use vg_base::Text;

/// Whether it is this text, which is of ASCII.
pub(crate) fn is(text: &Text, other: &str) -> bool
    requires { list_all is_small other.now ≡ true }
    ensures { result ≡ bytes_eq text.now other.now }
{
    text.as_str() == other
}
