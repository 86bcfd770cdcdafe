use script_value::Value;
use vg_base::Text;

/// A step from a value to one of its parts, its index evaluated.
#[derive(Debug, Drop)]
pub enum Step {
    Word(Text),
    Index(Value),
}
