use script_value::Value;
use vg_base::{Text, TextMap};

/// What a tag's script sees and changes: the environment of one rule instance (SISR 1.0).
#[derive(Debug, Drop)]
pub struct Env {
    /// The variables of this instance.
    pub vars: TextMap<Value>,
    /// `out`, the value that the instance's tags make.
    pub out: Value,
    /// `rules.name`: the value of the last visited reference to the rule of this name.
    pub rules: TextMap<Value>,
    /// `rules.latest()`: the value of the last visited reference.
    pub latest: Option<Value>,
    /// `meta.name.text`: the words of the last visited reference to the rule of this name.
    pub texts: TextMap<Text>,
    /// `meta.latest().text`: the words of the last visited reference.
    pub latest_text: Option<Text>,
    /// `meta.current().text`: the words that this instance has matched so far.
    pub current_text: Text,
}
