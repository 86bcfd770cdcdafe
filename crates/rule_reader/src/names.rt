//! The names of rules (SRGS 1.0 section 3): which are defined, defined again, or reserved.
ghost use Rattle.std.specs.Prelude.{◌≡◌, IfOk, All, Contains, MatchBool};
ghost use Rattle.rule_reader.specs.References.{specials};
ghost use Rattle.rule_reader.specs.code.Walks.{RuleShown, NamesRead};

use crate::found::tell;
use crate::places::inside_at;
use crate::spelled::is;
use abnf_parser::WrittenRule;
use std::alloc::Global;
use vg_base::{DocFault, DocKind, Memory, Text, TextMap};

fn is_special(name: &Text) -> bool
    ensures { MatchBool result (Contains specials name.now) (Contains specials name.now → ⊥) }
{
    is(name, "NULL") || is(name, "VOID") || is(name, "GARBAGE")
}

/// Reads the names of rules.
pub(crate) fn read_names(
    alloc: Global,
    text: &Text,
    rules: &[WrittenRule],
    found: &mut Option<DocFault>,
) -> Result<TextMap<()>, Memory>
    requires { All (RuleShown text.now) rules.now }
    ensures { IfOk result (λ map. NamesRead text.now rules.now map found.old found.new) }
{
    let mut names = TextMap::new(alloc);
    for rule in rules {
        let name = inside_at(alloc, text, rule.name)?;
        tell(found, names.contains(&name), rule.name, DocKind::RuleTwice);
        tell(found, is_special(&name), rule.name, DocKind::Reserved);
        names.set(name, ())?;
    }
    Ok(names)
}
