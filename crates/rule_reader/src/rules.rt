//! Rules and what they mean (SRGS 1.0 section 3).
ghost use Rattle.std.specs.Prelude.{IfOk, All};
ghost use Rattle.rule_reader.specs.code.Walks.{RuleShown, RuleRead, RulesRead};

use crate::body::read_body;
use crate::context::Context;
use crate::places::inside_at;
use abnf_parser::WrittenRule;
use grammar_tree::Rule;
use std::alloc::Global;
use vg_base::{DocFault, Items, Memory, Text};

fn read_rule(
    alloc: Global,
    text: &Text,
    context: Context,
    written: &WrittenRule,
    found: &mut Option<DocFault>,
) -> Result<Rule, Memory>
    requires { RuleShown text.now written.now }
    ensures { IfOk result (RuleRead text.now context written.now found.old found.new) }
{
    Ok(Rule {
        place: written.name.place,
        public: written.public,
        name: inside_at(alloc, text, written.name)?,
        body: read_body(alloc, text, context, &written.body, found)?,
    })
}

/// Reads the rules of a document.
pub(crate) fn read_rules(
    alloc: Global,
    text: &Text,
    context: Context,
    written: &[WrittenRule],
    found: &mut Option<DocFault>,
) -> Result<Items<Rule>, Memory>
    requires { All (RuleShown text.now) written.now }
    ensures { IfOk result (RulesRead text.now context written.now found.old found.new) }
{
    let mut rules = Items::new(alloc);
    for rule in written {
        rules.push(read_rule(alloc, text, context, rule, found)?)?;
    }
    Ok(rules)
}
