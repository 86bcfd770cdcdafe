//! Whether a set may be published: the condition of the calls of this crate.
ghost use Rattle.std.specs.Prelude.{◌↔◌, IfOk, IsTrue};
ghost use Rattle.grammar_tree.specs.declared.doc_set.DocText.{DocText};
ghost use Rattle.rule_reader.specs.Sets.{IsKey, IsKeyed};
ghost use Rattle.import_closure.specs.code.Keyed.{HaveKeys};

use grammar_tree::{DocSet, DocText};
use std::alloc::Global;
use uri_links::Uri;
use vg_base::{Memory, Refused, Text};

/// Whether the set has at most 64 documents, each under a URI with a scheme and without a fragment.
#[tactic(auto, using(crate::proofs::KeyedLemmas::is_keyed, crate::proofs::KeyedLemmas::keys_of_set))]
pub fn is_keyed(alloc: Global, set: &DocSet) -> Result<bool, Memory>
    ensures { IfOk result (λ answer. IsTrue answer ↔ IsKeyed set.now) }
{
    let docs = set.docs();
    if docs.len() > 64 {
        return Ok(false);
    }
    let answer = have_keys(alloc, docs)?;
    Ok(answer)
}

#[tactic(auto, using(crate::proofs::KeyedLemmas::no_doc, crate::proofs::KeyedLemmas::one_more, crate::proofs::KeyedLemmas::one_bad))]
fn have_keys(alloc: Global, docs: &[DocText]) -> Result<bool, Memory>
    ensures { IfOk result (λ answer. IsTrue answer ↔ HaveKeys docs.now) }
{
    for doc in docs {
        if !is_key(alloc, &doc.key)? {
            return Ok(false);
        }
    }
    Ok(true)
}

#[tactic(auto, using(crate::proofs::KeyedLemmas::key_by_fault, crate::proofs::KeyedLemmas::fault_of_key))]
fn is_key(alloc: Global, key: &Text) -> Result<bool, Memory>
    ensures { IfOk result (λ answer. IsTrue answer ↔ IsKey key.now) }
{
    match Uri::read_key(alloc, key) {
        Ok(_) => Ok(true),
        Err(Refused::Fault(_)) => Ok(false),
        Err(Refused::Memory) => Err(Memory),
    }
}
