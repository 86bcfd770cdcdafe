//! Linked rules on a shelf, and that such a shelf may be shared by threads.
ghost use Rattle.std.specs.Prelude.{◌<◌};
ghost use Rattle.version_shelf.specs.Ends.{IsPublisherOf, IsReaderOf, published, room};

use grammar_tree::{Linked, LinkedRule, Node};
use std::alloc::Global;
use std::sync::Arc;
use std::test::Fail;
use std::thread::{Threads, join_mut};
use version_shelf::{Publisher, Reader, Shelf};
use vg_base::{DocIx, Items, Memory, NodeIx, Text, VersionNo};

fn crosses<T: Send + Sync>() {}

fn goes<T: Send>() {}

/// A shelf of linked rules is shared by threads, and its publisher and its readers go to them.
fn rules_cross() {
    crosses::<Shelf<Linked>>();
    goes::<Publisher<Linked>>();
    goes::<Reader<Linked>>();
}

// One rule, whose body is $NULL: public or not, by which the versions are told apart.
fn one_rule(alloc: Global, public: bool) -> Result<Arc<Linked>, Memory> {
    let mut nodes = Items::new(alloc);
    nodes.push(Node::Null)?;
    let mut rules = Items::new(alloc);
    rules.push(LinkedRule {
        doc: DocIx(0),
        name: Text::new(alloc),
        public,
        body: NodeIx(0),
    })?;
    Ok(Arc::new(alloc, Linked::new(nodes, rules))?)
}

fn is_public(rules: &Linked) -> bool {
    rules.rules().iter().all(|rule| rule.public)
}

// Publishes the value, if there is one.
fn publish<V: Drop>(
    publisher: &mut Publisher<V>,
    alloc: Global,
    shelf: &Shelf<V>,
    value: &mut Option<Arc<V>>,
)
    requires of { IsPublisherOf shelf.now publisher.old }
    requires room { published publisher.old < room shelf.now }
    ensures { IsPublisherOf shelf.now publisher.new }
{
    if let Some(value) = value.take() {
        let _answer = publisher.publish(alloc, shelf, value);
    }
}

// One thread publishes while another looks. It is said of all values at once, so that of a large
// type only this has to be known, that it may cross.
fn publish_beside<R: Threads + Sync, V: Send + Sync + Drop>(
    rt: &R,
    alloc: Global,
    shelf: &Shelf<V>,
    publisher: &mut Publisher<V>,
    reader: &mut Reader<V>,
    value: &mut Option<Arc<V>>,
)
    requires of { IsPublisherOf shelf.now publisher.old }
    requires room { published publisher.old < room shelf.now }
    requires reader { IsReaderOf shelf.now reader.old }
    ensures of { IsPublisherOf shelf.now publisher.new }
    ensures reader { IsReaderOf shelf.now reader.new }
{
    join_mut(
        rt,
        &mut ||
            requires { IsPublisherOf shelf.now publisher.now
                × (published publisher.now < room shelf.now) }
            ensures { IsPublisherOf shelf.entry.now publisher.exit.now }
        { publish(publisher, alloc, shelf, value) },
        &mut ||
            requires { IsReaderOf shelf.now reader.now }
            ensures { IsReaderOf shelf.entry.now reader.exit.now }
        {
            let _found = reader.latest(shelf);
        },
    );
}

#[test]
fn threads_share_a_shelf_of_rules(rt: HostRuntime) -> Result<(), Fail> {
    let alloc = rt.alloc();
    let base = one_rule(alloc, false)?;
    let (shelf, mut publisher) = Shelf::open(alloc, base, VersionNo(0), 1)?;
    let mut reader = publisher.reader(alloc, &shelf)?;
    let mut next = Some(one_rule(alloc, true)?);
    publish_beside(&rt, alloc, &shelf, &mut publisher, &mut reader, &mut next);
    reader.meet(&shelf, &mut publisher);
    let (number, rules) = reader.latest(&shelf);
    assert!(rt; number == VersionNo(1) && is_public(rules));
    publisher.join(&shelf, reader);
    Ok(())
}

#[test]
fn rules_are_found_on_a_shelf(rt: HostRuntime) -> Result<(), Fail> {
    let alloc = rt.alloc();
    let base = one_rule(alloc, false)?;
    let (shelf, mut publisher) = Shelf::open(alloc, base, VersionNo(0), 1)?;
    let mut reader = publisher.reader(alloc, &shelf)?;
    let next = one_rule(alloc, true)?;
    assert!(rt; publisher.publish(alloc, &shelf, next).is_ok());
    let (number, rules) = reader.latest(&shelf);
    assert!(rt; number == VersionNo(1) && is_public(rules));
    publisher.join(&shelf, reader);
    Ok(())
}
