//! Worked runs of the core.
use super::{CoreState, DocState, Event, Imports};
use sqlite_items::Items;
use std::alloc::Global;
use std::test::Fail;
use vg_base::{DocIx, LoaderNo, Memory};

/// A cycle of so many documents: each imports the next.
fn cycle(alloc: Global, size: u32) -> Result<Option<Imports>, Memory> {
    let mut rows = Items::new(alloc);
    for doc in 0..size {
        let next = if doc + 1 < size { doc + 1 } else { 0 };
        let mut row = Items::new(alloc);
        row.push(DocIx(next))?;
        rows.push(row)?;
    }
    Ok(Imports::of(rows))
}

const ONE: LoaderNo = LoaderNo(1);

const FIRST: DocIx = DocIx(0);

const SECOND: DocIx = DocIx(1);

const WAY: [Event; 5] = [
    Event::Claim {
        loader: ONE,
        doc: FIRST,
    },
    Event::Want {
        loader: ONE,
        doc: SECOND,
    },
    Event::Finish {
        loader: ONE,
        doc: FIRST,
    },
    Event::Claim {
        loader: ONE,
        doc: SECOND,
    },
    Event::Finish {
        loader: ONE,
        doc: SECOND,
    },
];

#[test]
fn runs_of_a_cycle_of_two(rt: HostRuntime) -> Result<(), Fail> {
    let alloc = rt.alloc();
    let imports = cycle(alloc, 2)?.expect(&rt, "closed");
    assert!(rt; imports.len() == 2);
    let mut state = CoreState::open(alloc, &imports, &[FIRST], 2)?;
    let second = Event::Claim {
        loader: LoaderNo(2),
        doc: FIRST,
    };
    assert_eq!(rt; state.run(&imports, &[WAY[0], second]), 1);
    let mut anew = CoreState::open(alloc, &imports, &[FIRST], 2)?;
    assert_eq!(rt; anew.run(&imports, &WAY), 5);
    Ok(())
}

#[test]
fn the_schedule_of_a_cycle_of_two(rt: HostRuntime) -> Result<(), Fail> {
    let alloc = rt.alloc();
    let imports = cycle(alloc, 2)?.expect(&rt, "closed");
    assert!(rt; imports.len() == 2);
    let mut state = CoreState::open(alloc, &imports, &[FIRST], 1)?;
    for event in &WAY {
        assert!(rt; state.len() == imports.len());
        assert!(rt; state.next_step(&imports) == Some(*event));
        assert!(rt; state.enabled(&imports, event));
        state.apply(&imports, *event);
    }
    assert!(rt; state.len() == imports.len());
    assert!(rt; state.next_step(&imports) == None);
    Ok(())
}

#[test]
fn one_loader_comes_to_the_end(rt: HostRuntime) -> Result<(), Fail> {
    let alloc = rt.alloc();
    for (size, events) in [(2u32, 5u32), (64, 191)] {
        let imports = cycle(alloc, size)?.expect(&rt, "closed");
        assert!(rt; 0 < imports.len());
        let mut state = CoreState::open(alloc, &imports, &[FIRST], 1)?;
        assert_eq!(rt; state.run_to_end(&imports), events, "a cycle of {size}");
        assert!(rt; state.state(FIRST) == DocState::Done(ONE));
    }
    Ok(())
}

// As states come from elsewhere: the first document was read by loader 2, and its import is wanted.
#[test]
fn states_that_are_handed_over(rt: HostRuntime) -> Result<(), Fail> {
    let alloc = rt.alloc();
    let imports = cycle(alloc, 3)?.expect(&rt, "closed");
    let docs = [
        DocState::Done(LoaderNo(2)),
        DocState::Wanted,
        DocState::Unseen,
    ]
    .to_vec(alloc)?;
    assert!(rt; !CoreState::is_standing(&docs, 1));
    assert!(rt; CoreState::is_standing(&docs, 2));
    let mut state = CoreState::of(docs, 2);
    let claim = Event::Claim {
        loader: ONE,
        doc: SECOND,
    };
    let finish = Event::Finish {
        loader: ONE,
        doc: SECOND,
    };
    assert!(rt; !state.advance(finish));
    assert!(rt; state.advance(claim));
    assert!(rt; state.len() == 3 && imports.len() == 3);
    assert_eq!(rt; state.run_to_end(&imports), 4);
    assert!(rt; state.state(FIRST) == DocState::Done(LoaderNo(2)));
    assert!(rt; state.state(SECOND) == DocState::Done(ONE));
    Ok(())
}
