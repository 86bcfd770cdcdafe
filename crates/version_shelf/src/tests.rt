//! The worked row, and readers on threads beside a publisher.
ghost use Rattle.std.specs.Prelude.{◌≡◌, ◌+◌, ◌<◌, ◌≤◌, All, IfOk};
ghost use Rattle.version_shelf.specs.Ends.{IsPublisherOf, IsReaderOf, published, room};

use crate::{Publisher, Reader, Shelf};
use std::alloc::Global;
use std::sync::Arc;
use std::test::Fail;
use std::thread::{Threads, for_each_mut, join_mut};
use vg_base::{Memory, VersionNo};

// A version as a server has it, on the heap: here its number stands in each line.
#[derive(Drop)]
struct Edition {
    lines: Vec<u64>,
}

fn edition_of(alloc: Global, number: u64) -> Result<Arc<Edition>, Memory> {
    let lines = [number, number].to_vec(alloc)?;
    Ok(Arc::new(alloc, Edition { lines })?)
}

fn is_edition(edition: &Edition, number: u64) -> bool {
    edition.lines.len() == 2 && edition.lines.iter().all(|line| *line == number)
}

// Publishes the value of a number, and gives the number that it got.
fn publish(
    publisher: &mut Publisher<Edition>,
    alloc: Global,
    shelf: &Shelf<Edition>,
    number: u64,
) -> Result<u64, Memory>
    requires of { IsPublisherOf shelf.now publisher.old }
    requires room { published publisher.old < room shelf.now }
    ensures of { IsPublisherOf shelf.now publisher.new }
    ensures count { published publisher.new ≤ published publisher.old + 1 }
{
    let value = edition_of(alloc, number)?;
    match publisher.publish(alloc, shelf, value) {
        Ok(VersionNo(n)) => Ok(n),
        Err(_) => Err(Memory),
    }
}

#[test]
fn the_row_shelf(rt: HostRuntime) -> Result<(), Fail> {
    let alloc = rt.alloc();
    let base = edition_of(alloc, 0)?;
    let (shelf, mut publisher) = Shelf::open(alloc, base, VersionNo(0), 2)?;
    assert_eq!(rt; publish(&mut publisher, alloc, &shelf, 1)?, 1);
    let mut reader = publisher.reader(alloc, &shelf)?;
    let (one, value) = reader.latest(&shelf);
    assert!(rt; one == VersionNo(1) && is_edition(value, 1));
    assert_eq!(rt; publish(&mut publisher, alloc, &shelf, 2)?, 2);
    reader.meet(&shelf, &mut publisher);
    let (two, value) = reader.latest(&shelf);
    assert!(rt; two == VersionNo(2) && is_edition(value, 2));
    publisher.join(&shelf, reader);
    Ok(())
}

// No contract says what a reader finds that it hasn't met: on one thread, all that was published.
#[test]
fn a_reader_finds_what_it_has_not_met(rt: HostRuntime) -> Result<(), Fail> {
    let alloc = rt.alloc();
    let base = edition_of(alloc, 7)?;
    let (shelf, mut publisher) = Shelf::open(alloc, base, VersionNo(7), 2)?;
    let mut reader = publisher.reader(alloc, &shelf)?;
    let (base, value) = reader.latest(&shelf);
    assert!(rt; base == VersionNo(7) && is_edition(value, 7));
    assert_eq!(rt; publish(&mut publisher, alloc, &shelf, 8)?, 8);
    let (one, value) = reader.latest(&shelf);
    assert!(rt; one == VersionNo(8) && is_edition(value, 8));
    assert_eq!(rt; publish(&mut publisher, alloc, &shelf, 9)?, 9);
    let (two, value) = reader.latest(&shelf);
    assert!(rt; two == VersionNo(9) && is_edition(value, 9));
    publisher.join(&shelf, reader);
    Ok(())
}

// A reader on a thread of its own, the number of its last answer, and whether an answer was wrong.
#[derive(Drop)]
struct Lane {
    reader: Reader<Edition>,
    last: u64,
    wrong: bool,
}

fn new_lane(
    publisher: &mut Publisher<Edition>,
    alloc: Global,
    shelf: &Shelf<Edition>,
) -> Result<Lane, Memory>
    requires { IsPublisherOf shelf.now publisher.old }
    ensures of { IsPublisherOf shelf.now publisher.new }
    ensures count { published publisher.new ≡ published publisher.old }
    ensures reader { IfOk result (λ l. IsReaderOf shelf.now l.reader) }
{
    Ok(Lane {
        reader: publisher.reader(alloc, shelf)?,
        last: 0,
        wrong: false,
    })
}

// Number and value agree, and no number is below the last.
fn look(lane: &mut Lane, shelf: &Shelf<Edition>)
    requires { IsReaderOf shelf.now lane.old.reader }
    ensures { IsReaderOf shelf.now lane.new.reader }
{
    let (VersionNo(n), value) = lane.reader.latest(shelf);
    if !is_edition(value, n) || n < lane.last {
        lane.wrong = true;
    }
    lane.last = n;
}

// Reads until the last number comes, or for many turns.
fn look_on(lane: &mut Lane, shelf: &Shelf<Edition>)
    requires { IsReaderOf shelf.now lane.old.reader }
    ensures { IsReaderOf shelf.now lane.new.reader }
{
    for _ in 0..100_000u32 {
        look(lane, shelf);
        if lane.last == 64 {
            return;
        }
    }
}

fn publish_all(publisher: &mut Publisher<Edition>, alloc: Global, shelf: &Shelf<Edition>)
    requires of { IsPublisherOf shelf.now publisher.old }
    requires room { published publisher.old + 64 ≤ room shelf.now }
    ensures { IsPublisherOf shelf.now publisher.new }
{
    for i in 0..64u64 {
        if publish(publisher, alloc, shelf, i + 1).is_err() {
            return;
        }
    }
}

fn run<R: Threads + Sync>(
    rt: &R,
    alloc: Global,
    publisher: &mut Publisher<Edition>,
    lanes: &mut [Lane],
    shelf: &Shelf<Edition>,
)
    requires of { IsPublisherOf shelf.now publisher.old }
    requires room { published publisher.old + 64 ≤ room shelf.now }
    requires lanes { All (λ l. IsReaderOf shelf.now l.reader) lanes.old }
    ensures of { IsPublisherOf shelf.now publisher.new }
    ensures lanes { All (λ l. IsReaderOf shelf.now l.reader) lanes.new }
{
    join_mut(
        rt,
        &mut ||
            requires { IsPublisherOf shelf.now publisher.now
                × (published publisher.now + 64 ≤ room shelf.now) }
            ensures { IsPublisherOf shelf.entry.now publisher.exit.now }
        { publish_all(publisher, alloc, shelf) },
        &mut ||
            requires { All (λ l. IsReaderOf shelf.now l.reader) lanes.now }
            ensures { All (λ l. IsReaderOf shelf.entry.now l.reader) lanes.exit.now }
        { look_each(rt, lanes, shelf) },
    );
}

fn look_each<R: Threads + Sync>(rt: &R, lanes: &mut [Lane], shelf: &Shelf<Edition>)
    requires { All (λ l. IsReaderOf shelf.now l.reader) lanes.old }
    ensures { All (λ l. IsReaderOf shelf.now l.reader) lanes.new }
{
    for_each_mut(
        rt,
        lanes,
        3,
        &|_, lane: &mut Lane|
            requires { IsReaderOf shelf.now lane.now.reader }
            ensures { IsReaderOf shelf.entry.now lane.exit.now.reader }
        { look_on(lane, shelf) },
    );
}

// A last look, when all is published; the reader ends.
fn settle(mut lane: Lane, publisher: &mut Publisher<Edition>, shelf: &Shelf<Edition>) -> (u64, bool)
    requires publisher { IsPublisherOf shelf.now publisher.old }
    requires reader { IsReaderOf shelf.now lane.reader }
    ensures { IsPublisherOf shelf.now publisher.new }
{
    lane.reader.meet(shelf, publisher);
    look(&mut lane, shelf);
    let Lane {
        reader,
        last,
        wrong,
    } = lane;
    publisher.join(shelf, reader);
    (last, wrong)
}

#[test]
fn readers_beside_a_publisher(rt: HostRuntime) -> Result<(), Fail> {
    let alloc = rt.alloc();
    let base = edition_of(alloc, 0)?;
    let (shelf, mut publisher) = Shelf::open(alloc, base, VersionNo(0), 64)?;
    let one = new_lane(&mut publisher, alloc, &shelf)?;
    let two = new_lane(&mut publisher, alloc, &shelf)?;
    let three = new_lane(&mut publisher, alloc, &shelf)?;
    let mut lanes = [one, two, three];
    run(&rt, alloc, &mut publisher, &mut lanes, &shelf);
    let [one, two, three] = lanes;
    for end in [
        settle(one, &mut publisher, &shelf),
        settle(two, &mut publisher, &shelf),
        settle(three, &mut publisher, &shelf),
    ] {
        assert_eq!(rt; end, (64, false));
    }
    Ok(())
}
