mod grammars;

ghost use Rattle.std.specs.Prelude.{IfOk};
ghost use Rattle.earley_chart.specs.Chart.{RanOn};

use crate::Chart;
use grammar_tree::Linked;
use grammars::Part::{self, Alt, Garbage, Null, Ref, Rep, Seq, Token, Void};
use grammars::{rules, words};
use std::alloc::Global;
use std::process::Abort;
use std::test::Fail;
use vg_base::{NodeIx, RuleIx};

/// The chart of the first rule over the words of a text.
fn run(alloc: Global, linked: &Linked, line: &str) -> Result<Chart, Fail>
    ensures { IfOk result (λ chart. RanOn linked.now chart) }
{
    let line = words(alloc, line)?;
    if linked.rule_count() == 0 || line.len() > 64 {
        return Err(Fail::from("a row has rules, and a line few words"));
    }
    let chart = Chart::run(alloc, linked, RuleIx(0), line.as_slice())?;
    Ok(chart)
}

/// Whether the first rule of a row derives each of these lines.
fn expect(
    rt: &impl Abort,
    alloc: Global,
    row: &[Part],
    lines: &[&str],
    matched: bool,
) -> Result<(), Fail> {
    let linked = rules(alloc, row)?;
    for line in lines {
        let chart = run(alloc, &linked, line)?;
        assert!(rt; chart.matched() == matched, "{line:?}");
    }
    Ok(())
}

/// Whether the first rule of a row derives some longer line that begins with each of these.
fn expect_longer(
    rt: &impl Abort,
    alloc: Global,
    row: &[Part],
    lines: &[&str],
    extends: bool,
) -> Result<(), Fail> {
    let linked = rules(alloc, row)?;
    for line in lines {
        let chart = run(alloc, &linked, line)?;
        assert!(rt; chart.extends(alloc, &linked)? == extends, "{line:?}");
    }
    Ok(())
}

/// So many words `x`.
fn repeated(alloc: Global, count: u32) -> Result<String, Fail> {
    let mut line = String::new(alloc);
    for _ in 0..count {
        line.push_str("x ")?;
    }
    Ok(line)
}

// `$r = "San Francisco" $NULL;`
#[test]
fn a_node_is_reached_and_derives_words(rt: HostRuntime) -> Result<(), Fail> {
    let alloc = rt.alloc();
    let linked = rules(alloc, &[Seq(2), Token("San Francisco"), Null])?;
    let chart = run(alloc, &linked, "San Francisco Bay")?;
    for (node, place, reached) in [
        (0, 0, true),
        (1, 0, true),
        (1, 2, false),
        (2, 2, true),
        (2, 0, false),
        (3, 0, false),
    ] {
        assert!(rt; chart.predicted(NodeIx(node), place) == reached);
    }
    for (node, from, to, derives) in [
        (0, 0, 2, true),
        (0, 0, 3, false),
        (1, 0, 1, false),
        (2, 2, 2, true),
    ] {
        assert!(rt; chart.derives(NodeIx(node), from, to) == derives);
    }
    Ok(())
}

/// A row, lines that its first rule derives, and lines that it doesn't.
type Lines = (
    &'static [Part],
    &'static [&'static str],
    &'static [&'static str],
);

static LINES: [Lines; 11] = [
    // `$r = $e $e x $e; $e = [y];`
    (
        &[
            Seq(4),
            Ref(1),
            Ref(1),
            Token("x"),
            Ref(1),
            Rep(0, Some(1)),
            Token("y"),
        ],
        &["x", "y x", "y y x y"],
        &["x x", "y"],
    ),
    // `$r = x <3>;`
    (
        &[Rep(3, Some(3)), Token("x")],
        &["x x x"],
        &["x x", "x x x x"],
    ),
    // `$r = yes | no;`
    (
        &[Alt(2), Token("yes"), Token("no")],
        &["yes", "no"],
        &["yes no", ""],
    ),
    // `$r = x $b; $b = y | $s; $s = z;`
    (
        &[
            Seq(2),
            Token("x"),
            Ref(1),
            Alt(2),
            Token("y"),
            Ref(2),
            Token("z"),
        ],
        &["x z", "x y"],
        &["x", "z"],
    ),
    // `$r = x $b; $b = y | $r;`
    (
        &[Seq(2), Token("x"), Ref(1), Alt(2), Token("y"), Ref(0)],
        &["x y", "x x y"],
        &["x x", "y"],
    ),
    // `$r = $r x | x;`
    (
        &[Alt(2), Seq(2), Ref(0), Token("x"), Token("x")],
        &["x", "x x x"],
        &[""],
    ),
    // `$r = [x] <2>;`
    (
        &[Rep(2, Some(2)), Rep(0, Some(1)), Token("x")],
        &["", "x", "x x"],
        &["x x x"],
    ),
    // `$r = x <65535>;`
    (&[Rep(65_535, Some(65_535)), Token("x")], &[], &["x x x"]),
    // `$r = () <65535>;`
    (&[Rep(65_535, Some(65_535)), Null], &[""], &["x"]),
    // `$r = $GARBAGE x $GARBAGE;`
    (
        &[Seq(3), Garbage, Token("x"), Garbage],
        &["x", "y x", "x y", "y x y"],
        &["", "y"],
    ),
    // `$r = 1 2 $VOID;`
    (&[Seq(3), Token("1"), Token("2"), Void], &[], &["1 2"]),
];

#[test]
fn rules_derive_lines(rt: HostRuntime) -> Result<(), Fail> {
    let alloc = rt.alloc();
    for (row, derived, others) in &LINES {
        expect(&rt, alloc, row, derived, true)?;
        expect(&rt, alloc, row, others, false)?;
    }
    Ok(())
}

/// A row, lines with which longer ones begin that its first rule derives, and others.
static FRONTS: [Lines; 3] = [
    // `$r = 1 2 $VOID;`
    (&[Seq(3), Token("1"), Token("2"), Void], &[], &["", "1"]),
    // `$r = 1 2;`
    (&[Seq(2), Token("1"), Token("2")], &["", "1"], &["1 2", "2"]),
    // `$r = "San Francisco";`
    (
        &[Token("San Francisco")],
        &["", "San"],
        &["San Jose", "San Francisco"],
    ),
];

#[test]
fn lines_go_on(rt: HostRuntime) -> Result<(), Fail> {
    let alloc = rt.alloc();
    for (row, fronts, others) in &FRONTS {
        expect_longer(&rt, alloc, row, fronts, true)?;
        expect_longer(&rt, alloc, row, others, false)?;
    }
    Ok(())
}

// `$r = [x] <3->;`, `$s = x <0->;` and `$t = $t $t | x;`
#[test]
fn lines_of_each_length(rt: HostRuntime) -> Result<(), Fail> {
    let alloc = rt.alloc();
    let optional = [Rep(3, None), Rep(0, Some(1)), Token("x")];
    let any = [Rep(0, None), Token("x")];
    let twice = [Alt(2), Seq(2), Ref(0), Ref(0), Token("x")];
    for count in 0..65u32 {
        let line = repeated(alloc, count)?;
        expect(&rt, alloc, &optional, &[line.as_str()], true)?;
        expect_longer(&rt, alloc, &any, &[line.as_str()], true)?;
        expect(&rt, alloc, &twice, &[line.as_str()], count > 0)?;
    }
    Ok(())
}

// `$r = $r1; $r1 = $r2; ..`
#[test]
fn a_hundred_rules_refer_on(rt: HostRuntime) -> Result<(), Fail> {
    let alloc = rt.alloc();
    let mut chain = Vec::new(alloc);
    for next in 1..100u32 {
        chain.push(Ref(next))?;
    }
    chain.push(Token("x"))?;
    expect(&rt, alloc, &chain, &["x"], true)?;
    expect(&rt, alloc, &chain, &["", "x x"], false)
}
