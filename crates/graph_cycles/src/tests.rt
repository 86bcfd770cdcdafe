use crate::Graph;
use std::alloc::Global;
use std::process::Abort;
use std::test::Fail;

/// Adds an edge.
fn lead(rt: &impl Abort, graph: &mut Graph, from: u32, to: u32) -> Result<(), Fail> {
    let vertices = graph.vertices();
    assert!(rt; (from as usize) < vertices);
    assert!(rt; (to as usize) < vertices);
    graph.lead(from, to).expect(rt, "memory");
    Ok(())
}

/// Which of five vertices lie on a cycle, by these edges.
fn expect(
    rt: &impl Abort,
    alloc: Global,
    edges: &[(u32, u32)],
    want: [bool; 5],
) -> Result<(), Fail> {
    let mut graph = Graph::new(alloc, 5)?;
    for (from, to) in edges {
        lead(rt, &mut graph, *from, *to)?;
    }
    let marks = graph.on_cycles(alloc)?;
    assert!(rt; marks.as_slice() == want.as_slice());
    Ok(())
}

#[test]
fn small_graphs(rt: HostRuntime) -> Result<(), Fail> {
    let alloc = rt.alloc();
    let f = false;
    let t = true;
    expect(&rt, alloc, &[], [f, f, f, f, f])?;
    expect(&rt, alloc, &[(2, 2)], [f, f, t, f, f])?;
    expect(&rt, alloc, &[(1, 3), (3, 1)], [f, t, f, t, f])?;
    // into a cycle, and out of it
    expect(
        &rt,
        alloc,
        &[(0, 1), (1, 2), (2, 3), (3, 1), (3, 4)],
        [f, t, t, t, f],
    )?;
    // a component of two cycles
    expect(
        &rt,
        alloc,
        &[(0, 1), (1, 0), (1, 2), (2, 1), (2, 3)],
        [t, t, t, f, f],
    )?;
    // between two cycles
    expect(
        &rt,
        alloc,
        &[(0, 1), (1, 0), (1, 2), (2, 3), (3, 4), (4, 3)],
        [t, t, f, t, t],
    )?;
    // two ways that meet, each edge twice
    expect(
        &rt,
        alloc,
        &[(0, 1), (0, 1), (0, 2), (1, 3), (2, 3), (2, 3)],
        [f, f, f, f, f],
    )?;
    // an edge to what is closed already
    expect(
        &rt,
        alloc,
        &[(3, 0), (0, 0), (4, 3), (3, 4), (4, 0)],
        [t, f, f, t, t],
    )
}

#[test]
fn long_chain(rt: HostRuntime) -> Result<(), Fail> {
    let alloc = rt.alloc();
    let mut graph = Graph::new(alloc, 65_536)?;
    for vertex in 0..65_535u32 {
        lead(&rt, &mut graph, vertex, vertex + 1)?;
    }
    let marks = graph.on_cycles(alloc)?;
    assert!(rt; marks.iter().all(|mark| !*mark));
    lead(&rt, &mut graph, 65_535, 0)?;
    let marks = graph.on_cycles(alloc)?;
    assert!(rt; marks.iter().all(|mark| *mark));
    assert_eq!(rt; marks.len(), 65_536usize);
    Ok(())
}
