//! Directed graphs: what a vertex reaches, what reaches it, and its class.
ghost use Rattle.std.specs.Prelude.{◌≡◌, ◌<◌, IfOk};
ghost use Rattle.dt_lists.specs.Lists.{AllIn};

use dt_class::Adj;
use dt_test_texts::wrong;
use std::alloc::Global;
use std::test::Fail;

/// The graph of n vertices with these edges, as far as they lead from vertices to vertices.
fn graph(alloc: Global, vertices: u32, edges: &[(u32, u32)]) -> Result<Adj, Fail>
    ensures { IfOk result (λ graph. graph.vertices ≡ vertices) }
{
    let mut graph = Adj::new(alloc, vertices)?;
    for (source, target) in edges {
        if *source < vertices && *target < vertices {
            graph.edge(*source, *target)?;
        }
    }
    Ok(graph)
}

/// What is asked of a vertex.
#[derive(Clone, Copy)]
pub enum Ask {
    Behind,
    Ahead,
    Class,
}

/// What a graph answers for a vertex; nothing for one that it hasn't.
pub fn asked(
    alloc: Global,
    vertices: u32,
    edges: &[(u32, u32)],
    ask: Ask,
    vertex: u32,
) -> Result<Vec<u32>, Fail> {
    let graph = graph(alloc, vertices, edges)?;
    if vertex >= vertices {
        return Ok(Vec::new(alloc));
    }
    Ok(match ask {
        Ask::Behind => graph.behind(alloc, vertex)?,
        Ask::Ahead => graph.ahead(alloc, vertex)?,
        Ask::Class => graph.class_of(alloc, vertex)?,
    })
}

/// A ring with a vertex behind it.
const RING: &[(u32, u32)] = &[(0, 1), (1, 2), (2, 0), (2, 3)];

/// Two rings, of which the one reaches the other by two equal edges, and an edge from a vertex to itself.
const RINGS: &[(u32, u32)] = &[(3, 0), (0, 3), (1, 2), (2, 1), (3, 2), (3, 2), (1, 1)];

/// Edges of a graph of four vertices, and what is asked of a vertex.
const REACHED: &[(&[(u32, u32)], Ask, u32, &[u32])] = &[
    (RING, Ask::Class, 0, &[0, 1, 2]),
    (RING, Ask::Class, 2, &[0, 1, 2]),
    (RING, Ask::Class, 3, &[3]),
    (RING, Ask::Behind, 0, &[0, 1, 2, 3]),
    (RING, Ask::Behind, 3, &[3]),
    (RING, Ask::Ahead, 3, &[0, 1, 2, 3]),
    (RING, Ask::Ahead, 0, &[0, 1, 2]),
    (RINGS, Ask::Class, 3, &[0, 3]),
    (RINGS, Ask::Class, 1, &[1, 2]),
    (RINGS, Ask::Behind, 0, &[0, 1, 2, 3]),
    (RINGS, Ask::Behind, 1, &[1, 2]),
    (RINGS, Ask::Ahead, 1, &[0, 1, 2, 3]),
    (RINGS, Ask::Ahead, 3, &[0, 3]),
    (&[], Ask::Behind, 1, &[1]),
    (&[], Ask::Ahead, 1, &[1]),
    (&[], Ask::Class, 1, &[1]),
];

/// Fails at the first vertex of which something else is answered.
fn check_reached(alloc: Global) -> Result<(), Fail> {
    for (row, (edges, ask, vertex, want)) in REACHED.iter().enumerate() {
        if asked(alloc, 4, edges, *ask, *vertex)?.as_slice() != *want {
            return Err(wrong(row));
        }
    }
    Ok(())
}

#[test]
fn reach_and_classes_of_small_graphs(rt: HostRuntime) -> Result<(), Fail> {
    check_reached(rt.alloc())
}

/// The edges of a line of vertices, each to the next one; and from the last back to the first, where it is closed.
fn line(alloc: Global, vertices: u32, closed: bool) -> Result<Vec<(u32, u32)>, Fail> {
    let mut edges = Vec::new(alloc);
    for next in 1..vertices {
        edges.push((next - 1, next))?;
    }
    if closed && vertices > 0 {
        edges.push((vertices - 1, 0))?;
    }
    Ok(edges)
}

/// How many vertices are given, in a line of 500 that is closed or not.
fn asked_of_line(alloc: Global, closed: bool, ask: Ask, vertex: u32) -> Result<usize, Fail> {
    let edges = line(alloc, 500, closed)?;
    Ok(asked(alloc, 500, edges.as_slice(), ask, vertex)?.len())
}

/// Whether a line of 500 vertices is closed, what is asked of a vertex, and how many are given.
const LINES: &[(bool, Ask, u32, usize)] = &[
    (false, Ask::Behind, 0, 500),
    (false, Ask::Behind, 499, 1),
    (false, Ask::Ahead, 499, 500),
    (false, Ask::Class, 250, 1),
    (true, Ask::Class, 250, 500),
];

/// Fails at the first line that is not followed to its end.
fn check_followed(alloc: Global) -> Result<(), Fail> {
    for (row, (closed, ask, vertex, want)) in LINES.iter().enumerate() {
        if asked_of_line(alloc, *closed, *ask, *vertex)? != *want {
            return Err(wrong(row));
        }
    }
    Ok(())
}

#[test]
fn long_lines_are_followed_to_their_end(rt: HostRuntime) -> Result<(), Fail> {
    check_followed(rt.alloc())
}

/// Those of the numbers that are vertices.
fn below(alloc: Global, vertices: u32, numbers: &[u32]) -> Result<Vec<u32>, Fail>
    ensures { IfOk result (λ kept. AllIn (λ v. v < vertices) kept.items) }
{
    let mut kept = Vec::new(alloc);
    for number in numbers {
        if *number < vertices {
            kept.push(*number)?;
        }
    }
    Ok(kept)
}

/// A class of a graph that nothing outside it and no blocked vertex reaches; no vertex where there is no such class.
fn source(
    alloc: Global,
    vertices: u32,
    edges: &[(u32, u32)],
    blocked: &[u32],
) -> Result<Vec<u32>, Fail> {
    let graph = graph(alloc, vertices, edges)?;
    let blocked = below(alloc, vertices, blocked)?;
    Ok(match graph.source_class(alloc, blocked.as_slice())? {
        Some(class) => class,
        None => Vec::new(alloc),
    })
}

/// Two rings, of which the one reaches the other by one edge.
const JOINED: &[(u32, u32)] = &[(1, 2), (2, 1), (3, 2), (3, 0), (0, 3)];

/// Edges of a graph of four vertices, those that are blocked, and the class that comes first.
const SOURCES: &[(&[(u32, u32)], &[u32], &[u32])] = &[
    (RING, &[], &[0, 1, 2]),
    (RING, &[3], &[0, 1, 2]),
    (RING, &[1], &[]),
    (JOINED, &[], &[0, 3]),
    (JOINED, &[1, 2], &[0, 3]),
    (JOINED, &[0], &[]),
    (&[(3, 3)], &[0, 1, 2], &[3]),
    (&[], &[0, 2, 3], &[1]),
    (&[], &[0, 1, 2, 3], &[]),
];

/// Fails where another class comes first.
fn check_first(alloc: Global) -> Result<(), Fail> {
    for (row, (edges, blocked, want)) in SOURCES.iter().enumerate() {
        if source(alloc, 4, edges, blocked)?.as_slice() != *want {
            return Err(wrong(row));
        }
    }
    Ok(())
}

#[test]
fn classes_that_nothing_outside_reaches(rt: HostRuntime) -> Result<(), Fail> {
    check_first(rt.alloc())
}
