//! Ears and connected variables of small graphs.
ghost use Rattle.std.specs.Prelude.{◌≡◌, [], ◌∷◌};

use hyper_graph::{Graph, all_below, contains, least, without};
use std::alloc::Global;

/// Two relations that share a variable: each is an ear of the other.
fn is_chain(graph: &Graph) -> bool
    requires { graph.now ≡ record { atoms = 2; vars = 3 ∷ [] } }
{
    graph.atoms() == 2
        && graph.vars().len() == 1
        && graph.shared(0, 1)
        && graph.is_ear(0, 0b11) == Some(1)
        && graph.is_ear(1, 0b11) == Some(0)
        && graph.is_ear(1, 0b10).is_none()
        && graph.connected(0, &[0, 0])
}

fn chain_is_read(alloc: Global) -> bool {
    match Graph::new(alloc, 2, &[0b11]) {
        Ok(graph) => is_chain(&graph),
        Err(_) => false,
    }
}

#[test]
fn reads_a_chain(rt: HostRuntime) {
    assert!(rt; chain_is_read(rt.alloc()));
}

/// Atoms A to E, with y in A, B and D, z in B and C, x in C, A and E, and w in D and E: no ear.
fn has_no_ear(graph: &Graph) -> bool
    requires { graph.now ≡ record { atoms = 5; vars = 11 ∷ 6 ∷ 21 ∷ 24 ∷ [] } }
{
    graph.atoms() == 5
        && graph.is_ear(0, 0b11111).is_none()
        && graph.is_ear(1, 0b11111).is_none()
        && graph.is_ear(2, 0b11111).is_none()
        && graph.is_ear(3, 0b11111).is_none()
        && graph.is_ear(4, 0b11111).is_none()
}

/// Without E, the atom D of that graph shares only y, which A has. D and E are linked only in the
/// first tree.
fn has_links(graph: &Graph) -> bool
    requires { graph.now ≡ record { atoms = 5; vars = 11 ∷ 6 ∷ 21 ∷ 24 ∷ [] } }
{
    graph.is_ear(3, 0b01111) == Some(0)
        && !graph.shared(2, 3)
        && graph.shared(3, 4)
        && graph.connected(3, &[0, 0, 0, 0, 3])
        && !graph.connected(3, &[0, 0, 0, 0, 0])
}

fn five_are_linked_without_ear(alloc: Global) -> bool {
    match Graph::new(alloc, 5, &[0b01011, 0b00110, 0b10101, 0b11000]) {
        Ok(graph) => has_no_ear(&graph) && has_links(&graph),
        Err(_) => false,
    }
}

#[test]
fn finds_no_ear_of_five(rt: HostRuntime) {
    assert!(rt; five_are_linked_without_ear(rt.alloc()));
}

/// Atoms without common variables are ears of each other.
fn is_apart(graph: &Graph) -> bool
    requires { graph.now ≡ record { atoms = 3; vars = [] } }
{
    graph.is_ear(2, 0b111) == Some(0) && graph.is_ear(0, 0b111) == Some(1) && !graph.shared(0, 1)
}

fn three_are_apart(alloc: Global) -> bool {
    match Graph::new(alloc, 3, &[]) {
        Ok(graph) => is_apart(&graph),
        Err(_) => false,
    }
}

#[test]
fn takes_sets_apart(rt: HostRuntime) {
    assert!(rt; three_are_apart(rt.alloc()));
    assert!(rt; all_below(1) == 0b1 && all_below(16) == 0xffff);
    assert!(rt; contains(0b100, 2) && !contains(0b100, 1));
    assert!(rt; without(0b110, 1) == 0b100 && least(0b110) == 1 && least(0) == 16);
}
