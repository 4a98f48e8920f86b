//! The colours of vertices.

/// How far the collector has come with a vertex (Dijkstra, Lamport, Martin, Scholten and Steffens, 1978): a white
/// vertex is not yet known to be in use, a grey one is, and a black one is with all its edges looked at.
#[derive(Clone, Copy, PartialEq, Eq, Debug, Drop)]
pub enum Colour {
    White,
    Grey,
    Black,
}
