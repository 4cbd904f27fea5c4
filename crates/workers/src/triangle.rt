// Triangles and edges, and the questions about them.
ghost use Rattle.std.specs.Prelude.{◌≡◌};
ghost use Rattle.workers.specs.Meshes.{points_to, has_edge, flat_triangle, corner_after, triangle_after};

use std::fmt;

/// The two ends of an edge, for an edge collapse: the vertex that stays, and the one that goes.
#[derive(Clone, Copy, Debug, PartialEq, Eq)]
pub struct Edge {
    pub keep: u8,
    pub remove: u8,
}

impl Edge {
    // Where a corner goes in a collapse.
    fn corner_after(self, vertex: u8) -> u8
        ensures { result ≡ corner_after self vertex }
    {
        if vertex == self.remove {
            self.keep
        } else {
            vertex
        }
    }
}

/// A triangle, by the indices of its three vertices.
#[derive(Clone, Copy, Debug, Default, PartialEq, Eq)]
pub struct Triangle {
    pub a: u8,
    pub b: u8,
    pub c: u8,
}

impl Triangle {
    /// Whether the vertex is one of the corners.
    pub fn points_at(&self, vertex: u8) -> bool
        ensures { result ≡ points_to vertex self.now }
    {
        self.a == vertex || self.b == vertex || self.c == vertex
    }

    /// Whether both ends of the edge are corners.
    pub fn has_edge(&self, edge: Edge) -> bool
        ensures { result ≡ has_edge edge self.now }
    {
        self.points_at(edge.keep) && self.points_at(edge.remove)
    }

    /// Whether two corners are equal.
    pub fn is_flat(&self) -> bool
        ensures { result ≡ flat_triangle self.now }
    {
        self.a == self.b || self.b == self.c || self.a == self.c
    }

    /// The triangle with one end of the edge in the place of the other.
    pub fn moved(&self, edge: Edge) -> Triangle
        ensures { result ≡ triangle_after edge self.now }
    {
        Triangle {
            a: edge.corner_after(self.a),
            b: edge.corner_after(self.b),
            c: edge.corner_after(self.c),
        }
    }
}

impl fmt::Display for Edge {
    fn fmt<W: fmt::Write>(&self, f: &mut fmt::Formatter<W>) -> fmt::Result {
        write!(f, "{}-{}", self.keep, self.remove)
    }
}

impl fmt::Display for Triangle {
    fn fmt<W: fmt::Write>(&self, f: &mut fmt::Formatter<W>) -> fmt::Result {
        write!(f, "({} {} {})", self.a, self.b, self.c)
    }
}
