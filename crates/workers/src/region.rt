// A region of a mesh, as the triangles in it: edge collapse, and regions as bytes, three to a triangle.
ghost use Rattle.std.specs.Prelude.{◌≡◌, ◌≤◌, length};
ghost use Rattle.std.specs.List.{list_any};
ghost use Rattle.workers.specs.Meshes.{triangles_of, points_to, edge_of, collapsed, Collapses, bytes_of, Reads};

use crate::few::Few;
use crate::triangle::{Edge, Triangle};
use arrayvec::ArrayVec;
use std::fmt;

/// A region of a mesh: up to eight triangles.
#[derive(Clone, Copy, Debug, PartialEq, Eq)]
pub struct Region {
    triangles: Few<Triangle, 8>,
}

/// The two vertices are not the ends of an edge of the region.
#[derive(Clone, Copy, Debug, PartialEq, Eq)]
pub struct NoEdge {
    pub edge: Edge,
}

impl Region {
    /// The triangles.
    pub fn triangles(&self) -> &[Triangle]
        ensures triangles { result.now ≡ triangles_of self.now }
        ensures few { length result.now ≤ 8 }
    {
        self.triangles.as_slice()
    }

    /// Whether some triangle points at the vertex.
    pub fn points_at(&self, vertex: u8) -> bool
        ensures { result ≡ list_any (points_to vertex) (triangles_of self.now) }
    {
        self.triangles().iter().any(|t| t.points_at(vertex))
    }

    /// Whether the two vertices are the ends of an edge.
    pub fn has_edge(&self, edge: Edge) -> bool
        ensures { result ≡ edge_of edge (triangles_of self.now) }
    {
        edge.keep != edge.remove && self.triangles().iter().any(|t| t.has_edge(edge))
    }

    /// Collapses an edge: `keep` takes the place of `remove` in every triangle, and triangles that then have two equal corners are left out.
    /// No triangle of the result points at `remove`. It fails if the two are not the ends of an edge.
    pub fn collapse(&self, edge: Edge) -> Result<Region, NoEdge>
        ensures { Collapses (triangles_of self.now) edge result }
    {
        if !self.has_edge(edge) {
            return Err(NoEdge { edge });
        }
        Ok(self.merged(edge))
    }

    // The region with one vertex merged into another.
    fn merged(&self, edge: Edge) -> Region
        ensures { triangles_of result ≡ collapsed edge (triangles_of self.now) }
    {
        let mut triangles = Few::new(Triangle::default());
        for t in self.triangles() {
            let after = t.moved(edge);
            if !after.is_flat() {
                triangles.push(after);
            }
        }
        Region { triangles }
    }

    /// The region that these bytes stand for; none if they are more than 24, or do not come in threes.
    pub fn read(bytes: &[u8]) -> Option<Region>
        ensures { Reads bytes.now result }
    {
        let (threes, rest) = bytes.as_chunks::<3>();
        if threes.len() > 8 || !rest.is_empty() {
            return None;
        }
        let mut triangles = Few::new(Triangle::default());
        for [a, b, c] in threes {
            triangles.push(Triangle {
                a: *a,
                b: *b,
                c: *c,
            });
        }
        Some(Region { triangles })
    }

    /// The bytes of the region, three to a triangle.
    pub fn pack(&self) -> ArrayVec<u8, 24>
        ensures bytes { result.items ≡ bytes_of (triangles_of self.now) }
        ensures few { length result.items ≤ 24 }
    {
        let mut bytes = ArrayVec::new();
        for t in self.triangles() {
            bytes.push(t.a);
            bytes.push(t.b);
            bytes.push(t.c);
        }
        bytes
    }
}

impl fmt::Display for Region {
    fn fmt<W: fmt::Write>(&self, f: &mut fmt::Formatter<W>) -> fmt::Result {
        write!(f, "triangles")?;
        for t in self.triangles() {
            write!(f, " {t}")?;
        }
        Ok(())
    }
}
