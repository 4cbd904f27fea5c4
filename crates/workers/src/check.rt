// The check at the end of a day.
ghost use Rattle.workers.specs.Meshes.{triangles_of, Pointed};

use crate::region::Region;

/// The first of these vertices at which a triangle of the region points.
pub fn pointed_at(region: &Region, vertices: &[u8]) -> Option<u8>
    ensures { Pointed (triangles_of region.now) vertices.now result }
{
    vertices.iter().copied().find(|v| region.points_at(*v))
}
