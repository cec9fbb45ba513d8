ghost use Rattle.std.specs.Prelude.{◌≡◌, ◌≤◌, ◌+ℤ◌, unsigned_abs};
ghost use Rattle.plane.specs.Points.{place_at, file_point_at, file_centre_at, spot_at};
ghost use Rattle.plane.specs.Placed.{turned, placed};

use crate::points::{FileCentre, FilePoint, Place, Placing, Spot};

fn laid(mirror: bool, z: i32, d: i32) -> i32
    requires { (unsigned_abs z ≤ 45000) × (unsigned_abs d ≤ 300000) }
    ensures value { result ≡ turned mirror z +ℤ d }
    ensures small { unsigned_abs result ≤ 345000 }
{
    if mirror { d - z } else { d + z }
}

impl Placing {
    // for points and centres; private, since it asks for a limit that both of them keep
    fn bring<const LIMIT: u32>(self, p: Spot<LIMIT>) -> Place
        requires { LIMIT ≤ 45000 }
        ensures { place_at result ≡ placed self (spot_at p.entry) }
    {
        let x = laid(self.mirror_x, p.x, self.dx);
        let y = laid(self.mirror_y, p.y, self.dy);
        Place { x, y }
    }

    /// Where a point of the file comes to lie.
    pub fn place(self, p: FilePoint) -> Place
        ensures { place_at result ≡ placed self (file_point_at p) }
    {
        self.bring(p)
    }

    /// Where the centre of an arc comes to lie.
    pub fn place_centre(self, c: FileCentre) -> Place
        ensures { place_at result ≡ placed self (file_centre_at c) }
    {
        self.bring(c)
    }
}
