// Contours: a closed chain of straight pieces, and the points that it covers by the even-odd rule.
//
// `pieces` has a piece, which goes on from where the one before it ended. `contour` has the contour: it borrows its
// pieces from the table that holds them, and says where they are placed; it is closed, which `make` checks. `chain` has
// one placed piece: whether it counts for a point, and the box that it makes grow. `contour_shape` makes the contour a
// shape: it walks along the placed pieces, with no memory of its own, and tells the parity of those that count for a
// point, and the box of their ends. `laws` states what follows from the definitions.
//
// A piece counts for a point if exactly one of its ends lies at or below the point's height and the point lies to the
// left of the way up. So the left and the lower edges are covered, and the right and the upper ones are not.

#![tactic(auto)]

pub mod chain;
pub mod contour;
pub mod contour_shape;
pub mod laws;
pub mod make;
pub mod pieces;
