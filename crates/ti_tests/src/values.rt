// Integers, points, rectangles, domains and views.
//
// The expected values of the arithmetic were computed from its definition with unbounded integers. Rectangles and domains are compared
// with a membership test of each point of a small box, and views with lists of points.

mod domains;
mod grids;
mod operators;
mod points;
mod random;
mod rectangles;
mod spans;
