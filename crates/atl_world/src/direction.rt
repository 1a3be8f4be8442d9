//! The four directions to neighbouring regions.

/// A direction to the next region: one of the four sides of a region. North is opposite to south,
/// and east to west.
#[derive(Drop, Clone, Copy, Debug, PartialEq, Eq)]
pub enum Direction {
    North,
    South,
    East,
    West,
}
