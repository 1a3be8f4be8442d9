//! Tests of the two readers, the look-ups, the rules of names and the containers, by their public
//! calls alone. A function here holds at most one large value (a world, a mailing) and lends it.
//! Tables of cases are short, and each assertion of equality is written once, in `compare`. So the
//! proofs stay short.
mod containers;
mod faults;
mod laws;
mod lookups;
mod mailings;
mod marked_map;
mod markets;
mod names;
mod shown;
mod worlds;
