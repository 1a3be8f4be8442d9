//! The world of a campaign, look-ups in it, the rules of names, the order table, and the containers
//! that every crate uses.
#![tactic(auto)]

mod by_number;
mod direction;
mod drop_by_hand;
mod format;
pub mod letters;
pub mod limits;
pub mod lookup;
mod marked_map;
mod marked_numbers;
mod marks;
mod names;
mod numbered;
mod sequence;
mod sorted_numbers;
mod text;
mod titled;
mod variants;
mod verb;
mod world;

pub use direction::Direction;
pub use format::Format;
pub use marked_map::MarkedMap;
pub use marked_numbers::MarkedNumbers;
pub use marks::Marks;
pub use names::{name_ok, pass_ok, word_ok};
pub use numbered::{Entries, Numbered};
pub use sequence::Sequence;
pub use text::Text;
pub use titled::Titled;
pub use verb::{Row, Shape, Slot, Verb};
pub use world::{Item, Kind, Market, RegionPlan, Rules, Skill, Terrain, World};
