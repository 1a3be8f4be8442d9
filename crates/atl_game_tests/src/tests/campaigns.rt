//! Tests of the calls on campaigns and holdings, against answers worked out by hand. A function
//! here holds at most one large value (a world, a campaign) and lends it.
mod books;
mod by_hand;
mod checks;
mod events;
mod goods;
mod holdings;
mod joining;
mod laws;
mod levels;
mod making;
mod owners;
mod parts;
mod setting;
mod shown;
mod steps;
mod stocks;
mod units_in_turn;
mod walks;
