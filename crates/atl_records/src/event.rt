//! Events: the outcomes of a month's orders, and their faults. See docs/RULES.md, "Events".
ghost use Rattle.std.specs.Prelude.{◌≡◌};

use atl_world::{Verb, name_of, variants};
use std::error::Error;
use std::fmt;

/// What an event reports on: an order, a unit's work without an order, or its upkeep.
#[derive(Drop, Clone, Copy, PartialEq, Eq)]
pub enum EventVerb {
    Order(Verb),
    Upkeep,
}

impl EventVerb {
    ghost use Rattle.atl_records.specs.Events.{event_keyword};

    /// The keyword of the order, or `UPKEEP`, in capitals as reports print it.
    pub fn keyword(self) -> &'static str
        ensures { result.now ≡ event_keyword self }
    {
        match self {
            EventVerb::Order(verb) => verb.keyword(),
            EventVerb::Upkeep => "UPKEEP",
        }
    }
}

/// Why an order isn't carried out. It changes nothing of the campaign. See docs/RULES.md, "Events".
#[derive(Drop, Clone, Copy, Debug, PartialEq, Eq)]
pub enum EventFault {
    /// The unit isn't there, or the unit or the receiver of TRANSFER is another faction's.
    NotYours = 1,
    /// The other unit or the structure isn't in the region, or that unit isn't in the structure.
    NotHere = 2,
    /// The unit holds too little for the order.
    NotEnough = 3,
    /// The receiver can't hold so much more.
    NoRoom = 4,
    /// A unit of another faction guards the region.
    Guarded = 5,
    /// The unit doesn't own the structure that it is inside.
    NotOwner = 6,
    /// The unit is inside no structure, or not inside a ship or a building as the order names it.
    NotInside = 7,
    /// No further unit may be formed.
    UnitLimit = 8,
    /// The unit is on water.
    AtSea = 9,
    /// The unit has no men.
    NoMen = 10,
    /// The number isn't that of the unit's faction.
    WrongNumber = 11,
    /// The unit doesn't guard.
    NotGuarding = 12,
    /// The unit's level is too low, or no skill makes the item.
    NoSkill = 13,
    /// The unit holds none of the material, or too few raw items for one piece.
    NoMaterial = 14,
    /// The structure is complete.
    Complete = 15,
    /// No further structure may be begun.
    StructureLimit = 16,
    /// There is no region in that direction, or none that the order (MOVE or SAIL) can enter.
    NoWay = 17,
    /// The goods are too heavy for the unit, or men and goods are too heavy for the ship.
    TooHeavy = 18,
    /// The structure is no ship, or one that isn't complete.
    NotComplete = 19,
    /// The men of all units inside, times their level of sailing, are fewer than the ship's crew.
    NoCrew = 20,
    /// No unit of the list learns in the region.
    NotLearning = 21,
    /// No unit of the list that learns in the region has a level below the teacher's.
    CannotTeach = 22,
    /// The unit can't pay the fee.
    NoFee = 23,
    /// The region has no market for the item.
    NoMarket = 24,
}

/// All event faults, in the order of their numbers.
const FAULTS: [EventFault; 24] = variants!(
    EventFault: NotYours NotHere NotEnough NoRoom Guarded NotOwner NotInside UnitLimit AtSea
    NoMen WrongNumber NotGuarding NoSkill NoMaterial Complete StructureLimit NoWay TooHeavy
    NotComplete NoCrew NotLearning CannotTeach NoFee NoMarket
);

impl EventFault {
    ghost use Rattle.std.specs.Prelude.{find, ◌==◌};
    ghost use Rattle.atl_records.specs.Events.{event_fault_number, event_fault_name, event_faults};

    /// The fault's number, from 1 to 24.
    pub fn number(self) -> u8
        ensures { result ≡ event_fault_number self }
    {
        self as u8
    }

    /// The name of the fault, such as `NoWay`, as reports print it.
    pub fn name(self) -> &'static str
        ensures { result.now ≡ event_fault_name self }
    {
        name_of!(
            self, EventFault: NotYours NotHere NotEnough NoRoom Guarded NotOwner NotInside
            UnitLimit AtSea NoMen WrongNumber NotGuarding NoSkill NoMaterial Complete
            StructureLimit NoWay TooHeavy NotComplete NoCrew NotLearning CannotTeach NoFee
            NoMarket
        )
    }

    /// The fault with a given number from 1 to 24; None for any other number.
    pub fn of_number(number: u8) -> Option<EventFault>
        ensures { result ≡ find (λ fault. event_fault_number fault == number) event_faults }
    {
        FAULTS
            .iter()
            .copied()
            .find(|fault| fault.number() == number)
    }
}

/// Writes the fault's number and name, as `17 NoWay`.
impl fmt::Display for EventFault {
    fn fmt<W: fmt::Write>(&self, f: &mut fmt::Formatter<W>) -> fmt::Result {
        write!(f, "{} {}", self.number(), self.name())
    }
}

impl Error for EventFault {}

/// What came of an order, of work without one, or of upkeep: done, a fault, or men that starved.
#[derive(Drop, Clone, Copy, PartialEq, Eq)]
pub enum Outcome {
    /// The order or the work was carried out. The number is the one that its rule names (a unit
    /// that was formed, or how many men, days, pieces or how much money), or 0 where it names none.
    Done(u64),
    /// The order was not carried out, for the fault with this number (`EventFault::number`).
    Fault(u8),
    /// Men of a unit starved; the number says how many.
    Starved(u64),
}

/// An event of a month: an order, a unit's work without an order, or its upkeep, and the outcome.
#[derive(Drop, Clone, Copy, PartialEq, Eq)]
pub struct Event {
    /// The number of the faction whose report has the event: the one that wrote the order, or whose
    /// unit it is.
    pub faction: u32,
    /// The number of the unit that the event is of, or 0 in the block of a FORM that failed.
    pub unit: u32,
    /// The order's line in the mailing, counted from 1, or 0 for work without an order and upkeep.
    pub line: u32,
    /// The order's verb, WORK for work without an order, or upkeep.
    pub verb: EventVerb,
    pub outcome: Outcome,
}
