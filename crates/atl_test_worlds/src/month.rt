//! A month on the island: SQL that adds two factions with units to a new campaign, and the mailings
//! of both.

/// SQL, one transaction, that adds two factions with a report each, eleven units and a boat to the
/// tables of an island where nobody has joined. A unit of each faction is in the boat; all that the
/// units hold is booked under Joining.
pub const MONTH_ROWS: &str =
    "BEGIN; INSERT INTO faction VALUES (1, 'Avalon', 'Avalon', 'pw', 0), (2, 'Bree', 'Bree', 'pb', 0);
INSERT INTO report VALUES (1, 'A report.'), (2, 'A report.');
INSERT INTO unit VALUES (1, 1, 'Unit 1', 1, 0, 5, 100, 1), (2, 1, 'Unit 2', 1, 0, 4, 60, 0),
(3, 1, 'Unit 3', 1, 0, 1, 50, 0), (4, 1, 'Unit 4', 1, 1, 2, 30, 0), (5, 1, 'Unit 5', 3, 0, 15, 200, 0),
(6, 1, 'Unit 6', 3, 0, 3, 100, 0), (7, 1, 'Unit 7', 4, 0, 2, 40, 1), (8, 2, 'Unit 8', 1, 1, 1, 20, 0),
(9, 2, 'Unit 9', 3, 0, 25, 300, 0), (10, 2, 'Unit 10', 4, 0, 2, 4, 0), (11, 2, 'Unit 11', 4, 0, 1, 0, 0);
INSERT INTO has VALUES (3, 1, 1, 90), (4, 1, 3, 60), (5, 1, 0, 450), (6, 0, 0, 5), (6, 1, 2, 90), (7, 0, 0, 1), (9, 1, 0, 750);
INSERT INTO structure VALUES (1, 0, 'Ship 1', 1, 10, 4);
INSERT INTO books VALUES (2, 0, 904), (2, 1, 61), (2, 2, 6);
UPDATE campaign SET next_faction = 3, next_unit = 12, next_structure = 2; COMMIT";

/// Avalon's mailing of eighteen orders. Of the two units that it forms, the first gets men and the
/// second gets none.
pub const AVALON_MAILING: &str = "#ATLANTIS 1 pw
UNIT 1
NAME UNIT Watch
FORM 1
WORK
END
FORM 2
END
PAY 2 40
TRANSFER NEW 1 2
TAX
RECRUIT 3
UNIT 2
STUDY carpentry
UNIT 3
TEACH 2
UNIT 4
NAME SHIP Gull
SAIL EAST
UNIT 5
PRODUCE wood
GIVE 6 5 wood
UNIT 6
GIVE 5 2 wood
BUILD boat
UNIT 7
GUARD 0
MOVE SOUTH
#END
";

/// Bree's mailing of one order. Its unit can't pay the fee, earns nothing, and starves.
pub const BREE_MAILING: &str = "#ATLANTIS 2 pb
UNIT 11
STUDY carpentry
";
