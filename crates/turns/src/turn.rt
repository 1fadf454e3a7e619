// Where a turn of the walk's loop stands: a cursor, and the number of its level.
ghost use Rattle.std.specs.Prelude.{◌≡◌, eqb};
ghost use Rattle.rules.specs.Step.{level_number};

use rules::{Cursor, Level};

fn is_second(level: Level) -> bool
    ensures { result ≡ eqb (level_number level) 1 }
{
    match level {
        Level::First => false,
        Level::Second(_) => true,
    }
}

// The level's number is for the record of the command at the cursor. Taken here, and not where the record is made, it spares the compiler
// keeping this turn's level beside the next one's, in every command.
#[derive(Clone, Copy)]
pub struct Turn {
    pub cursor: Cursor,
    pub level: usize,
}

// The number is made by a test, since the compiler then knows of it that it is 0 or 1, and it can go into a record as it is: with
// `onward::level_number` a no-op takes two instructions more by the plain engine, 31 for 29, and with no `Turn` at all 34.
pub fn turn_at(s: Cursor) -> Turn
    ensures { (result.cursor ≡ s) × (result.level ≡ level_number result.cursor.level) }
{
    let level = s.level;
    Turn {
        cursor: s,
        level: if is_second(level) { 1 } else { 0 },
    }
}
