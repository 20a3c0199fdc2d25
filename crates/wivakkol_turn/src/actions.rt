// Kind, argument and origin of an action, for a caller who does what a turn says is done. The number is of 64 bits, as a row has it, so that none is cut to an action of the table.
ghost use Rattle.std.specs.Prelude.{◌≡◌};
ghost use Rattle.table.specs.Format.{table_of};
ghost use Rattle.origin.specs.Origin.{origin_in};
ghost use Rattle.wivakkol_turn.specs.Actions.{kind_code, argument_of};

use origin::origin;
use table::read;

// The code of the kind, 255 for what is no action of the table.
pub fn wivakkol_kind(table: &[u8], a: u64) -> u32
    ensures { result ≡ kind_code table.now a }
{
    if read::actions(table) as u64 <= a {
        return 255;
    }
    read::code(table, read::threads(table), a as usize) as u32
}

// The argument, 0 for what is no action of the table. The same test as of the kind: with the number and the read handed over, one function for both would be longer.
pub fn wivakkol_argument(table: &[u8], a: u64) -> u32
    ensures { result ≡ argument_of table.now a }
{
    if read::actions(table) as u64 <= a {
        return 0;
    }
    read::argument(table, read::threads(table), a as usize) as u32
}

// Of the table that runs with this quota: the action of the table as given that action a is, 65,535 where it was put in, or is no action.
pub fn wivakkol_origin(table: &[u8], quota: u32, a: u64) -> u32
    ensures { result ≡ origin_in (table_of table.now) quota a }
{
    origin(table, quota, a)
}
