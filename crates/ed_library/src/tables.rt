//! The routines as tables. To add a routine takes a table, an entry of the catalogue in `specs/`, and an arm here.
ghost use Rattle.std.specs.Prelude.{◌≡◌, ◌<◌, true};
ghost use Rattle.std.specs.List.{list_all};
ghost use Rattle.ed_library.specs.Entries.{entry, how_many};
ghost use Rattle.ed_library.specs.Routines.{is_row};

use ed_codes::letters;

/// An item of a routine as plain numbers.
#[derive(Clone, Copy)]
pub struct TableRow {
    /// The code of the function row.
    pub function: u8,
    /// The number of the digit rows.
    pub number: u16,
    /// Whether a π follows the number.
    pub mark: bool,
    /// The code of the ending row.
    pub end: u8,
}

/// A row of a table: the function, the number, `PI` if a π follows it, and the ending row.
macro_rules! row {
    ($function:ident $number:literal $end:ident) => {
        TableRow {
            function: letters::$function,
            number: $number,
            mark: false,
            end: letters::$end,
        }
    };
    ($function:ident $number:literal PI $end:ident) => {
        TableRow {
            function: letters::$function,
            number: $number,
            mark: true,
            end: letters::$end,
        }
    };
}

/// The routine `check`, which obeys another program order by order and prints the function of each order.
pub const CHECK: [TableRow; 66] = [
    row!(A 0 H),
    row!(U 40 THETA),
    row!(O 40 THETA),
    row!(E 13 THETA),
    row!(S 53 THETA),
    row!(G 30 THETA),
    row!(S 55 THETA),
    row!(E 30 THETA),
    row!(A 56 THETA),
    row!(T 58 THETA),
    row!(A 60 PI THETA),
    row!(G 26 THETA),
    row!(E 21 THETA),
    row!(S 54 THETA),
    row!(G 30 THETA),
    row!(S 55 THETA),
    row!(E 30 THETA),
    row!(A 56 THETA),
    row!(T 58 THETA),
    row!(A 60 PI THETA),
    row!(E 26 THETA),
    row!(T 59 THETA),
    row!(A 0 THETA),
    row!(A 57 THETA),
    row!(T 0 THETA),
    row!(E 0 THETA),
    row!(T 59 THETA),
    row!(A 58 THETA),
    row!(T 0 THETA),
    row!(E 0 THETA),
    row!(T 59 THETA),
    row!(A 64 PI THETA),
    row!(R 0 F),
    row!(R 0 F),
    row!(R 4 F),
    row!(A 62 PI THETA),
    row!(R 0 F),
    row!(R 0 F),
    row!(R 4 F),
    row!(A 60 PI THETA),
    row!(P 0 F),
    row!(U 60 PI THETA),
    row!(S 60 PI THETA),
    row!(L 0 F),
    row!(L 0 F),
    row!(L 64 F),
    row!(U 62 PI THETA),
    row!(S 62 PI THETA),
    row!(L 0 F),
    row!(L 0 F),
    row!(L 64 F),
    row!(T 64 PI THETA),
    row!(E 22 THETA),
    row!(G 0 F),
    row!(E 0 F),
    row!(Q 0 F),
    row!(B 0 F),
    row!(P 1 F),
    row!(P 0 F),
    row!(P 0 F),
    row!(P 0 F),
    row!(P 0 F),
    row!(P 0 F),
    row!(P 0 F),
    row!(P 0 F),
    row!(P 0 F),
];

/// The routine `divide`, which divides a number of 32 digits by one of 15.
pub const DIVIDE: [TableRow; 41] = [
    row!(A 3 F),
    row!(T 32 THETA),
    row!(A 33 THETA),
    row!(R 0 F),
    row!(R 0 D),
    row!(T 36 PI THETA),
    row!(A 0 N),
    row!(R 0 F),
    row!(R 0 D),
    row!(A 0 H),
    row!(T 38 PI THETA),
    row!(S 34 THETA),
    row!(U 35 THETA),
    row!(T 40 THETA),
    row!(A 38 PI THETA),
    row!(L 0 D),
    row!(S 0 M),
    row!(E 20 THETA),
    row!(A 0 M),
    row!(E 21 THETA),
    row!(A 36 PI THETA),
    row!(T 38 PI THETA),
    row!(A 35 THETA),
    row!(A 33 THETA),
    row!(U 35 THETA),
    row!(G 13 THETA),
    row!(A 38 PI THETA),
    row!(U 0 H),
    row!(S 0 H),
    row!(L 0 F),
    row!(L 2 F),
    row!(T 0 N),
    row!(P 0 F),
    row!(P 0 D),
    row!(P 8 F),
    row!(P 0 F),
    row!(P 0 F),
    row!(P 0 F),
    row!(P 0 F),
    row!(P 0 F),
    row!(P 0 F),
];

/// The routine `newline`, which prints a carriage return and a line feed.
pub const NEWLINE: [TableRow; 7] = [
    row!(A 3 F),
    row!(T 4 THETA),
    row!(O 5 THETA),
    row!(O 6 THETA),
    row!(P 0 F),
    row!(CARRIAGE_RETURN 0 F),
    row!(LINE_FEED 0 F),
];

/// The routine `print`, which prints the integer at a location.
pub const PRINT: [TableRow; 51] = [
    row!(A 3 F),
    row!(T 38 THETA),
    row!(O 39 THETA),
    row!(A 0 H),
    row!(T 47 THETA),
    row!(T 48 THETA),
    row!(A 41 THETA),
    row!(T 11 THETA),
    row!(T 50 THETA),
    row!(T 49 THETA),
    row!(A 47 THETA),
    row!(S 43 THETA),
    row!(G 18 THETA),
    row!(T 47 THETA),
    row!(A 49 THETA),
    row!(A 40 THETA),
    row!(T 49 THETA),
    row!(E 10 THETA),
    row!(T 50 THETA),
    row!(A 49 THETA),
    row!(A 48 THETA),
    row!(S 40 THETA),
    row!(G 27 THETA),
    row!(O 49 THETA),
    row!(T 50 THETA),
    row!(A 40 THETA),
    row!(T 48 THETA),
    row!(T 50 THETA),
    row!(A 11 THETA),
    row!(A 2 F),
    row!(U 11 THETA),
    row!(S 42 THETA),
    row!(G 8 THETA),
    row!(A 47 THETA),
    row!(L 512 F),
    row!(L 0 D),
    row!(T 49 THETA),
    row!(O 49 THETA),
    row!(P 0 F),
    row!(FIGURE_SHIFT 0 F),
    row!(Q 0 F),
    row!(S 43 THETA),
    row!(S 47 THETA),
    row!(P 5000 F),
    row!(P 500 F),
    row!(P 50 F),
    row!(P 5 F),
    row!(P 0 F),
    row!(P 0 F),
    row!(P 0 F),
    row!(P 0 F),
];

/// The routine `read`, which reads an integer of digit rows into a location.
pub const READ: [TableRow; 24] = [
    row!(A 3 F),
    row!(T 19 THETA),
    row!(T 21 THETA),
    row!(I 22 THETA),
    row!(A 22 THETA),
    row!(S 20 THETA),
    row!(E 16 THETA),
    row!(T 23 THETA),
    row!(A 21 THETA),
    row!(L 0 D),
    row!(U 23 THETA),
    row!(L 1 F),
    row!(A 23 THETA),
    row!(A 22 THETA),
    row!(T 21 THETA),
    row!(E 3 THETA),
    row!(T 23 THETA),
    row!(A 21 THETA),
    row!(T 0 H),
    row!(P 0 F),
    row!(P 5 F),
    row!(P 0 F),
    row!(P 0 F),
    row!(P 0 F),
];

/// The routine `root`, which takes the square root of an integer.
pub const ROOT: [TableRow; 23] = [
    row!(A 3 F),
    row!(T 18 THETA),
    row!(A 0 H),
    row!(T 21 THETA),
    row!(A 19 THETA),
    row!(T 22 THETA),
    row!(A 21 THETA),
    row!(S 22 THETA),
    row!(G 14 THETA),
    row!(T 21 THETA),
    row!(A 22 THETA),
    row!(A 20 THETA),
    row!(T 22 THETA),
    row!(E 6 THETA),
    row!(T 21 THETA),
    row!(A 22 THETA),
    row!(R 0 D),
    row!(T 0 N),
    row!(P 0 F),
    row!(P 0 D),
    row!(P 1 F),
    row!(P 0 F),
    row!(P 0 F),
];

/// The number of routines.
pub(crate) const SIZE: u16 = 6;

/// What the catalogue says of a routine.
#[derive(Clone, Copy)]
pub(crate) struct Entry {
    /// The name by which a source uses the routine.
    pub(crate) name: &'static str,
    /// The letters of the preset parameters, in ascending order.
    pub(crate) parameters: &'static [u8],
    /// The offsets of the routine's own words that it changes.
    pub(crate) working: &'static [u16],
    /// The items, one for each word.
    pub(crate) items: &'static [TableRow],
}

/// The routine with this index in the order of names.
pub(crate) fn table(index: u16) -> Entry
    requires { index < how_many }
    ensures name { result.name.now ≡ (entry index).name }
    ensures parameters { result.parameters.now ≡ (entry index).parameters }
    ensures working { result.working.now ≡ (entry index).working }
    ensures items { result.items.now ≡ (entry index).items }
    ensures rows { list_all is_row result.items.now ≡ true }
{
    match index {
        0 => Entry {
            name: "check",
            parameters: &[letters::H],
            working: &[0, 40, 58, 59, 60, 61, 62, 63, 64, 65],
            items: &CHECK,
        },
        1 => Entry {
            name: "divide",
            parameters: &[letters::H, letters::N, letters::M],
            working: &[32, 35, 36, 37, 38, 39, 40],
            items: &DIVIDE,
        },
        2 => Entry {
            name: "newline",
            parameters: &[],
            working: &[4],
            items: &NEWLINE,
        },
        3 => Entry {
            name: "print",
            parameters: &[letters::H],
            working: &[11, 38, 47, 48, 49, 50],
            items: &PRINT,
        },
        4 => Entry {
            name: "read",
            parameters: &[letters::H],
            working: &[19, 21, 22, 23],
            items: &READ,
        },
        5 => Entry {
            name: "root",
            parameters: &[letters::H, letters::N],
            working: &[18, 21, 22],
            items: &ROOT,
        },
        _ => unreachable!(),
    }
}
