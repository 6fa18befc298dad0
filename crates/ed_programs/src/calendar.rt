ghost use Rattle.ed_programs.specs.Calendar.{calendar_cost, calendar_orders, calendar_prints, calendar_refusal};
ghost use Rattle.ed_programs.specs.Calendar.{calendar_text};
ghost use Rattle.ed_programs.specs.Programs.{GivesProgram};
ghost use Rattle.ed_programs.specs.Tapes.{TapePrints};

use crate::filled::filled_program;
use crate::refusal::Refusal;
use std::alloc::Global;

/// The first and the last year: the program counts from a Tuesday, and takes each fourth year for a leap year.
const FIRST_YEAR: u16 = 1901;

const LAST_YEAR: u16 = 2099;

/// The tape before the month, between it and the year, and after that.
pub const CALENDAR: [&str; 3] = [
    "[The calendar of a month between January 1901 and December 2099. The rows after the entry are its data: \
    the month\n\
    \x20and the year, each with F after it. Write your own in the last line.\n\
    \n\
    \x20Flow diagram\n\
    \n\
    \x20       read the month and the year\n\
    \x20         |\n\
    \x20       the day is a Tuesday: 1 January 1901\n\
    \x20         |\n\
    \x20  +--> is it the year? --yes--+\n\
    \x20  |      | no                 |\n\
    \x20  |    one weekday on, and    |\n\
    \x20  |    two in a leap year     |\n\
    \x20  |      |                    |\n\
    \x20  +------+                    |\n\
    \x20         +--------------------+\n\
    \x20         |\n\
    \x20       in a leap year February has 29 days\n\
    \x20         |\n\
    \x20  +--> is it the month? --yes-+\n\
    \x20  |      | no                 |\n\
    \x20  |    as many weekdays on as |\n\
    \x20  |    the month has days     |\n\
    \x20  |      |                    |\n\
    \x20  +------+                    |\n\
    \x20         +--------------------+\n\
    \x20         |\n\
    \x20       take sevens away: the weekday, 0 for a Sunday\n\
    \x20         |\n\
    \x20       print the month, the year, the heads, and three spaces for each day before\n\
    \x20         |\n\
    \x20  +--> print a day, and after a Saturday a new line\n\
    \x20  |      |\n\
    \x20  +-yes- are days left?\n\
    \x20         | no\n\
    \x20        stop\n\
    \n\
    \x20Look for: the leap years, by a count from -3 to 0; the list of lengths, which is reached by an order that is\n\
    \x20changed; the name of the month, which three orders that the program makes copy into the title.]\n\
    \n\
    T45K P350F      [H: the numbers from 350 on]\n\
    T46K P290F      [N: the printing from 290 on]\n\
    T47K P330F      [M: the reading from 330 on]\n\
    T49K P200F      [L: the signs from 200 on]\n\
    \n\
    [The numbers, H.]\n\
    T350K\n\
    PF PF P1F PF    [0: the year; the month; the weekday, 2 for a Tuesday; the number that was read, or is printed]\n\
    PF PD PF QF     [4: the figure; 1; a place to clear the accumulator into; 1 at the head of a word]\n\
    PF P5F          [8: the row that was read; 10]\n\
    P950D V2046D    [10: 1901; -3, the years to the next leap year]\n\
    PF PF PF        [12: a count; the length of the month; whether a figure was printed]\n\
    S20H            [15: the order that takes away the first power of ten that is wanted]\n\
    !F S23H         [16: a space; the order past the last power]\n\
    P2F A30H        [18: 4; the order for the length of January]\n\
    P500F P50F P5F  [20: 1000, 100 and 10]\n\
    S22H            [23: the order for 10]\n\
    @F O24L         [24: carriage return; the order past the signs that are wanted]\n\
    PF P3D PF &F    [26: the day of the week, counted up from -7; 7; the day; line feed]\n\
    P15D P14F P15D P15F P15D P15F  [30: the lengths of the months]\n\
    P15D P15D P15F P15D P15F P15D  [36]\n\
    \n\
    [The signs, L: a subroutine that prints on from where it was to the order at 25H, and the signs.]\n\
    T200K GK\n\
    A3F T10@                [0: the link]\n\
    T6H                     [2: clear the accumulator]\n\
    O12@                    [3: print a sign]\n\
    A3@ A2F U3@             [4: the next sign]\n\
    S25H G2@                [7: again, if signs are left]\n\
    T6H                     [9]\n\
    PF                      [10: the link]\n\
    O51@                    [11: the order past the last sign]\n\
    *F !F !F !F !F !F !F !F !F !F !F #F [12: the title, with room for a month]\n\
    @F &F *F !F SF UF !F MF OF !F TF UF !F WF EF [24: the heads of the columns]\n\
    !F TF HF !F FF RF !F SF AF @F &F #F [39]\n\
    JF AF NF FF EF BF MF AF RF AF PF RF MF AF YF JF UF NF [51]\n\
    JF UF LF AF UF GF SF EF PF OF CF TF NF OF VF DF EF CF [69]\n\
    \n\
    [The printing, N: the number at 3H, with a space for each nought before its first figure.]\n\
    T290K GK\n\
    A3F T38@                [0: the link]\n\
    T14H                    [2: no figure is printed yet]\n\
    A15H T8@                [3: the first power of ten]\n\
    T6H                     [5: clear the accumulator]\n\
    T4H                     [6: the figure is 0]\n\
    A3H                     [7]\n\
    PF                      [8: S and the place of a power of ten]\n\
    G15@                    [9: less is left]\n\
    T3H                     [10]\n\
    A4H A7H T4H             [11: the figure is one more]\n\
    E7@                     [14: the accumulator is 0: again]\n\
    T6H                     [15]\n\
    A4H A14H S7H G25@       [16: a nought before the first figure]\n\
    O4H                     [20: print the figure]\n\
    T6H A7H T14H            [21: from now on noughts are printed]\n\
    E26@                    [24]\n\
    O16H                    [25: print a space]\n\
    T6H                     [26]\n\
    A8@ A2F U8@             [27: the next power of ten]\n\
    S17H G5@                [30: again down to 10]\n\
    T6H                     [32]\n\
    A3H L512F LD            [33: the units, to the head of the word]\n\
    T4H O4H                 [36: print them]\n\
    PF                      [38: the link]\n\
    \n\
    [The reading, M.]\n\
    T330K GK\n\
    A3F T17@                [0: the link]\n\
    T3H                     [2: the number is 0]\n\
    I8H                     [3: the next row]\n\
    A8H S9H E16@            [4: it is not a figure]\n\
    T6H                     [7]\n\
    A3H LD U6H              [8: twice the number]\n\
    L1F A6H A8H T3H         [11: ten times, and the figure]\n\
    E3@                     [15: the accumulator is 0: the next row]\n\
    T6H                     [16: clear the accumulator]\n\
    PF                      [17: the link]\n\
    \n\
    [The master.]\n\
    T56K GK\n\
    A@ GM                   [0: the month]\n\
    A3H T1H                 [2]\n\
    A4@ GM                  [4: the year]\n\
    A3H TH                  [6]\n\
    T6H                     [8: clear the accumulator]\n\
    A10H SH E32@            [9: is it the year?]\n\
    T6H A2H A5H T2H         [12: one weekday on]\n\
    A11H G24@               [16: it is not a leap year]\n\
    T6H A2H A5H T2H         [18: one more]\n\
    S18H T11H               [22: four years to the next]\n\
    T6H                     [24]\n\
    A11H A5H T11H           [25: the years to the next leap year are one fewer]\n\
    A10H A5H T10H           [28: the next year]\n\
    E8@                     [31: the accumulator is 0: again]\n\
    T6H                     [32]\n\
    A11H G39@               [33: it is not a leap year]\n\
    T6H A31H A5H T31H       [35: February is one day longer]\n\
    T6H                     [39]\n\
    S1H A5H T12H            [40: the months to go, below 0]\n\
    A19H T51@               [43: begin with January]\n\
    T6H                     [45]\n\
    A12H E57@               [46: is it the month?]\n\
    A5H T12H                [48]\n\
    A2H                     [50: the weekday is that many days on]\n\
    PF                      [51: A and the place of the month's length]\n\
    T2H                     [52]\n\
    A51@ A2F T51@           [53: the next month]\n\
    E45@                    [56: the accumulator is 0: again]\n\
    A51@ T59@               [57: the order for its length]\n\
    PF                      [59]\n\
    T13H                    [60]\n\
    A2H                     [61]\n\
    S27H E62@               [62: take sevens away]\n\
    A27H T2H                [64: the weekday]\n\
    A1H S5H LD U6H          [66: six times the months before, 3 in an address]\n\
    LD A6H A132@            [70: the order for the first letter of the name]\n\
    U78@ A2F                [73: and for the other two]\n\
    U80@ A2F T82@           [75]\n\
    PF T19L                 [78: put them into the title]\n\
    PF T20L                 [80]\n\
    PF T21L                 [82]\n\
    A84@ GL                 [84: print the title]\n\
    AH T3H                  [86]\n\
    A88@ GN                 [88: print the year]\n\
    A11L T25H               [90: and the rest of the signs]\n\
    A92@ GL                 [92]\n\
    A23H T15H               [94: from now on two figures]\n\
    A2H S27H T26H           [96: the place in the week, below 0]\n\
    S2H T12H                [99: the days before, below 0]\n\
    T6H                     [101]\n\
    A12H E110@              [102: no day before is left]\n\
    A5H T12H                [104]\n\
    O16H O16H O16H          [106: three spaces]\n\
    E101@                   [109: the accumulator is 0: again]\n\
    T6H                     [110]\n\
    A28H A5H U28H U3H       [111: the next day]\n\
    S13H S5H E131@          [115: there are no more]\n\
    O16H                    [118]\n\
    T6H                     [119]\n\
    A120@ GN                [120: print the day]\n\
    A26H A5H U26H G110@     [122: the week is not over]\n\
    S27H T26H               [126]\n\
    O24H O29H               [128: a new line]\n\
    E110@                   [130]\n\
    ZF                      [131: stop]\n\
    A51L                    [132: the order for the first letter of JAN]\n\
    E56K PF\n",
    "F",
    "F\n",
];

/// The tape that prints the calendar of a month: `examples/calendar.tape` with these instead of May 1949.
pub fn calendar_program(alloc: Global, month: u16, year: u16) -> Result<String, Refusal>
    ensures is { GivesProgram (calendar_refusal month year) (calendar_text month year) result }
    ensures law { TapePrints calendar_cost (calendar_orders month year) 188 (calendar_prints month year) result }
{
    if month < 1 || 12 < month {
        return Err(Refusal::Month);
    }
    if year < FIRST_YEAR || LAST_YEAR < year {
        return Err(Refusal::Year);
    }
    filled_program(alloc, &CALENDAR, &[month, year])
}
