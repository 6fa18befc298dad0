//! Texts of random forms, with random blanks, comments and leading zeros, are read back as these forms.
ghost use Rattle.std.specs.Prelude.{◌<◌, ◌^◌};

use arrayvec::ArrayVec;
use ed_codes::Code;
use ed_syntax::{Line, Name, Operand, Setting, Statement, Version, parse};
use ed_words::{Long, Word};
use std::alloc::Global;
use std::process::Abort;

/// The number of sources that are printed, and the number of lines of each: 20,000 forms in all.
const SOURCES: u32 = 10;

const LINES: u32 = 2000;

/// The letters of the 32 rows, which are the functions of orders, by their codes.
const LETTERS: [&str; 32] = [
    "P", "Q", "W", "E", "R", "T", "Y", "U", "I", "O", "J", "#", "S", "Z", "K", "*", ".", "F", "@",
    "D", "!", "H", "N", "M", "&", "L", "X", "G", "A", "B", "C", "V",
];

/// Names that may stand anywhere, some of them keywords.
const NAMES: [&str; 8] = [
    "a",
    "main",
    "with",
    "segment",
    "x9_",
    "as",
    "long",
    "abcdefghijklmnop",
];

/// Names that may stand as labels and in operands of version 2.
const LOCAL_NAMES: [&str; 4] = ["_1", "_c", "_0_", "_abcdefghijklmno"];

/// What may precede a run, which must be apart from the run before it.
const BLANKS: [&str; 4] = [" ", "\t", "  ", "\t \t"];

/// What may precede a sign.
const FEW_BLANKS: [&str; 4] = ["", " ", "", "\t"];

/// What may precede a number.
const ZEROS: [&str; 4] = ["", "", "0", "000"];

/// The letters of settings, with their codes.
const SETTINGS: [(&str, u8); 6] = [
    ("H", 21),
    ("N", 22),
    ("M", 23),
    ("&", 24),
    ("L", 25),
    ("X", 26),
];

/// What may end a line.
const LINE_ENDS: [&str; 2] = ["\n", "\r\n"];

/// What may follow a form.
const COMMENTS: [&str; 4] = ["", " \t", ";", " ; A 5 F; \" none"];

/// A text that is written part by part, by numbers that are each made from the one before.
#[derive(Drop)]
struct Writer {
    text: String,
    last: u32,
    version: Version,
}

impl Writer {
    /// The next number, reduced to one of 0 to `count` - 1.
    fn below(&mut self, count: u32) -> u32
        requires { 0 < count }
        ensures { result < count }
    {
        self.last = self
            .last
            .wrapping_mul(1_664_525)
            .wrapping_add(1_013_904_223);
        self.last / 4096 % count
    }

    /// Writes a piece as it is.
    fn put(&mut self, rt: &impl Abort, piece: &str) {
        self.text.push_str(piece).ok().expect(rt, "memory");
    }

    /// Writes a name, a number or a keyword.
    fn run(&mut self, rt: &impl Abort, run: &str) {
        let blanks = BLANKS[self.below(4) as usize];
        self.put(rt, blanks);
        self.put(rt, run);
    }

    /// Writes a function, a letter, a length or a mark.
    fn sign(&mut self, rt: &impl Abort, sign: &str) {
        let blanks = FEW_BLANKS[self.below(4) as usize];
        self.put(rt, blanks);
        self.put(rt, sign);
    }

    /// Writes a number.
    fn number(&mut self, rt: &impl Abort, number: u64) {
        let zeros = ZEROS[self.below(4) as usize];
        self.run(rt, zeros);
        write!(self.text, "{number}").ok().expect(rt, "memory");
    }

    /// Writes a name that may stand anywhere.
    fn name(&mut self, rt: &impl Abort) -> Name {
        let name = NAMES[self.below(8) as usize];
        self.run(rt, name);
        Name::new(name).expect(rt, name)
    }

    /// Writes a name that may stand as a label and in an operand.
    fn place_name(&mut self, rt: &impl Abort) -> Name {
        if !self.version.is_two() || self.below(3) > 0 {
            return self.name(rt);
        }
        let name = LOCAL_NAMES[self.below(4) as usize];
        self.run(rt, name);
        Name::new(name).expect(rt, name)
    }

    /// Writes an operand.
    fn operand(&mut self, rt: &impl Abort) -> Operand {
        if self.below(3) == 0 {
            let number = self.below(32768);
            self.number(rt, u64::from(number));
            return Operand::Number(number as u16);
        }
        let name = self.place_name(rt);
        if self.below(3) == 0 {
            return Operand::Label { name, plus: 0 };
        }
        let minus = self.below(2) == 1;
        self.sign(rt, if minus { "-" } else { "+" });
        if self.version.is_two() && self.below(2) == 1 {
            let second = self.place_name(rt);
            return Operand::Two {
                first: name,
                second,
                minus,
            };
        }
        let number = self.below(1024);
        self.number(rt, u64::from(number));
        let plus = if minus {
            -(number as i32)
        } else {
            number as i32
        };
        Operand::Label { name, plus }
    }

    /// Writes a number from 0 to `most` or from -`least` to 0, and answers it modulo `most` + 1.
    fn integer(&mut self, rt: &impl Abort, least: u64, most: u64) -> u64
        requires least { least < 2 ^ 36 }
        requires most { most < 2 ^ 36 }
    {
        let high = u64::from(self.below(65536));
        let drawn = high * 1_048_576 + u64::from(self.below(1_048_576));
        if self.below(2) == 0 {
            let number = drawn % (most + 1);
            self.number(rt, number);
            return number;
        }
        let number = drawn % (least + 1);
        self.sign(rt, "-");
        self.number(rt, number);
        (most + 1).wrapping_sub(number) % (most + 1)
    }

    /// Writes a string of one to eight rows.
    fn string(&mut self, rt: &impl Abort) -> ArrayVec<Code, 120> {
        let mut codes = ArrayVec::new();
        self.sign(rt, "\"");
        for _ in 0..1 + self.below(8) {
            let number = self.below(32);
            self.put(rt, LETTERS[number as usize]);
            let code = Code::new(number as u8).expect(rt, "a code");
            codes.try_push(code).ok().expect(rt, "room");
        }
        self.put(rt, "\"");
        codes
    }

    /// Writes settings, as long as the line has room for one more.
    fn settings(&mut self, rt: &impl Abort, start: usize) -> ArrayVec<Setting, 6> {
        let mut settings = ArrayVec::new();
        if self.below(3) == 0 {
            return settings;
        }
        self.run(rt, "with");
        for place in 0..6 {
            if place > 0 {
                if self.below(3) == 0 || self.text.len().saturating_sub(start) > 55 {
                    break;
                }
                self.sign(rt, ",");
            }
            let setting = self.setting(rt);
            settings.try_push(setting).ok().expect(rt, "room");
        }
        settings
    }

    /// Writes a setting.
    fn setting(&mut self, rt: &impl Abort) -> Setting {
        let (letter, code) = SETTINGS[self.below(6) as usize];
        self.sign(rt, letter);
        self.sign(rt, "=");
        let operand = self.operand(rt);
        let letter = Code::new(code).expect(rt, "a code");
        Setting { letter, operand }
    }

    /// Writes an order.
    fn order(&mut self, rt: &impl Abort) -> Statement {
        let code = self.below(32);
        self.sign(rt, LETTERS[code as usize]);
        let operand = if self.below(4) == 0 {
            Operand::Number(0)
        } else {
            self.operand(rt)
        };
        let length = self.below(2) == 1;
        self.sign(rt, if length { "D" } else { "F" });
        Statement::Order {
            function: Code::new(code as u8).expect(rt, "a code"),
            operand,
            length,
        }
    }

    /// Writes a statement that may have a label.
    fn placed(&mut self, rt: &impl Abort) -> Statement {
        match self.below(if self.version.is_two() { 8 } else { 7 }) {
            0 | 1 => {
                self.run(rt, "word");
                let number = self.integer(rt, 65536, 131_071);
                Statement::Number {
                    value: Word::new((number % 131_072) as u32).expect(rt, "a word"),
                }
            }
            2 => {
                self.run(rt, "text");
                Statement::Text {
                    codes: self.string(rt),
                }
            }
            7 => {
                self.run(rt, "long");
                let number = self.integer(rt, 17_179_869_184, 34_359_738_367);
                Statement::Long {
                    value: Long::new(number).expect(rt, "a long word"),
                }
            }
            _ => self.order(rt),
        }
    }

    /// Writes a segment, with its base or without.
    fn segment(&mut self, rt: &impl Abort) -> Statement {
        self.run(rt, "segment");
        let name = self.name(rt);
        if self.below(2) == 0 {
            return Statement::Segment { name, base: None };
        }
        let base = self.below(1024);
        self.run(rt, "at");
        self.number(rt, u64::from(base));
        Statement::Segment {
            name,
            base: Some(base as u16),
        }
    }

    /// Writes a `use`.
    fn fetch(&mut self, rt: &impl Abort) -> Statement {
        let start = self.text.len();
        self.run(rt, "use");
        let routine = self.name(rt);
        self.run(rt, "as");
        let name = self.name(rt);
        Statement::Fetch {
            routine,
            name,
            settings: self.settings(rt, start),
        }
    }

    /// Writes the form of a line: its label and its statement.
    fn form(&mut self, rt: &impl Abort) -> (Option<Name>, Option<Statement>) {
        match self.below(12) {
            0 => (None, None),
            1 => (None, Some(self.segment(rt))),
            2 | 3 => (None, Some(self.fetch(rt))),
            4 => {
                self.run(rt, "enter");
                let name = self.name(rt);
                (None, Some(Statement::Enter { name }))
            }
            5 => {
                self.run(rt, "data");
                let codes = self.string(rt);
                (None, Some(Statement::Rows { codes }))
            }
            6 | 7 | 8 => {
                let label = self.place_name(rt);
                self.sign(rt, ":");
                if self.below(4) == 0 {
                    return (Some(label), None);
                }
                (Some(label), Some(self.placed(rt)))
            }
            _ => (None, Some(self.placed(rt))),
        }
    }

    /// Writes a line. The first line of version 2 says the version.
    fn line(&mut self, rt: &impl Abort, number: u32) -> Line {
        let (label, statement) = if number == 1 && self.version.is_two() {
            self.put(rt, " version\t02");
            (None, None)
        } else {
            self.form(rt)
        };
        let comment = COMMENTS[self.below(4) as usize];
        self.put(rt, comment);
        let end = LINE_ENDS[self.below(2) as usize];
        self.put(rt, end);
        Line {
            number,
            label,
            statement,
        }
    }
}

/// A source by its number, and the lines from which it was printed.
fn printed(rt: &impl Abort, alloc: Global, source: u32) -> (String, Vec<Line>) {
    let version = if source % 2 == 1 {
        Version::Two
    } else {
        Version::One
    };
    let mut writer = Writer {
        text: String::new(alloc),
        last: source,
        version,
    };
    let mut lines = Vec::new(alloc);
    for number in 1..LINES + 1 {
        lines
            .push(writer.line(rt, number))
            .ok()
            .expect(rt, "memory");
    }
    (writer.text, lines)
}

/// Whether two operands are alike.
fn are_operands_alike(one: &Operand, other: &Operand) -> bool {
    match (one, other) {
        (Operand::Number(number), Operand::Number(other)) => number == other,
        (
            Operand::Label { name, plus },
            Operand::Label {
                name: other,
                plus: more,
            },
        ) => { name == other && plus == more }
        (
            Operand::Two {
                first,
                second,
                minus,
            },
            Operand::Two {
                first: one,
                second: two,
                minus: sign,
            },
        ) => { first == one && second == two && minus == sign }
        _ => false,
    }
}

/// Whether two lists of settings are alike.
fn are_settings_alike(some: &[Setting], others: &[Setting]) -> bool {
    for (one, other) in some.iter().zip(others) {
        if one.letter != other.letter || !are_operands_alike(&one.operand, &other.operand) {
            return false;
        }
    }
    some.len() == others.len()
}

/// Whether two statements of the kinds without words are alike.
fn are_names_alike(one: &Statement, other: &Statement) -> bool {
    match (one, other) {
        (
            Statement::Segment { name, base },
            Statement::Segment {
                name: other,
                base: place,
            },
        ) => { name == other && base == place }
        (Statement::Enter { name }, Statement::Enter { name: other }) => name == other,
        (
            Statement::Fetch {
                routine,
                name,
                settings,
            },
            Statement::Fetch {
                routine: library,
                name: other,
                settings: more,
            },
        ) => { routine == library && name == other && are_settings_alike(settings, more) }
        _ => false,
    }
}

/// Whether two statements of the kinds with words are alike.
fn are_words_alike(one: &Statement, other: &Statement) -> bool {
    match (one, other) {
        (
            Statement::Order {
                function,
                operand,
                length,
            },
            Statement::Order {
                function: letter,
                operand: place,
                length: end,
            },
        ) => { function == letter && length == end && are_operands_alike(operand, place) }
        (Statement::Number { value }, Statement::Number { value: other }) => value == other,
        (Statement::Long { value }, Statement::Long { value: other }) => {
            value.value() == other.value()
        }
        (Statement::Text { codes }, Statement::Text { codes: other }) => codes == other,
        (Statement::Rows { codes }, Statement::Rows { codes: other }) => codes == other,
        _ => false,
    }
}

/// Whether two lines are alike.
fn are_alike(one: &Line, other: &Line) -> bool {
    let says_alike = match (&one.statement, &other.statement) {
        (None, None) => true,
        (Some(one), Some(other)) => are_names_alike(one, other) || are_words_alike(one, other),
        _ => false,
    };
    one.number == other.number && one.label == other.label && says_alike
}

/// The number of the first of these lines that is not as it was read; 0 if there is none.
fn first_unlike(read: &[Line], lines: &[Line]) -> u32 {
    for (read, line) in read.iter().zip(lines) {
        if !are_alike(read, line) {
            return line.number;
        }
    }
    if read.len() == lines.len() {
        0
    } else {
        LINES + 1
    }
}

/// The first line of a source that is read differently from what it was printed from; 0 if there is none.
fn first_difference(rt: &impl Abort, alloc: Global, source: u32) -> u32 {
    let (text, lines) = printed(rt, alloc, source);
    let program = parse(alloc, text.as_bytes()).ok().expect(rt, "a program");
    first_unlike(&program.lines, &lines)
}

#[test]
fn printed_forms_are_read_back(rt: HostRuntime) {
    for source in 0..SOURCES {
        let line = first_difference(&rt, rt.alloc(), source);
        assert!(rt; line == 0, "line {line} of source {source}");
    }
}
