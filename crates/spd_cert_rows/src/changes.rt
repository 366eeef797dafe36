//! Changes of lawful certificates, and what each is refused for.
use spd_cert::CertRefusal;

/// What a text is refused for.
#[derive(Clone, Copy)]
pub enum Wrong {
    Expected,
    Unknown,
    Order,
    Number,
    End,
}

impl Wrong {
    /// The refusal at this byte.
    pub fn at(self, at: usize) -> CertRefusal {
        match self {
            Wrong::Expected => CertRefusal::Expected { at },
            Wrong::Unknown => CertRefusal::Unknown { at },
            Wrong::Order => CertRefusal::Order { at },
            Wrong::Number => CertRefusal::Number { at },
            Wrong::End => CertRefusal::End { at },
        }
    }
}

/// A change of a text: what stands there once, what stands there instead, what the text is then refused for, and at which byte, counted
/// from the change's first one.
pub type Change = (&'static str, &'static str, Wrong, usize);

use Wrong::{End, Expected, Number, Order, Unknown};

/// Of the lines before the diagrams.
pub const HEADS: &[Change] = &[
    ("result 2", "result 1", Expected, 9),
    ("result 2", "result 3", Expected, 7),
    ("result 2", "result 02", Expected, 7),
    ("model a1", "model A1", Expected, 6),
    ("model a1", "model 1", Expected, 6),
    ("model a1", "model aa1", Expected, 6),
    ("model a1", "model g1", Expected, 6),
    ("done", "Done", Expected, 0),
    ("done", "stopped", Expected, 0),
    ("x=yes", "x", Expected, 0),
    ("x=yes", "x=yes=no", Expected, 0),
    ("x=yes", "x=maybe", Unknown, 0),
    ("x=yes", "x=", Unknown, 0),
    ("x=yes", "=yes", Unknown, 0),
    ("x=yes", "y=yes", Unknown, 0),
    ("x=yes above", "above", Expected, 0),
    ("x=yes above", "x=yes x=yes above", Expected, 6),
    ("above", "over", Expected, 0),
    ("above stay", "above hold", Unknown, 6),
];

/// Of the diagrams and of the end.
pub const DIAGRAMS: &[Change] = &[
    ("value 3", "value 1", Expected, 27),
    ("value 3", "value 4", Expected, 61),
    ("value 3", "value 999999999", Expected, 69),
    ("policy 1", "policy 2", Expected, 21),
    ("policy 1", "policy 999999999", Expected, 29),
    ("0 leaf 1", "1 leaf 1", Expected, 0),
    ("1 leaf 0", "01 leaf 0", Expected, 0),
    ("2 branch", "3 branch", Expected, 0),
    ("branch", "Branch", Expected, 0),
    ("branch x", "leaf x", Number, 5),
    ("branch x", "branch y", Unknown, 7),
    ("x 0 1", "x 0", Expected, 3),
    ("x 0 1", "x 0 1 1", Expected, 6),
    ("x 0 1", "x 0 2", Order, 4),
    ("x 0 1", "x 2 2", Order, 2),
    (
        "x 0 1",
        "x 0 10000000000000000000000000000000000000",
        Order,
        4,
    ),
    ("leaf stay", "leaf 0", Unknown, 5),
    ("end\n", "end", End, 3),
    ("end\n", "end\n\n", End, 4),
    ("end\n", "end\nend\n", End, 4),
];

/// Of a certificate over two variables.
pub const BRANCHES: &[Change] = &[
    ("x=no y=yes", "y=yes x=no", Unknown, 0),
    ("x=no y=yes", "x=no", Expected, 5),
    ("x=no y=yes", "x=no y=yes z=yes", Expected, 11),
    ("3 branch y 1 0", "3 branch y 2 0", Order, 11),
    (
        "3 branch y 1 0\n4 branch x 2 3",
        "3 branch x 2 2\n4 branch x 2 3",
        Order,
        28,
    ),
    (
        "3 branch y 1 0\n4 branch x 2 3",
        "3 branch x 2 2\n4 branch y 0 3",
        Order,
        28,
    ),
    ("4 branch x 2 3", "4 branch x 2 4", Order, 13),
    ("4 branch x 2 3", "4 branch y 2 9999999999", Order, 11),
    ("4 branch x 2 3", "4 branch x 2 03", Number, 13),
];

/// Words that are no whole number.
pub const NOT_WHOLE: &[&str] = &["05", "00", "-1", "+5", "5.0", "1e3", ".5", "0x5", "five"];

/// Words that are no turn's number, or no number of nodes, though they are whole numbers.
pub const NO_TURN: &[&str] = &[
    "1000001",
    "4294967297",
    "12345678901234567890123456789012345678",
];

pub const NO_COUNT: &[&str] = &[
    "0",
    "1000000000",
    "4294967297",
    "12345678901234567890123456789012345678",
];

/// Words that are no decimal with at most nine digits behind the point, or none from 0 to 10^30 units of 10^-9.
pub const NO_UNITS: &[&str] = &[
    ".",
    "1e",
    "1e100",
    "--1",
    "0x1",
    "one",
    "0.0000000001",
    "1e-10",
    "1000000000000000000000.000000001",
    "1e22",
    "-0.000000001",
    "12345678901234567890123456789012345678",
];

/// Words that are no number of a value either, though they have few digits behind the point.
pub const NO_LEAF: &[&str] = &[
    "stay",
    "1e",
    "0.0000000001",
    "1000000000000000.001000001",
    "-1000000000000000.001000001",
    "1e16",
];

/// What each word of a text of version 2 is refused for where `~` stands in its place: line by line, for a model of one variable of two
/// values, a value of two leaves and their branch, and a policy of one leaf.
pub const WORDS: [Wrong; 36] = [
    Expected, Expected, Expected, Expected, Expected, Expected, Expected, Expected, Number,
    Expected, Number, Expected, Expected, Expected, Unknown, Expected, Number, Expected, Number,
    Expected, Expected, Number, Expected, Expected, Number, Expected, Expected, Unknown, Number,
    Number, Expected, Number, Expected, Expected, Unknown, Expected,
];
