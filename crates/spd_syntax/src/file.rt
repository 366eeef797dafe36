//! What is written in a file, before its names are understood.

use sqlite_items::Items;

/// A word of the file: the places of its first byte and of the byte behind its last one.
#[derive(Clone, Copy, PartialEq, Eq, Debug)]
pub struct Word {
    pub from: u32,
    pub to: u32,
}

/// What a number counts, and a tree's numbers.
#[derive(Clone, Copy, PartialEq, Eq, Debug)]
pub enum Quantity {
    /// The numbers of a decision diagram, in units of 10^-12.
    Diagram,
    /// The probabilities of an action's table, in units of 10^-12.
    Table,
    /// The amounts of a reward or of a cost: whole numbers of 10^-9, in units of 10^-12.
    Reward,
    /// The discount, in units of 10^-6.
    Discount,
    /// The tolerance, in units of 10^-9.
    Tolerance,
    /// The horizon, a number of steps.
    Horizon,
}

/// A tree as it is written.
#[cycle(shapes)]
#[derive(Debug, Drop)]
pub enum Shape {
    /// A number, with what it comes to in units of 10^-12.
    Number {
        word: Word,
        units: i128,
    },
    /// The name of a decision diagram.
    Use {
        name: Word,
    },
    /// A choice by a variable, in branches from left to right. Where it is primed, the word is the name without its mark.
    Choice {
        name: Word,
        primed: bool,
        branches: Items<Branch>,
    },
}

/// A branch: the name of a value, and its tree.
#[cycle(shapes)]
#[derive(Debug, Drop)]
pub struct Branch {
    pub value: Word,
    pub tree: Shape,
}

/// A variable as it is declared: its name, and the names of its values in order.
#[derive(Debug, Drop)]
pub struct Variable {
    pub name: Word,
    pub values: Items<Word>,
}

/// What stands in an action: a variable's name and its table, or the word `cost` and the parts of the cost.
#[derive(Debug, Drop)]
pub enum Item {
    Table { name: Word, tree: Shape },
    Cost { word: Word, parts: Items<Shape> },
}

/// A section. The words are a name, `endaction` and `reward`; those of settings are `discount`, `tolerance` and `horizon`.
#[derive(Debug, Drop)]
pub enum Section {
    Dd {
        name: Word,
        tree: Shape,
    },
    Action {
        name: Word,
        items: Items<Item>,
        end: Word,
    },
    Reward {
        word: Word,
        parts: Items<Shape>,
    },
    Setting {
        word: Word,
        quantity: Quantity,
        units: i128,
    },
}

/// A file.
#[derive(Debug, Drop)]
pub struct File {
    pub variables: Items<Variable>,
    pub sections: Items<Section>,
}

/// What was read so far, as far as the limits and the end of the file ask for it: how many variables,
/// tests (one less than values for each variable), decision diagrams and actions, and whether a reward,
/// a discount, and a tolerance or a horizon were read.
#[derive(Clone, Copy, PartialEq, Eq, Debug)]
pub struct Counts {
    pub vars: u32,
    pub tests: u32,
    pub dds: u32,
    pub actions: u32,
    pub reward: bool,
    pub discount: bool,
    pub stop: bool,
}
