//! Values, and the addresses that values hold.
use crate::fixed::Fixed;
use crate::label::Label;
use mx_list::items::Items;
use mx_list::list::List;

/// The segments of an address, from the top.
pub type Addr = List<Segment>;

/// What a cells, a reference or an argument holds.
#[cycle(value)]
#[derive(PartialEq, Eq, Hash, Drop)]
pub enum Value {
    /// Python's None.
    Nothing,
    /// True or False. Other than in Python, no flag equals a number.
    Flag(bool),
    /// A whole number of 64 bits.
    Int(i64),
    /// A decimal number.
    Fix(Fixed),
    /// A text.
    Text(Label),
    /// A tuple.
    Tup(Items<Value>),
    /// The space at an address.
    Space(Addr),
    /// The cells of a name in the space at an address.
    Cells(CellsAt),
    /// The table of a name.
    Table(Label),
}

/// A step of an address.
#[cycle(value)]
#[derive(PartialEq, Eq, Hash, Drop)]
pub enum Segment {
    /// A child space's name.
    Name(Label),
    /// The item space of these arguments.
    Item(Items<Value>),
}

/// Where cells stand: their space, and their name in it.
#[cycle(value)]
#[derive(PartialEq, Eq, Hash, Drop)]
pub struct CellsAt {
    pub space: Addr,
    pub name: Label,
}
