// The editor layer: keys on a document, a quotation and their recall texts, without a screen.
#![tactic(auto)]

pub mod conversion;
pub mod finds;
pub mod indents;
pub mod keys;
pub mod marks;
pub mod passages;
pub mod places;
pub mod quotations;
pub mod records;
pub mod refusals;
pub mod searches;
pub mod sides;
pub mod splices;
pub mod stores;

use gap::Direction;

// What a function key does on its way to a place.
#[derive(Clone, Copy)]
pub enum Action {
    Move,
    Delete,
}

// The five kinds of place.
#[derive(Clone, Copy)]
pub enum Place {
    Character,
    Word,
    LineBeginning,
    LineEnding,
    Document,
}

// What stands on one side of a place: no byte at all, a space, a newline, or another byte. The word test decides by the two sides.
#[derive(Clone, Copy)]
pub enum Neighbour {
    Nothing,
    Space,
    Newline,
    Other,
}

// What a move to a place passes: how many single moves it is, and how many newlines they cross.
#[derive(Clone, Copy)]
pub struct Passage {
    pub steps: usize,
    pub lines: usize,
}

// Which text the keys act on: the document or the quotation.
#[derive(Clone, Copy)]
pub enum Mode {
    Main,
    Quoted,
}

// A key. FIND is `Find(Direction::Right)`, UPFIND is `Find(Direction::Left)`.
#[derive(Clone, Copy)]
pub enum Key {
    Insert(u8),
    Function(Action, Direction, Place),
    Recall,
    Quote,
    Find(Direction),
    Replace,
    Mark,
    Cut,
    Paste,
    Newline,
    Tab,
}

// The keys that act on one side, the document's or the quotation's. `Key` has the same five among its own, flat, as theorems and hosts speak of
// them; a closure for the step would say less than a name.
#[derive(Clone, Copy)]
pub enum Edit {
    Insert(u8),
    Function(Action, Direction, Place),
    Recall,
    Newline,
    Tab,
}

// The length of a quarter of the side store.
pub const QUARTER: usize = 1024;

// The longest line of a document that the reader takes.
pub const LONGEST_LINE: usize = 1024;

// The lengths of one side: a text left and right of its cursor, and both halves of its recall text.
#[derive(Clone, Copy, PartialEq, Eq)]
pub struct Sizes {
    pub l: usize,
    pub r: usize,
    pub rl: usize,
    pub rr: usize,
}

// The record without the window's part: the document's side and the quotation's, both halves of the replacement (xl, xr),
// the pattern's length, the mode, both halves of the held text (hl, hr) and the mark: where there is one, a position between bytes of the
// document, counted from its beginning.
#[derive(Clone, Copy)]
pub struct Lengths {
    pub main: Sizes,
    pub quoted: Sizes,
    pub xl: usize,
    pub xr: usize,
    pub pl: usize,
    pub mode: Mode,
    pub hl: usize,
    pub hr: usize,
    pub mark: Option<usize>,
}

// What a key reports: its steps, the newlines that these pass, and its bell. The bell is no Option around the others: a key may have nothing to
// say and not ring.
#[derive(Clone, Copy)]
pub struct Report {
    pub steps: usize,
    pub lines: usize,
    pub bell: bool,
}

// A change of the document in numbers: so many bytes before the cursor go and so many behind it, and so many come.
#[derive(Clone, Copy)]
pub struct Exchange {
    pub before: usize,
    pub behind: usize,
    pub come: usize,
}

// What a key on one side leaves when it is done: its report, and the sizes now. Refused, it moves nothing. (This and `EditorDone` stay two: a
// field of a type parameter would have to be called alike for sizes and lengths.)
#[derive(Clone, Copy)]
pub struct SideDone {
    pub report: Report,
    pub sizes: Sizes,
}

// What this layer's key call leaves when it is done: its report, and the lengths now.
#[derive(Clone, Copy)]
pub struct EditorDone {
    pub report: Report,
    pub lengths: Lengths,
}
