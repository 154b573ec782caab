//! The reading of a regular expression, for the number of its states.
ghost use Rattle.std.specs.Prelude.{◌≡◌, OnOk};
ghost use Rattle.filter_engine.specs.RegexSizes as sizes;

use crate::regex_size::size::{Level, Size};
use crate::regex_size::turn::{Act, Mode, Reading, turn_of};
use std::alloc::{AllocError, Global};

/// How far a text is read.
#[derive(Drop)]
pub struct Scan {
    pub mode: Mode,
    pub reading: Reading,
    /// The items so far, within all groups that are open.
    pub inner: Level,
    /// The items around each of these groups, the outermost first.
    pub outer: Vec<Level>,
}

impl Scan {
    /// Nothing is read. The four states are those of no pattern.
    pub fn new(alloc: Global) -> Scan
        ensures { sizes.scan_view result ≡ sizes.start }
    {
        Scan {
            mode: Mode::Pattern,
            reading: Reading::Item,
            inner: Level::new(Size::new(4, 0), Size::new(0, 0)),
            outer: Vec::new(alloc),
        }
    }

    // Opens a group.
    fn open(&mut self) -> Result<(), AllocError>
        ensures { OnOk result (sizes.scan_view self.new ≡ sizes.acted Act.Opens self.old.mode
            self.old.reading self.old.inner (sizes.scan_view self.old).outer) }
    {
        self.outer.push(self.inner)?;
        self.inner = Level::new(Size::new(0, 0), Size::new(0, 0));
        Ok(())
    }

    // Closes a group, or makes one item of all where none is open.
    fn close(&mut self)
        ensures { sizes.scan_view self.new ≡ sizes.closed self.old.mode self.old.reading
            self.old.inner (sizes.scan_view self.old).outer }
    {
        match self.outer.pop() {
            Some(level) => self.inner = level.added(self.inner.group()),
            None => self.inner = Level::new(Size::new(0, 0), self.inner.total()),
        }
    }

    // Takes what a byte does.
    fn act(&mut self, act: Act) -> Result<(), AllocError>
        ensures { OnOk result (sizes.scan_view self.new ≡ sizes.acted act self.old.mode
            self.old.reading self.old.inner (sizes.scan_view self.old).outer) }
    {
        match act {
            Act::Nothing => {}
            Act::Adds(item) => self.inner = self.inner.added(item),
            Act::Joins(more) => self.inner = self.inner.joined(more),
            Act::Repeats(most) => self.inner = self.inner.with_repeated(most),
            Act::Opens => self.open()?,
            Act::Closes => self.close(),
        }
        Ok(())
    }

    /// Reads one more byte.
    pub fn read(&mut self, byte: u8) -> Result<(), AllocError>
        ensures { OnOk result
            (sizes.scan_view self.new ≡ sizes.with_byte (sizes.scan_view self.old) byte) }
    {
        let turn = turn_of(self.mode, self.reading, byte);
        self.mode = turn.mode;
        self.reading = turn.reading;
        self.act(turn.act)
    }

    /// How many states there are, where groups that are open end with the text.
    pub fn whole(mut self) -> u32
        ensures { result ≡ sizes.whole_of (sizes.scan_view self) }
    {
        for done in 0..self.outer.len() {
            self.close();
        }
        self.inner.whole()
    }
}
