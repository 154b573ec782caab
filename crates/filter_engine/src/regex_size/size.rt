//! Numbers of states.
ghost use Rattle.std.specs.Prelude.{◌≡◌, []};
ghost use Rattle.filter_engine.specs.RegexSizes as sizes;

/// The states of a part of a pattern: so many, and so many more for each place from which it is
/// entered.
#[derive(Clone, Copy)]
pub struct Size {
    pub fixed: u32,
    pub each: u32,
}

// Numbers of states beyond 65,536 count as that.
fn capped(number: u64) -> u32
    ensures { result ≡ sizes.capped number }
{
    if number < 65536 { number as u32 } else { 65536 }
}

impl Size {
    pub fn new(fixed: u32, each: u32) -> Size
        ensures { result ≡ sizes.size fixed each }
    {
        Size { fixed, each }
    }

    /// The states of two parts.
    pub fn plus(self, other: Size) -> Size
        ensures { result ≡ sizes.plus self other }
    {
        Size {
            fixed: capped(u64::from(self.fixed) + u64::from(other.fixed)),
            each: capped(u64::from(self.each) + u64::from(other.each)),
        }
    }

    /// The states of an item that is copied so often at most, or is a loop behind its last copy.
    pub fn repeated(self, most: u16) -> Size
        ensures { result ≡ sizes.repeated most self }
    {
        let most = u64::from(most);
        let fixed = u64::from(self.fixed);
        let each = u64::from(self.each);
        Size {
            fixed: capped(most * fixed + 2 * each + 1),
            each: capped(most * each + most),
        }
    }
}

/// The items so far on one level of groups: those before the last, and the last.
#[derive(Clone, Copy)]
pub struct Level {
    pub before: Size,
    pub last: Size,
}

impl Level {
    pub fn new(before: Size, last: Size) -> Level
        ensures { result ≡ sizes.level before last }
    {
        Level { before, last }
    }

    /// One more item.
    pub fn added(self, item: Size) -> Level
        ensures { result ≡ sizes.added self item }
    {
        Level::new(self.total(), item)
    }

    /// More of the last item.
    pub fn joined(self, more: Size) -> Level
        ensures { result ≡ sizes.joined self more }
    {
        Level::new(self.before, self.last.plus(more))
    }

    /// The last item, repeated.
    pub fn with_repeated(self, most: u16) -> Level
        ensures { result ≡ sizes.with_repeated self most }
    {
        Level::new(self.before, self.last.repeated(most))
    }

    /// The states of all items.
    pub fn total(self) -> Size
        ensures { result ≡ sizes.total self }
    {
        self.before.plus(self.last)
    }

    /// The states of a group of these items.
    pub fn group(self) -> Size
        ensures { result ≡ sizes.group self }
    {
        self.total().plus(Size::new(0, 2))
    }

    /// How many states there are, where a part is entered from one place.
    pub fn whole(self) -> u32
        ensures { result ≡ sizes.whole self [] }
    {
        let total = self.total();
        total.fixed + total.each
    }
}
