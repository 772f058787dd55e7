//! A link of a node and what processes have asked of it, and the four of them.

ghost use Rattle.std.specs.Prelude.{◌≡◌, IsTrue};

use crate::number::LinkNumber;
use os_link::LinkEnd;

/// A link end, and what a process has asked of it. Counts are bytes that are still to come or to go, pointers the
/// addresses of the next one.
#[derive(Clone, Copy)]
pub struct Link {
    pub end: LinkEnd,
    /// Where the next byte that arrives is stored.
    pub input_pointer: u32,
    /// How many bytes a process still waits for, 0 where none waits.
    pub input_count: u32,
    /// Where the byte lies that is sent after the one under way.
    pub output_pointer: u32,
    /// How many bytes are sent after the one under way.
    pub output_count: u32,
    /// Whether an alternative watches for a byte to arrive.
    pub watched: bool,
}

/// The links of a node, as plain values.
#[derive(Clone, Copy)]
pub struct FourLinks {
    pub zero: Link,
    pub one: Link,
    pub two: Link,
    pub three: Link,
}

impl Link {
    ghost use Rattle.link_channels.specs.Links.{fresh_link, has_work};

    /// A link at which nothing has happened, and from which nobody has asked anything.
    pub fn new() -> Link
        ensures answer { result ≡ fresh_link }
    {
        Link {
            end: LinkEnd::new(),
            input_pointer: 0,
            input_count: 0,
            output_pointer: 0,
            output_count: 0,
            watched: false,
        }
    }

    /// Whether two links are equal.
    pub fn equals(&self, other: &Link) -> bool
        ensures equal { IsTrue result → self.now ≡ other.now }
        ensures different { self.now ≡ other.now → IsTrue result }
    {
        self.end.equals(&other.end)
            && self.input_pointer == other.input_pointer
            && self.input_count == other.input_count
            && self.output_pointer == other.output_pointer
            && self.output_count == other.output_count
            && self.watched == other.watched
    }

    /// Whether a service would do something: an acknowledge came that no process has been informed of, or a
    /// byte lies in the buffer that a process waits for or watches for.
    #[inline]
    pub fn has_work(&self) -> bool
        ensures answer { result ≡ has_work self.now }
    {
        self.end.output.acknowledged
            || self.end.input.buffer.is_some() && (self.watched || self.input_count != 0)
    }
}

impl FourLinks {
    ghost use Rattle.link_channels.specs.Links.{at, with_link, fresh_links, any_has_work};

    // Links at which nothing has happened.
    pub(crate) fn new() -> FourLinks
        ensures answer { result ≡ fresh_links }
    {
        let link = Link::new();
        FourLinks {
            zero: link,
            one: link,
            two: link,
            three: link,
        }
    }

    // The link of a number.
    pub(crate) fn at(&self, number: LinkNumber) -> Link
        ensures answer { result ≡ at number self.now }
    {
        match number {
            LinkNumber::Zero => self.zero,
            LinkNumber::One => self.one,
            LinkNumber::Two => self.two,
            LinkNumber::Three => self.three,
        }
    }

    // Puts a link in the place of another.
    pub(crate) fn set(&mut self, number: LinkNumber, link: Link)
        ensures state { self.new ≡ with_link number link self.old }
    {
        match number {
            LinkNumber::Zero => self.zero = link,
            LinkNumber::One => self.one = link,
            LinkNumber::Two => self.two = link,
            LinkNumber::Three => self.three = link,
        }
    }

    // Whether a service of one of them would do something.
    pub(crate) fn any_has_work(&self) -> bool
        ensures answer { result ≡ any_has_work self.now }
    {
        self.zero.has_work() || self.one.has_work() || self.two.has_work() || self.three.has_work()
    }

    // Whether the links are equal.
    pub(crate) fn equals(&self, other: &FourLinks) -> bool
        ensures equal { IsTrue result → self.now ≡ other.now }
        ensures different { self.now ≡ other.now → IsTrue result }
    {
        self.zero.equals(&other.zero)
            && self.one.equals(&other.one)
            && self.two.equals(&other.two)
            && self.three.equals(&other.three)
    }
}
