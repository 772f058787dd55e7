//! A sum in an operand, as it is read term by term.

use crate::statement::Operand;

/// A label in a sum. The last `left` bytes of its line begin with it.
#[derive(Clone, Copy)]
pub struct LabelTerm<'a> {
    pub name: &'a str,
    pub place: usize,
    pub left: usize,
}

/// The terms that were read so far, modulo 2^32.
#[derive(Clone, Copy)]
pub struct Sum<'a> {
    number: u32,
    added: Option<LabelTerm<'a>>,
    subtracted: Option<LabelTerm<'a>>,
    // A label that is one too many.
    surplus: Option<LabelTerm<'a>>,
    // How many bytes of the line are left where a name begins that isn't defined yet.
    unknown: Option<usize>,
    // Whether it has a name whose number isn't known, since the line that defines it is wrong.
    is_open: bool,
    has_names: bool,
    terms: usize,
}

impl<'a> Sum<'a> {
    /// A number, to which terms can be added.
    pub fn of(number: u32) -> Sum<'a> {
        Sum {
            number,
            added: None,
            subtracted: None,
            surplus: None,
            unknown: None,
            is_open: false,
            has_names: false,
            terms: 0,
        }
    }

    /// Adds a number, or subtracts it.
    pub fn put_number(&mut self, number: u32, is_subtracted: bool) {
        self.terms = self.terms.saturating_add(1);
        self.number = if is_subtracted {
            self.number.wrapping_sub(number)
        } else {
            self.number.wrapping_add(number)
        };
    }

    /// Adds the number of a name, or subtracts it.
    pub fn put_named(&mut self, number: u32, is_subtracted: bool) {
        self.has_names = true;
        self.put_number(number, is_subtracted);
    }

    /// Adds a label, or subtracts it.
    pub fn put_label(&mut self, label: LabelTerm<'a>, is_subtracted: bool) {
        self.has_names = true;
        if is_subtracted && self.subtracted.is_none() {
            self.subtracted = Some(label);
        } else if !is_subtracted && self.added.is_none() {
            self.added = Some(label);
        } else if self.surplus.is_none() {
            self.surplus = Some(label);
        }
    }

    /// Notes a name that isn't defined yet, before the last `left` bytes of its line.
    pub fn put_unknown(&mut self, left: usize) {
        self.has_names = true;
        if self.unknown.is_none() {
            self.unknown = Some(left);
        }
    }

    /// Notes a name whose number isn't known, since the line that defines it is wrong.
    pub fn put_open(&mut self) {
        self.has_names = true;
        self.is_open = true;
    }

    /// The sum of the numbers.
    pub fn number(&self) -> u32 {
        self.number
    }

    /// A label of the sum, if it has one.
    pub fn label(&self) -> Option<LabelTerm<'a>> {
        self.added.or(self.subtracted)
    }

    /// How many bytes of the line are left where a name begins that isn't defined yet, if there is one.
    pub fn unknown_name(&self) -> Option<usize> {
        self.unknown
    }

    /// Whether a name of the sum has no known number, since the line that defines it is wrong.
    pub fn is_open(&self) -> bool {
        self.is_open
    }

    /// Whether the sum has a name, of a number or of a place.
    pub fn has_names(&self) -> bool {
        self.has_names
    }

    /// Whether its text doesn't show its value: it has a name, or several numbers.
    pub fn is_composed(&self) -> bool {
        self.has_names || self.terms > 1
    }

    /// The label that is one too many, or is subtracted from none.
    pub fn misplaced_label(&self) -> Option<LabelTerm<'a>> {
        match self.added {
            Some(_) => self.surplus,
            None => self.subtracted,
        }
    }

    /// The label from which the sum counts, if it has no other.
    pub fn address(&self) -> Option<LabelTerm<'a>> {
        match self.subtracted {
            Some(_) => None,
            None => self.added,
        }
    }

    /// The sum as an operand, if no label is misplaced.
    pub fn operand(&self) -> Operand {
        match (self.added, self.subtracted) {
            (Some(to), Some(from)) => Operand::Difference(to.place, from.place, self.number),
            (Some(label), None) => Operand::Label(label.place, self.number),
            (None, _) => Operand::Number(self.number),
        }
    }
}
