//! What is asked for: the number of rounds, and the name of what is measured.

/// The number of rounds that are asked for, and the name of what is measured.
#[derive(Clone, Copy)]
pub struct Selection<'a> {
    /// How many rounds.
    pub count: u64,
    /// The name of what is measured; none asks for everything.
    pub name: Option<&'a str>,
}

impl Selection<'_> {
    /// Whether what has this name is asked for.
    pub fn runs(&self, name: &str) -> bool {
        match self.name {
            Some(word) => word == name,
            None => true,
        }
    }
}
