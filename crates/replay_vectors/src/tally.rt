// How many answers were compared, and how many of them differ.
#[derive(Clone, Copy, Debug, Default, PartialEq, Eq)]
pub struct Tally {
    pub compared: usize,
    pub differing: usize,
}

impl Tally {
    /// Nothing compared.
    pub fn none() -> Tally {
        Tally::default()
    }

    /// One answer compared.
    pub fn one(same: bool) -> Tally {
        Tally {
            compared: 1,
            differing: usize::from(!same),
        }
    }

    /// Both counts added; a sum that does not fit is the largest number.
    pub fn plus(self, other: Tally) -> Tally {
        Tally {
            compared: self.compared.saturating_add(other.compared),
            differing: self.differing.saturating_add(other.differing),
        }
    }
}

/// Writes the line of a name, and answers its counts.
pub fn line(rt: &impl Print, name: &[u8], tally: Tally) -> Tally {
    let Tally {
        compared,
        differing,
    } = tally;
    let _ = rt.write_all(name);
    let _ = println!(rt; " {compared} compared, {differing} differ");
    tally
}
