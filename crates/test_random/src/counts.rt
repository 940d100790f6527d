// How many trials came out as they should.
ghost use Rattle.test_random.specs.Counted.{IsOne, Counted, CountedAll};

use std::fmt;

/// What became of a trial.
#[derive(Clone, Copy)]
pub struct Outcome {
    /// Some square has a residue.
    pub residues: bool,
    /// It costs more than nothing.
    pub costly: bool,
    /// What was answered is what trying gives.
    pub agreed: bool,
    /// A room of another length was turned away and left alone.
    pub refused: bool,
}

/// How many trials there were, and of how many of them each fact of an `Outcome` is true.
#[derive(Drop, Default)]
pub struct Counts {
    pub fields: u32,
    pub residues: u32,
    pub costly: u32,
    pub agreed: u32,
    pub refused: u32,
}

impl From<Outcome> for Counts {
    ghost from_gives = { IsOne };

    fn from(outcome: Outcome) -> Counts {
        Counts {
            fields: 1,
            residues: u32::from(outcome.residues),
            costly: u32::from(outcome.costly),
            agreed: u32::from(outcome.agreed),
            refused: u32::from(outcome.refused),
        }
    }
}

impl Counts {
    /// One trial more.
    pub fn add(&mut self, outcome: Outcome)
        ensures { Counted outcome self.old self.new }
    {
        self.add_all(&Counts::from(outcome));
    }

    /// All of another count.
    pub fn add_all(&mut self, more: &Counts)
        ensures { CountedAll more.now self.old self.new }
    {
        self.fields = self.fields.saturating_add(more.fields);
        self.residues = self.residues.saturating_add(more.residues);
        self.costly = self.costly.saturating_add(more.costly);
        self.agreed = self.agreed.saturating_add(more.agreed);
        self.refused = self.refused.saturating_add(more.refused);
    }
}

impl fmt::Display for Counts {
    fn fmt<W: fmt::Write>(&self, f: &mut fmt::Formatter<W>) -> fmt::Result {
        let Counts {
            fields,
            residues,
            costly,
            agreed,
            refused,
        } = self;
        write!(
            f,
            "fields {fields}, off {residues}, cost more than 0 {costly}, other rooms refused {refused}, agreed {agreed}"
        )
    }
}
