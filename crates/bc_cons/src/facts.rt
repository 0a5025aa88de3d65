//! What the values of regions are solved from: the elements that each region starts with, and the constraints between regions.
ghost use Rattle.std.specs.Prelude.{◌≡◌, ◌+◌, ◌<◌, ◌≤◌, length};
ghost use Rattle.bc_flow.specs.Flow.{HaveSize};
ghost use Rattle.bc_points.specs.Regions.{region_of_number as region_of};
ghost use Rattle.bc_cons.specs.Facts.{ArePairsWithin};

use bc_flow::BitTable;
use bc_points::region_of_number;
use bc_syntax::Region;
use std::marker::Model;

/// A constraint `longer: shorter`: the longer region has each element that the shorter one has. Regions are numbers. (RFC 2094,
/// "Subtyping"; here a constraint holds at each point, as in rustc's region inference.)
#[derive(Clone, Copy)]
pub struct NumberedConstraint {
    pub longer: usize,
    pub shorter: usize,
}

/// The elements that each region starts with, and the constraints between regions. The universal regions have the first numbers, then come
/// the variables. (RFC 2094, "Liveness" and "Subtyping".)
#[derive(Drop)]
pub struct Facts {
    universals: u8,
    starts: BitTable,
    pairs: Vec<NumberedConstraint>,
    elements: usize,
}

impl Model for Facts {
    ghost use Rattle.bc_cons.specs.Facts.{RegionFacts, IsRegionFacts};

    ghost Value = { RegionFacts };

    ghost view = { λ f. record { universals = f.universals; elements = f.elements; starts = f.starts; pairs = f.pairs.items } };

    ghost invariant = { λ f. IsRegionFacts f.universals f.elements f.starts f.pairs.items };
}

impl Facts {
    /// Returns the facts with these start rows, one of `elements` elements for each region, and these constraints between the regions. The
    /// first `universals` regions are universal, and at most 65,536 more may follow.
    pub fn new(
        universals: u8,
        starts: BitTable,
        pairs: Vec<NumberedConstraint>,
        elements: usize,
    ) -> Self
        requires regions { length starts ≤ universals + 65536 }
        requires starts { HaveSize elements starts }
        requires pairs { ArePairsWithin (length starts) pairs.items }
        ensures universals { result.universals ≡ universals }
        ensures elements { result.elements ≡ elements }
        ensures starts { result.starts ≡ starts }
        ensures pairs { result.pairs ≡ pairs.items }
    {
        Self {
            universals,
            starts,
            pairs,
            elements,
        }
    }

    /// Returns the number of regions.
    pub fn regions(&self) -> usize
        ensures { result ≡ length self.now.starts }
    {
        self.starts.len()
    }

    /// Returns the number of universal regions.
    pub fn universals(&self) -> u8
        ensures { result ≡ self.now.universals }
    {
        self.universals
    }

    /// Returns the region of a number below `regions`.
    pub fn region(&self, number: usize) -> Region
        requires { number < length self.now.starts }
        ensures { result ≡ region_of self.now.universals number }
    {
        region_of_number(self.universals, number)
    }

    /// Returns the number of elements.
    pub fn elements(&self) -> usize
        ensures { result ≡ self.now.elements }
    {
        self.elements
    }

    /// Returns the start rows: for each region the set of elements that it starts with.
    pub fn starts(&self) -> &BitTable
        ensures starts { result.now ≡ self.now.starts }
        ensures sizes { HaveSize self.now.elements self.now.starts }
    {
        &self.starts
    }

    /// Returns the constraints between regions.
    pub fn pairs(&self) -> &[NumberedConstraint]
        ensures pairs { result.now ≡ self.now.pairs }
        ensures within { ArePairsWithin (length self.now.starts) self.now.pairs }
    {
        &self.pairs
    }
}
