//! Laws of chains.
ghost use Rattle.std.specs.Prelude.{◌≡◌, ℕ, ◌↔◌, Bool, List};
ghost use Rattle.bc_syntax.specs.declared.syntax.Region.{Region};
ghost use Rattle.bc_cons.specs.declared.facts.NumberedConstraint.{NumberedConstraint as APair};
ghost use Rattle.bc_cons.specs.Facts.{RegionFacts};
ghost use Rattle.bc_solve.specs.Values.{IsInValue};
ghost use Rattle.bc_solve.specs.Chains.{IsChain, IsFirstShortest, ExplainsOver, TellsChains};

/// States that an element is in the value of a region exactly if there is a chain; that there is at most one first shortest chain, and at
/// most one explanation; and that for all facts there is a function that gives the explanation of each element of each value. This is a law
/// of the definitions: the function does nothing.
pub fn chain_law()
    ensures value { (starts : ℕ → ℕ → Bool) (pairs : List APair) (r e : ℕ) → IsInValue starts pairs r e ↔ ((chain : List ℕ) × IsChain starts pairs r e chain) }
    ensures one { (starts : ℕ → ℕ → Bool) (pairs : List APair) (r e : ℕ) (chain other : List ℕ) →
        IsFirstShortest starts pairs r e chain → IsFirstShortest starts pairs r e other → chain ≡ other }
    ensures once { (universals : ℕ) (starts : ℕ → ℕ → Bool) (pairs : List APair) (r e : ℕ) (chain other : List Region) →
        ExplainsOver universals starts pairs r e chain → ExplainsOver universals starts pairs r e other → chain ≡ other }
    ensures told { (facts : RegionFacts) → (chain : ℕ → ℕ → List Region) × TellsChains facts chain }
{}
