// Theorems about races.
ghost use Rattle.std.specs.Prelude.{◌≡◌, false};
ghost use Rattle.ti_lang.specs.Meaning.Races.{Access, race};

/// Racing is symmetric; two accesses of the same process don't race, and two reads don't either.
pub fn races_are_mutual()
    ensures mutual { (a b : Access) → race a b ≡ race b a }
    ensures others { (a b : Access) → a.proc ≡ b.proc → race a b ≡ false }
    ensures written { (a b : Access) → a.writes ≡ false → b.writes ≡ false → race a b ≡ false }
{}
