ghost use Rattle.std.specs.Prelude.{◌≡◌, ◌∷◌, ◌++◌, ◌^◌, ◌-◌, ◌+◌, ◌≤◌, min, ℕ, List};
ghost use Rattle.dev_traits.specs.Causes.{Counts, RoseBy, sum_of_counts};

/// How counts of faults or reads that stop at a u64's end add up.
pub fn sums_of_counts()
    // Where one counts so many, so does the sum.
    ensures counts { (xs ys : List ℕ) (more before now : ℕ) → Counts more before now
        → Counts more (sum_of_counts (xs ++ before ∷ ys)) (sum_of_counts (xs ++ now ∷ ys)) }
    ensures rises { (xs ys : List ℕ) (least before now : ℕ) → RoseBy least before now
        → RoseBy least (sum_of_counts (xs ++ before ∷ ys)) (sum_of_counts (xs ++ now ∷ ys)) }
    // A maker or a reader that joins, and one that is given back, leave the sum.
    ensures joins { (xs ys : List ℕ) → sum_of_counts (xs ++ 0 ∷ ys) ≡ sum_of_counts (xs ++ ys) }
    ensures given_back { (xs ys : List ℕ) (given before now : ℕ) → Counts given before now
        → sum_of_counts (before ∷ (xs ++ given ∷ ys)) ≡ sum_of_counts (now ∷ (xs ++ ys)) }
    // A count of reads is told as its next value.
    ensures next { (more before now : ℕ) → before ≤ 2 ^ 64 - 1 → now ≡ min (before + more) (2 ^ 64 - 1)
        → Counts more before now }
    ensures further { (more further before between now : ℕ) → Counts more before between → Counts further between now
        → Counts (more + further) before now }
    ensures rose { (more before now : ℕ) → Counts more before now → RoseBy more before now }
{}
