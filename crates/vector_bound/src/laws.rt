//! What the numbers of a bound say, as the contract of a function that does nothing.
ghost use Rattle.std.specs.Prelude.{◌≡◌, ℕ, ◌^◌, List, length, ℤ, pos, ◌*ℤ◌};
ghost use Rattle.obs_rows.specs.declared.arcs.Arc.{Arc};
ghost use Rattle.obs_rows.specs.declared.pair_rows.PairRows.{PairRows};
ghost use Rattle.obs_rows.specs.Integers.{integer_count};
ghost use Rattle.normal_sum.specs.declared.normal.Normal.{Normal};
ghost use Rattle.normal_sum.specs.Normals.{IsNormalOf};
ghost use Rattle.fix_decide.specs.Bounds.{StaysAtMost};
ghost use Rattle.vector_bound.specs.VectorBounds.{KeepsNear, IsVectorBound, move_units};

/// For all data in the boxes, every rational baseline whose sum of squares with the integers is at most that of the move
/// lies within x of the move in each coordinate, in 2^-5 ι: so the least-squares baseline of those data does.
pub fn vector_law()
    ensures { (arcs : List Arc) (ss : List ℕ) (pairs : List PairRows) (n : Normal) (h : ℕ)
        (z m : List ℤ) (t x : ℤ) → length z ≡ integer_count arcs ss → IsNormalOf arcs ss pairs n →
        StaysAtMost arcs ss pairs z m (pos (2 ^ h) *ℤ t) → IsVectorBound n h z m t x →
        KeepsNear arcs ss pairs z m (move_units x) }
{}
