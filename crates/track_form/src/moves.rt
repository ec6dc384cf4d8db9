//! The baselines of the pairs at given integers.
ghost use Rattle.std.specs.Prelude.{◌≡◌, ◌↔◌, ℕ, ◌-◌, ◌^◌, ◌<◌, length, map, All, Any, IsErr, IfOk, IfErr, unsigned_abs};
ghost use Rattle.integer_form.specs.declared.faults.Place.TheVariants.{Float};
ghost use Rattle.integer_form.specs.FloatPoint.{item, HasWide};
ghost use Rattle.quadratic_form.specs.Tables.{zero_rows};
ghost use Rattle.quadratic_form.specs.declared.sizes.TheConstants.{MOST_FORM_COLUMNS};
ghost use Rattle.track_form.specs.Factors.{move_by};

use crate::PairFactors;
use lower_form::{FrontForm, Overwidth};
use quadratic_form::{BASELINE_COLUMNS, FormTable};
use std::alloc::{AllocError, Global};

impl PairFactors {
    /// Writes these factors into a front whose form is 0.
    fn put_in(&self, front: &mut FrontForm)
        requires { front.old.p ≡ zero_rows MOST_FORM_COLUMNS MOST_FORM_COLUMNS }
        ensures columns { front.new.columns ≡ self.now.columns }
        ensures d { front.new.d ≡ self.now.d }
        ensures l { front.new.l ≡ self.now.l }
        ensures p { front.new.p ≡ front.old.p }
    {
        front.columns = self.columns;
        front.d = self.d;
        front.l = self.l;
    }

    /// The baseline of the pair at the integers z, as a move in 2^-5 ι. The front, whose form is 0, lends its room.
    fn move_at(
        &self,
        front: &mut FrontForm,
        z: &[i64],
    ) -> Result<[i64; BASELINE_COLUMNS], Overwidth>
        requires form { front.old.p ≡ zero_rows MOST_FORM_COLUMNS MOST_FORM_COLUMNS }
        requires count { length z.now ≡ self.now.columns - 4 }
        requires size { (i : ℕ) → i < length z.now → unsigned_abs (item z.now i) < 2 ^ 30 }
        ensures ok { IfOk result (λ m. m ≡ move_by z.now self.now) }
        ensures refused { IsErr result ↔ HasWide (move_by z.now self.now) }
        ensures place { IfErr result (λ e. e.place ≡ Float) }
        ensures form { front.new.p ≡ front.old.p }
    {
        self.put_in(front);
        front.baseline_of(z)
    }
}

/// The baseline of each pair at the integers z, as a move in 2^-5 ι, by the factors of its front. The inner error comes
/// exactly where a number of one of them is 2^46 or more in size.
///
/// z has an entry for each integer of the fronts.
pub fn moves_at(
    alloc: Global,
    pairs: &[PairFactors],
    z: &[i64],
) -> Result<Result<Vec<[i64; BASELINE_COLUMNS]>, Overwidth>, AllocError>
    requires count { All (λ p. length z.now ≡ p.columns - 4) pairs.now }
    requires size { (i : ℕ) → i < length z.now → unsigned_abs (item z.now i) < 2 ^ 30 }
    ensures moves { IfOk result (λ r.
        IfOk r (λ moves. moves.items ≡ map (move_by z.now) pairs.now)) }
    ensures narrow { IfOk result (λ r. IfOk r (λ moves. All (λ m. HasWide m → ⊥) moves.items)) }
    ensures wide { IfOk result (λ r.
        IfErr r (λ e. Any (λ p. HasWide (move_by z.now p)) pairs.now)) }
    ensures place { IfOk result (λ r. IfErr r (λ e. e.place ≡ Float)) }
{
    let mut moves = Vec::with_capacity(alloc, pairs.len())?;
    let mut front = FrontForm::of(BASELINE_COLUMNS + 1, 0, &FormTable::zeros());
    for pair in pairs {
        match pair.move_at(&mut front, z) {
            Ok(moved) => moves.push(moved)?,
            Err(fault) => return Ok(Err(fault)),
        }
    }
    Ok(Ok(moves))
}
