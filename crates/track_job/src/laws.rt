//! The words of the causes for which a pair is lost, in the lines `lost N WORD` of the summary.
ghost use Rattle.std.specs.Prelude.{◌≡◌, codes};
ghost use Rattle.track_data.specs.declared.lost.LostCause.TheVariants.{Rows, Coarse, Unsettled, Y, Weak, Wide};
ghost use Rattle.track_job.specs.TrackTexts.{cause_word};

/// Each cause has its own word.
pub fn lost_words_law()
    ensures rows { cause_word Rows ≡ codes "rows" }
    ensures coarse { cause_word Coarse ≡ codes "coarse" }
    ensures unsettled { cause_word Unsettled ≡ codes "unsettled" }
    ensures y { cause_word Y ≡ codes "y" }
    ensures weak { cause_word Weak ≡ codes "weak" }
    ensures wide { cause_word Wide ≡ codes "wide" }
{}
