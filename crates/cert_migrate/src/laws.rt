//! What the text of a certificate of the first version determines. There is nothing to run: the contracts are the laws.
ghost use Rattle.std.specs.Prelude.{◌≡◌, ℕ, List, Err};
ghost use Rattle.rinex_head.specs.declared.place.At.{At};
ghost use Rattle.rinex_head.specs.OwnFlaws.{IsOwnFlaw};
ghost use Rattle.line_source.specs.EndedLines.{ended_lines};
ghost use Rattle.cert_lines.specs.declared.version.Version.TheVariants.{One};
ghost use Rattle.cert_text.specs.Rules.{reading_as};
ghost use Rattle.cert_migrate.specs.declared.old_certs.OldCert.{OldCert};
ghost use Rattle.cert_migrate.specs.OldRules.{old_rules};
ghost use Rattle.cert_migrate.specs.OldSpelling.{old_spelling, IsWholeOld};

/// No two certificates of the first version have the same spelling: what is written of one determines it.
pub fn one_old_spelling_law()
    ensures { (cert other : OldCert) → IsWholeOld cert → IsWholeOld other →
        old_spelling cert ≡ old_spelling other → cert ≡ other }
{}

/// The column and the reason of a refusal are those of the check of its own line.
pub fn old_flaw_law()
    ensures { (text : List ℕ) (at : At) → reading_as One text ≡ Err at →
        IsOwnFlaw old_rules (ended_lines text) at }
{}
