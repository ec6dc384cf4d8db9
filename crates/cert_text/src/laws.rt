//! What the text of a certificate determines. There is nothing to run: the contracts are the laws.
ghost use Rattle.std.specs.Prelude.{◌≡◌, ℕ, List, Err};
ghost use Rattle.rinex_head.specs.declared.place.At.{At};
ghost use Rattle.rinex_head.specs.OwnFlaws.{IsOwnFlaw};
ghost use Rattle.line_source.specs.EndedLines.{ended_lines};
ghost use Rattle.cert_data.specs.declared.certs.Cert.{Cert};
ghost use Rattle.cert_text.specs.Spelling.{spelling};
ghost use Rattle.cert_text.specs.Lengths.{IsWhole};
ghost use Rattle.cert_text.specs.Rules.{cert_rules, reading_of};

/// No two certificates have the same spelling: what is written of one determines it.
pub fn one_spelling_law()
    ensures { (cert other : Cert) → IsWhole cert → IsWhole other → spelling cert ≡ spelling other →
        cert ≡ other }
{}

/// The column and the reason of a refusal are those of the check of its own line.
pub fn cert_flaw_law()
    ensures { (text : List ℕ) (at : At) → reading_of text ≡ Err at →
        IsOwnFlaw cert_rules (ended_lines text) at }
{}
