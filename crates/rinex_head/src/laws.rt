//! What holds of the lines of every text.
ghost use Rattle.std.specs.Prelude.{◌≡◌, ◌<◌, ℕ, List, All};
ghost use Rattle.line_source.specs.Lines.{lines_of};
ghost use Rattle.rinex_head.specs.FirstFailing.{IsLine};

/// Lines of bytes, none of them a line feed, are the lines of a text: a file that is completed by such lines is one.
/// There is nothing to run: the contract is the law.
pub fn text_lines_law()
    ensures { (lines : List (List ℕ)) → All IsLine lines →
        (text : List ℕ) × All (λ b. b < 256) text × (lines_of text ≡ lines) }
{}
