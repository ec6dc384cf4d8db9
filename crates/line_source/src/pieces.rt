//! Files that are handed on in pieces.
ghost use Rattle.std.specs.Prelude.{◌≡◌, ◌≢◌, ◌+◌, ◌≤◌, ◌<◌, ◌++◌, ℕ, List, [], ◌∷◌, length, IfSome, OnOk, OnErr, IsErrOf, ⊤};
ghost use Rattle.line_source.specs.Causes.{Rose};
ghost use Rattle.line_source.specs.Openings.{OpensIt, OpensFirst, IsReadToEnd, unread};
ghost use Rattle.line_source.specs.Reports.{Unchanged, StillHolds};
ghost use Rattle.line_source.specs.Pieces.{IsTakenWhole};
ghost use Rattle.line_source.specs.Givens.{GivesFirst, GivesTooMany};

use crate::{Failed, Files, LoadFault, MAX_FILE};
use std::alloc::AllocError;

/// Takes a text of at most [`MAX_FILE`] bytes piece by piece. It need not keep the text.
pub trait Taker {
    /// How many bytes it has taken.
    ghost taken: { Self → ℕ };

    /// For which texts it stands.
    ghost stands_for: { Self → List ℕ → Type 0 };

    /// What holds where it was refused memory.
    ghost is_refused: { Self → Type 0 } = { λ _. ⊤ };

    /// Takes the next piece. Where it stood for a text, it stands for that text followed by the piece then.
    fn take(&mut self, piece: &[u8]) -> Result<(), AllocError>
        requires { taken self.old + length piece.now ≤ MAX_FILE }
        ensures refused { OnErr result (is_refused self.new) }
        ensures counted { OnOk result (taken self.new ≡ taken self.old + length piece.now) }
        ensures stands { OnOk result ((text : List ℕ) → stands_for self.old text →
            stands_for self.new (text ++ piece.now)) };
}

/// The most bytes of one piece.
pub const MAX_PIECE: usize = 65_536;

/// Hands the whole file under a name to a taker that has taken nothing, in pieces of at most [`MAX_PIECE`] bytes.
///
/// `ReadFault` comes only where the count of faults rose, and never for a sure name; `BigFile` exactly where the file has
/// more than [`MAX_FILE`] bytes, of which no more than that many are handed on; `NoMemory` only where the taker was
/// refused memory. The file is opened once at most, and read to its end where it is all handed on.
#[tactic(auto, using(crate::proofs::OpeningLaws::none_first, crate::proofs::OpeningLaws::one_first, crate::proofs::OpeningLaws::read_to_end, crate::proofs::GivenLaws::gives_none, crate::proofs::GivenLaws::gives_one, crate::proofs::GivenLaws::met_end))]
pub fn load_into<F: Files, T: Taker>(
    files: &mut F,
    name: &str,
    taker: &mut T,
) -> Result<(), LoadFault>
    requires none_taken { T.taken taker.old ≡ 0 }
    requires stands_for_none { T.stands_for taker.old [] }
    ensures whole { OnOk result (IsTakenWhole (F.text_of files.old name.now) name.now
        (F.given files.old) (F.given files.new) (T.taken taker.new) (T.stands_for taker.new)) }
    ensures big { IfSome (F.text_of files.old name.now) (λ text. IsErrOf result LoadFault.BigFile →
        MAX_FILE < length text) }
    ensures big_taken { IsErrOf result LoadFault.BigFile → T.taken taker.new ≤ MAX_FILE }
    ensures opened { OpensFirst (name.now ∷ []) (F.openings files.old) (F.openings files.new) }
    ensures opens { result ≢ Err LoadFault.ReadFault →
        OpensIt name.now (F.openings files.old) (F.openings files.new) }
    ensures gives { GivesFirst (name.now ∷ []) (F.given files.old) (F.given files.new) }
    ensures given_big { IsErrOf result LoadFault.BigFile →
        GivesTooMany name.now (F.given files.old) (F.given files.new) }
    ensures ended { OnOk result (IsReadToEnd (F.text_of files.old)
        (unread (F.openings files.new) (F.unread files.new) (F.given files.new)) name.now) }
    ensures memory { IsErrOf result LoadFault.NoMemory → T.is_refused taker.new }
    ensures cause { F.faults files.old ≤ F.faults files.new }
    ensures fault { IsErrOf result LoadFault.ReadFault →
        Rose (F.faults files.old) (F.faults files.new) }
    ensures sure { F.is_sure_name files.old name.now → result ≢ Err LoadFault.ReadFault }
    ensures texts { Unchanged (F.text_of files.old) (F.text_of files.new) }
    ensures sure_names { StillHolds (F.is_sure_name files.old) (F.is_sure_name files.new) }
{
    let id = match files.open_file(name) {
        Ok(id) => id,
        Err(Failed) => return Err(LoadFault::ReadFault),
    };
    let mut piece = [0u8; MAX_PIECE];
    let mut done = 0;
    'pieces: loop {
        let want = MAX_PIECE.min(MAX_FILE + 1 - done);
        let count = match files.read(id, &mut piece[..want]) {
            Ok(count) => count,
            Err(Failed) => return Err(LoadFault::ReadFault),
        };
        if count == 0 {
            return Ok(());
        }
        if count > MAX_FILE - done {
            return Err(LoadFault::BigFile);
        }
        match taker.take(&piece[..count]) {
            Ok(()) => done += count,
            Err(AllocError) => return Err(LoadFault::NoMemory),
        }
    }
}
