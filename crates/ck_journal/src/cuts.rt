ghost use Rattle.ck_journal.specs.Cuts.{BaseLaw, CutLaw};

/// The law of cuts: where a history is legal, starts from a sound base and has no session open, all
/// later calls are answered from the base that it leaves as they are after the history. The
/// function does nothing; its contract is the law.
pub fn cut_law()
    ensures { CutLaw }
{}

/// A law like `cut_law`: a history without entries leaves the sound base that it starts from.
pub fn base_law()
    ensures { BaseLaw }
{}
