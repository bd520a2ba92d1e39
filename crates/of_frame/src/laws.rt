//! What the cut of a stream is, whatever the bytes and their pieces. These functions do nothing: each is its law.

ghost use Rattle.std.specs.Prelude.{◌≡◌, ℕ, List, [], Some};
ghost use Rattle.std.specs.List.{concat};
ghost use Rattle.of_frame.specs.declared.fault.FrameFault.{FrameFault};
ghost use Rattle.of_frame.specs.Cut.{Pending, nothing_yet, cut, cut_pieces, IsCutInto};

/// Frames and fault are those of the joined pieces, whatever the pieces.
pub fn pieces_do_not_matter()
    ensures { (p : Pending) (pieces : List (List ℕ)) → cut_pieces p pieces ≡ cut p (concat pieces) }
{}

/// After a fault nothing more is cut, and the fault stays.
pub fn a_fault_stays()
    ensures { (p : Pending) (fault : FrameFault) (bytes : List ℕ) → p.fault ≡ Some fault → cut p bytes ≡ (p, []) }
{}

/// What is cut of a stream is the stream: whole frames in order, then the bytes of a frame that is not whole yet, or
/// those of the first header with a fault and all bytes behind it.
pub fn frames_are_the_stream()
    ensures { (bytes : List ℕ) → (uncut : List ℕ) × IsCutInto bytes (cut nothing_yet bytes) uncut }
{}
