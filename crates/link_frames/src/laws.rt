//! Laws of frames, as contracts of functions that do nothing.
ghost use Rattle.std.specs.Prelude.{◌≡◌, ℕ, ◌++◌, List, length, IsTrue};
ghost use Rattle.link_frames.specs.declared.awaits.Awaits.{Awaits};
ghost use Rattle.link_frames.specs.declared.frame_kind.FrameKind.{FrameKind};
ghost use Rattle.link_frames.specs.Frames.{Whole, is_length, may_come, frame_bytes, first_frame};

/// A frame that may come is read as it was put, whatever follows it.
pub fn frames_read_back()
    ensures { (awaits : Awaits) (kind : FrameKind) (body rest : List ℕ)
        → IsTrue (may_come awaits kind) → IsTrue (is_length kind (length body))
        → first_frame awaits (frame_bytes kind body ++ rest) ≡ Whole kind body }
{}
