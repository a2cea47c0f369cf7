//! Laws of packets, each the contract of a function that does nothing.

ghost use Rattle.std.specs.Prelude.{◌≡◌, ◌≢◌, ◌≤◌, ◌+◌, ◌++◌, ◌∷◌, ℕ, List, length, Some};
ghost use Rattle.gdb_packets.specs.Packets.{Place, Packet, IsBody};
ghost use Rattle.gdb_packets.specs.Packets.{answer_in, behind, escaped, frame, meaning, outside, readings};

/// Bytes say the same in whatever pieces they come.
pub fn pieces_are_read_in_turn()
    ensures readings { (limit : ℕ) (place : Place) (first second : List ℕ)
        → readings limit place (first ++ second)
        ≡ readings limit place first ++ readings limit (behind limit place first) second }
    ensures places { (limit : ℕ) (place : Place) (first second : List ℕ)
        → behind limit place (first ++ second) ≡ behind limit (behind limit place first) second }
{}

/// A reader never keeps more than one byte above what a body may have.
pub fn little_is_kept()
    ensures { (limit : ℕ) (bytes : List ℕ) → length (behind limit outside bytes).body ≤ limit + 1 }
{}

/// A frame says what its whole body and its digits mean, whatever came before it and follows.
pub fn frames_are_read()
    ensures { (limit : ℕ) (place : Place) (body : List ℕ) (first second : ℕ) (rest : List ℕ)
        → IsBody body → first ≢ 36 → second ≢ 36
        → readings limit place (36 ∷ body ++ 35 ∷ first ∷ second ∷ rest)
        ≡ meaning limit body first second ∷ readings limit outside rest }
{}

/// The frame of a payload is read as its packet, whatever came before it and follows, where its body isn't too long.
pub fn written_frames_are_read()
    ensures { (limit : ℕ) (place : Place) (payload rest : List ℕ) → length (escaped payload) ≤ limit
        → readings limit place (frame payload ++ rest) ≡ Packet payload ∷ readings limit outside rest }
{}

/// Gdb, which expands runs first, takes the payload from the body of its frame.
pub fn answers_are_read_by_gdb()
    ensures { (payload : List ℕ) → answer_in (escaped payload) ≡ Some payload }
{}
