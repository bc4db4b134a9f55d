//! Laws of frames, for the proofs of callers.

ghost use Rattle.std.specs.Prelude.{◌≡◌, ◌+◌, ◌++◌, ℕ, List, [], length, Ok, Err};
ghost use Rattle.std.specs.List.{flat_map};
ghost use Rattle.context_diff.specs.Operations.{OpData, IsWellFormed};
ghost use Rattle.wire_codec.specs.declared.version.Version.{Version};
ghost use Rattle.wire_codec.specs.declared.version.Version.TheVariants.{Two};
ghost use Rattle.wire_codec.specs.Versions.{Fits};
ghost use Rattle.wire_codec.specs.Spelling.{frame};
ghost use Rattle.wire_codec.specs.Judging.{judge};
ghost use Rattle.wire_codec.specs.Answers.{HasFrame};
ghost use Rattle.wire_codec.specs.declared.fault.Fault.{Fault};
ghost use Rattle.wire_codec.specs.declared.fault.Refused.TheVariants.{Bad};
ghost use Rattle.wire_codec.specs.StreamData.{StreamData};
ghost use Rattle.wire_codec.specs.Streams.{Call, Runs, bytes_fed, ops_taken};

/// In a version two operations never share a frame, and no frame goes on after another one.
pub fn frames_apart()
    ensures same { (v : Version) (a b : OpData) (x y : List ℕ) → IsWellFormed a → Fits v a → IsWellFormed b → Fits v b
        → frame v a ++ x ≡ frame v b ++ y → a ≡ b }
    ensures no_prefix { (v : Version) (a b : OpData) (x : List ℕ) → IsWellFormed a → Fits v a → IsWellFormed b → Fits v b
        → frame v a ++ x ≡ frame v b → x ≡ [] }
{}

/// The frame of a well-formed operation, whose sites the version can name, is judged to be so, whatever follows it.
pub fn judgement_is_the_frames()
    ensures again { (v : Version) (o : OpData) (rest : List ℕ) → IsWellFormed o → Fits v o
        → judge v (frame v o ++ rest) ≡ Ok (o, length (frame v o)) }
{}

/// Version 2 can name the sites of each well-formed operation.
pub fn all_fit_two()
    ensures fits { (o : OpData) → IsWellFormed o → Fits Two o }
{}

/// Bytes that are bad stay bad at the same place for the same cause, whatever comes after them; so no continuation
/// of them begins with a frame.
pub fn a_fault_stays()
    ensures stays { (v : Version) (bytes more : List ℕ) (f : Fault) → judge v bytes ≡ Err (Bad f) → judge v (bytes ++ more) ≡ Err (Bad f) }
    ensures never { (v : Version) (bytes more : List ℕ) (f : Fault) → judge v bytes ≡ Err (Bad f) → ¬ HasFrame v (bytes ++ more) }
{}

/// Over any calls of one stream, however the input was cut: the bytes that were left and the bytes fed
/// are the frames of the operations taken, in order, and the bytes left then.
pub fn whole_stream()
    ensures bytes { (calls : List Call) (old new : StreamData) → Runs calls old new
        → old.left ++ flat_map bytes_fed calls ≡ flat_map (frame old.version) (flat_map ops_taken calls) ++ new.left }
    ensures taken { (calls : List Call) (old new : StreamData) → Runs calls old new
        → new.taken ≡ old.taken + length (flat_map (frame old.version) (flat_map ops_taken calls)) }
    ensures version { (calls : List Call) (old new : StreamData) → Runs calls old new → new.version ≡ old.version }
{}
