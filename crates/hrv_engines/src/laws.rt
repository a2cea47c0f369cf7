//! Laws of what engines read, each the contract of a function that does nothing.

ghost use Rattle.std.specs.Prelude.{◌≡◌, ◌≢◌, ◌<◌, ◌≤◌, ◌++◌, ◌∷◌, [], ℕ, List, codes, length, Ok, Err, Some};
ghost use Rattle.std.specs.declared.alloc.Global.{Global};
ghost use Rattle.line_text.specs.Lines.{IsLine};
ghost use Rattle.turn_log.specs.LogSpelling.{log_of};
ghost use Rattle.turn_log.specs.declared.log_faults.LogFault.{LogFault};
ghost use Rattle.turn_log.specs.declared.log_faults.LogFault.TheVariants.{Truncated};
ghost use Rattle.loader.specs.Image.{ImageContents, IsImage};
ghost use Rattle.loader.specs.Spelling.{image_of};
ghost use Rattle.loader.specs.declared.outputs.Output.{Output};
ghost use Rattle.halide_parser_syntax.specs.declared.faults.ParseFault.{ParseFault};
ghost use Rattle.halide_parser.specs.Parsing.{parsed};
ghost use Rattle.halide_pipeline.specs.Contents.{PictureContents};
ghost use Rattle.picture.specs.Reading.{picture_of};
ghost use Rattle.turn_log.specs.TurnLog.{LogState};
ghost use Rattle.hrv_engines.specs.BlamedPixels.{TellsPixel};
ghost use Rattle.hrv_engines.specs.Compile.{IsCompilation, Texts};
ghost use Rattle.hrv_engines.specs.Dump.{hart_texts};
ghost use Rattle.hrv_engines.specs.PrintedPictures.{EndsFinished, EndsWithDrawing};
ghost use Rattle.hrv_engines.specs.Replay.{IsReplay, replayed};
ghost use Rattle.hrv_engines.specs.Run.{IsRunFrom};
ghost use Rattle.hrv_engines.specs.declared.explain.TheConstants.{LOGIC, RELEASE, VERSION};
ghost use Rattle.hrv_engines.specs.Devices.{most_algorithm_bytes, most_image_bytes, most_picture_bytes};

/// More bytes than an image has are refused, and whatever begins with them with the same fault.
pub fn long_images_are_refused_by_their_front()
    ensures refused { (bytes : List ℕ) (image : ImageContents) → image_of bytes ≡ Ok image
        → length bytes ≤ most_image_bytes }
    ensures alike { (front rest : List ℕ) → most_image_bytes < length front
        → image_of (front ++ rest) ≡ image_of front }
{}

/// A text with more bytes than an algorithm has is refused in line 1, and with the same fault whatever is after a
/// front of this many bytes that has all of that line.
pub fn long_algorithms_are_refused_in_line_1()
    ensures refused { (alloc : Global) (text : List ℕ) → most_algorithm_bytes < length text
        → (fault : ParseFault) × (parsed alloc text ≡ Err (1, fault)) }
    ensures alike { (alloc : Global) (line more rest : List ℕ) → IsLine line
        → most_algorithm_bytes < length (line ++ 10 ∷ more)
        → parsed alloc ((line ++ 10 ∷ more) ++ rest) ≡ parsed alloc (line ++ 10 ∷ more) }
{}

/// A text with more bytes than a picture has is refused, and whatever begins with it with the same fault.
pub fn long_pictures_are_refused_by_their_front()
    ensures refused { (text : List ℕ) (picture : PictureContents) → picture_of text ≡ Ok picture
        → length text ≤ most_picture_bytes }
    ensures alike { (front rest : List ℕ) → most_picture_bytes < length front
        → picture_of (front ++ rest) ≡ picture_of front }
{}

/// Bytes that are no log, for another reason than that they end too soon, are refused with the same fault whatever
/// is after them.
pub fn logs_are_refused_by_their_front()
    ensures { (front rest : List ℕ) (fault : LogFault) → fault ≢ Truncated → log_of front ≡ Err fault
        → log_of (front ++ rest) ≡ Err fault }
{}

/// Where all harts of a compiled image have finished at a log's end, the text that `replay` prints of the image and the
/// log is what it says of the harts and then, byte for byte, what `picture` prints of the same algorithm and pictures;
/// and so is the text that a run prints which leaves this log. So a schedule changes speed and never pixels, from the
/// texts that a user writes to the text that a user reads.
pub fn printed_pictures_are_drawn()
    ensures replayed { (alloc : Global) (texts : Texts) (image_bytes log_bytes text : List ℕ) (image : ImageContents)
        (log : LogState) → IsCompilation alloc texts image_bytes → EndsFinished image_bytes log_bytes image log
        → IsReplay (image_bytes, log_bytes) text
        → EndsWithDrawing alloc (texts.0.0, texts.1)
        (hart_texts (replayed image log) log.turns (length (replayed image log).harts)) text }
    ensures ran { (alloc : Global) (texts : Texts) (image_bytes log_bytes text : List ℕ) (image : ImageContents)
        (log old : LogState) (limit : ℕ) → IsCompilation alloc texts image_bytes
        → EndsFinished image_bytes log_bytes image log → IsRunFrom image image_bytes old limit log_bytes text
        → EndsWithDrawing alloc (texts.0.0, texts.1)
        (hart_texts (replayed image log) log.turns (length (replayed image log).harts)) text }
{}

/// What `blame` tells of a pixel is what `replay` prints there: `after` of the pixel's last write is the value that the
/// dump's picture shows, and a pixel that was never written shows what its image was loaded with. So where all harts of
/// a compiled image have finished it is the value which `picture` shows, by the law above.
pub fn blamed_values_are_printed()
    ensures { (image : ImageContents) (log : LogState) (output : Output) (x y : ℕ) → IsImage image
        → image.output ≡ Some output → x < output.width → y < output.height → TellsPixel image log output x y }
{}

/// What the program says of its version and logic is of both.
pub fn version_tells_release_and_logic()
    ensures { VERSION ≡ codes "hrv " ++ RELEASE ++ 10 ∷ [] ++ codes "logic " ++ LOGIC ++ 10 ∷ [] }
{}
