//! Which words name each command, each law the contract of a function that does nothing.
ghost use Rattle.std.specs.Prelude.{◌≡◌, ◌≤◌, ℕ, List, None, [], ◌∷◌, codes, false, true, length, Some};
ghost use Rattle.std.specs.List.{AllByRecursion};
ghost use Rattle.std.specs.Str.{bytes_eq};
ghost use Rattle.clap.specs.Lexer.{usize_max};
ghost use Rattle.hrv_command_line.specs.CommandLine.{Asked, Assembles, Blames, Compiles, Debugs, Digests, Draws};
ghost use Rattle.hrv_command_line.specs.CommandLine.{Explains, FindsRaces};
ghost use Rattle.hrv_command_line.specs.CommandLine.{IsPlainWord, IsSpelled, Lists, ListsAddresses, MakesLog, Maps};
ghost use Rattle.hrv_command_line.specs.CommandLine.{PrintsLog, Profiles, Renews, Replays, Resumes};
ghost use Rattle.hrv_command_line.specs.CommandLine.{Runs, RunsDrawn, TellsVersion, Traces, Verifies};
ghost use Rattle.hrv_command_line.specs.CommandLine.{hart_in, named, number_in, number_or};
ghost use Rattle.hrv_command_line.specs.Commands.{most_every, most_harts, most_number, most_turns};
ghost use Rattle.hrv_refusals.specs.Explanations.{is_explained};

/// Which words name a replay: `replay` and two names, after `--` where one begins with `-`.
pub fn replay_is_named()
    ensures plain { (image log : List ℕ) → IsPlainWord image → IsPlainWord log
        → named (codes "replay" ∷ image ∷ log ∷ []) ≡ Some (Replays image log) }
    ensures marked { (image log : List ℕ)
        → named (codes "replay" ∷ codes "--" ∷ image ∷ log ∷ []) ≡ Some (Replays image log) }
    ensures only { (words : List (List ℕ)) (asked : Asked)
        → named words ≡ Some asked → IsSpelled words asked }
{}

/// Which words name a talk with the debugger: `debug` and two names, after `--` where one begins with `-`.
pub fn debug_is_named()
    ensures plain { (image log : List ℕ) → IsPlainWord image → IsPlainWord log
        → named (codes "debug" ∷ image ∷ log ∷ []) ≡ Some (Debugs image log) }
    ensures marked { (image log : List ℕ)
        → named (codes "debug" ∷ codes "--" ∷ image ∷ log ∷ []) ≡ Some (Debugs image log) }
{}

/// Which words name the answer who wrote a pixel: `blame` and two names, alone or with the two numbers of a pixel
/// after them, with `--turns`, or with the address of a word.
pub fn blame_is_named()
    ensures plain { (image log : List ℕ) → IsPlainWord image → IsPlainWord log
        → named (codes "blame" ∷ image ∷ log ∷ []) ≡ Some (Blames image log None None None false) }
    ensures turns { (image log : List ℕ) → IsPlainWord image → IsPlainWord log
        → named (codes "blame" ∷ image ∷ log ∷ codes "--turns" ∷ []) ≡ Some (Blames image log None None None true) }
    ensures pixel { (image log x y : List ℕ) → IsPlainWord image → IsPlainWord log → IsPlainWord x → IsPlainWord y
        → named (codes "blame" ∷ image ∷ log ∷ x ∷ y ∷ []) ≡ Some (Blames image log (Some x) (Some y) None false) }
    ensures address { (image log address : List ℕ) → IsPlainWord image → IsPlainWord log → IsPlainWord address
        → named (codes "blame" ∷ image ∷ log ∷ codes "--address" ∷ address ∷ [])
        ≡ Some (Blames image log None None (Some address) false) }
{}

/// Which words name a profile: `profile` and two names, after `--` where one begins with `-`.
pub fn profile_is_named()
    ensures plain { (image log : List ℕ) → IsPlainWord image → IsPlainWord log
        → named (codes "profile" ∷ image ∷ log ∷ []) ≡ Some (Profiles image log) }
    ensures marked { (image log : List ℕ)
        → named (codes "profile" ∷ codes "--" ∷ image ∷ log ∷ []) ≡ Some (Profiles image log) }
{}

/// Which words name a trace: `trace` and two names, alone, or with the first turn and the last one, a hart, or the
/// address of a word.
pub fn trace_is_named()
    ensures plain { (image log : List ℕ) → IsPlainWord image → IsPlainWord log
        → named (codes "trace" ∷ image ∷ log ∷ []) ≡ Some (Traces image log 0 most_number None None) }
    ensures turns { (image log first last : List ℕ) (f l : ℕ) → IsPlainWord image → IsPlainWord log
        → number_in first ≡ Some f → number_in last ≡ Some l
        → named (codes "trace" ∷ image ∷ log ∷ codes "--from" ∷ first ∷ codes "--to" ∷ last ∷ [])
        ≡ Some (Traces image log f l None None) }
    ensures hart { (image log hart : List ℕ) (h : ℕ) → IsPlainWord image → IsPlainWord log → hart_in hart ≡ Some h
        → named (codes "trace" ∷ image ∷ log ∷ codes "--hart" ∷ hart ∷ [])
        ≡ Some (Traces image log 0 most_number (Some h) None) }
    ensures address { (image log address : List ℕ) → IsPlainWord image → IsPlainWord log → IsPlainWord address
        → named (codes "trace" ∷ image ∷ log ∷ codes "--address" ∷ address ∷ [])
        ≡ Some (Traces image log 0 most_number None (Some address)) }
{}

/// Which words name the printing of a log and the making of one: `log` and a name, or two names, after `--` where one
/// begins with `-`.
pub fn log_is_named()
    ensures printed { (log : List ℕ) → IsPlainWord log → named (codes "log" ∷ log ∷ []) ≡ Some (PrintsLog log) }
    ensures printed_marked { (log : List ℕ) → named (codes "log" ∷ codes "--" ∷ log ∷ []) ≡ Some (PrintsLog log) }
    ensures made { (text log : List ℕ) → IsPlainWord text → IsPlainWord log
        → named (codes "log" ∷ text ∷ log ∷ []) ≡ Some (MakesLog text log) }
    ensures made_marked { (text log : List ℕ)
        → named (codes "log" ∷ codes "--" ∷ text ∷ log ∷ []) ≡ Some (MakesLog text log) }
{}

/// Which words name digests: `digest` and one name or more, after `--` where one begins with `-`.
pub fn digest_is_named()
    ensures plain { (file : List ℕ) (files : List (List ℕ)) → AllByRecursion IsPlainWord (file ∷ files)
        → named (codes "digest" ∷ file ∷ files) ≡ Some (Digests (file ∷ files)) }
    ensures marked { (file : List ℕ) (files : List (List ℕ))
        → named (codes "digest" ∷ codes "--" ∷ file ∷ files) ≡ Some (Digests (file ∷ files)) }
    ensures none { named (codes "digest" ∷ []) ≡ None }
{}

/// Which words name the verification of a record: `verify` and three names, after `--` where one begins with `-`.
pub fn verify_is_named()
    ensures plain { (recorded image log : List ℕ) → IsPlainWord recorded → IsPlainWord image → IsPlainWord log
        → named (codes "verify" ∷ recorded ∷ image ∷ log ∷ []) ≡ Some (Verifies recorded image log) }
    ensures marked { (recorded image log : List ℕ)
        → named (codes "verify" ∷ codes "--" ∷ recorded ∷ image ∷ log ∷ []) ≡ Some (Verifies recorded image log) }
{}

/// Which words name an assembly: `asm` and two names, after `--` where one begins with `-`.
pub fn asm_is_named()
    ensures plain { (source image : List ℕ) → IsPlainWord source → IsPlainWord image
        → named (codes "asm" ∷ source ∷ image ∷ []) ≡ Some (Assembles source image) }
    ensures marked { (source image : List ℕ)
        → named (codes "asm" ∷ codes "--" ∷ source ∷ image ∷ []) ≡ Some (Assembles source image) }
{}

/// Which words name a listing: `dis` and a name, after `--` where it begins with `-`; with addresses where
/// `--addresses` is after the name or before it.
pub fn dis_is_named()
    ensures plain { (image : List ℕ) → IsPlainWord image → named (codes "dis" ∷ image ∷ []) ≡ Some (Lists image) }
    ensures marked { (image : List ℕ) → named (codes "dis" ∷ codes "--" ∷ image ∷ []) ≡ Some (Lists image) }
    ensures addresses { (image : List ℕ) → IsPlainWord image
        → named (codes "dis" ∷ image ∷ codes "--addresses" ∷ []) ≡ Some (ListsAddresses image) }
    ensures before { (image : List ℕ) → IsPlainWord image
        → named (codes "dis" ∷ codes "--addresses" ∷ image ∷ []) ≡ Some (ListsAddresses image) }
{}

/// Which words name an explanation: `explain`, a family and a code, or a family alone, of a refusal that there is; with
/// `refused` before them and the line of a text after them, as a refusal is printed; or `explain` alone, which asks
/// for all families. No family is `refused`.
pub fn explain_is_named()
    ensures both { (family code : List ℕ) → IsPlainWord family → IsPlainWord code → is_explained family code ≡ true
        → bytes_eq family (codes "refused") ≡ false
        → named (codes "explain" ∷ family ∷ code ∷ []) ≡ Some (Explains family code) }
    ensures alone { (family : List ℕ) → IsPlainWord family → is_explained family [] ≡ true
        → bytes_eq family (codes "refused") ≡ false
        → named (codes "explain" ∷ family ∷ []) ≡ Some (Explains family []) }
    ensures others { (family code : List ℕ) → IsPlainWord family → IsPlainWord code → is_explained family code ≡ false
        → bytes_eq family (codes "refused") ≡ false
        → named (codes "explain" ∷ family ∷ code ∷ []) ≡ None }
    ensures printed { (family code line : List ℕ) → IsPlainWord family → IsPlainWord code → IsPlainWord line
        → is_explained family code ≡ true → bytes_eq family (codes "file") ≡ false
        → named (codes "explain" ∷ codes "refused" ∷ family ∷ code ∷ codes "line" ∷ line ∷ [])
        ≡ Some (Explains family code) }
    ensures all { named (codes "explain" ∷ []) ≡ Some (Explains [] []) }
{}

/// The words that ask for the program's version.
pub fn version_is_named()
    ensures plain { named (codes "version" ∷ []) ≡ Some TellsVersion }
    ensures flag { named (codes "--version" ∷ []) ≡ Some TellsVersion }
{}

/// Which words name a renewal: `renew` and two names, after `--` where one begins with `-`.
pub fn renew_is_named()
    ensures plain { (old new : List ℕ) → IsPlainWord old → IsPlainWord new
        → named (codes "renew" ∷ old ∷ new ∷ []) ≡ Some (Renews old new) }
    ensures marked { (old new : List ℕ)
        → named (codes "renew" ∷ codes "--" ∷ old ∷ new ∷ []) ≡ Some (Renews old new) }
{}

/// Which words name a map: `map` and two names, after `--` where one begins with `-`.
pub fn map_is_named()
    ensures plain { (algorithm schedule : List ℕ) → IsPlainWord algorithm → IsPlainWord schedule
        → named (codes "map" ∷ algorithm ∷ schedule ∷ []) ≡ Some (Maps algorithm schedule) }
    ensures marked { (algorithm schedule : List ℕ)
        → named (codes "map" ∷ codes "--" ∷ algorithm ∷ schedule ∷ []) ≡ Some (Maps algorithm schedule) }
{}

/// Which words name a picture: `picture`, an algorithm and any number of inputs, after `--` where one begins with `-`.
pub fn picture_is_named()
    ensures plain { (algorithm : List ℕ) (inputs : List (List ℕ)) → AllByRecursion IsPlainWord (algorithm ∷ inputs)
        → length inputs ≤ usize_max
        → named (codes "picture" ∷ algorithm ∷ inputs) ≡ Some (Draws algorithm inputs) }
    ensures marked { (algorithm : List ℕ) (inputs : List (List ℕ)) → length inputs ≤ usize_max
        → named (codes "picture" ∷ codes "--" ∷ algorithm ∷ inputs) ≡ Some (Draws algorithm inputs) }
{}

/// Which words name a compilation: `compile`, an algorithm, a schedule, an image and any number of inputs, after `--`
/// where one begins with `-`.
pub fn compile_is_named()
    ensures plain { (algorithm schedule image : List ℕ) (inputs : List (List ℕ))
        → AllByRecursion IsPlainWord (algorithm ∷ schedule ∷ image ∷ inputs)
        → length inputs ≤ usize_max → named (codes "compile" ∷ algorithm ∷ schedule ∷ image ∷ inputs)
        ≡ Some (Compiles algorithm schedule image inputs) }
    ensures marked { (algorithm schedule image : List ℕ) (inputs : List (List ℕ)) → length inputs ≤ usize_max
        → named (codes "compile" ∷ codes "--" ∷ algorithm ∷ schedule ∷ image ∷ inputs)
        ≡ Some (Compiles algorithm schedule image inputs) }
{}

/// Which words name a search for races: `races`, two names and any number of addresses, after `--` where one begins
/// with `-`.
pub fn races_are_named()
    ensures plain { (image log : List ℕ) (but : List (List ℕ)) → AllByRecursion IsPlainWord (image ∷ log ∷ but)
        → length but ≤ usize_max → named (codes "races" ∷ image ∷ log ∷ but) ≡ Some (FindsRaces image log but) }
    ensures marked { (image log : List ℕ) (but : List (List ℕ)) → length but ≤ usize_max
        → named (codes "races" ∷ codes "--" ∷ image ∷ log ∷ but) ≡ Some (FindsRaces image log but) }
{}

/// Which words name a run: `run` and two names, after `--` where one begins with `-`; with options after them, whose
/// texts are numbers within the limits; with the log that it goes on from; with a seed; or with the file of a record.
pub fn run_is_named()
    ensures plain { (image log : List ℕ) → IsPlainWord image → IsPlainWord log
        → named (codes "run" ∷ image ∷ log ∷ []) ≡ Some (Runs image log None 1 most_turns) }
    ensures marked { (image log : List ℕ)
        → named (codes "run" ∷ codes "--" ∷ image ∷ log ∷ []) ≡ Some (Runs image log None 1 most_turns) }
    ensures options { (image log harts turns : List ℕ) (h t : ℕ) → IsPlainWord image → IsPlainWord log
        → number_or 1 most_harts (Some harts) ≡ Some h → number_or 1 most_turns (Some turns) ≡ Some t
        → named (codes "run" ∷ image ∷ log ∷ codes "--harts" ∷ harts ∷ codes "--turns" ∷ turns ∷ [])
        ≡ Some (Runs image log None h t) }
    ensures resumed { (image log old : List ℕ) → IsPlainWord image → IsPlainWord log → IsPlainWord old
        → named (codes "run" ∷ image ∷ log ∷ codes "--from" ∷ old ∷ []) ≡ Some (Resumes image log None old most_turns) }
    ensures drawn { (image log seed : List ℕ) (s : ℕ) → IsPlainWord image → IsPlainWord log → number_in seed ≡ Some s
        → named (codes "run" ∷ image ∷ log ∷ codes "--seed" ∷ seed ∷ [])
        ≡ Some (RunsDrawn image log None 1 most_turns s 1) }
    ensures drawn_by { (image log seed every : List ℕ) (s k : ℕ) → IsPlainWord image → IsPlainWord log
        → number_in seed ≡ Some s → number_or 1 most_every (Some every) ≡ Some k
        → named (codes "run" ∷ image ∷ log ∷ codes "--seed" ∷ seed ∷ codes "--every" ∷ every ∷ [])
        ≡ Some (RunsDrawn image log None 1 most_turns s k) }
    ensures recorded { (image log file : List ℕ) → IsPlainWord image → IsPlainWord log → IsPlainWord file
        → named (codes "run" ∷ image ∷ log ∷ codes "--record" ∷ file ∷ [])
        ≡ Some (Runs image log (Some file) 1 most_turns) }
    ensures resumed_recorded { (image log old file : List ℕ) → IsPlainWord image → IsPlainWord log → IsPlainWord old
        → IsPlainWord file
        → named (codes "run" ∷ image ∷ log ∷ codes "--from" ∷ old ∷ codes "--record" ∷ file ∷ [])
        ≡ Some (Resumes image log (Some file) old most_turns) }
{}
