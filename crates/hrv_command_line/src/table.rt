//! The commands, a row each: its name, its values and options, and what help says of them.

ghost use Rattle.std.specs.Prelude.{◌≡◌, map};
ghost use Rattle.hrv_command_line.specs.Commands as spec;

/// How many words a value of a command takes.
#[derive(Clone, Copy)]
pub enum ValueCount {
    /// One.
    Always,
    /// One, or none.
    Perhaps,
    /// All that are left over.
    AnyNumber,
}

/// What is after the name of an option.
#[derive(Clone, Copy)]
pub enum OptionKind {
    /// Nothing.
    Flag,
    /// A word.
    Word,
    /// A number of harts.
    Harts,
    /// A number of turns.
    Turns,
    /// A seed.
    Seed,
    /// A number of turns that one hart makes at once.
    Every,
    /// The number of a turn of a log.
    Turn,
    /// The number of a hart.
    Hart,
}

/// A value, named by its place after the command's name.
#[derive(Clone, Copy)]
pub struct Value<'a> {
    pub name: &'a str,
    pub need: ValueCount,
    pub help: &'a str,
}

/// An option, named by a word that begins with `--`.
#[derive(Clone, Copy)]
pub struct Choice<'a> {
    pub name: &'a str,
    pub kind: OptionKind,
    /// What help calls its text.
    pub text: &'a str,
    pub help: &'a str,
}

/// A command.
#[derive(Clone, Copy)]
pub struct CommandRow<'a> {
    pub name: &'a str,
    pub about: &'a str,
    pub values: &'a [Value<'a>],
    pub choices: &'a [Choice<'a>],
}

const ALGORITHM: Value<'static> = Value {
    name: "ALGORITHM",
    need: ValueCount::Always,
    help: "The algorithm's text",
};

const INPUTS: Value<'static> = Value {
    name: "INPUT",
    need: ValueCount::AnyNumber,
    help: "The inputs' pictures, in the order of the algorithm's lines",
};

const ROWS: [CommandRow<'static>; 18] = [
    CommandRow {
        name: "picture",
        about: "Draws the picture that an algorithm defines",
        values: &[ALGORITHM, INPUTS],
        choices: &[],
    },
    CommandRow {
        name: "compile",
        about: "Compiles an algorithm under a schedule and stores the image",
        values: &[
            ALGORITHM,
            Value {
                name: "SCHEDULE",
                need: ValueCount::Always,
                help: "The schedule's text, which changes speed and never pixels",
            },
            Value {
                name: "IMAGE",
                need: ValueCount::Always,
                help: "The file that the image is stored in",
            },
            INPUTS,
        ],
        choices: &[],
    },
    CommandRow {
        name: "map",
        about: "Says where the data and the code of a compiled image lie, a fact a line",
        values: &[
            ALGORITHM,
            Value {
                name: "SCHEDULE",
                need: ValueCount::Always,
                help: "The schedule's text",
            },
        ],
        choices: &[],
    },
    CommandRow {
        name: "run",
        about: "Runs an image by threads, a thread a hart, and stores the log of their turns",
        values: &[
            Value {
                name: "IMAGE",
                need: ValueCount::Always,
                help: "The image that is run",
            },
            Value {
                name: "LOG",
                need: ValueCount::Always,
                help: "The file that the log of all turns is stored in",
            },
        ],
        choices: &[
            Choice {
                name: "harts",
                kind: OptionKind::Harts,
                text: "N",
                help: "How many harts run, 1 to 8: one where it isn't given",
            },
            Choice {
                name: "turns",
                kind: OptionKind::Turns,
                text: "L",
                help: "How many turns each hart makes at most, 1 to 1099511627776: that many where it isn't given",
            },
            Choice {
                name: "from",
                kind: OptionKind::Word,
                text: "OLD",
                help: "The log that the run goes on from, with as many harts as that log has",
            },
            Choice {
                name: "seed",
                kind: OptionKind::Seed,
                text: "S",
                help: "Draws which hart makes turns, the same for one S, 0 to 18446744073709551615; not with --from",
            },
            Choice {
                name: "every",
                kind: OptionKind::Every,
                text: "K",
                help: "How many turns a hart makes at most each time it is drawn, 1 to 4096: one where it isn't given",
            },
            Choice {
                name: "record",
                kind: OptionKind::Word,
                text: "RECORD",
                help: "The file that the record of the run is stored in, which `hrv verify` reads",
            },
        ],
    },
    CommandRow {
        name: "replay",
        about: "Runs an image once more, turn by turn as the log says",
        values: &[
            Value {
                name: "IMAGE",
                need: ValueCount::Always,
                help: "The image that is run",
            },
            Value {
                name: "LOG",
                need: ValueCount::Always,
                help: "The log of the turns that harts make",
            },
        ],
        choices: &[],
    },
    CommandRow {
        name: "debug",
        about: "Answers questions about an image and a log, asked on standard input",
        values: &[
            Value {
                name: "IMAGE",
                need: ValueCount::Always,
                help: "The image that is asked about",
            },
            Value {
                name: "LOG",
                need: ValueCount::Always,
                help: "The log of its turns",
            },
        ],
        choices: &[],
    },
    CommandRow {
        name: "blame",
        about: "Says which turn of a log wrote a pixel last, or which hart wrote each",
        values: &[
            Value {
                name: "IMAGE",
                need: ValueCount::Always,
                help: "The image that was run",
            },
            Value {
                name: "LOG",
                need: ValueCount::Always,
                help: "The log of its turns",
            },
            Value {
                name: "X",
                need: ValueCount::Perhaps,
                help: "The column of a pixel; without X and Y all pixels are told of",
            },
            Value {
                name: "Y",
                need: ValueCount::Perhaps,
                help: "The row of that pixel",
            },
        ],
        choices: &[
            Choice {
                name: "address",
                kind: OptionKind::Word,
                text: "A",
                help: "A word of data, by its address, in place of a pixel",
            },
            Choice {
                name: "turns",
                kind: OptionKind::Flag,
                text: "",
                help: "Gives for each pixel the number of the turn, modulo 2147483648, in place of its hart",
            },
        ],
    },
    CommandRow {
        name: "profile",
        about: "Says at which words of an image the harts made a log's turns, and how often",
        values: &[
            Value {
                name: "IMAGE",
                need: ValueCount::Always,
                help: "The image that was run",
            },
            Value {
                name: "LOG",
                need: ValueCount::Always,
                help: "The log of its turns",
            },
        ],
        choices: &[],
    },
    CommandRow {
        name: "trace",
        about: "Says of each turn of a log what it was and what it changed, a line a turn",
        values: &[
            Value {
                name: "IMAGE",
                need: ValueCount::Always,
                help: "The image that was run",
            },
            Value {
                name: "LOG",
                need: ValueCount::Always,
                help: "The log of its turns",
            },
        ],
        choices: &[
            Choice {
                name: "from",
                kind: OptionKind::Turn,
                text: "K",
                help: "The first turn that is told of, the log's first being 0",
            },
            Choice {
                name: "to",
                kind: OptionKind::Turn,
                text: "K",
                help: "The last turn that is told of",
            },
            Choice {
                name: "hart",
                kind: OptionKind::Hart,
                text: "H",
                help: "Tells of turns of this hart alone, 0 to 7",
            },
            Choice {
                name: "address",
                kind: OptionKind::Word,
                text: "A",
                help: "Tells of turns alone that load or store this word of data",
            },
        ],
    },
    CommandRow {
        name: "races",
        about: "Says at which place of a log two harts race first",
        values: &[
            Value {
                name: "IMAGE",
                need: ValueCount::Always,
                help: "The image that was run",
            },
            Value {
                name: "LOG",
                need: ValueCount::Always,
                help: "The log of its turns",
            },
            Value {
                name: "BUT",
                need: ValueCount::AnyNumber,
                help: "Words of data that are left out, by their addresses",
            },
        ],
        choices: &[],
    },
    CommandRow {
        name: "log",
        about: "Prints the runs of a log as text, or makes a log of such a text",
        values: &[
            Value {
                name: "FILE",
                need: ValueCount::Always,
                help: "The log that is printed; before LOG the text that a log is made of",
            },
            Value {
                name: "LOG",
                need: ValueCount::Perhaps,
                help: "The file that the log is stored in",
            },
        ],
        choices: &[],
    },
    CommandRow {
        name: "digest",
        about: "Prints the SHA-256 digest of files, a line each",
        values: &[
            Value {
                name: "FILE",
                need: ValueCount::Always,
                help: "A file",
            },
            Value {
                name: "MORE",
                need: ValueCount::AnyNumber,
                help: "Other files",
            },
        ],
        choices: &[],
    },
    CommandRow {
        name: "verify",
        about: "Says whether an image and a log are those of a record, and end as it says",
        values: &[
            Value {
                name: "RECORD",
                need: ValueCount::Always,
                help: "The record that `hrv run --record` stored",
            },
            Value {
                name: "IMAGE",
                need: ValueCount::Always,
                help: "The image that was run",
            },
            Value {
                name: "LOG",
                need: ValueCount::Always,
                help: "The log of its turns",
            },
        ],
        choices: &[],
    },
    CommandRow {
        name: "asm",
        about: "Assembles a text and stores the image",
        values: &[
            Value {
                name: "SOURCE",
                need: ValueCount::Always,
                help: "The assembly text",
            },
            Value {
                name: "IMAGE",
                need: ValueCount::Always,
                help: "The file that the image is stored in",
            },
        ],
        choices: &[],
    },
    CommandRow {
        name: "dis",
        about: "Prints a line for each word of an image's text",
        values: &[Value {
            name: "IMAGE",
            need: ValueCount::Always,
            help: "The image whose text is listed",
        }],
        choices: &[Choice {
            name: "addresses",
            kind: OptionKind::Flag,
            text: "",
            help: "Ends each line in a comment with its address",
        }],
    },
    CommandRow {
        name: "renew",
        about: "Stores an image in the newest format",
        values: &[
            Value {
                name: "OLD",
                need: ValueCount::Always,
                help: "An image of either format",
            },
            Value {
                name: "NEW",
                need: ValueCount::Always,
                help: "The file that it is stored in; it may be OLD",
            },
        ],
        choices: &[],
    },
    CommandRow {
        name: "explain",
        about: "Says what a refusal means, and what helps: `hrv explain load 2`",
        values: &[Value {
            name: "REFUSAL",
            need: ValueCount::AnyNumber,
            help: "A refusal as it is printed, or its family and code; without it all families are listed",
        }],
        choices: &[],
    },
    CommandRow {
        name: "version",
        about: "Prints the version of the program, and the logic that it is proved in, as --version does",
        values: &[],
        choices: &[],
    },
];

/// All commands, in the order in which help lists them.
pub fn rows() -> &'static [CommandRow<'static>]
    ensures { map spec.shape_of result.now ≡ spec.commands }
{
    &ROWS
}
