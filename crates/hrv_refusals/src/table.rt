//! The refusals of the program, as data: the tables of the pages have these texts, and `bench/checks/refusal_tables`
//! compares them.

/// A line for each family, and for each of its codes as often as it has causes, in the order in which they are judged.
/// Below it stand, after two blanks, what the family says, and the cause with what helps.
#[rattlefmt::skip]
pub static REFUSALS: [u8; 9843] = *b"\
file\n\
\x20\x20cause: a file can't be read or written, an output is one of the inputs, or a text isn't UTF-8; here `-` is standard input or output, or a file of that name\n\
\x20\x20cure: look at the path, its rights, the disk; a word left out moves the words behind it\n\
memory\n\
\x20\x20cause: the system gave no memory\n\
\x20\x20cure: a smaller picture or log, a larger machine\n\
thread\n\
\x20\x20cause: of `hrv run`: a hart got no thread, or it didn't start for more than a second; no turn is made\n\
\x20\x20cure: a limit on processes or on memory, `ulimit -u`, `ulimit -v`; more memory\n\
load\n\
\x20\x20IMAGE, or OLD of `renew`, is no image\n\
load 2\n\
\x20\x20cause: fewer than 4 bytes\n\
\x20\x20cure: the file was cut: store it again\n\
load 1\n\
\x20\x20cause: other first letters\n\
\x20\x20cure: it is another kind of file\n\
load 2\n\
\x20\x20cause: fewer than 32 bytes, of `HRV2` fewer than 36\n\
\x20\x20cure: the file was cut\n\
load 4\n\
\x20\x20cause: more than 262,144 words of text or 33,554,432 bytes of data; S above D\n\
\x20\x20cure: a smaller program\n\
load 2\n\
\x20\x20cause: fewer bytes than the header says\n\
\x20\x20cure: the file was cut\n\
load 3\n\
\x20\x20cause: more bytes than these\n\
\x20\x20cure: something was appended\n\
load 5\n\
\x20\x20cause: the entry is not the address of a text word\n\
\x20\x20cure: `.entry` names a label in text\n\
load 6\n\
\x20\x20cause: the output breaks a rule\n\
\x20\x20cure: `.output` names words of data that are there, by the rules of images\n\
load 8\n\
\x20\x20cause: of `HRV2`: S isn't 0 and the last stored byte is 0\n\
\x20\x20cure: the writer has to leave out zeros at the end\n\
log\n\
\x20\x20LOG, or OLD of a run, is no log\n\
log 2\n\
\x20\x20cause: fewer than 4 bytes\n\
\x20\x20cure: the file was cut: a run can go on from an older log\n\
log 1\n\
\x20\x20cause: other first letters\n\
\x20\x20cure: it is another kind of file\n\
log 2\n\
\x20\x20cause: fewer than 16 bytes\n\
\x20\x20cure: the file was cut\n\
log 3\n\
\x20\x20cause: a number of harts outside 1 to 8\n\
\x20\x20cure: no run stored it: run the image again\n\
log 2\n\
\x20\x20cause: run by run: fewer than 9 bytes left\n\
\x20\x20cure: the file was cut\n\
log 3\n\
\x20\x20cause: a hart that isn't below the number of harts\n\
\x20\x20cure: no run stored it: run the image again\n\
log 4\n\
\x20\x20cause: length 0, or the hart of the run before\n\
\x20\x20cure: join runs of one hart\n\
log 5\n\
\x20\x20cause: a hart with more than 2^40 turns in all\n\
\x20\x20cure: no run stored it: run the image again\n\
log 4\n\
\x20\x20cause: at the end: bytes behind the last run\n\
\x20\x20cure: something was appended\n\
turns\n\
\x20\x20TEXT of `hrv log` is none of a log, in the line that is named\n\
turns 1\n\
\x20\x20cause: the first line isn't `harts N`, N 1 to 8\n\
\x20\x20cure: `harts 2`\n\
turns 2\n\
\x20\x20cause: another line isn't `HART COUNT`\n\
\x20\x20cure: two decimal numbers, one space between\n\
turns 3\n\
\x20\x20cause: a hart that isn't below N\n\
\x20\x20cure: they begin at 0\n\
turns 4\n\
\x20\x20cause: a count of 0\n\
\x20\x20cure: leave the line out\n\
turns 5\n\
\x20\x20cause: a hart with more than 2^40 turns\n\
\x20\x20cure: fewer\n\
record\n\
\x20\x20RECORD of `hrv verify` is no record, in the line that is named\n\
record 1\n\
\x20\x20cause: the first line isn't `record 1`\n\
\x20\x20cure: it is another kind of file\n\
record 2\n\
\x20\x20cause: another line isn't the one of its place, or stands behind the last\n\
\x20\x20cure: the eight lines of a record, in their order\n\
record 3\n\
\x20\x20cause: a version or a logic that isn't a word of visible ASCII characters\n\
\x20\x20cure: no run stored it: take the record of the archive\n\
record 4\n\
\x20\x20cause: a digest that isn't 64 hexadecimal digits\n\
\x20\x20cure: `hrv digest` prints them\n\
record 5\n\
\x20\x20cause: a number of harts outside 1 to 8, or a limit outside 1 to 2^40\n\
\x20\x20cure: no run stored it: take the record of the archive\n\
record 6\n\
\x20\x20cause: an ending that is none\n\
\x20\x20cure: `finished`, `limit` or `trap K`\n\
blame\n\
\x20\x20of `hrv blame`: what is asked has no answer\n\
blame 1\n\
\x20\x20cause: words that don't go together: X without Y, a pixel beside an address, `--turns` beside either\n\
\x20\x20cure: no number, X and Y, or `--address`; `--turns` alone\n\
blame 2\n\
\x20\x20cause: a word that is no number\n\
\x20\x20cure: decimal digits, or `0x` and hexadecimal digits, below 2^64\n\
blame 3\n\
\x20\x20cause: the image has no output\n\
\x20\x20cure: `--address` takes any word of data\n\
blame 4\n\
\x20\x20cause: X or Y outside of the output\n\
\x20\x20cure: both begin at 0 and lie below the output's width and height\n\
blame 5\n\
\x20\x20cause: an address that is none of a word of data\n\
\x20\x20cure: a multiple of 4, from 0x00200000 up to the last word of data\n\
asm\n\
\x20\x20the assembly text is faulty, in the line that is named\n\
asm 1\n\
\x20\x20cause: syntax: wrong tokens, a wrong number or shape of operands, what isn't allowed where it stands\n\
\x20\x20cure: the shapes of lines in ASSEMBLY.md\n\
asm 2\n\
\x20\x20cause: a mnemonic or directive that is none\n\
\x20\x20cure: small letters; the instructions and directives in ASSEMBLY.md\n\
asm 3\n\
\x20\x20cause: a word that is no register, or one of the other kind\n\
\x20\x20cure: `x0` to `x31`, `v0` to `v31`\n\
asm 4\n\
\x20\x20cause: a number outside of what its place takes\n\
\x20\x20cure: `li` takes any word\n\
asm 5\n\
\x20\x20cause: a label that no line defines\n\
\x20\x20cure: `NAME:` in front of a line\n\
asm 6\n\
\x20\x20cause: a label that an earlier line defines\n\
\x20\x20cure: another name\n\
asm 7\n\
\x20\x20cause: a target out of reach, an entry that is no word of text, an output that breaks a rule\n\
\x20\x20cure: `jal` reaches further than a branch\n\
asm 8\n\
\x20\x20cause: text or data beyond its limit\n\
\x20\x20cure: a smaller program\n\
parse\n\
\x20\x20the algorithm is faulty, in the line that is named\n\
parse 1\n\
\x20\x20cause: syntax; it hides all else of its line\n\
\x20\x20cure: the grammar of algorithms\n\
parse 2\n\
\x20\x20cause: an unknown name; a Func in its own pure definition; a call of a variable; \
an update or output of what is no Func\n\
\x20\x20cure: names are defined on an earlier line; an update may call its own Func\n\
parse 3\n\
\x20\x20cause: a name that is taken: an input or Func twice, an argument or reduction variable twice in a definition\n\
\x20\x20cure: another name\n\
parse 4\n\
\x20\x20cause: the number of arguments or dimensions; an input or Func named without a bracket\n\
\x20\x20cure: as many indexes as dimensions\n\
parse 5\n\
\x20\x20cause: a divisor that isn't a number from 1 to 2147483647\n\
\x20\x20cure: a literal behind `/` and `%`\n\
parse 6\n\
\x20\x20cause: a number above 2147483647\n\
\x20\x20cure: a sum or product of smaller ones\n\
parse 7\n\
\x20\x20cause: an update's shape\n\
\x20\x20cure: arguments that the right side uses stand in place on the left; the update follows its Func's line\n\
parse 8\n\
\x20\x20cause: a limit of the language\n\
\x20\x20cure: fewer Funcs, shorter lines; a picture in tiles\n\
parse 9\n\
\x20\x20cause: no output line: the line after the last (of an empty text, line 1)\n\
\x20\x20cure: `output NAME W H`\n\
schedule\n\
\x20\x20the schedule is faulty, or doesn't fit (line 0: no line is at fault)\n\
schedule 1\n\
\x20\x20cause: syntax; a compute line whose first word has a dot; a line behind the 256th\n\
\x20\x20cure: a stage's name, a directive, its words; at most 256 lines\n\
schedule 2\n\
\x20\x20cause: a first word that names no stage and no input\n\
\x20\x20cure: `f.0` is f's first update\n\
schedule 3\n\
\x20\x20cause: a loop that the stage hasn't, or a marked one in `split` or under a second mark\n\
\x20\x20cure: split first, mark last\n\
schedule 4\n\
\x20\x20cause: a new loop's name that the stage has, or that stands twice in the line; a second compute line\n\
\x20\x20cure: another name\n\
schedule 5\n\
\x20\x20cause: a factor outside 1..64; a sixth loop in the stage\n\
\x20\x20cure: fewer splits\n\
schedule 6\n\
\x20\x20cause: `reorder` names a loop twice, or changes the order of loops over reduction variables\n\
\x20\x20cure: leave those in their order\n\
schedule 7\n\
\x20\x20cause: a parallel loop isn't the outermost of its stage, or its Func isn't at root\n\
\x20\x20cure: `reorder` it outermost; `compute_root` for its Func\n\
schedule 8\n\
\x20\x20cause: a parallel loop is over a reduction variable\n\
\x20\x20cure: an argument in place can be parallel\n\
schedule 9\n\
\x20\x20cause: `shift` on a loop of an update\n\
\x20\x20cure: `guard`\n\
schedule 10\n\
\x20\x20cause: a parallel loop comes from either loop of a shift split\n\
\x20\x20cure: `guard`: shifted iterations write points twice\n\
schedule 11\n\
\x20\x20cause: a vectorized loop isn't the innermost, isn't the vi of a split by 4, 8 or 16, \
or is over a reduction variable\n\
\x20\x20cure: `reorder` it innermost; split by 4, 8 or 16 first; mark a loop over an argument\n\
schedule 12\n\
\x20\x20cause: an unrolled loop isn't the vi of a split\n\
\x20\x20cure: split it by the count first\n\
schedule 13\n\
\x20\x20cause: `compute_at g v`: g or v can't have it, or a use lies outside\n\
\x20\x20cure: a loop that g has after its splits; one further out, around all uses; or `compute_root`\n\
schedule 14\n\
\x20\x20cause: a Func with updates, or with a line about its loops, is inlined (line 0)\n\
\x20\x20cure: `f compute_root`, or `f compute_at g v`\n\
schedule 15\n\
\x20\x20cause: a directive for an input, or a compute line for the output\n\
\x20\x20cure: drop it\n\
lower\n\
\x20\x20the schedule makes too much of the algorithm\n\
lower 1\n\
\x20\x20cause: the stages weigh more than 4,096 together\n\
\x20\x20cure: smaller unroll factors; `compute_root` for a Func that is inlined often\n\
bounds\n\
\x20\x20boxes or data break a rule\n\
bounds 2\n\
\x20\x20cause: a box leaves -2^24 to 2^24: an index is unbounded, or an input is read at one\n\
\x20\x20cure: `clamp` indexes that hang on pixels\n\
bounds 1\n\
\x20\x20cause: an input may be read outside its extents\n\
\x20\x20cure: `clamp` the index, or a larger input: see what widens a box in SCHEDULES.md\n\
bounds 3\n\
\x20\x20cause: a shift split of a loop whose extent is below the factor\n\
\x20\x20cure: `guard`, or a smaller factor\n\
bounds 4\n\
\x20\x20cause: a box of more than 1,048,576 points, or more than 33,554,432 bytes of data\n\
\x20\x20cure: a smaller output, or `compute_at` in place of `compute_root`\n\
code\n\
\x20\x20an expression can't be held in registers\n\
code 1\n\
\x20\x20cause: an expression needs more than 64 registers at once\n\
\x20\x20cure: compute a part of it as a Func of its own, at root or at a loop\n\
picture\n\
\x20\x20a picture's text is faulty\n\
picture 1\n\
\x20\x20cause: the text isn't written as pictures are\n\
\x20\x20cure: one space, no leading zeros, LF at the end of each line\n\
picture 2\n\
\x20\x20cause: W or H outside 1 to 65,536, or more than 1,048,576 pixels\n\
\x20\x20cure: a smaller picture\n\
picture 3\n\
\x20\x20cause: a pixel outside of signed 32 bits\n\
\x20\x20cure: scale the picture\n\
input\n\
\x20\x20the pictures aren't the inputs asked for\n\
input 1\n\
\x20\x20cause: more or fewer pictures than the algorithm has inputs\n\
\x20\x20cure: one for each `input` line, in their order\n\
input 2\n\
\x20\x20cause: a picture of another size than its input\n\
\x20\x20cure: `picture W H` and `input name W H` agree\n\
input 3\n\
\x20\x20cause: a pixel outside 0 to 255 where the input is `u8`\n\
\x20\x20cure: drop `u8`, or scale the picture\n\
";
