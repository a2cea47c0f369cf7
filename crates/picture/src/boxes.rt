//! Where the pixels of each Func are wanted. Nothing is proved of it but that it ends: whatever it
//! answers, the evaluator's pixels are right, and a good answer makes them fast.

ghost use Rattle.std.specs.Prelude.{◌<◌};

use crate::lines::Along;
use crate::pictures::Picture;
use crate::ranges::{
    ALL, RangeSetting, SignedRange, Values, ZERO, pure_setting, signed, update_setting,
};
use halide_pipeline::{Expr, Func, Output, Reduction, Source, Update};
use std::alloc::{AllocError, Global};

/// A table has at most this many pixels, and an update is run beforehand on at most this many slices.
const MOST_POINTS: u64 = 2_097_152;

/// The boxes in which an update is run beforehand on all slices have at most this many pixels.
const MOST_BOX_POINTS: u64 = 16_777_216;

/// A Func has at most this many updates; none past these is run beforehand.
const MOST_UPDATES: usize = 4;

/// Columns and rows at which pixels are wanted, and how many reads there are at most.
#[derive(Clone, Copy)]
struct WantedArea {
    columns: SignedRange,
    rows: SignedRange,
    reads: u64,
}

impl WantedArea {
    /// How many pixels there are.
    fn points(self) -> u64 {
        self.columns.count().saturating_mul(self.rows.count())
    }

    /// The least area with both.
    fn hull(self, other: WantedArea) -> WantedArea {
        WantedArea {
            columns: self.columns.hull(other.columns),
            rows: self.rows.hull(other.rows),
            reads: self.reads.saturating_add(other.reads),
        }
    }

    /// On how many slices an update is wanted: one for each value of the arguments in place.
    fn slices(self, update: &Update) -> u64 {
        let columns = if update.is_first_in_place() {
            self.columns.count()
        } else {
            1
        };
        let rows = if update.is_second_in_place() {
            self.rows.count()
        } else {
            1
        };
        columns.saturating_mul(rows)
    }
}

/// Where a Func is wanted, if it is: after all its updates, and after each of them, where the later
/// ones read it too.
#[derive(Clone, Copy)]
pub(crate) struct WantedPoints {
    last: Option<WantedArea>,
    stages: [WantedStage; MOST_UPDATES],
}

/// Where a Func is wanted after an update, and where too when the update's own reads of it are counted.
#[derive(Clone, Copy)]
struct WantedStage {
    behind: Option<WantedArea>,
    whole: Option<WantedArea>,
}

/// Where nothing is wanted.
const NOWHERE: WantedStage = WantedStage {
    behind: None,
    whole: None,
};

impl WantedPoints {
    /// Whether the Func is wanted anywhere.
    pub fn is_wanted(&self) -> bool {
        self.last.is_some()
    }

    /// Where it is wanted after an update.
    fn behind(&self, updates: usize) -> Option<WantedArea> {
        match self.stages.get(updates) {
            None => None,
            Some(stage) => stage.behind,
        }
    }

    /// The same and where the update reads it.
    fn whole(&self, updates: usize) -> Option<WantedArea> {
        match self.stages.get(updates) {
            None => None,
            Some(stage) => stage.whole,
        }
    }
}

/// Slices on which an update is run beforehand: this many, from the column and the row on.
#[derive(Clone, Copy)]
pub(crate) struct Slices {
    pub left: u32,
    pub top: u32,
    pub count: u32,
}

/// Where a table is: columns `left` on, rows `top` on.
#[derive(Clone, Copy)]
pub(crate) struct TableBounds {
    pub left: u32,
    pub top: u32,
    pub width: u32,
    pub height: u32,
}

/// Asks for pixels of a source in these columns and rows, so often, where it is a Func.
fn ask(
    wanted: &mut Vec<WantedPoints>,
    source: Source,
    columns: SignedRange,
    rows: SignedRange,
    reads: u64,
) {
    let area = WantedArea {
        columns,
        rows,
        reads,
    };
    if let Source::Func(place) = source
        && let Some(own) = wanted.get_mut(place)
    {
        own.last = match own.last {
            None => Some(area),
            Some(before) => Some(before.hull(area)),
        };
    }
}

/// What an expression ranges over; the pixels that it reads are asked for.
fn range_of(expr: &Expr, setting: &RangeSetting, wanted: &mut Vec<WantedPoints>) -> SignedRange {
    match expr {
        Expr::Number(number) => {
            let number = signed(*number);
            SignedRange::or_all(number, number)
        }
        Expr::Variable(variable) => setting.range(*variable),
        Expr::Binary(operation, a, b) => {
            let a = range_of(a.get(), setting, wanted);
            let b = range_of(b.get(), setting, wanted);
            a.apply(*operation, b)
        }
        Expr::Divide(a, divisor) => {
            let a = range_of(a.get(), setting, wanted);
            let divisor = i64::from(*divisor).max(1);
            SignedRange::or_all(a.low.div_euclid(divisor), a.high.div_euclid(divisor))
        }
        Expr::Remainder(a, divisor) => {
            range_of(a.get(), setting, wanted);
            SignedRange::or_all(0, i64::from(*divisor).max(1).saturating_sub(1))
        }
        Expr::Select(condition, a, b) => {
            range_of(condition.get(), setting, wanted);
            let a = range_of(a.get(), setting, wanted);
            let b = range_of(b.get(), setting, wanted);
            a.hull(b)
        }
        Expr::Call1(source, x) => {
            let x = range_of(x.get(), setting, wanted);
            ask(wanted, *source, x, ZERO, setting.times);
            setting.values.range(*source)
        }
        Expr::Call2(source, x, y) => {
            let x = range_of(x.get(), setting, wanted);
            let y = range_of(y.get(), setting, wanted);
            ask(wanted, *source, x, y, setting.times);
            setting.values.range(*source)
        }
    }
}

/// How many points an update's reduction box has.
pub(crate) fn box_points(update: &Update) -> u64 {
    let second = update
        .second
        .as_ref()
        .map_or(1, |second: &Reduction| second.extent);
    u64::from(update.first.extent).saturating_mul(u64::from(second))
}

/// Asks for what an update reads, its own Func's pixels too, where so much is wanted after it.
fn ask_update(update: &Update, area: WantedArea, values: Values, wanted: &mut Vec<WantedPoints>) {
    let runs = area.slices(update).min(area.reads);
    let times = runs.saturating_mul(box_points(update));
    let setting = update_setting(update, area.columns, area.rows, times, values);
    range_of(&update.left_x, &setting, wanted);
    if let Some(left_y) = &update.left_y {
        range_of(left_y, &setting, wanted);
    }
    range_of(&update.right, &setting, wanted);
}

/// Where the Func at a place is wanted so far.
fn area_of(wanted: &Vec<WantedPoints>, func_index: usize) -> Option<WantedArea> {
    match wanted.get(func_index) {
        None => None,
        Some(own) => own.last,
    }
}

/// Asks for what the Func at a place reads for its own wanted pixels: the last update first, since it
/// reads what is after those before it.
fn ask_func(func: &Func, func_index: usize, values: Values, wanted: &mut Vec<WantedPoints>) {
    let last = area_of(wanted, func_index);
    let mut stages = [NOWHERE; MOST_UPDATES];
    for (updates, update) in func.updates.as_slice().iter().enumerate().rev() {
        let behind = area_of(wanted, func_index);
        if let Some(area) = behind {
            ask_update(update, area, values, wanted);
        }
        let whole = area_of(wanted, func_index);
        if let Some(stage) = stages.get_mut(updates) {
            *stage = WantedStage { behind, whole };
        }
    }
    if let Some(area) = area_of(wanted, func_index) {
        let times = area.points().min(area.reads);
        let setting = pure_setting(area.columns, area.rows, times, values);
        range_of(&func.pure, &setting, wanted);
    }
    if let Some(own) = wanted.get_mut(func_index) {
        *own = WantedPoints { last, stages };
    }
}

/// No slices.
pub(crate) const NO_SLICES: Slices = Slices {
    left: 0,
    top: 0,
    count: 0,
};

/// No bounds.
pub(crate) const NO_BOUNDS: TableBounds = TableBounds {
    left: 0,
    top: 0,
    width: 1,
    height: 0,
};

impl WantedArea {
    /// The area's bounds; none where it has more pixels than these, or more than are read.
    fn bounds(self, most: u64) -> TableBounds
        ensures { 0 < result.width }
    {
        let (width, height) = (self.columns.count(), self.rows.count());
        if width == 0 || width > most || height > most || most > MOST_BOX_POINTS {
            return NO_BOUNDS;
        }
        if self.points() > most || self.points() > self.reads {
            return NO_BOUNDS;
        }
        TableBounds {
            left: self.columns.corner(),
            top: self.rows.corner(),
            width: width as u32,
            height: height as u32,
        }
    }
}

/// The bounds of a table of the wanted pixels; none are in it where there would be too many, or more
/// than are read.
pub(crate) fn bounds_of(wanted: WantedPoints) -> TableBounds
    ensures { 0 < result.width }
{
    match wanted.last {
        None => NO_BOUNDS,
        Some(area) => area.bounds(MOST_POINTS),
    }
}

/// Whether an update is made for each pixel on its own: both arguments are in place, or the only one and no update
/// comes after it, which could read what it comes to at other pixels.
fn is_each_pixel(func: &Func, updates: usize, update: &Update) -> bool {
    let is_last = updates.saturating_add(1) == func.updates.len();
    update.is_first_in_place()
        && (update.is_second_in_place() || update.left_y.is_none() && is_last)
}

/// The slices on which an update is run beforehand, all that are wanted. There are none where runs as
/// the need comes are fewer, and where it is made for each pixel: the table has each once.
pub(crate) fn slices_of(
    wanted: WantedPoints,
    func: &Func,
    updates: usize,
    update: &Update,
) -> Slices {
    let Some(area) = wanted.behind(updates) else {
        return NO_SLICES;
    };
    let count = area.slices(update);
    if is_each_pixel(func, updates, update) || count > area.reads || count > MOST_POINTS {
        return NO_SLICES;
    }
    Slices {
        left: area.columns.corner(),
        top: area.rows.corner(),
        count: count as u32,
    }
}

/// The box in which an update is run beforehand on all slices together, where those hold for one argument's values;
/// none where there would be too many pixels, or more than are read.
pub(crate) fn box_of(
    wanted: WantedPoints,
    func: &Func,
    updates: usize,
    update: &Update,
) -> TableBounds {
    let Some(area) = wanted.whole(updates) else {
        return NO_BOUNDS;
    };
    let is_one = update.is_first_in_place() != update.is_second_in_place();
    if !is_one || is_each_pixel(func, updates, update) || area.slices(update) > area.reads {
        return NO_BOUNDS;
    }
    area.bounds(MOST_BOX_POINTS)
}

/// This many columns of a box make one part of it, if its columns are slices; else this many rows.
const PART_COLUMNS: u32 = 4096;

const PART_ROWS: u32 = 256;

impl TableBounds {
    /// How many parts there are.
    pub fn parts(self, along: Along) -> u32 {
        let (length, part) = match along {
            Along::Rows => (self.height, PART_ROWS),
            _ => (self.width, PART_COLUMNS),
        };
        length.div_ceil(part)
    }

    /// The part with this number.
    pub fn part(self, along: Along, number: u32) -> TableBounds {
        match along {
            Along::Rows => {
                let from = number.saturating_mul(PART_ROWS);
                TableBounds {
                    top: self.top.wrapping_add(from),
                    height: self.height.saturating_sub(from).min(PART_ROWS),
                    ..self
                }
            }
            _ => {
                let from = number.saturating_mul(PART_COLUMNS);
                TableBounds {
                    left: self.left.wrapping_add(from),
                    width: self.width.saturating_sub(from).min(PART_COLUMNS),
                    ..self
                }
            }
        }
    }
}

/// What the pixels of a picture range over, with the 0 around it.
fn picture_range(picture: &Picture) -> SignedRange {
    let mut range = ZERO;
    for pixel in picture.pixels() {
        let number = signed(*pixel);
        range = range.hull(SignedRange::or_all(number, number));
    }
    range
}

/// What the pixels of a Func range over, from those of the inputs and Funcs before it.
fn func_range(func: &Func, values: Values, nowhere: &mut Vec<WantedPoints>) -> SignedRange {
    let mut range = range_of(&func.pure, &pure_setting(ALL, ALL, 0, values), nowhere);
    for update in func.updates.as_slice() {
        let setting = update_setting(update, ALL, ALL, 0, values);
        range = range.hull(range_of(&update.right, &setting, nowhere));
    }
    range
}

/// What the pixels of each Func range over.
fn func_ranges(
    alloc: Global,
    funcs: &[Func],
    inputs: &[SignedRange],
) -> Result<Vec<SignedRange>, AllocError> {
    let mut ranges = Vec::new(alloc);
    for func in funcs {
        let values = Values {
            inputs,
            funcs: &ranges,
        };
        let range = func_range(func, values, &mut Vec::new(alloc));
        ranges.push(range)?;
    }
    Ok(ranges)
}

/// Where each Func's pixels are wanted for the output, in the Funcs' order.
pub(crate) fn find(
    alloc: Global,
    funcs: &[Func],
    pictures: &[Picture],
    output: Output,
) -> Result<Vec<WantedPoints>, AllocError> {
    let mut inputs = Vec::new(alloc);
    for picture in pictures {
        inputs.push(picture_range(picture))?;
    }
    let ranges = func_ranges(alloc, funcs, &inputs)?;
    let values = Values {
        inputs: &inputs,
        funcs: &ranges,
    };
    let nowhere = WantedPoints {
        last: None,
        stages: [NOWHERE; MOST_UPDATES],
    };
    let mut wanted = vec![in alloc; nowhere; funcs.len()]?;
    let columns = SignedRange::or_all(0, i64::from(output.width).saturating_sub(1));
    let rows = SignedRange::or_all(0, i64::from(output.height).saturating_sub(1));
    let reads = u64::from(output.width).saturating_mul(u64::from(output.height));
    ask(&mut wanted, Source::Func(output.func), columns, rows, reads);
    for (place, func) in funcs.iter().enumerate().rev() {
        ask_func(func, place, values, &mut wanted);
    }
    Ok(wanted)
}
