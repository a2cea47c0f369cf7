//! Compiled programs and their images.

ghost use Rattle.std.specs.Prelude.{◌≡◌, ◌*◌, ◌^◌, ◌<◌, ◌≤◌, IfErr, IfOk, None, Ok, Some, length, slice_get};
ghost use Rattle.std.specs.List.{All};
ghost use Rattle.std.specs.Option.{option_copied};
ghost use Rattle.bounds.specs.Extents.{box_in};
ghost use Rattle.bounds.specs.Verdict.{inferred};
ghost use Rattle.halide_pipeline.specs.WellFormed.{IsWellFormed};
ghost use Rattle.loader.specs.Image as images;
ghost use Rattle.loader.specs.Spelling.{spelled};
ghost use Rattle.memory.specs.Access.{text_start};
ghost use Rattle.picture.specs.Evaluated.{judged};
ghost use Rattle.schedule.specs.Accepted.{IsAccepted};
ghost use Rattle.hrv_compiler.specs.Assigned.{IsAssigned};
ghost use Rattle.hrv_compiler.specs.Compiled.{output_in, output_of};
ghost use Rattle.hrv_compiler.specs.Correct.{Correct};
ghost use Rattle.work_sharing.specs.Turns.{control_words};
ghost use Rattle.hrv_compiler.specs.Map.{AreAllRight, ArePhases};
ghost use Rattle.hrv_map.specs.Maps.{map_text};
ghost use Rattle.hrv_compiler.specs.Images.{ArePictures, IsRefusedInput, image_of};
ghost use Rattle.hrv_compiler.specs.Outputs.{Holds};
ghost use Rattle.hrv_compiler.specs.Runs.{WritesWholeRuns};
ghost use Rattle.bounds.specs.Stages.{stages};

use crate::data::{data_front, image_data};
use bounds::boxes::extents_of;
use bounds::{Boxes, Plan, SourceBox};
use bounds_ranges::ranges::ORIGIN;
use halide_pipeline::Pipeline;
use loader::{Format, Image, ImageParts, Output, store_parts};
use lowering::consuming::box_at;
use memory::{DATA_START, TEXT_START};
use picture::{EvalError, Picture, judge};
use schedule::Schedule;
use std::alloc::{AllocError, Global};
use std::marker::Model;
use vector_codegen_laws::CodeStage;

/// A pipeline under a schedule that was accepted for it, with the words of its phases, where each ends, and the stages
/// inside of phases. Contracts see a `CompiledContents` that is an `IsCompiled` (`specs/Compiled.antt`); what its words
/// do, [`Compiled::image`] promises of the images that it makes.
pub struct Compiled {
    pub(crate) pipeline: Pipeline,
    pub(crate) schedule: Schedule,
    pub(crate) boxes: Boxes,
    pub(crate) words: Vec<u32>,
    pub(crate) ends: Vec<u32>,
    pub(crate) stages: Vec<CodeStage>,
}

impl Model for Compiled {
    ghost use Rattle.std.specs.Coded.{codes};
    ghost use Rattle.halide_pipeline.specs.contracts.expressions.Expr as e;
    ghost use Rattle.hrv_compiler.specs.Compiled.{CompiledContents};
    ghost use Rattle.hrv_compiler.specs.inner.Held.{IsHeld};

    ghost Value = { CompiledContents };

    ghost coded = { Prim.hlevel (codes, e.the_row.coded) };

    ghost view = { λ c. record {
      pipeline = c.pipeline;
      schedule = c.schedule;
      boxes = c.boxes;
      words = c.words.items;
      ends = c.ends.items;
      stages = c.stages.items;
    } };

    ghost invariant = { λ c. IsHeld (record {
      pipeline = c.pipeline;
      schedule = c.schedule;
      boxes = c.boxes;
      words = c.words.items;
      ends = c.ends.items;
      stages = c.stages.items;
    }) };
}

impl Drop for Compiled {
    fn drop(self) {
        let Compiled {
            pipeline,
            schedule,
            boxes,
            words: _,
            ends: _,
            stages: _,
        } = self;
        drop(pipeline);
        drop(schedule);
        drop(boxes);
    }
}

/// The output's picture in a box that begins at an address.
fn output_in(at: u64, source_box: &SourceBox, width: u32, height: u32) -> Output
    requires { Holds at source_box.now width height }
    ensures { Some result ≡ output_in at (Some source_box.now) width height }
{
    let row = u64::from(extents_of(source_box).first_argument);
    let first = (ORIGIN - source_box.y.low) * row + (ORIGIN - source_box.x.low);
    Output {
        address: (at + 4 * first) as u32,
        width,
        height,
        stride: (4 * row) as u32,
    }
}

/// A law: the numbers of an image's parts are such as their types hold.
fn numbers_fit(words: &[u32], front: &[u8], output: Output)
    ensures words { All (λ word. word < 2 ^ 32) words.now }
    ensures front { All (λ byte. byte < 256) front.now }
    ensures output { images.IsInWords output }
{}

impl Compiled {
    /// The image that computes the output of these input pictures, on 1 to 8 harts.
    ///
    /// Text and entry are the same for all pictures. The data are zeros, but for the pixels of the inputs
    /// (`specs/Images.antt`).
    ///
    /// On every list that says which hart makes the next turn, no hart traps, none race but on the words of
    /// [`Compiled::control`], and wherever all have finished the output is the algorithm's (`specs/Correct.antt`).
    /// From everywhere some turns make all finish, and for each number of harts there is a count of rounds, in each of
    /// which every hart has a turn, such that after any turns this many rounds make all finish. No gate word falls,
    /// each hart writes each one once at most, and a hart that is given turns alone finishes or waits at a gate. Every
    /// assignment of iterations to harts is reached by some list (`specs/Assigned.antt`); the stages that these are of
    /// are as many as phases. Where the innermost loop of a Func at root without updates is vectorized, a turn that
    /// writes a point of the Func writes one run of that loop, and nothing else (`specs/Runs.antt`).
    ///
    /// # Errors
    ///
    /// There aren't as many pictures as inputs; one has another size than its input; one of an input of bytes has a
    /// pixel outside 0 to 255. Memory ran out.
    pub fn image(&self, alloc: Global, pictures: &[Picture]) -> Result<Image, EvalError>
        ensures judged { IfOk result (λ image. judged self.now.pipeline.inputs pictures.now ≡ None) }
        ensures pictures { IfOk result (λ image. ArePictures pictures.now) }
        ensures is { IfOk result (λ image. image ≡ image_of self.now pictures.now) }
        ensures rules { IfOk result images.IsImage }
        ensures correct { IfOk result (λ image. Correct self.now.pipeline pictures.now self.now.boxes.layout.phases
            image) }
        ensures assigned { IfOk result (λ image. IsAssigned self.now.pipeline self.now.schedule self.now.boxes
            pictures.now image) }
        ensures stages { IfOk result (λ image. length (stages self.now.pipeline self.now.schedule self.now.boxes)
            ≡ self.now.boxes.layout.phases) }
        ensures runs { IfOk result (λ image. WritesWholeRuns self.now image) }
        ensures err { IfErr result (IsRefusedInput (judged self.now.pipeline.inputs pictures.now)) }
    {
        if let Some(error) = judge(self.pipeline.inputs(), pictures) {
            return Err(error);
        }
        let data = image_data(alloc, &self.boxes.layout, self.pipeline.inputs(), pictures)?;
        let mut words = Vec::new(alloc);
        words.extend_from_slice(self.words.as_slice())?;
        let output = self.output();
        Ok(Image::new(TEXT_START, words, data, Some(output)).unwrap())
    }

    /// The bytes of the image that computes the output of these input pictures, in the second format: those that
    /// [`loader::store`] appends for [`Compiled::image`], of which the same holds. The zeros of the data, which the
    /// format leaves out, take no memory here, and the bytes can take that of the pictures.
    ///
    /// # Errors
    ///
    /// Those of [`Compiled::image`].
    pub fn image_bytes(&self, alloc: Global, pictures: Vec<Picture>) -> Result<Vec<u8>, EvalError>
        ensures judged { IfOk result (λ bytes. judged self.now.pipeline.inputs pictures.items ≡ None) }
        ensures pictures { IfOk result (λ bytes. ArePictures pictures.items) }
        ensures is { IfOk result (λ bytes. bytes.items ≡ spelled Format.Hrv2 (image_of self.now pictures.items)) }
        ensures rules { IfOk result (λ bytes. images.IsImage (image_of self.now pictures.items)) }
        ensures correct { IfOk result (λ bytes. Correct self.now.pipeline pictures.items self.now.boxes.layout.phases
            (image_of self.now pictures.items)) }
        ensures assigned { IfOk result (λ bytes. IsAssigned self.now.pipeline self.now.schedule self.now.boxes
            pictures.items (image_of self.now pictures.items)) }
        ensures stages { IfOk result (λ bytes. length (stages self.now.pipeline self.now.schedule self.now.boxes)
            ≡ self.now.boxes.layout.phases) }
        ensures runs { IfOk result (λ bytes. WritesWholeRuns self.now (image_of self.now pictures.items)) }
        ensures err { IfErr result (IsRefusedInput (judged self.now.pipeline.inputs pictures.items)) }
    {
        if let Some(error) = judge(self.pipeline.inputs(), &pictures) {
            return Err(error);
        }
        let front = data_front(alloc, &self.boxes.layout, self.pipeline.inputs(), &pictures)?;
        drop(pictures);
        let words = self.words.as_slice();
        let output = self.output();
        numbers_fit(words, front.as_slice(), output);
        let parts = ImageParts {
            entry: TEXT_START,
            words,
            front: front.as_slice(),
            size: self.size(),
            output: Some(output),
        };
        let mut bytes = Vec::new(alloc);
        store_parts(&parts, &mut bytes)?;
        Ok(bytes)
    }

    /// Where the output's picture lies in the data.
    fn output(&self) -> Output
        ensures { Some result ≡ output_of self.now.pipeline self.now.boxes }
    {
        let output = self.pipeline.output();
        let at = self.boxes.layout.roots.get(output.func).unwrap();
        let own = box_at(self.boxes.funcs.as_slice(), output.func).unwrap();
        output_in(*at, own, output.width, output.height)
    }

    /// How many bytes data has.
    fn size(&self) -> u32
        ensures { result ≡ self.now.boxes.layout.size }
    {
        self.boxes.layout.size as u32
    }

    /// How many phases there are.
    fn phases(&self) -> u32
        ensures is { result ≡ self.now.boxes.layout.phases }
        ensures few { 8 * result ≤ 33554432 }
    {
        self.boxes.layout.phases as u32
    }

    /// The words of data by which harts share their work: of each phase, in order, the one to draw tasks and the one
    /// to wait at.
    ///
    /// # Errors
    ///
    /// Memory ran out.
    pub fn control(&self, alloc: Global) -> Result<Vec<u32>, AllocError>
        ensures { IfOk result (λ words. words.items ≡ control_words self.now.boxes.layout.phases) }
    {
        let mut words = Vec::new(alloc);
        for phase in 0..self.phases() {
            let ticket = DATA_START + 8 * phase;
            words.push(ticket)?;
            words.push(ticket + 4)?;
        }
        Ok(words)
    }

    /// Where the data and the code of every image lie, as a text: a fact a line, with the names that the algorithm's
    /// text gives (`specs/Map.antt`, and `hrv_map`). All images of these words do what [`Compiled::image`] promises.
    ///
    /// # Errors
    ///
    /// Memory ran out.
    pub fn map(&self, alloc: Global, algorithm: &str) -> Result<Vec<u8>, AllocError>
        ensures is { IfOk result (λ text. text.items ≡ map_text algorithm.now self.now.pipeline self.now.schedule
            self.now.boxes self.now.ends self.now.stages) }
        ensures phases { IfOk result (λ text. ArePhases self.now) }
        ensures images { IfOk result (λ text. AreAllRight self.now) }
    {
        let text = hrv_map::map_text(
            alloc,
            algorithm,
            &Plan::new(&self.pipeline, &self.schedule, &self.boxes),
            self.ends.as_slice(),
            self.stages.as_slice(),
        )?;
        Ok(text)
    }
}
