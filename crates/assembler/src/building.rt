//! An object line by line.

ghost use Rattle.std.specs.Prelude.{◌≡◌, ◌<◌, ◌+◌, ◌^◌, ℕ, OnOk, Ok, Err, IfSome, IfNone};
ghost use Rattle.assembler.specs.Judging.{Given};
ghost use Rattle.assembler.specs.Object.{Assembled, before_first, with_given, worded, IsObject};
ghost use Rattle.assembler.specs.Products.{Makes};
ghost use Rattle.assembler.specs.Building.{IsBuilt};
ghost use Rattle.assembler.specs.declared.faults.AsmFault.TheVariants.{Syntax};

use crate::locations::LineLocation;
use crate::objects::Object;
use crate::products::LineProduct;
use crate::surveys::Here;
use loader::Output;
use memory::TEXT_START;
use std::alloc::{AllocError, Global};

/// What the lines so far gave, and the next line.
#[derive(Drop)]
pub struct Building {
    pub here: Here,
    words: Vec<u32>,
    bytes: Vec<u8>,
    entry: Option<u32>,
    output: Option<Output>,
}

impl Building {
    /// Before the first line.
    pub fn new(alloc: Global) -> Building
        ensures { IsBuilt result before_first }
    {
        Building {
            here: Here {
                line: 1,
                place: LineLocation::start(),
            },
            words: Vec::new(alloc),
            bytes: Vec::new(alloc),
            entry: None,
            output: None,
        }
    }

    /// Adds what a line gives.
    fn add(&mut self, product: LineProduct) -> Result<(), AllocError>
        ensures here { self.new.here ≡ self.old.here }
        ensures added { OnOk result ((a : Assembled) (given : Given) → IsBuilt self.old a → Makes product given
            → IsBuilt self.new (record (with_given a a.here.place given) { here = a.here })) }
    {
        match product {
            LineProduct::Nothing => {}
            LineProduct::Word(word) => self.words.push(word)?,
            LineProduct::Words(first, second) => self.words.extend_from_slice(&[first, second])?,
            LineProduct::Number(number) => self.bytes.extend_from_slice(&number.to_le_bytes())?,
            LineProduct::Zeros(count) => {
                let end = self.bytes.len() + count as usize;
                self.bytes.resize(end, 0)?;
            }
            LineProduct::Entry(address) => self.entry = self.entry.or(Some(address)),
            LineProduct::Output(picture) => self.output = self.output.or(Some(picture)),
        }
        Ok(())
    }

    /// Adds what a line gives, and goes on after it.
    pub fn add_line(&mut self, product: LineProduct, behind: LineLocation) -> Result<(), AllocError>
        requires { self.old.here.line + 1 < 2 ^ 64 }
        ensures { OnOk result ((a : Assembled) (given : Given) → IsBuilt self.old a → Makes product given
            → IsBuilt self.new (with_given a behind given)) }
    {
        self.add(product)?;
        self.here = Here {
            line: self.here.line + 1,
            place: behind,
        };
        Ok(())
    }

    /// The object of all lines, or nothing where no line gave a word.
    pub fn finish(self) -> Option<Object>
        ensures some { IfSome result (λ object. (a : Assembled) → IsBuilt self a → (worded a ≡ Ok a)
            × IsObject object a) }
        ensures none { IfNone result ((a : Assembled) → IsBuilt self a → worded a ≡ Err (1, Syntax)) }
    {
        if self.words.is_empty() {
            return None;
        }
        let entry = self.entry.unwrap_or(TEXT_START);
        Some(Object::new(entry, self.words, self.bytes, self.output))
    }
}
