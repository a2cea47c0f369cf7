//! Algorithm texts and picture texts.

use crate::failures::CaseFailure;
use halide_parser::parse;
use picture::Picture;
use std::alloc::Global;
use test_cases::Part;

/// `accepted`, where an algorithm is.
pub fn push_verdict(alloc: Global, parts: &[Part], out: &mut String) -> Result<(), CaseFailure> {
    let [algorithm] = parts else {
        return Err(CaseFailure::Malformed("not one part"));
    };
    let _pipeline = parse(algorithm.named("algorithm")?, alloc)?;
    out.push_str("accepted\n")?;
    Ok(())
}

/// The text of a picture that a text spells.
pub fn push_reading(alloc: Global, parts: &[Part], out: &mut String) -> Result<(), CaseFailure> {
    let [text] = parts else {
        return Err(CaseFailure::Malformed("not one part"));
    };
    let picture = Picture::read(alloc, text.named("picture")?)?;
    push_picture(alloc, &picture, out)
}

/// A picture's text, which is ASCII.
fn push_picture(alloc: Global, picture: &Picture, out: &mut String) -> Result<(), CaseFailure> {
    let mut text = Vec::new(alloc);
    picture.write(&mut text)?;
    push_bytes(&text, out)
}

/// Appends the bytes of a text.
pub fn push_bytes(text: &[u8], out: &mut String) -> Result<(), CaseFailure> {
    match str::from_utf8(text) {
        Ok(text) => out.push_str(text)?,
        Err(_) => return Err(CaseFailure::Malformed("the answer is no text")),
    }
    Ok(())
}
