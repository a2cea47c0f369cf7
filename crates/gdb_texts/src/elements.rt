//! Parts of elements of XML.

ghost use Rattle.std.specs.Prelude.{◌≡◌, ◌++◌, OnOk};
ghost use Rattle.std.specs.Fmt.{decimal};
ghost use Rattle.std.specs.String.{string_bytes};
ghost use Rattle.gdb_texts.specs.Texts as spec;

use std::alloc::AllocError;

/// ` NAME="VALUE"`
#[tactic(auto, unfolding(crate::specs::Texts::attribute))]
pub fn push_attribute(text: &mut String, name: &str, value: &str) -> Result<(), AllocError>
    ensures { OnOk result (string_bytes text.new ≡ string_bytes text.old ++ spec.attribute name.now value.now) }
{
    text.push_str(" ")?;
    text.push_str(name)?;
    text.push_str("=\"")?;
    text.push_str(value)?;
    text.push_str("\"")?;
    Ok(())
}

/// ` NAME="NUMBER"`
#[tactic(auto, unfolding(crate::specs::Texts::attribute))]
pub fn push_number(text: &mut String, name: &str, number: u64) -> Result<(), AllocError>
    ensures { OnOk result (string_bytes text.new ≡ string_bytes text.old ++ spec.attribute name.now (decimal number)) }
{
    text.push_str(" ")?;
    text.push_str(name)?;
    text.push_str("=\"")?;
    write!(text, "{number}")?;
    text.push_str("\"")?;
    Ok(())
}

/// `<NAME>`
#[tactic(auto, unfolding(crate::specs::Texts::tag))]
pub fn push_tag(text: &mut String, name: &str) -> Result<(), AllocError>
    ensures { OnOk result (string_bytes text.new ≡ string_bytes text.old ++ spec.tag name.now) }
{
    text.push_str("<")?;
    text.push_str(name)?;
    text.push_str(">\n")?;
    Ok(())
}

/// The end of an element that has none inside.
#[tactic(auto, unfolding(crate::specs::Texts::end))]
pub fn push_end(text: &mut String) -> Result<(), AllocError>
    ensures { OnOk result (string_bytes text.new ≡ string_bytes text.old ++ spec.end) }
{
    text.push_str("/>\n")?;
    Ok(())
}
